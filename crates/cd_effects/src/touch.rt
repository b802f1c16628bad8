//! The side of an effect that the files have, and what is asked of them.
ghost use Rattle.std.specs.Prelude.{◌≡◌, ◌≤◌, ◌<◌, OnOk, OnErr, IfOk, length, take, drop};
ghost use Rattle.std.specs.Option.{option_map};
ghost use Rattle.cd_outside.specs.Counts.{Rose};
ghost use Rattle.cd_outside.specs.Files.{files_last_of, FilesLeftAt};
ghost use Rattle.cd_outside.specs.Shelf.{content_of};
ghost use Rattle.cd_outside.specs.Moments.{Moments};
ghost use Rattle.cd_protocol.specs.Seen.{seen_effect};
ghost use Rattle.cd_effects.specs.Calls.{FilesDid, FilesTorn, IsBeforeOrAfter};
ghost use Rattle.cd_effects.specs.Stands.{IsFaultOf};

use crate::Fault;
use cd_outside::{Beat, Failed, Files};
use cd_protocol::Effect;

/// Changes the file that the effect changes. An effect of another kind changes none.
pub(crate) fn touch<F: Files>(
    files: &mut F,
    effect: &Effect<'_>,
    beat: &mut Beat,
) -> Result<(), Failed>
    requires { F.observable → files_last_of (F.state files.old).calls ≤ beat.old }
    ensures done { F.observable → OnOk result (FilesDid (seen_effect effect.now) beat.new (F.state files.old) (F.state files.new)) }
    ensures torn { F.observable → OnErr result (FilesTorn (seen_effect effect.now) beat.old beat.new (F.state files.old) (F.state files.new)) }
    ensures fault { OnErr result (IsFaultOf (seen_effect effect.now) Fault.Files) }
    ensures moments { F.observable → Moments (FilesLeftAt (F.state files.old)) (FilesLeftAt (F.state files.new)) beat.old (IsBeforeOrAfter (seen_effect effect.now) (F.state files.old).shelf) }
    ensures order { F.observable → files_last_of (F.state files.new).calls ≤ beat.new }
    ensures beat { beat.old ≤ beat.new }
    ensures later { F.faults files.old ≤ F.faults files.new }
    ensures cause { OnErr result (Rose (F.faults files.old) (F.faults files.new)) }
{
    match effect {
        Effect::Write(name, at, bytes) => {
            files.write_at(name.as_slice(), *at, *bytes, beat)?;
            Ok(())
        }
        Effect::Cut(name, len) => {
            files.cut(name.as_slice(), *len, beat)?;
            Ok(())
        }
        Effect::Sync(name) => {
            files.sync(name.as_slice(), beat)?;
            Ok(())
        }
        Effect::Remove(name) => {
            files.remove(name.as_slice(), beat)?;
            Ok(())
        }
        Effect::Keep(_) | Effect::Begin(..) | Effect::Go(..) => Ok(()),
    }
}
