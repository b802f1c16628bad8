//! The script that a file holds, and what a drill of it comes to.
ghost use Rattle.std.specs.Prelude.{◌≡◌, ◌≤◌, length, Some, IfOk};
ghost use Rattle.std.specs.Option.{option_map};
ghost use Rattle.cd_outside.specs.Counts.{Rose};
ghost use Rattle.cd_submission.specs.declared.file.Shown.TheVariants as shows;
ghost use Rattle.cd_drill_command.specs.Asked.{IsRead, IsDrilled};

use cd_drill::DrillFault;
use cd_drill_world::rehearse;
use cd_outside::Files;
use cd_submission::Shown;
use cd_types::{Bytes, NoMemory};
use std::alloc::Global;

/// What was read of a script.
#[derive(Debug, Drop)]
pub(crate) enum Script {
    /// There is no such file.
    Missing,
    /// The files failed.
    Failed,
    /// All its bytes.
    Text(Bytes),
}

/// Reads a file: asks its length, and where there is one reads it whole, in one call.
pub(crate) fn read_script<F: Files>(
    alloc: Global,
    files: &mut F,
    name: &[u8],
) -> Result<Script, NoMemory>
    ensures read { F.observable → IfOk result (IsRead ((F.state files.old).shelf.seen name.now)) }
    ensures failed { IfOk result (λ script. script ≡ Script.Failed → Rose (F.faults files.old) (F.faults files.new)) }
    ensures same { F.observable → F.state files.new ≡ F.state files.old }
    ensures later { F.faults files.old ≤ F.faults files.new }
{
    match files.size(name) {
        Ok(Some(len)) => match read(alloc, files, name, len) {
            Ok(script) => Ok(script),
            Err(fault) => Err(fault),
        },
        Ok(None) => Ok(Script::Missing),
        Err(_) => Ok(Script::Failed),
    }
}

// Reads a file of that length.
fn read<F: Files>(alloc: Global, files: &mut F, name: &[u8], len: u64) -> Result<Script, NoMemory>
    requires len { F.observable → option_map length ((F.state files.old).shelf.seen name.now) ≡ Some len }
    ensures read { F.observable → IfOk result (IsRead ((F.state files.old).shelf.seen name.now)) }
    ensures failed { IfOk result (λ script. script ≡ Script.Failed → Rose (F.faults files.old) (F.faults files.new)) }
    ensures same { F.observable → F.state files.new ≡ F.state files.old }
    ensures later { F.faults files.old ≤ F.faults files.new }
{
    let mut text = vec![in alloc; 0; len as usize]?;
    match files.read(name, 0, text.as_mut_slice()) {
        Ok(count) => {
            text.truncate(count);
            Ok(Script::Text(Bytes::new(text)))
        }
        Err(_) => Ok(Script::Failed),
    }
}

/// What a drill of these bytes comes to: its report, or where they are no script.
pub(crate) fn drilled(alloc: Global, script: &[u8]) -> Result<Shown, NoMemory>
    ensures shown { IfOk result (IsDrilled (Unit {0}) (Some script.now)) }
    ensures failed { IfOk result (λ shown. shown ≡ Shown.Failed → ⊥) }
{
    match rehearse(alloc, script) {
        Ok(report) => Ok(Shown::Report(Bytes::new(report))),
        Err(DrillFault::ScriptText(at)) => Ok(Shown::NoScript(at)),
        Err(DrillFault::NoMemory) => Err(NoMemory),
    }
}
