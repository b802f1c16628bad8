//! What comes next in a session is handled.
ghost use Rattle.std.specs.Prelude.{◌≡◌, true, Ok, IfOk, IfErr};
ghost use Rattle.cd_outside.specs.Counts.{Rose};
ghost use Rattle.cd_rules.specs.Promises.{HavePriorities};
ghost use Rattle.cd_protocol.specs.Closing.{own_number};
ghost use Rattle.cd_protocol.specs.Node.{Node};
ghost use Rattle.cd_effects.specs.Joint.{JointAt};
ghost use Rattle.cd_effects.specs.Stands.{spot, IsFaultOfRecording};
ghost use Rattle.cd_exchange.specs.Arriving.{is_over_for};
ghost use Rattle.cd_exchange.specs.Sessions.{IsAt};
ghost use Rattle.cd_exchange.specs.Crash.{TurnLeaves};
ghost use Rattle.cd_exchange.specs.Turn.{MayBeLost, TookTurn, TurnFailed};
ghost use Rattle.cd_exchange.specs.Open.{IsOpen, StaysOpen, Advanced, HasCause, counted, fault_in};

use crate::arriving::{frame_in, next_frame};
use crate::ending::Ending;
use crate::taking::take_frame;
use crate::{Rules, Session, on_end};
use cd_book::{Book, Texts};
use cd_effects::{Fault, KeyOwners, Registry};
use cd_frames::Reader;
use cd_outside::{Beat, Disk, Files, Lines, Sid};
use cd_protocol::Phase;
use cd_session_rules::own_number;
use cd_types::{Moment, ProcNo};
use std::alloc::Global;

/// Whether the Process of a session isn't live any more.
fn is_over_for<T: Texts>(book: &Book<T>, number: Option<ProcNo>) -> bool
    ensures { result ≡ is_over_for (book.now).entries number }
{
    match number {
        None => false,
        Some(number) => !book.is_live(number),
    }
}

/// What comes next in a session is handled: its next frame, or its end. No byte is taken of a session whose Process isn't live any
/// more, or where a whole frame stands in its reader. The session's phase is lent, and the other sessions are handed in beside it. `Lost`
/// comes only where the Process isn't live any more, where what came is no frame, or where the session ended or failed; `Troubled` only
/// where the count of the files' faults rose. `Err` is `Disk`, `JournalFull` or `NoMemory`.
pub fn take_turn<T: Texts, R: Rules<T>, D: Disk, F: Files, L: Lines>(
    alloc: Global,
    rules: &R,
    registry: &mut Registry<T>,
    others: &[Session],
    phase: &mut Phase,
    reader: &mut Reader,
    owners: &mut KeyOwners,
    sid: Sid,
    now: Moment,
    disk: &mut D,
    files: &mut F,
    lines: &mut L,
    buffer: &mut Vec<u8>,
    beat: &mut Beat,
) -> Result<Ending, Fault>
    requires priorities { HavePriorities T.read }
    requires home { IsOpen D.observable F.observable T.read now registry.old
        (D.state disk.old) (F.state files.old) sid.number (L.last lines.old) beat.old }

    // What is done.
    ensures handled { IfOk result (λ ending. TookTurn F.observable L.observable
        (R.setting rules.now) T.read sid.number now others.now ending (L.counts lines.old)
        (L.counts lines.new) reader.old reader.new
        (spot registry.old.entries (F.state files.old).shelf
        phase.old owners.old (L.traffic lines.old))
        (spot registry.new.entries (F.state files.new).shelf
        phase.new owners.new (L.traffic lines.new))) }
    ensures failed { IfErr result (λ fault. TurnFailed F.observable L.observable
        (R.setting rules.now) T.read sid.number now others.now fault (L.counts lines.old)
        (L.counts lines.new) reader.old reader.new
        (spot registry.old.entries (F.state files.old).shelf
        phase.old owners.old (L.traffic lines.old))
        (spot registry.new.entries (F.state files.new).shelf
        phase.new owners.new (L.traffic lines.new))) }

    ensures unheard { L.observable → is_over_for registry.old.entries (own_number phase.old) ≡ true
        → (L.traffic lines.new).taken ≡ (L.traffic lines.old).taken }

    // What a crash leaves at each moment.
    ensures crash { D.observable → F.observable → (node : Node)
        → IsAt F.observable (R.setting rules.now) T.read sid.number others.now node
        (spot registry.old.entries (F.state files.old).shelf
        phase.old owners.old (L.traffic lines.old))
        → TurnLeaves F.observable L.observable (R.setting rules.now) T.read sid.number now
        others.now reader.old reader.new
        (spot registry.old.entries (F.state files.old).shelf
        phase.old owners.old (L.traffic lines.old))
        node (JointAt (D.state disk.old) (F.state files.old))
        (JointAt (D.state disk.new) (F.state files.new)) beat.old }

    // What stands then.
    ensures home { StaysOpen D.observable F.observable T.read now (fault_in result) registry.new
        (D.state disk.new) (F.state files.new) beat.new }

    // Why it fails.
    ensures fault { IfErr result IsFaultOfRecording }
    ensures cause { HasCause (fault_in result) sid.number
        (counted (D.faults disk.old) (F.faults files.old)
        (L.counts lines.old) (L.last lines.old) beat.old)
        (counted (D.faults disk.new) (F.faults files.new)
        (L.counts lines.new) (L.last lines.new) beat.new) }
    ensures troubled { result ≡ Ok Ending.Troubled
        → Rose (F.faults files.old) (F.faults files.new) }
    ensures lost { result ≡ Ok Ending.Lost → MayBeLost registry.old.entries phase.old reader.new
        sid.number (L.counts lines.old) (L.counts lines.new) }

    ensures advanced { Advanced
        (counted (D.faults disk.old) (F.faults files.old)
        (L.counts lines.old) (L.last lines.old) beat.old)
        (counted (D.faults disk.new) (F.faults files.new)
        (L.counts lines.new) (L.last lines.new) beat.new) }
{
    if is_over_for(registry.book(), own_number(phase)) {
        return match on_end(
            alloc, rules, registry, phase, owners, sid, now, disk, files, lines, beat,
        ) {
            Ok(()) => Ok(Ending::Lost),
            Err(fault) => Err(fault),
        };
    }
    let came = next_frame(reader, lines, sid);
    match frame_in(reader, came) {
        Some(frame) => match take_frame(
            alloc, rules, registry, others, phase, owners, sid, now, disk, files, lines, &frame,
            buffer, beat,
        ) {
            Ok(ending) => Ok(ending),
            Err(fault) => Err(fault),
        },
        None => match on_end(
            alloc, rules, registry, phase, owners, sid, now, disk, files, lines, beat,
        ) {
            Ok(()) => Ok(Ending::Lost),
            Err(fault) => Err(fault),
        },
    }
}
