//! How a frame is handled, also where the files or the session fail in it.
ghost use Rattle.std.specs.Prelude.{◌≡◌, Ok, OnOk, IfOk, IfErr};
ghost use Rattle.cd_outside.specs.Counts.{Rose};
ghost use Rattle.cd_frames.specs.Message.{message_of};
ghost use Rattle.cd_rules.specs.Promises.{HavePriorities};
ghost use Rattle.cd_protocol.specs.Node.{Node};
ghost use Rattle.cd_effects.specs.Joint.{JointAt};
ghost use Rattle.cd_effects.specs.Stands.{spot, IsFaultOfRecording};
ghost use Rattle.cd_exchange.specs.Sessions.{IsAt};
ghost use Rattle.cd_exchange.specs.Crash.{TroubleLeaves, FrameLeaves};
ghost use Rattle.cd_exchange.specs.Handling.{the_case, WasHandled, HasFailed, GaveUp, GivingUpFailed};
ghost use Rattle.cd_exchange.specs.Open.{IsOpen, StaysOpen, Advanced, HasCause, counted, fault_in};

use crate::ending::Ending;
use crate::{Rules, Session, on_end, on_frame, on_trouble};
use cd_book::Texts;
use cd_effects::{Fault, KeyOwners, Registry};
use cd_frames::Frame;
use cd_outside::{Beat, Disk, Files, Lines, Sid};
use cd_protocol::Phase;
use cd_types::Moment;
use std::alloc::Global;

/// The files failed: the partner is told of trouble, and the session is closed; where that can't be told, the session is lost.
fn give_up<T: Texts, R: Rules<T>, D: Disk, F: Files, L: Lines>(
    alloc: Global,
    rules: &R,
    registry: &mut Registry<T>,
    phase: &mut Phase,
    owners: &mut KeyOwners,
    sid: Sid,
    now: Moment,
    disk: &mut D,
    files: &mut F,
    lines: &mut L,
    beat: &mut Beat,
) -> Result<(), Fault>
    requires priorities { HavePriorities T.read }
    requires home { IsOpen D.observable F.observable T.read now registry.old
        (D.state disk.old) (F.state files.old) sid.number (L.last lines.old) beat.old }

    // What is done.
    ensures done { OnOk result (GaveUp F.observable L.observable (R.setting rules.now) T.read
        sid.number now (L.counts lines.old) (L.counts lines.new)
        (spot registry.old.entries (F.state files.old).shelf
        phase.old owners.old (L.traffic lines.old))
        (spot registry.new.entries (F.state files.new).shelf
        phase.new owners.new (L.traffic lines.new))) }
    ensures failed { IfErr result (λ fault. GivingUpFailed F.observable L.observable
        (R.setting rules.now) T.read sid.number now (L.counts lines.old) (L.counts lines.new) fault
        (spot registry.old.entries (F.state files.old).shelf
        phase.old owners.old (L.traffic lines.old))
        (spot registry.new.entries (F.state files.new).shelf
        phase.new owners.new (L.traffic lines.new))) }

    // What a crash leaves at each moment.
    ensures crash { D.observable → F.observable
        → TroubleLeaves F.observable L.observable (R.setting rules.now) T.read sid.number now
        (spot registry.old.entries (F.state files.old).shelf
        phase.old owners.old (L.traffic lines.old))
        (JointAt (D.state disk.old) (F.state files.old))
        (JointAt (D.state disk.new) (F.state files.new)) beat.old }

    // What stands then.
    ensures home { StaysOpen D.observable F.observable T.read now (fault_in result) registry.new
        (D.state disk.new) (F.state files.new) beat.new }

    // Why it fails.
    ensures fault { IfErr result IsFaultOfRecording }
    ensures cause { HasCause (fault_in result) sid.number
        (counted (D.faults disk.old) (F.faults files.old)
        (L.counts lines.old) (L.last lines.old) beat.old)
        (counted (D.faults disk.new) (F.faults files.new)
        (L.counts lines.new) (L.last lines.new) beat.new) }

    ensures advanced { Advanced
        (counted (D.faults disk.old) (F.faults files.old)
        (L.counts lines.old) (L.last lines.old) beat.old)
        (counted (D.faults disk.new) (F.faults files.new)
        (L.counts lines.new) (L.last lines.new) beat.new) }
{
    match on_trouble(
        alloc, rules, registry, phase, owners, sid, now, disk, files, lines, beat,
    ) {
        Ok(()) => Ok(()),
        Err(Fault::Line) => match on_end(
            alloc, rules, registry, phase, owners, sid, now, disk, files, lines, beat,
        ) {
            Ok(()) => Ok(()),
            Err(fault) => Err(fault),
        },
        Err(fault) => Err(fault),
    }
}

/// A frame of a session is handled, by the rules; where the files fail in it, the partner is told of trouble and the session is
/// closed; where the session fails in it, that is its end. The requirements are those of `on_frame`.
///
/// `Err` is `Disk`, `JournalFull` or `NoMemory`. After `Disk` the journal isn't sound; after each `Err` the home is opened again.
pub fn take_frame<T: Texts, R: Rules<T>, D: Disk, F: Files, L: Lines>(
    alloc: Global,
    rules: &R,
    registry: &mut Registry<T>,
    others: &[Session],
    phase: &mut Phase,
    owners: &mut KeyOwners,
    sid: Sid,
    now: Moment,
    disk: &mut D,
    files: &mut F,
    lines: &mut L,
    frame: &Frame<'_>,
    buffer: &mut Vec<u8>,
    beat: &mut Beat,
) -> Result<Ending, Fault>
    requires priorities { HavePriorities T.read }
    requires home { IsOpen D.observable F.observable T.read now registry.old
        (D.state disk.old) (F.state files.old) sid.number (L.last lines.old) beat.old }

    // What is done.
    ensures handled { IfOk result (λ ending. WasHandled
        (the_case F.observable L.observable (R.setting rules.now) T.read sid.number now others.now
        (message_of frame.now)) (L.counts lines.old) (L.counts lines.new) ending
        (spot registry.old.entries (F.state files.old).shelf
        phase.old owners.old (L.traffic lines.old))
        (spot registry.new.entries (F.state files.new).shelf
        phase.new owners.new (L.traffic lines.new))) }
    ensures failed { IfErr result (λ fault. HasFailed
        (the_case F.observable L.observable (R.setting rules.now) T.read sid.number now others.now
        (message_of frame.now)) (L.counts lines.old) (L.counts lines.new) fault
        (spot registry.old.entries (F.state files.old).shelf
        phase.old owners.old (L.traffic lines.old))
        (spot registry.new.entries (F.state files.new).shelf
        phase.new owners.new (L.traffic lines.new))) }

    // What a crash leaves at each moment.
    ensures crash { D.observable → F.observable → (node : Node)
        → IsAt F.observable (R.setting rules.now) T.read sid.number others.now node
        (spot registry.old.entries (F.state files.old).shelf
        phase.old owners.old (L.traffic lines.old))
        → FrameLeaves (the_case F.observable L.observable (R.setting rules.now) T.read sid.number
        now others.now (message_of frame.now))
        (spot registry.old.entries (F.state files.old).shelf
        phase.old owners.old (L.traffic lines.old))
        node (JointAt (D.state disk.old) (F.state files.old))
        (JointAt (D.state disk.new) (F.state files.new)) beat.old }

    // What stands then.
    ensures home { StaysOpen D.observable F.observable T.read now (fault_in result) registry.new
        (D.state disk.new) (F.state files.new) beat.new }

    // Why it ends so.
    ensures fault { IfErr result IsFaultOfRecording }
    ensures cause { HasCause (fault_in result) sid.number
        (counted (D.faults disk.old) (F.faults files.old)
        (L.counts lines.old) (L.last lines.old) beat.old)
        (counted (D.faults disk.new) (F.faults files.new)
        (L.counts lines.new) (L.last lines.new) beat.new) }
    ensures troubled { result ≡ Ok Ending.Troubled
        → Rose (F.faults files.old) (F.faults files.new) }
    ensures lost { result ≡ Ok Ending.Lost → Rose ((L.counts lines.old).faults sid.number)
        ((L.counts lines.new).faults sid.number) }

    ensures advanced { Advanced
        (counted (D.faults disk.old) (F.faults files.old)
        (L.counts lines.old) (L.last lines.old) beat.old)
        (counted (D.faults disk.new) (F.faults files.new)
        (L.counts lines.new) (L.last lines.new) beat.new) }
{
    match on_frame(
        alloc, rules, registry, others, phase, owners, sid, now, disk, files, lines, frame, buffer,
        beat,
    ) {
        Ok(_) => Ok(Ending::Went),
        Err(Fault::Files) => match give_up(
            alloc, rules, registry, phase, owners, sid, now, disk, files, lines, beat,
        ) {
            Ok(()) => Ok(Ending::Troubled),
            Err(fault) => Err(fault),
        },
        Err(Fault::Line) => match on_end(
            alloc, rules, registry, phase, owners, sid, now, disk, files, lines, beat,
        ) {
            Ok(()) => Ok(Ending::Lost),
            Err(fault) => Err(fault),
        },
        Err(fault) => Err(fault),
    }
}
