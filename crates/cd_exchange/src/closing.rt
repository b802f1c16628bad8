//! The end of a session.
ghost use Rattle.std.specs.Prelude.{OnOk, IfErr};
ghost use Rattle.cd_outside.specs.Moments.{Moments};
ghost use Rattle.cd_rules.specs.Promises.{HavePriorities};
ghost use Rattle.cd_protocol.specs.Node.{Node};
ghost use Rattle.cd_protocol.specs.Rows.{row_end, row_trouble};
ghost use Rattle.cd_effects.specs.Joint.{JointAt, IsWithin};
ghost use Rattle.cd_effects.specs.Stands.{spot, WereDone, IsFaultOfRecording};
ghost use Rattle.cd_exchange.specs.Going.{IsSo, WereStopped, IsFaultOfTelling};
ghost use Rattle.cd_exchange.specs.Open.{IsOpen, StaysOpen, Advanced, HasCause, counted, fault_in};

use crate::rules_trait::Rules;
use cd_book::Texts;
use cd_effects::{Fault, KeyOwners, Registry, perform};
use cd_outside::{Beat, Disk, Files, Lines, Sid};
use cd_protocol::Phase;
use cd_types::Moment;
use std::alloc::Global;

/// A session ended, or a frame came that is none: does what the rules say. That changes no file and sends nothing, so the only
/// faults are those of recording: the disk, a full journal, want of memory.
pub fn on_end<T: Texts, R: Rules<T>, D: Disk, F: Files, L: Lines>(
    alloc: Global,
    rules: &R,
    registry: &mut Registry<T>,
    phase: &mut Phase,
    owners: &mut KeyOwners,
    sid: Sid,
    now: Moment,
    disk: &mut D,
    files: &mut F,
    lines: &mut L,
    beat: &mut Beat,
) -> Result<(), Fault>
    requires priorities { HavePriorities T.read }
    requires home { IsOpen D.observable F.observable T.read now registry.old
        (D.state disk.old) (F.state files.old) sid.number (L.last lines.old) beat.old }

    // What is done.
    ensures done { OnOk result ((node : Node)
        → IsSo F.observable (R.setting rules.now) T.read sid.number node
        (spot registry.old.entries (F.state files.old).shelf
        phase.old owners.old (L.traffic lines.old))
        → WereDone F.observable L.observable sid.number (row_end node sid.number now)
        (spot registry.old.entries (F.state files.old).shelf
        phase.old owners.old (L.traffic lines.old))
        (spot registry.new.entries (F.state files.new).shelf
        phase.new owners.new (L.traffic lines.new))) }
    ensures stopped { IfErr result (λ fault. (node : Node)
        → IsSo F.observable (R.setting rules.now) T.read sid.number node
        (spot registry.old.entries (F.state files.old).shelf
        phase.old owners.old (L.traffic lines.old))
        → WereStopped F.observable L.observable sid.number (row_end node sid.number now) fault
        (spot registry.old.entries (F.state files.old).shelf
        phase.old owners.old (L.traffic lines.old))
        (spot registry.new.entries (F.state files.new).shelf
        phase.new owners.new (L.traffic lines.new))) }
    ensures moments { D.observable → F.observable → (node : Node)
        → IsSo F.observable (R.setting rules.now) T.read sid.number node
        (spot registry.old.entries (F.state files.old).shelf
        phase.old owners.old (L.traffic lines.old))
        → Moments (JointAt (D.state disk.old) (F.state files.old))
        (JointAt (D.state disk.new) (F.state files.new)) beat.old
        (IsWithin sid.number (row_end node sid.number now) node) }

    // What stands then.
    ensures home { StaysOpen D.observable F.observable T.read now (fault_in result) registry.new
        (D.state disk.new) (F.state files.new) beat.new }

    // Why it fails: recording alone can.
    ensures fault { IfErr result IsFaultOfRecording }
    ensures cause { HasCause (fault_in result) sid.number
        (counted (D.faults disk.old) (F.faults files.old)
        (L.counts lines.old) (L.last lines.old) beat.old)
        (counted (D.faults disk.new) (F.faults files.new)
        (L.counts lines.new) (L.last lines.new) beat.new) }

    ensures advanced { Advanced
        (counted (D.faults disk.old) (F.faults files.old)
        (L.counts lines.old) (L.last lines.old) beat.old)
        (counted (D.faults disk.new) (F.faults files.new)
        (L.counts lines.new) (L.last lines.new) beat.new) }
{
    match rules.close(alloc, registry.book(), now, phase) {
        Ok(effects) => match perform(
            alloc, registry, phase, owners, sid, disk, files, lines, effects, beat,
        ) {
            Ok(()) => Ok(()),
            Err(fault) => Err(fault),
        },
        Err(_) => Err(Fault::NoMemory),
    }
}

/// The files failed in what was done about a frame: the partner is told of trouble with the step that is under way, and the
/// session closes. That changes no file, so no fault is one of the files; `Line` is that of the telling.
pub fn on_trouble<T: Texts, R: Rules<T>, D: Disk, F: Files, L: Lines>(
    alloc: Global,
    rules: &R,
    registry: &mut Registry<T>,
    phase: &mut Phase,
    owners: &mut KeyOwners,
    sid: Sid,
    now: Moment,
    disk: &mut D,
    files: &mut F,
    lines: &mut L,
    beat: &mut Beat,
) -> Result<(), Fault>
    requires priorities { HavePriorities T.read }
    requires home { IsOpen D.observable F.observable T.read now registry.old
        (D.state disk.old) (F.state files.old) sid.number (L.last lines.old) beat.old }

    // What is done.
    ensures done { OnOk result ((node : Node)
        → IsSo F.observable (R.setting rules.now) T.read sid.number node
        (spot registry.old.entries (F.state files.old).shelf
        phase.old owners.old (L.traffic lines.old))
        → WereDone F.observable L.observable sid.number (row_trouble node sid.number now)
        (spot registry.old.entries (F.state files.old).shelf
        phase.old owners.old (L.traffic lines.old))
        (spot registry.new.entries (F.state files.new).shelf
        phase.new owners.new (L.traffic lines.new))) }
    ensures stopped { IfErr result (λ fault. (node : Node)
        → IsSo F.observable (R.setting rules.now) T.read sid.number node
        (spot registry.old.entries (F.state files.old).shelf
        phase.old owners.old (L.traffic lines.old))
        → WereStopped F.observable L.observable sid.number (row_trouble node sid.number now) fault
        (spot registry.old.entries (F.state files.old).shelf
        phase.old owners.old (L.traffic lines.old))
        (spot registry.new.entries (F.state files.new).shelf
        phase.new owners.new (L.traffic lines.new))) }
    ensures moments { D.observable → F.observable → (node : Node)
        → IsSo F.observable (R.setting rules.now) T.read sid.number node
        (spot registry.old.entries (F.state files.old).shelf
        phase.old owners.old (L.traffic lines.old))
        → Moments (JointAt (D.state disk.old) (F.state files.old))
        (JointAt (D.state disk.new) (F.state files.new)) beat.old
        (IsWithin sid.number (row_trouble node sid.number now) node) }

    // What stands then.
    ensures home { StaysOpen D.observable F.observable T.read now (fault_in result) registry.new
        (D.state disk.new) (F.state files.new) beat.new }

    // Why it fails: recording, or the session.
    ensures fault { IfErr result IsFaultOfTelling }
    ensures cause { HasCause (fault_in result) sid.number
        (counted (D.faults disk.old) (F.faults files.old)
        (L.counts lines.old) (L.last lines.old) beat.old)
        (counted (D.faults disk.new) (F.faults files.new)
        (L.counts lines.new) (L.last lines.new) beat.new) }

    ensures advanced { Advanced
        (counted (D.faults disk.old) (F.faults files.old)
        (L.counts lines.old) (L.last lines.old) beat.old)
        (counted (D.faults disk.new) (F.faults files.new)
        (L.counts lines.new) (L.last lines.new) beat.new) }
{
    match rules.trouble(alloc, registry.book(), now, phase) {
        Ok(effects) => match perform(
            alloc, registry, phase, owners, sid, disk, files, lines, effects, beat,
        ) {
            Ok(()) => Ok(()),
            Err(fault) => Err(fault),
        },
        Err(_) => Err(Fault::NoMemory),
    }
}
