//! One effect.
ghost use Rattle.std.specs.Prelude.{◌≡◌, ◌≢◌, ◌≤◌, ℕ, [], ◌∷◌, true, Err, OnOk, OnErr, IfErr};
ghost use Rattle.cd_outside.specs.Counts.{Rose};
ghost use Rattle.cd_outside.specs.Disk.{last_of};
ghost use Rattle.cd_outside.specs.Files.{files_last_of};
ghost use Rattle.cd_outside.specs.Lines.{NeverFell};
ghost use Rattle.cd_outside.specs.Moments.{Moments};
ghost use Rattle.cd_journal.specs.Journal.{length_of};
ghost use Rattle.cd_protocol.specs.Node.{Node};
ghost use Rattle.cd_protocol.specs.Seen.{seen_effect};
ghost use Rattle.cd_effects.specs.Joint.{JointAt, IsWithin};
ghost use Rattle.cd_effects.specs.Registry.{IsRegistry};
ghost use Rattle.cd_effects.specs.Stands.{spot, Stands, kept, WereDone, WasTorn, IsFaultOf, IsReady};

use crate::act::act;
use crate::touch::touch;
use crate::{Fault, KeyOwners, Registry};
use cd_book::Texts;
use cd_outside::{Beat, Disk, Files, Lines, Sid};
use cd_protocol::{Effect, Phase};
use std::alloc::Global;

/// Does an effect.
pub(crate) fn one<T: Texts, D: Disk, F: Files, L: Lines>(
    alloc: Global,
    registry: &mut Registry<T>,
    phase: &mut Phase,
    owners: &mut KeyOwners,
    sid: Sid,
    disk: &mut D,
    files: &mut F,
    lines: &mut L,
    effect: Effect<'_>,
    beat: &mut Beat,
) -> Result<(), Fault>
    requires ready { IsReady T.read registry.old.entries (seen_effect effect) }
    requires header { registry.old.journal.has_header ≡ true }
    requires sound { registry.old.journal.sound ≡ true }
    requires registry { D.observable → IsRegistry registry.old (D.state disk.old) }
    requires order { D.observable → last_of (D.state disk.old).calls ≤ beat.old }
    requires files_order { F.observable → files_last_of (F.state files.old).calls ≤ beat.old }
    requires from { 1 ≤ sid.number }
    requires to { sid.number ≤ L.last lines.old }

    ensures registry { D.observable → result ≢ Err Fault.Disk → IsRegistry registry.new (D.state disk.new) }
    ensures header { registry.new.journal.has_header ≡ true }
    ensures sound { result ≢ Err Fault.Disk → registry.new.journal.sound ≡ true }

    ensures entries { OnOk result (registry.new.entries ≡ kept (seen_effect effect.entry) registry.old.entries) }
    ensures done { OnOk result (WereDone F.observable L.observable sid.number (seen_effect effect.entry ∷ [])
        (spot registry.old.entries (F.state files.old).shelf phase.old owners.old (L.traffic lines.old))
        (spot registry.new.entries (F.state files.new).shelf phase.new owners.new (L.traffic lines.new))) }
    ensures torn { OnErr result (WasTorn F.observable L.observable sid.number (seen_effect effect.entry)
        (spot registry.old.entries (F.state files.old).shelf phase.old owners.old (L.traffic lines.old))
        (spot registry.new.entries (F.state files.new).shelf phase.new owners.new (L.traffic lines.new))) }
    ensures fault { IfErr result (λ fault. IsFaultOf (seen_effect effect.entry) fault) }
    ensures full { (len : ℕ) → result ≡ Err (Fault.JournalFull len) → length_of registry.new.journal ≡ len }

    ensures moments { D.observable → F.observable → (node : Node)
        → Stands F.observable sid.number node (spot registry.old.entries (F.state files.old).shelf phase.old owners.old (L.traffic lines.old))
        → Moments (JointAt (D.state disk.old) (F.state files.old)) (JointAt (D.state disk.new) (F.state files.new)) beat.old
        (IsWithin sid.number (seen_effect effect.entry ∷ []) node) }

    ensures disk { result ≡ Err Fault.Disk → Rose (D.faults disk.old) (D.faults disk.new) }
    ensures files { result ≡ Err Fault.Files → Rose (F.faults files.old) (F.faults files.new) }
    ensures line { result ≡ Err Fault.Line → Rose ((L.counts lines.old).faults sid.number) ((L.counts lines.new).faults sid.number) }
    ensures order { D.observable → last_of (D.state disk.new).calls ≤ beat.new }
    ensures files_order { F.observable → files_last_of (F.state files.new).calls ≤ beat.new }
    ensures beat { beat.old ≤ beat.new }
    ensures last { L.last lines.new ≡ L.last lines.old }
    ensures disk_later { D.faults disk.old ≤ D.faults disk.new }
    ensures files_later { F.faults files.old ≤ F.faults files.new }
    ensures lines_later { NeverFell (L.counts lines.old) (L.counts lines.new) }
    ensures nones { (L.counts lines.new).nones ≡ (L.counts lines.old).nones }
{
    match touch(files, &effect, beat) {
        Ok(()) => {}
        Err(_) => return Err(Fault::Files),
    }
    match act(
        alloc, registry, phase, owners, sid, disk, lines, effect, beat,
    ) {
        Ok(()) => Ok(()),
        Err(fault) => Err(fault),
    }
}
