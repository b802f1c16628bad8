//! The side of an effect that isn't the files'.
ghost use Rattle.std.specs.Prelude.{◌≡◌, ◌≢◌, ◌≤◌, ℕ, true, Err, OnOk, OnErr, IfErr};
ghost use Rattle.cd_outside.specs.Counts.{Rose};
ghost use Rattle.cd_outside.specs.Disk.{last_of, LeftAt};
ghost use Rattle.cd_outside.specs.Lines.{NeverFell};
ghost use Rattle.cd_outside.specs.Moments.{Moments};
ghost use Rattle.cd_journal.specs.Journal.{length_of};
ghost use Rattle.cd_protocol.specs.Seen.{seen_effect};
ghost use Rattle.cd_effects.specs.Registry.{IsRegistry};
ghost use Rattle.cd_effects.specs.Stands.{kept, phased, held, given, HasFrames, TrafficTorn, IsFaultOf, IsReady, IsKeptOrNot, IsNoTouch};

use crate::session::{begin, go};
use crate::{Fault, KeyOwners, Registry};
use cd_book::Texts;
use cd_outside::{Beat, Disk, Lines, Sid};
use cd_protocol::{Effect, Phase};
use std::alloc::Global;

/// Does what the effect does, but for the change of a file.
pub(crate) fn act<T: Texts, D: Disk, L: Lines>(
    alloc: Global,
    registry: &mut Registry<T>,
    phase: &mut Phase,
    owners: &mut KeyOwners,
    sid: Sid,
    disk: &mut D,
    lines: &mut L,
    effect: Effect<'_>,
    beat: &mut Beat,
) -> Result<(), Fault>
    requires ready { IsReady T.read registry.old.entries (seen_effect effect) }
    requires header { registry.old.journal.has_header ≡ true }
    requires sound { registry.old.journal.sound ≡ true }
    requires registry { D.observable → IsRegistry registry.old (D.state disk.old) }
    requires order { D.observable → last_of (D.state disk.old).calls ≤ beat.old }
    requires from { 1 ≤ sid.number }
    requires to { sid.number ≤ L.last lines.old }

    ensures registry { D.observable → result ≢ Err Fault.Disk → IsRegistry registry.new (D.state disk.new) }
    ensures header { registry.new.journal.has_header ≡ true }
    ensures sound { result ≢ Err Fault.Disk → registry.new.journal.sound ≡ true }

    ensures entries { OnOk result (registry.new.entries ≡ kept (seen_effect effect.entry) registry.old.entries) }
    ensures phase { OnOk result (phase.new ≡ phased (seen_effect effect.entry) phase.old) }
    ensures owners { OnOk result (owners.new ≡ held sid.number (seen_effect effect.entry) owners.old) }
    ensures given { L.observable → OnOk result (L.traffic lines.new ≡ given sid.number (seen_effect effect.entry) (L.traffic lines.old)) }
    ensures frames { OnOk result (HasFrames (seen_effect effect.entry)) }

    ensures same { OnErr result ((registry.new.entries ≡ registry.old.entries) × (phase.new ≡ phase.old) × (owners.new ≡ owners.old)) }
    ensures torn { L.observable → OnErr result (TrafficTorn sid.number (seen_effect effect.entry) (L.traffic lines.old) (L.traffic lines.new)) }
    ensures fault { IfErr result (λ fault. IsFaultOf (seen_effect effect.entry) fault) }
    ensures kind { OnErr result (IsNoTouch (seen_effect effect.entry)) }
    ensures full { (len : ℕ) → result ≡ Err (Fault.JournalFull len) → length_of registry.new.journal ≡ len }

    ensures moments { D.observable → Moments (LeftAt (D.state disk.old)) (LeftAt (D.state disk.new)) beat.old (IsKeptOrNot (seen_effect effect.entry) registry.old.entries) }

    ensures disk { result ≡ Err Fault.Disk → Rose (D.faults disk.old) (D.faults disk.new) }
    ensures line { result ≡ Err Fault.Line → Rose ((L.counts lines.old).faults sid.number) ((L.counts lines.new).faults sid.number) }
    ensures order { D.observable → last_of (D.state disk.new).calls ≤ beat.new }
    ensures beat { beat.old ≤ beat.new }
    ensures last { L.last lines.new ≡ L.last lines.old }
    ensures disk_later { D.faults disk.old ≤ D.faults disk.new }
    ensures lines_later { NeverFell (L.counts lines.old) (L.counts lines.new) }
    ensures nones { (L.counts lines.new).nones ≡ (L.counts lines.old).nones }
{
    match effect {
        Effect::Keep(entry) => match registry.keep(disk, entry, beat) {
            Ok(()) => Ok(()),
            Err(fault) => Err(fault),
        },
        Effect::Begin(key, next) => match begin(phase, owners, sid, key, next) {
            Ok(()) => Ok(()),
            Err(fault) => Err(fault),
        },
        Effect::Go(next, frames) => match go(alloc, phase, lines, sid, next, &frames) {
            Ok(()) => Ok(()),
            Err(fault) => Err(fault),
        },
        Effect::Write(..) => Ok(()),
        Effect::Cut(..) => Ok(()),
        Effect::Sync(_) => Ok(()),
        Effect::Remove(_) => Ok(()),
    }
}
