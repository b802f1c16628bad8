//! The next Process is chosen.
ghost use Rattle.std.specs.Prelude.{◌≡◌, ◌≢◌, ◌≤◌, ℕ, map, option_map, true, Some, Err, OnOk, OnErr, IfOk, IfErr};
ghost use Rattle.cd_outside.specs.Counts.{Rose};
ghost use Rattle.cd_outside.specs.Disk.{last_of};
ghost use Rattle.cd_outside.specs.Files.{files_last_of};
ghost use Rattle.cd_outside.specs.Lines.{NeverFell};
ghost use Rattle.cd_frames.specs.Frame.{is_block};
ghost use Rattle.cd_journal.specs.Journal.{length_of};
ghost use Rattle.cd_rules.specs.Processes.{latest};
ghost use Rattle.cd_rules.specs.Legal.{is_legal};
ghost use Rattle.cd_entries.specs.declared.entry.Entry.TheVariants.{Placed};
ghost use Rattle.cd_protocol.specs.Rows.{row_chosen};
ghost use Rattle.cd_protocol.specs.Seen.{seen_effect};
ghost use Rattle.cd_effects.specs.Registry.{IsRegistry};
ghost use Rattle.cd_effects.specs.Stands.{spot, WereDone, WereCut, IsFaultOfSending};
ghost use Rattle.cd_session_rules.specs.NodeView.{view_of};
ghost use Rattle.cd_plain.specs.Choice.{placing_of, GaveOfOne, IsFaultOfPlacing};
ghost use Rattle.cd_plain.specs.Chosen.{busy_in, placed_in, IsKnown, IsPlaced};

use cd_book::Texts;
use cd_effects::{Fault, KeyOwners, Registry, perform};
use cd_entries::Entry;
use cd_exchange::{Session, try_record};
use cd_outside::{Beat, Disk, Files, Lines, Sid};
use cd_pnode::row_chosen;
use cd_protocol::{Effect, Phase};
use cd_session_rules::{Config, NodeView, own_number};
use cd_types::{Moment, NoMemory, Placing, ProcNo, Row};
use std::alloc::Global;

/// The numbers of the Processes that have an open session.
pub(crate) fn busy(alloc: Global, sessions: &[Session]) -> Result<Vec<ProcNo>, NoMemory>
    ensures { IfOk result (λ numbers. numbers.items ≡ busy_in sessions.now) }
{
    match sessions {
        [] => Ok(Vec::new(alloc)),
        [first, more @ ..] => {
            let mut numbers = busy(alloc, more)?;
            match own_number(&first.phase) {
                Some(number) => {
                    numbers.insert(0, number)?;
                    Ok(numbers)
                }
                None => Ok(numbers),
            }
        }
    }
}

/// The placing that these effects record, where they record that alone.
fn placed_in(effects: &[Effect<'_>]) -> Option<(ProcNo, Placing, Moment)>
    ensures { option_map (λ placed. Placed placed.0 placed.1 placed.2) result ≡ placed_in (map seen_effect effects.now) }
{
    match effects {
        [only] => match only {
            Effect::Keep(entry) => match entry {
                Entry::Placed(number, placing, moment) => Some((*number, *placing, *moment)),
                _ => None,
            },
            _ => None,
        },
        _ => None,
    }
}

/// A Process whose partner can't be called, or wasn't connected, is placed by the rules.
pub(crate) fn place<T: Texts, D: Disk>(
    alloc: Global,
    config: &Config,
    registry: &mut Registry<T>,
    now: Moment,
    chosen: &Row,
    disk: &mut D,
    beat: &mut Beat,
) -> Result<(), Fault>
    requires legal { is_legal T.read registry.old.entries ≡ true }
    requires on_time { latest registry.old.entries ≤ now }
    requires header { registry.old.journal.has_header ≡ true }
    requires sound { registry.old.journal.sound ≡ true }
    requires registry { D.observable → IsRegistry registry.old (D.state disk.old) }
    requires order { D.observable → last_of (D.state disk.old).calls ≤ beat.old }
    ensures placed { OnOk result (IsPlaced T.read now (placing_of (view_of T.read config.now registry.old.entries) now chosen.now) registry.old.entries registry.new.entries) }
    ensures err { OnErr result (registry.new.entries ≡ registry.old.entries) }
    ensures legal { is_legal T.read registry.new.entries ≡ true }
    ensures on_time { latest registry.new.entries ≤ now }
    ensures registry { D.observable → result ≢ Err Fault.Disk → IsRegistry registry.new (D.state disk.new) }
    ensures header { registry.new.journal.has_header ≡ true }
    ensures sound { result ≢ Err Fault.Disk → registry.new.journal.sound ≡ true }
    ensures fault { IfErr result (λ fault. IsFaultOfPlacing (placing_of (view_of T.read config.now registry.old.entries) now chosen.now) fault) }
    ensures full { (len : ℕ) → result ≡ Err (Fault.JournalFull len) → length_of registry.new.journal ≡ len }
    ensures cause { result ≡ Err Fault.Disk → Rose (D.faults disk.old) (D.faults disk.new) }
    ensures order { D.observable → last_of (D.state disk.new).calls ≤ beat.new }
    ensures beat { beat.old ≤ beat.new }
    ensures later { D.faults disk.old ≤ D.faults disk.new }
{
    let view = NodeView {
        book: registry.book(),
        config,
    };
    match row_chosen(alloc, &view, now, false, &Some(*chosen)) {
        Ok(reaction) => match placed_in(reaction.effects.as_slice()) {
            Some((number, placing, moment)) => {
                let entry = Entry::Placed(number, placing, moment);
                match try_record(registry, config, now, disk, entry, None, beat) {
                    Ok(_) => Ok(()),
                    Err(fault) => Err(fault),
                }
            }
            None => Ok(()),
        },
        Err(_) => Err(Fault::NoMemory),
    }
}

/// A session with the partner of a Process begins, in the phase that is lent.
pub(crate) fn greet<T: Texts, D: Disk, F: Files, L: Lines>(
    alloc: Global,
    config: &Config,
    registry: &mut Registry<T>,
    phase: &mut Phase,
    owners: &mut KeyOwners,
    sid: Sid,
    now: Moment,
    chosen: &Row,
    disk: &mut D,
    files: &mut F,
    lines: &mut L,
    beat: &mut Beat,
) -> Result<(), Fault>
    requires block { is_block config.now.block ≡ true }
    requires legal { is_legal T.read registry.old.entries ≡ true }
    requires on_time { latest registry.old.entries ≤ now }
    requires header { registry.old.journal.has_header ≡ true }
    requires sound { registry.old.journal.sound ≡ true }
    requires registry { D.observable → IsRegistry registry.old (D.state disk.old) }
    requires order { D.observable → last_of (D.state disk.old).calls ≤ beat.old }
    requires files_order { F.observable → files_last_of (F.state files.old).calls ≤ beat.old }
    requires from { 1 ≤ sid.number }
    requires to { sid.number ≤ L.last lines.old }
    requires known { IsKnown (view_of T.read config.now registry.old.entries) chosen.now }

    // What is done.
    ensures done { OnOk result (WereDone F.observable L.observable sid.number (row_chosen (view_of T.read config.now registry.old.entries) now true (Some chosen.now))
        (spot registry.old.entries (F.state files.old).shelf phase.old owners.old (L.traffic lines.old))
        (spot registry.new.entries (F.state files.new).shelf phase.new owners.new (L.traffic lines.new))) }
    ensures cut { result ≡ Err Fault.Line → WereCut F.observable L.observable sid.number (row_chosen (view_of T.read config.now registry.old.entries) now true (Some chosen.now)) Fault.Line
        (spot registry.old.entries (F.state files.old).shelf phase.old owners.old (L.traffic lines.old))
        (spot registry.new.entries (F.state files.new).shelf phase.new owners.new (L.traffic lines.new)) }

    // What stands then.
    ensures same { registry.new.entries ≡ registry.old.entries }
    ensures shelf { F.observable → (F.state files.new).shelf ≡ (F.state files.old).shelf }
    ensures taken { L.observable → (L.traffic lines.new).taken ≡ (L.traffic lines.old).taken }
    ensures given { L.observable → GaveOfOne sid.number (L.traffic lines.old) (L.traffic lines.new) }
    ensures registry { D.observable → IsRegistry registry.new (D.state disk.new) }
    ensures header { registry.new.journal.has_header ≡ true }
    ensures sound { registry.new.journal.sound ≡ true }

    // Why it fails.
    ensures fault { IfErr result IsFaultOfSending }
    ensures line { result ≡ Err Fault.Line → Rose ((L.counts lines.old).faults sid.number) ((L.counts lines.new).faults sid.number) }

    ensures order { D.observable → last_of (D.state disk.new).calls ≤ beat.new }
    ensures files_order { F.observable → files_last_of (F.state files.new).calls ≤ beat.new }
    ensures beat { beat.old ≤ beat.new }
    ensures last { L.last lines.new ≡ L.last lines.old }
    ensures disk_later { D.faults disk.old ≤ D.faults disk.new }
    ensures files_later { F.faults files.old ≤ F.faults files.new }
    ensures lines_later { NeverFell (L.counts lines.old) (L.counts lines.new) }
    ensures nones { (L.counts lines.new).nones ≡ (L.counts lines.old).nones }
{
    let view = NodeView {
        book: registry.book(),
        config,
    };
    match row_chosen(alloc, &view, now, true, &Some(*chosen)) {
        Ok(reaction) => match perform(
            alloc,
            registry,
            phase,
            owners,
            sid,
            disk,
            files,
            lines,
            reaction.effects,
            beat,
        ) {
            Ok(()) => Ok(()),
            Err(fault) => Err(fault),
        },
        Err(_) => Err(Fault::NoMemory),
    }
}
