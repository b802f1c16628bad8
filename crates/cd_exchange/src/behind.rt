//! The reaction that comes behind another one.
ghost use Rattle.std.specs.Prelude.{◌≡◌, ◌≢◌, ◌⊎◌, ◌≤◌, ℕ, [], true, Err, OnOk, OnErr, IfOk, IfErr};
ghost use Rattle.cd_outside.specs.Counts.{Rose};
ghost use Rattle.cd_outside.specs.Disk.{last_of};
ghost use Rattle.cd_outside.specs.Files.{files_last_of};
ghost use Rattle.cd_outside.specs.Lines.{NeverFell};
ghost use Rattle.cd_outside.specs.Moments.{Moments};
ghost use Rattle.cd_journal.specs.Journal.{length_of};
ghost use Rattle.cd_rules.specs.Processes.{latest};
ghost use Rattle.cd_rules.specs.Legal.{is_legal};
ghost use Rattle.cd_rules.specs.Promises.{HavePriorities};
ghost use Rattle.cd_protocol.specs.Node.{Node};
ghost use Rattle.cd_effects.specs.Joint.{JointAt, IsWithin};
ghost use Rattle.cd_effects.specs.Registry.{IsRegistry};
ghost use Rattle.cd_effects.specs.Stands.{spot, Stands, WereDone, WereCut, IsFaultOfAsking};
ghost use Rattle.cd_exchange.specs.Question.{view_with, question_of, answers_of, IsAnswered, IsTold, reaction_at};

use crate::asking::ask;
use crate::given::Given;
use crate::rules_trait::Rules;
use cd_book::Texts;
use cd_effects::{Fault, KeyOwners, Registry, perform};
use cd_outside::{Beat, Disk, Files, Lines, Sid};
use cd_protocol::{Continuation, Phase, Reaction};
use cd_types::Moment;
use std::alloc::Global;

/// Does the reaction that comes behind another one, and answers what comes behind it: asks the files what it goes by, and does its
/// effects.
pub(crate) fn go_behind<T: Texts, R: Rules<T>, D: Disk, F: Files, L: Lines>(
    alloc: Global,
    rules: &R,
    registry: &mut Registry<T>,
    phase: &mut Phase,
    owners: &mut KeyOwners,
    sid: Sid,
    now: Moment,
    disk: &mut D,
    files: &mut F,
    lines: &mut L,
    then: &Continuation,
    given: &mut Given,
    buffer: &mut Vec<u8>,
    beat: &mut Beat,
) -> Result<Continuation, Fault>
    requires priorities { HavePriorities T.read }
    requires legal { is_legal T.read registry.old.entries ≡ true }
    requires on_time { latest registry.old.entries ≤ now }
    requires header { registry.old.journal.has_header ≡ true }
    requires sound { registry.old.journal.sound ≡ true }
    requires registry { D.observable → IsRegistry registry.old (D.state disk.old) }
    requires order { D.observable → last_of (D.state disk.old).calls ≤ beat.old }
    requires files_order { F.observable → files_last_of (F.state files.old).calls ≤ beat.old }
    requires from { 1 ≤ sid.number }
    requires to { sid.number ≤ L.last lines.old }

    // What is done.
    ensures answered { OnOk result (IsAnswered (question_of (view_with (R.setting rules.now) T.read registry.old.entries) then.now) (answers_of now given.old buffer.old.items) (answers_of now given.new buffer.new.items)) }
    ensures told { F.observable → OnOk result (IsTold (F.state files.old).shelf (question_of (view_with (R.setting rules.now) T.read registry.old.entries) then.now) (answers_of now given.new buffer.new.items)) }
    ensures done { OnOk result (WereDone F.observable L.observable sid.number
        (reaction_at (view_with (R.setting rules.now) T.read registry.old.entries) phase.old (answers_of now given.new buffer.new.items) then.now).effects
        (spot registry.old.entries (F.state files.old).shelf phase.old owners.old (L.traffic lines.old))
        (spot registry.new.entries (F.state files.new).shelf phase.new owners.new (L.traffic lines.new))) }
    ensures later { IfOk result (λ later. later ≡ (reaction_at (view_with (R.setting rules.now) T.read registry.old.entries) phase.old (answers_of now given.new buffer.new.items) then.now).later) }

    // What is done where it fails: nothing, or the reaction was cut off.
    ensures stopped { IfErr result (λ fault. (WereDone F.observable L.observable sid.number []
        (spot registry.old.entries (F.state files.old).shelf phase.old owners.old (L.traffic lines.old))
        (spot registry.new.entries (F.state files.new).shelf phase.new owners.new (L.traffic lines.new)) × IsFaultOfAsking fault)
        ⊎ (IsAnswered (question_of (view_with (R.setting rules.now) T.read registry.old.entries) then.now) (answers_of now given.old buffer.old.items) (answers_of now given.new buffer.new.items)
        × WereCut F.observable L.observable sid.number (reaction_at (view_with (R.setting rules.now) T.read registry.old.entries) phase.old (answers_of now given.new buffer.new.items) then.now).effects fault
        (spot registry.old.entries (F.state files.old).shelf phase.old owners.old (L.traffic lines.old))
        (spot registry.new.entries (F.state files.new).shelf phase.new owners.new (L.traffic lines.new)))) }

    // What a crash leaves at each moment.
    ensures moments { D.observable → F.observable → OnOk result ((node : Node) → Stands F.observable sid.number node (spot registry.old.entries (F.state files.old).shelf phase.old owners.old (L.traffic lines.old))
        → Moments (JointAt (D.state disk.old) (F.state files.old)) (JointAt (D.state disk.new) (F.state files.new)) beat.old (IsWithin sid.number (reaction_at (view_with (R.setting rules.now) T.read registry.old.entries) phase.old (answers_of now given.new buffer.new.items) then.now).effects node)) }
    ensures crash { D.observable → F.observable → OnErr result ((node : Node) → Stands F.observable sid.number node (spot registry.old.entries (F.state files.old).shelf phase.old owners.old (L.traffic lines.old))
        → Moments (JointAt (D.state disk.old) (F.state files.old)) (JointAt (D.state disk.new) (F.state files.new)) beat.old (IsWithin sid.number [] node)
        ⊎ ((IsAnswered (question_of (view_with (R.setting rules.now) T.read registry.old.entries) then.now) (answers_of now given.old buffer.old.items) (answers_of now given.new buffer.new.items)) × Moments (JointAt (D.state disk.old) (F.state files.old)) (JointAt (D.state disk.new) (F.state files.new)) beat.old (IsWithin sid.number (reaction_at (view_with (R.setting rules.now) T.read registry.old.entries) phase.old (answers_of now given.new buffer.new.items) then.now).effects node))) }

    // What stands then.
    ensures legal { is_legal T.read registry.new.entries ≡ true }
    ensures on_time { latest registry.new.entries ≤ now }
    ensures registry { D.observable → result ≢ Err Fault.Disk → IsRegistry registry.new (D.state disk.new) }
    ensures header { registry.new.journal.has_header ≡ true }
    ensures sound { result ≢ Err Fault.Disk → registry.new.journal.sound ≡ true }
    ensures full { (len : ℕ) → result ≡ Err (Fault.JournalFull len) → length_of registry.new.journal ≡ len }

    // Why it fails.
    ensures disk { result ≡ Err Fault.Disk → Rose (D.faults disk.old) (D.faults disk.new) }
    ensures files { result ≡ Err Fault.Files → Rose (F.faults files.old) (F.faults files.new) }
    ensures line { result ≡ Err Fault.Line → Rose ((L.counts lines.old).faults sid.number) ((L.counts lines.new).faults sid.number) }

    ensures order { D.observable → last_of (D.state disk.new).calls ≤ beat.new }
    ensures files_order { F.observable → files_last_of (F.state files.new).calls ≤ beat.new }
    ensures beat { beat.old ≤ beat.new }
    ensures last { L.last lines.new ≡ L.last lines.old }
    ensures disk_later { D.faults disk.old ≤ D.faults disk.new }
    ensures files_later { F.faults files.old ≤ F.faults files.new }
    ensures lines_later { NeverFell (L.counts lines.old) (L.counts lines.new) }
    ensures nones { (L.counts lines.new).nones ≡ (L.counts lines.old).nones }
{
    match ask(files, rules.asked(registry.book(), then), given, buffer) {
        Ok(()) => {}
        Err(fault) => return Err(fault),
    }
    match rules.reaction_behind(
        alloc,
        registry.book(),
        now,
        phase,
        given,
        buffer.as_slice(),
        then,
    ) {
        Ok(reaction) => {
            let Reaction { effects, later } = reaction;
            match perform(
                alloc, registry, phase, owners, sid, disk, files, lines, effects, beat,
            ) {
                Ok(()) => Ok(later),
                Err(fault) => Err(fault),
            }
        }
        Err(_) => Err(Fault::NoMemory),
    }
}
