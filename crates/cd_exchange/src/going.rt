//! All that comes behind a reaction.
ghost use Rattle.std.specs.Prelude.{◌≡◌, ◌≢◌, ◌≤◌, ℕ, true, Err, OnOk, OnErr, IfErr};
ghost use Rattle.cd_outside.specs.Counts.{Rose};
ghost use Rattle.cd_outside.specs.Disk.{last_of};
ghost use Rattle.cd_outside.specs.Files.{files_last_of};
ghost use Rattle.cd_outside.specs.Lines.{NeverFell};
ghost use Rattle.cd_outside.specs.Moments.{Moments};
ghost use Rattle.cd_journal.specs.Journal.{length_of};
ghost use Rattle.cd_rules.specs.Processes.{latest};
ghost use Rattle.cd_rules.specs.Legal.{is_legal};
ghost use Rattle.cd_rules.specs.Promises.{HavePriorities};
ghost use Rattle.cd_protocol.specs.Node.{Node};
ghost use Rattle.cd_protocol.specs.Rows.{is_done, most_reactions};
ghost use Rattle.cd_effects.specs.Joint.{JointAt, IsWithin};
ghost use Rattle.cd_effects.specs.Registry.{IsRegistry};
ghost use Rattle.cd_effects.specs.Stands.{spot, WereDone};
ghost use Rattle.cd_exchange.specs.Going.{AreTold, IsSo, RowStopped, MayLeave};
ghost use Rattle.cd_exchange.specs.Question.{answers_of};
ghost use Rattle.cd_exchange.specs.Rest.{rest};

use crate::behind::go_behind;
use crate::given::Given;
use crate::rules_trait::Rules;
use cd_book::Texts;
use cd_effects::{Fault, KeyOwners, Registry};
use cd_outside::{Beat, Disk, Files, Lines, Sid};
use cd_protocol::{Continuation, Phase};
use cd_types::Moment;
use std::alloc::Global;

// Whether nothing comes any more.
fn is_done(then: &Continuation) -> bool
    ensures { result ≡ is_done then.now }
{
    match then {
        Continuation::Done => true,
        _ => false,
    }
}

/// Does all that comes behind a reaction, one reaction after another.
pub(crate) fn go_on<T: Texts, R: Rules<T>, D: Disk, F: Files, L: Lines>(
    alloc: Global,
    rules: &R,
    registry: &mut Registry<T>,
    phase: &mut Phase,
    owners: &mut KeyOwners,
    sid: Sid,
    now: Moment,
    disk: &mut D,
    files: &mut F,
    lines: &mut L,
    then: Continuation,
    given: &mut Given,
    buffer: &mut Vec<u8>,
    beat: &mut Beat,
) -> Result<(), Fault>
    requires priorities { HavePriorities T.read }
    requires legal { is_legal T.read registry.old.entries ≡ true }
    requires on_time { latest registry.old.entries ≤ now }
    requires header { registry.old.journal.has_header ≡ true }
    requires sound { registry.old.journal.sound ≡ true }
    requires registry { D.observable → IsRegistry registry.old (D.state disk.old) }
    requires order { D.observable → last_of (D.state disk.old).calls ≤ beat.old }
    requires files_order { F.observable → files_last_of (F.state files.old).calls ≤ beat.old }
    requires from { 1 ≤ sid.number }
    requires to { sid.number ≤ L.last lines.old }

    // What is done.
    ensures done { OnOk result ((node : Node) → IsSo F.observable (R.setting rules.now) T.read sid.number node (spot registry.old.entries (F.state files.old).shelf phase.old owners.old (L.traffic lines.old))
        → WereDone F.observable L.observable sid.number (rest most_reactions node sid.number (answers_of now given.new buffer.new.items) then)
        (spot registry.old.entries (F.state files.old).shelf phase.old owners.old (L.traffic lines.old))
        (spot registry.new.entries (F.state files.new).shelf phase.new owners.new (L.traffic lines.new))) }
    ensures told { F.observable → OnOk result ((node : Node) → IsSo F.observable (R.setting rules.now) T.read sid.number node (spot registry.old.entries (F.state files.old).shelf phase.old owners.old (L.traffic lines.old))
        → AreTold most_reactions node sid.number (answers_of now given.new buffer.new.items) then) }

    // What is done where it fails.
    ensures stopped { IfErr result (λ fault. RowStopped F.observable L.observable sid.number now fault (λ node answers. rest most_reactions node sid.number answers then) (λ node. IsSo F.observable (R.setting rules.now) T.read sid.number node (spot registry.old.entries (F.state files.old).shelf phase.old owners.old (L.traffic lines.old)))
        (spot registry.old.entries (F.state files.old).shelf phase.old owners.old (L.traffic lines.old))
        (spot registry.new.entries (F.state files.new).shelf phase.new owners.new (L.traffic lines.new))) }

    // What a crash leaves at each moment.
    ensures moments { D.observable → F.observable → OnOk result ((node : Node) → IsSo F.observable (R.setting rules.now) T.read sid.number node (spot registry.old.entries (F.state files.old).shelf phase.old owners.old (L.traffic lines.old))
        → Moments (JointAt (D.state disk.old) (F.state files.old)) (JointAt (D.state disk.new) (F.state files.new)) beat.old (IsWithin sid.number (rest most_reactions node sid.number (answers_of now given.new buffer.new.items) then) node)) }
    ensures crash { D.observable → F.observable → OnErr result ((node : Node) → IsSo F.observable (R.setting rules.now) T.read sid.number node (spot registry.old.entries (F.state files.old).shelf phase.old owners.old (L.traffic lines.old))
        → MayLeave sid.number now (λ answers. rest most_reactions node sid.number answers then) node (JointAt (D.state disk.old) (F.state files.old)) (JointAt (D.state disk.new) (F.state files.new)) beat.old) }

    // What stands then.
    ensures legal { is_legal T.read registry.new.entries ≡ true }
    ensures on_time { latest registry.new.entries ≤ now }
    ensures registry { D.observable → result ≢ Err Fault.Disk → IsRegistry registry.new (D.state disk.new) }
    ensures header { registry.new.journal.has_header ≡ true }
    ensures sound { result ≢ Err Fault.Disk → registry.new.journal.sound ≡ true }
    ensures full { (len : ℕ) → result ≡ Err (Fault.JournalFull len) → length_of registry.new.journal ≡ len }

    // Why it fails.
    ensures disk { result ≡ Err Fault.Disk → Rose (D.faults disk.old) (D.faults disk.new) }
    ensures files { result ≡ Err Fault.Files → Rose (F.faults files.old) (F.faults files.new) }
    ensures line { result ≡ Err Fault.Line → Rose ((L.counts lines.old).faults sid.number) ((L.counts lines.new).faults sid.number) }

    ensures order { D.observable → last_of (D.state disk.new).calls ≤ beat.new }
    ensures files_order { F.observable → files_last_of (F.state files.new).calls ≤ beat.new }
    ensures beat { beat.old ≤ beat.new }
    ensures last { L.last lines.new ≡ L.last lines.old }
    ensures disk_later { D.faults disk.old ≤ D.faults disk.new }
    ensures files_later { F.faults files.old ≤ F.faults files.new }
    ensures lines_later { NeverFell (L.counts lines.old) (L.counts lines.new) }
    ensures nones { (L.counts lines.new).nones ≡ (L.counts lines.old).nones }
{
    let mut later = then;
    for _turn in 0..1030_u32 {
        if is_done(&later) {
            return Ok(());
        }
        match go_behind(
            alloc, rules, registry, phase, owners, sid, now, disk, files, lines, &later, given,
            buffer, beat,
        ) {
            Ok(behind) => later = behind,
            Err(fault) => return Err(fault),
        }
    }
    Ok(())
}
