//! An entry is recorded.
ghost use Rattle.std.specs.Prelude.{◌≡◌, ◌≢◌, ◌≤◌, ◌<◌, ◌+◌, ◌^◌, ◌∷◌, ℕ, length, option_map, true, false, Ok, Err, OnErr, IfErr};
ghost use Rattle.cd_outside.specs.Counts.{Rose};
ghost use Rattle.cd_outside.specs.Disk.{last_of, LeftAt};
ghost use Rattle.cd_outside.specs.Moments.{Moments};
ghost use Rattle.cd_journal.specs.Journal.{length_of};
ghost use Rattle.cd_entries.specs.Entry.{entry_bytes};
ghost use Rattle.cd_rules.specs.Processes.{latest};
ghost use Rattle.cd_rules.specs.Legal.{is_legal};
ghost use Rattle.cd_protocol.specs.Node.{Keep};
ghost use Rattle.cd_protocol.specs.Rows.{may_record};
ghost use Rattle.cd_book.specs.Book.{IsRead};
ghost use Rattle.cd_effects.specs.Registry.{IsRegistry, IsWithOrWithout};
ghost use Rattle.cd_effects.specs.Stands.{HasFormedOrigin, IsFaultOf};

use cd_ast::Process;
use cd_book::Texts;
use cd_effects::{Fault, Registry, law_of_records};
use cd_entries::Entry;
use cd_outside::{Beat, Disk};
use cd_session_rules::{Config, NodeView, may_record};
use cd_types::Moment;

/// Records an entry where it may be recorded now, and answers whether that was so. With a submission comes the Process that its text
/// reads as.
///
/// `JournalFull` and `NoMemory` come before any call of the disk, and nothing is changed then. After `Disk` the journal isn't sound, and
/// is opened again.
pub fn try_record<T: Texts, D: Disk>(
    registry: &mut Registry<T>,
    config: &Config,
    now: Moment,
    disk: &mut D,
    entry: Entry,
    process: Option<&Process>,
    beat: &mut Beat,
) -> Result<bool, Fault>
    requires formed { HasFormedOrigin entry }
    requires read { IsRead T.read entry (option_map (λ p. p.now) process) }
    requires legal { is_legal T.read registry.old.entries ≡ true }
    requires on_time { latest registry.old.entries ≤ now }
    requires header { registry.old.journal.has_header ≡ true }
    requires sound { registry.old.journal.sound ≡ true }
    requires registry { D.observable → IsRegistry registry.old (D.state disk.old) }
    requires order { D.observable → last_of (D.state disk.old).calls ≤ beat.old }

    ensures kept { result ≡ Ok true → (may_record T.read now registry.old.entries entry ≡ true) × (registry.new.entries ≡ entry ∷ registry.old.entries) }
    ensures refused { result ≡ Ok false → (may_record T.read now registry.old.entries entry ≡ false) × (registry.new ≡ registry.old) × (disk.new ≡ disk.old) × (beat.new ≡ beat.old) }
    ensures fits { result ≡ Ok true → length_of registry.old.journal + 5 + length (entry_bytes entry) ≤ 2 ^ 30 }
    ensures err { OnErr result (registry.new.entries ≡ registry.old.entries) }
    ensures moments { D.observable → result ≢ Ok false → Moments (LeftAt (D.state disk.old)) (LeftAt (D.state disk.new)) beat.old (IsWithOrWithout entry registry.old.entries) }

    ensures legal { is_legal T.read registry.new.entries ≡ true }
    ensures on_time { latest registry.new.entries ≤ now }
    ensures registry { D.observable → result ≢ Err Fault.Disk → IsRegistry registry.new (D.state disk.new) }
    ensures header { registry.new.journal.has_header ≡ true }
    ensures sound { result ≢ Err Fault.Disk → registry.new.journal.sound ≡ true }
    ensures full { (len : ℕ) → result ≡ Err (Fault.JournalFull len) → (len ≡ length_of registry.old.journal) × (2 ^ 30 < len + 5 + length (entry_bytes entry)) }
    ensures full_still { (len : ℕ) → result ≡ Err (Fault.JournalFull len) → length_of registry.new.journal ≡ len }
    ensures fault { IfErr result (λ fault. IsFaultOf (Keep entry) fault) }
    ensures may { OnErr result (may_record T.read now registry.old.entries entry ≡ true) }
    ensures untouched { OnErr result (result ≢ Err Fault.Disk → (disk.new ≡ disk.old) × (beat.new ≡ beat.old)) }
    ensures cause { result ≡ Err Fault.Disk → Rose (D.faults disk.old) (D.faults disk.new) }
    ensures order { D.observable → last_of (D.state disk.new).calls ≤ beat.new }
    ensures beat { beat.old ≤ beat.new }
    ensures later { D.faults disk.old ≤ D.faults disk.new }
{
    law_of_records();
    let view = NodeView {
        book: registry.book(),
        config,
    };
    if !may_record(&view, now, &entry, process) {
        return Ok(false);
    }
    match registry.keep(disk, entry, beat) {
        Ok(()) => Ok(true),
        Err(fault) => Err(fault),
    }
}
