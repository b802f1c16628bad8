//! A node does a command.
ghost use Rattle.std.specs.Prelude.{◌≡◌, ◌≢◌, ◌≤◌, ℕ, true, None, Ok, Err, OnOk, OnErr, IfOk, IfErr};
ghost use Rattle.cd_outside.specs.Counts.{Rose};
ghost use Rattle.cd_outside.specs.Disk.{LeftAt};
ghost use Rattle.cd_outside.specs.Moments.{Moments};
ghost use Rattle.cd_book.specs.Book.{IsRead};
ghost use Rattle.cd_effects.specs.Stands.{HasFormedOrigin};
ghost use Rattle.cd_journal.specs.Journal.{length_of};
ghost use Rattle.cd_rules.specs.Legal.{is_legal};
ghost use Rattle.cd_plain.specs.NodeState.{HasHome, KeptSessions};
ghost use Rattle.cd_canonical.specs.Read.{canonical_reading};
ghost use Rattle.cd_operator.specs.Doing.{added_by, answer_of, by_rules, doing, with_added, IsFaultOfDoing, MayLeave};

use crate::reply::{Refused, Reply};
use crate::wanted::{Recording, wanted};
use cd_ast::Process;
use cd_book::Texts;
use cd_canonical::Canonical;
use cd_commands::Command;
use cd_effects::Fault;
use cd_entries::Entry;
use cd_outside::{Beat, Disk};
use cd_plain::Node;
use cd_types::{Moment, NoMemory};
use std::alloc::Global;

/// The Process that the text of a submission reads as.
fn process_of(alloc: Global, entry: &Entry) -> Result<Option<Process>, NoMemory>
    ensures { IfOk result (λ process. IsRead canonical_reading entry.now process) }
{
    match entry {
        Entry::Submitted(_, _, _, _, text) => match Canonical.process(alloc, text.as_slice()) {
            Ok(process) => Ok(process),
            Err(fault) => Err(fault),
        },
        Entry::Home(..) => Ok(None),
        Entry::Placed(..) => Ok(None),
        Entry::Started(..) => Ok(None),
        Entry::Receiving(..) => Ok(None),
        Entry::Mark(..) => Ok(None),
        Entry::Result(..) => Ok(None),
        Entry::Ended(..) => Ok(None),
        Entry::Closed(..) => Ok(None),
        Entry::Forgot(..) => Ok(None),
        Entry::Dropped(..) => Ok(None),
    }
}

/// An entry is recorded where the rules let it be, and that is answered.
fn record<D: Disk>(
    alloc: Global,
    node: &mut Node<Canonical>,
    recording: Recording,
    now: Moment,
    disk: &mut D,
    beat: &mut Beat,
) -> Result<Reply, Fault>
    requires formed { HasFormedOrigin recording.adds }
    requires home { HasHome D.observable canonical_reading node.old (D.state disk.old) beat.old now }
    ensures answered { IfOk result (λ reply. reply ≡ answer_of (by_rules now node.old.registry.entries (Ok recording))) }
    ensures recorded { OnOk result (node.new.registry.entries ≡ with_added (added_by (by_rules now node.old.registry.entries (Ok recording))) node.old.registry.entries) }
    ensures nothing { added_by (by_rules now node.old.registry.entries (Ok recording)) ≡ None → (node.new ≡ node.old) × (disk.new ≡ disk.old) × (beat.new ≡ beat.old) }
    ensures err { OnErr result (node.new.registry.entries ≡ node.old.registry.entries) }
    ensures sessions { KeptSessions node.old node.new }
    ensures config { node.new.config ≡ node.old.config }
    ensures moments { D.observable → Moments (LeftAt (D.state disk.old)) (LeftAt (D.state disk.new)) beat.old (MayLeave (added_by (by_rules now node.old.registry.entries (Ok recording))) node.old.registry.entries) }
    ensures home { result ≢ Err Fault.Disk → HasHome D.observable canonical_reading node.new (D.state disk.new) beat.new now }
    ensures legal { is_legal canonical_reading node.new.registry.entries ≡ true }
    ensures fault { IfErr result (λ fault. IsFaultOfDoing (added_by (by_rules now node.old.registry.entries (Ok recording))) fault) }
    ensures full { (len : ℕ) → result ≡ Err (Fault.JournalFull len) → (len ≡ length_of node.old.registry.journal) × (length_of node.new.registry.journal ≡ len) }
    ensures untouched { OnErr result (result ≢ Err Fault.Disk → (disk.new ≡ disk.old) × (beat.new ≡ beat.old)) }
    ensures disk { result ≡ Err Fault.Disk → Rose (D.faults disk.old) (D.faults disk.new) }
    ensures beat { beat.old ≤ beat.new }
    ensures disk_later { D.faults disk.old ≤ D.faults disk.new }
{
    let Ok(process) = process_of(alloc, &recording.adds) else {
        return Err(Fault::NoMemory);
    };
    match node.record(now, recording.adds, process.as_ref(), disk, beat) {
        Ok(true) => Ok(recording.answer),
        Ok(false) => Ok(Reply::Refused(Refused::NotYet)),
        Err(fault) => Err(fault),
    }
}

/// A node does a command, and replies. A submission of a Process whose text stands in the command is done, and `init` at a node without
/// a home; what the rules don't let it record, and the other commands, are refused as not done yet. A command that is refused changes
/// nothing. A crash at any moment of the call leaves the journal from before it, or the journal with the entry that the command adds.
///
/// `Disk` comes only where the count of the journal's faults rose, and the home has to be opened again then. `JournalFull` tells the
/// journal's length, and comes only where the entry makes it longer than 2^30 bytes; after it, as after `NoMemory`, the journal is as it
/// was. Where nothing is added, only `NoMemory` comes.
pub fn command<D: Disk>(
    alloc: Global,
    node: &mut Node<Canonical>,
    command: Command,
    now: Moment,
    disk: &mut D,
    beat: &mut Beat,
) -> Result<Reply, Fault>
    requires home { HasHome D.observable canonical_reading node.old (D.state disk.old) beat.old now }

    // What is done.
    ensures answered { IfOk result (λ reply. reply ≡ answer_of (doing now node.old.registry.entries command)) }
    ensures recorded { OnOk result (node.new.registry.entries ≡ with_added (added_by (doing now node.old.registry.entries command)) node.old.registry.entries) }
    ensures nothing { added_by (doing now node.old.registry.entries command) ≡ None → (node.new ≡ node.old) × (disk.new ≡ disk.old) × (beat.new ≡ beat.old) }
    ensures err { OnErr result (node.new.registry.entries ≡ node.old.registry.entries) }
    ensures sessions { KeptSessions node.old node.new }
    ensures config { node.new.config ≡ node.old.config }

    // What a crash leaves at each moment.
    ensures moments { D.observable → Moments (LeftAt (D.state disk.old)) (LeftAt (D.state disk.new)) beat.old (MayLeave (added_by (doing now node.old.registry.entries command)) node.old.registry.entries) }

    // What stands then.
    ensures home { result ≢ Err Fault.Disk → HasHome D.observable canonical_reading node.new (D.state disk.new) beat.new now }
    ensures legal { is_legal canonical_reading node.new.registry.entries ≡ true }

    // Why it fails.
    ensures fault { IfErr result (λ fault. IsFaultOfDoing (added_by (doing now node.old.registry.entries command)) fault) }
    ensures full { (len : ℕ) → result ≡ Err (Fault.JournalFull len) → (len ≡ length_of node.old.registry.journal) × (length_of node.new.registry.journal ≡ len) }
    ensures untouched { OnErr result (result ≢ Err Fault.Disk → (disk.new ≡ disk.old) × (beat.new ≡ beat.old)) }
    ensures disk { result ≡ Err Fault.Disk → Rose (D.faults disk.old) (D.faults disk.new) }

    ensures beat { beat.old ≤ beat.new }
    ensures disk_later { D.faults disk.old ≤ D.faults disk.new }
{
    match wanted(alloc, node.registry().book(), now, command) {
        Ok(Ok(recording)) => match record(alloc, node, recording, now, disk, beat) {
            Ok(reply) => Ok(reply),
            Err(fault) => Err(fault),
        },
        Ok(Err(refused)) => Ok(Reply::Refused(refused)),
        Err(_) => Err(Fault::NoMemory),
    }
}
