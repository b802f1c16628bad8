//! A registry: the journal of a node, and its entries.
ghost use Rattle.std.specs.Prelude.{◌≡◌, ◌≢◌, ◌+◌, ◌≤◌, ◌<◌, ◌^◌, ◌∷◌, ℕ, length, true, Err, OnOk, OnErr, IfOk, IfErr};
ghost use Rattle.cd_outside.specs.Counts.{Rose};
ghost use Rattle.cd_outside.specs.Disk.{last_of, LeftAt};
ghost use Rattle.cd_outside.specs.Moments.{Moments};
ghost use Rattle.cd_journal.specs.Journal.{length_of};
ghost use Rattle.cd_entries.specs.Entry.{entry_bytes, IsEntry, IsWritable};
ghost use Rattle.cd_rules.specs.Legal.{allowed};
ghost use Rattle.cd_protocol.specs.Node.{Keep};
ghost use Rattle.cd_book.specs.Book.{IsRead};
ghost use Rattle.cd_effects.specs.Registry.{IsRegistry, IsWithOrWithout};
ghost use Rattle.cd_effects.specs.Stands.{IsFaultOf, fault_of};

use crate::Fault;
use cd_ast::Process;
use cd_book::{Book, Texts};
use cd_entries::{Entry, write_entry};
use cd_journal::{Journal, JournalFault};
use cd_outside::{Beat, Disk};
use cd_types::NoMemory;
use std::alloc::Global;
use std::marker::Model;

/// The journal of a node, whose disk is handed to each call, and its entries. Contracts see both.
#[derive(Drop)]
pub struct Registry<T: Texts> {
    alloc: Global,
    journal: Journal,
    book: Book<T>,
}

impl<T: Texts> Model for Registry<T> {
    ghost use Rattle.cd_effects.specs.Registry.{RegistryState};

    ghost Value = { RegistryState };

    ghost view = { λ registry. record { journal = registry.journal; entries = registry.book.entries } };
}

// What is made ready before an entry is written: its bytes, and what a submission's text reads as.
#[derive(Drop)]
struct Prepared {
    body: Vec<u8>,
    process: Option<Process>,
}

fn process_of<T: Texts>(
    alloc: Global,
    texts: &T,
    entry: &Entry,
) -> Result<Option<Process>, NoMemory>
    ensures { IfOk result (λ process. IsRead T.read entry.now process) }
{
    match entry {
        Entry::Submitted(_, _, _, _, text) => texts.process(alloc, text.as_slice()),
        Entry::Home(..) => Ok(None),
        Entry::Placed(..) => Ok(None),
        Entry::Started(..) => Ok(None),
        Entry::Receiving(_) => Ok(None),
        Entry::Mark(..) => Ok(None),
        Entry::Result(..) => Ok(None),
        Entry::Ended(..) => Ok(None),
        Entry::Closed(..) => Ok(None),
        Entry::Forgot(..) => Ok(None),
        Entry::Dropped(..) => Ok(None),
    }
}

// Takes all the memory that it needs to record an entry, but for the journal's.
fn prepare<T: Texts>(alloc: Global, book: &mut Book<T>, entry: &Entry) -> Result<Prepared, NoMemory>
    requires { IsWritable entry.now }
    ensures body { IfOk result (λ ready. ready.body.items ≡ entry_bytes entry.now) }
    ensures form { OnOk result (IsEntry entry.now) }
    ensures read { IfOk result (λ ready. IsRead T.read entry.now ready.process) }
    ensures room { OnOk result (book.new.room ≡ true) }
    ensures same { book.new.entries ≡ book.old.entries }
{
    let process = process_of(alloc, book.texts(), entry)?;
    let mut body = Vec::new(alloc);
    write_entry(entry, &mut body)?;
    book.reserve()?;
    Ok(Prepared { body, process })
}

// The fault of an append, which never answers `Unfit`.
fn fault_of(fault: JournalFault) -> Fault
    ensures { result ≡ fault_of fault }
{
    match fault {
        JournalFault::Disk => Fault::Disk,
        JournalFault::Full(len) => Fault::JournalFull(len),
        JournalFault::Unfit(_) => Fault::NoMemory,
        JournalFault::NoMemory => Fault::NoMemory,
    }
}

impl<T: Texts> Registry<T> {
    /// The registry of a journal that was opened, and the book of its entries.
    pub fn new(alloc: Global, journal: Journal, book: Book<T>) -> Self
        ensures { result ≡ record { journal = journal; entries = book.entries } }
    {
        Registry {
            alloc,
            journal,
            book,
        }
    }

    /// Its journal.
    pub fn journal(&self) -> &Journal
        ensures { result.now ≡ self.now.journal }
    {
        &self.journal
    }

    /// Its entries.
    pub fn book(&self) -> &Book<T>
        ensures { (result.now).entries ≡ self.now.entries }
    {
        &self.book
    }

    /// Records an entry that may follow. At `Ok` it is on the disk; a crash at any moment of the call leaves the journal
    /// from before it, or the journal with the entry.
    ///
    /// `JournalFull` and `NoMemory` come before any call of the disk, and nothing is changed then. After `Disk` the
    /// journal isn't sound, and is opened again.
    pub fn keep<P: Disk>(
        &mut self,
        disk: &mut P,
        entry: Entry,
        beat: &mut Beat,
    ) -> Result<(), Fault>
        requires next { allowed T.read self.old.entries entry ≡ true }
        requires writable { IsWritable entry }
        requires header { self.old.journal.has_header ≡ true }
        requires sound { self.old.journal.sound ≡ true }
        requires registry { P.observable → IsRegistry self.old (P.state disk.old) }
        requires order { P.observable → last_of (P.state disk.old).calls ≤ beat.old }

        ensures registry { P.observable → result ≢ Err Fault.Disk → IsRegistry self.new (P.state disk.new) }
        ensures kept { OnOk result (self.new.entries ≡ entry ∷ self.old.entries) }
        ensures fits { OnOk result (length_of self.old.journal + 5 + length (entry_bytes entry) ≤ 2 ^ 30) }
        ensures err { OnErr result (self.new.entries ≡ self.old.entries) }
        ensures header { self.new.journal.has_header ≡ true }
        ensures sound { result ≢ Err Fault.Disk → self.new.journal.sound ≡ true }

        ensures moments { P.observable → Moments (LeftAt (P.state disk.old)) (LeftAt (P.state disk.new)) beat.old (IsWithOrWithout entry self.old.entries) }

        ensures full { (len : ℕ) → result ≡ Err (Fault.JournalFull len) → (len ≡ length_of self.old.journal) × (2 ^ 30 < len + 5 + length (entry_bytes entry)) }
        ensures full_still { (len : ℕ) → result ≡ Err (Fault.JournalFull len) → length_of self.new.journal ≡ len }
        ensures fault { IfErr result (λ fault. IsFaultOf (Keep entry) fault) }
        ensures untouched { OnErr result (result ≢ Err Fault.Disk → (disk.new ≡ disk.old) × (beat.new ≡ beat.old)) }
        ensures cause { result ≡ Err Fault.Disk → Rose (P.faults disk.old) (P.faults disk.new) }
        ensures order { P.observable → last_of (P.state disk.new).calls ≤ beat.new }
        ensures beat { beat.old ≤ beat.new }
        ensures later { P.faults disk.old ≤ P.faults disk.new }
    {
        let Prepared { body, process } = match prepare(self.alloc, &mut self.book, &entry) {
            Ok(ready) => ready,
            Err(_) => return Err(Fault::NoMemory),
        };
        match self.journal.append(disk, &body, beat) {
            Ok(()) => {
                self.book.put(entry, process);
                Ok(())
            }
            Err(fault) => Err(fault_of(fault)),
        }
    }
}

impl<T: Texts + Drop> Registry<T> {
    ghost use Rattle.std.specs.Prelude.{[]};
    ghost use Rattle.cd_outside.specs.Doubt.{settled};
    ghost use Rattle.cd_journal.specs.Fault.{OnDisk, IfFull, IfUnfit};

    /// Makes the journal of a disk without bytes. A stop within may leave any bytes, up to nine: the file is then deleted,
    /// and made anew.
    pub fn make<P: Disk>(
        alloc: Global,
        texts: T,
        disk: &mut P,
        beat: &mut Beat,
    ) -> Result<Self, JournalFault>
        requires empty { P.observable → (P.state disk.old).seen ≡ [] }
        requires rests { P.observable → (P.state disk.old).doubt ≡ settled [] }
        requires order { P.observable → last_of (P.state disk.old).calls ≤ beat.old }
        ensures registry { P.observable → IfOk result (λ registry. IsRegistry registry (P.state disk.new)) }
        ensures none { IfOk result (λ registry. registry.entries ≡ []) }
        ensures sound { IfOk result (λ registry. registry.journal.sound ≡ true) }
        ensures header { P.observable → IfOk result (λ registry. registry.journal.has_header ≡ true) }
        ensures moments { P.observable → Moments (LeftAt (P.state disk.old)) (LeftAt (P.state disk.new)) beat.old (λ image. length image ≤ 9) }
        ensures unfit { P.observable → IfUnfit result (λ _. ⊥) }
        ensures full { IfFull result (λ _. ⊥) }
        ensures cause { OnDisk result (Rose (P.faults disk.old) (P.faults disk.new)) }
        ensures order { P.observable → last_of (P.state disk.new).calls ≤ beat.new }
        ensures beat { beat.old ≤ beat.new }
        ensures later { P.faults disk.old ≤ P.faults disk.new }
    {
        match Journal::create(disk, beat) {
            Ok(()) => {}
            Err(fault) => return Err(fault),
        }
        match Journal::open(alloc, disk, beat) {
            Ok(journal) => Ok(Registry {
                alloc,
                journal,
                book: Book::new(alloc, texts),
            }),
            Err(fault) => Err(fault),
        }
    }
}
