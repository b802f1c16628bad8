//! A book: the entries of a journal, held in memory.
ghost use Rattle.std.specs.Prelude.{◌≡◌, ◌<◌, ◌∷◌, ◌++◌, [], length, reverse, slice_get, vec_len, vec_capacity, Some, true, OnOk, if◌then◌else◌};
ghost use Rattle.cd_rules.specs.Legal.{allowed};
ghost use Rattle.cd_book.specs.Book.{IsRead, is_submission, listed};

use crate::texts::Texts;
use cd_ast::Process;
use cd_entries::Entry;
use cd_types::NoMemory;
use std::alloc::Global;
use std::marker::Model;

/// The most entries that a book holds.
const MOST: usize = 4_294_967_295;

/// The entries of a journal, and the Processes that were submitted in it. Contracts see the entries, the newest first, and
/// whether there is room for one more. They are legal.
#[derive(Drop)]
pub struct Book<T: Texts> {
    texts: T,
    pub(crate) entries: Vec<Entry>,
    /// That of number n is the n-th.
    pub(crate) processes: Vec<Process>,
}

impl<T: Texts> Model for Book<T> {
    ghost use Rattle.std.specs.Prelude.{◌&&◌, ◌≤◌, nat_lt, reverse, vec_len, vec_capacity};
    ghost use Rattle.cd_book.specs.Book.{BookState, AreKept};

    ghost Value = { BookState };

    ghost view = { λ book. record { entries = reverse book.entries.items; room = nat_lt (vec_len book.entries) (vec_capacity book.entries) && nat_lt (vec_len book.processes) (vec_capacity book.processes) && nat_lt (vec_len book.entries) 4294967295 } };

    ghost invariant = { λ book. (vec_len book.entries ≤ 4294967295) × AreKept T.read (reverse book.entries.items) book.processes.items };
}

fn is_submission(entry: &Entry) -> bool
    ensures { result ≡ is_submission entry.now }
{
    match entry {
        Entry::Submitted(..) => true,
        _ => false,
    }
}

// Adds the Process of a submission.
fn add_process(processes: &mut Vec<Process>, entry: &Entry, process: Option<Process>)
    requires { vec_len processes.old < vec_capacity processes.old }
    ensures { processes.new.items ≡ processes.old.items ++ (if is_submission entry.now then listed process else []) }
{
    if is_submission(entry) {
        if let Some(process) = process {
            processes.push(process).unwrap();
        }
    }
}

impl<T: Texts> Book<T> {
    /// A book without entries. It takes no memory.
    pub fn new(alloc: Global, texts: T) -> Self
        ensures { result.entries ≡ [] }
    {
        Book {
            texts,
            entries: Vec::new(alloc),
            processes: Vec::new(alloc),
        }
    }

    /// How texts are read.
    pub fn texts(&self) -> &T {
        &self.texts
    }

    /// How many entries there are.
    pub fn len(&self) -> u32
        ensures { result ≡ length self.now.entries }
    {
        self.entries.len() as u32
    }

    /// The entry at a place, where the oldest has the place 0.
    pub fn entry(&self, at: u32) -> &Entry
        requires { at < length self.now.entries }
        ensures { slice_get (reverse self.now.entries) at ≡ Some result.now }
    {
        &self.entries[at as usize]
    }

    /// Takes room for one more entry and its Process.
    pub fn reserve(&mut self) -> Result<(), NoMemory>
        ensures same { self.new.entries ≡ self.old.entries }
        ensures room { OnOk result (self.new.room ≡ true) }
    {
        if self.entries.len() >= MOST {
            return Err(NoMemory);
        }
        self.processes.reserve(1)?;
        self.entries.reserve(1)?;
        Ok(())
    }

    /// Adds an entry that may follow, for which there is room; with a submission comes the Process that its text reads as.
    /// It takes no memory.
    pub fn put(&mut self, entry: Entry, process: Option<Process>)
        requires room { self.old.room ≡ true }
        requires allowed { allowed T.read self.old.entries entry ≡ true }
        requires read { IsRead T.read entry process }
        ensures { self.new.entries ≡ entry ∷ self.old.entries }
    {
        add_process(&mut self.processes, &entry, process);
        self.entries.push(entry).unwrap();
    }
}
