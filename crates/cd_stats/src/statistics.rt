//! The report of a journal.
ghost use Rattle.std.specs.Prelude.{◌≡◌, ◌+◌, ◌++◌, ◌∷◌, ◌<◌, ◌==◌, [], codes, length, reverse, option_map, option_to_list, slice_get, Some, IfOk, OnOk, IfSome};
ghost use Rattle.cd_entries.specs.declared.entry.Entry.{Entry};
ghost use Rattle.cd_stats.specs.Statistics.{line_of, is_asked, asked_line, text_in, count_in, count_line, statistics};

use crate::line::line_of;
use cd_book::{Book, Texts};
use cd_types::{NoMemory, ProcNo};
use std::alloc::Global;

fn is_asked(only: &Option<ProcNo>, number: ProcNo) -> bool
    ensures { result ≡ is_asked only.now number }
{
    match only {
        None => true,
        Some(only) => number.number() == only.number(),
    }
}

// Writes the line of an entry, where it has one that is asked for, and tells how many lines that are.
fn write_line<T: Texts>(
    alloc: Global,
    book: &Book<T>,
    only: &Option<ProcNo>,
    at: u32,
    into: &mut Vec<u8>,
) -> Result<u32, NoMemory>
    requires { at < length book.now.entries }
    ensures text { OnOk result ((e : Entry) → slice_get (reverse book.now.entries) at ≡ Some e
        → into.new.items ≡ into.old.items ++ text_in (asked_line only.now (line_of T.read book.now.entries e))) }
    ensures count { IfOk result (λ count. (e : Entry) → slice_get (reverse book.now.entries) at ≡ Some e
        → count ≡ count_in (asked_line only.now (line_of T.read book.now.entries e))) }
{
    let entry = book.entry(at);
    match line_of(alloc, book, entry)? {
        None => Ok(0),
        Some(numbered) => {
            if !is_asked(only, numbered.number) {
                return Ok(0);
            }
            into.extend_from_slice(numbered.line.as_bytes())?;
            Ok(1)
        }
    }
}

// Writes how many lines there are.
fn write_count(alloc: Global, count: u32, into: &mut Vec<u8>) -> Result<(), NoMemory>
    ensures { OnOk result (into.new.items ≡ into.old.items ++ count_line count) }
{
    let line = format!(in alloc; "COUNT {count}\n")?;
    into.extend_from_slice(line.as_bytes())?;
    Ok(())
}

/// Writes what a journal tells of the Processes of its node, and of the steps that it kept for others: a line for each
/// entry that has one, from the first on, and then how many lines these are. With a number, only the lines of that number.
pub fn write_statistics<T: Texts>(
    alloc: Global,
    book: &Book<T>,
    only: &Option<ProcNo>,
    into: &mut Vec<u8>,
) -> Result<(), NoMemory>
    ensures { OnOk result (into.new.items ≡ into.old.items ++ statistics T.read book.now.entries only.now) }
{
    let mut count = 0u32;
    for at in 0..book.len() {
        let more = write_line(alloc, book, only, at, into)?;
        count += more;
    }
    write_count(alloc, count, into)?;
    Ok(())
}
