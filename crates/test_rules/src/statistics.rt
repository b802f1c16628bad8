//! Lines of a report, written by hand.
use crate::closing::{close_book, close_entry};
use cd_ast::Process;
use cd_book::{Book, Texts};
use cd_entries::Entry;
use cd_stats::{line_of, write_statistics};
use cd_types::{
    Bytes, Cause, Filed, Hold, How, Key, Label, Moment, NoMemory, NodeName, Outcomes, ProcNo,
    Retain,
};
use std::alloc::Global;
use std::process::Abort;
use std::test::Fail;

/// No text reads as a Process.
#[derive(Drop)]
struct NoTexts;

impl Texts for NoTexts {
    ghost use Rattle.std.specs.Prelude.{None};

    ghost read = { λ text. None };

    fn process(&self, _: Global, _: &[u8]) -> Result<Option<Process>, NoMemory> {
        Ok(None)
    }
}

/// The line of an entry; no bytes where it has none.
fn told(alloc: Global, book: &Book<NoTexts>, entry: &Entry) -> Result<Vec<u8>, NoMemory> {
    match line_of(alloc, book, entry)? {
        Some(numbered) => Ok(Vec::from_slice(alloc, numbered.line.as_bytes())?),
        None => Ok(Vec::new(alloc)),
    }
}

fn key(number: ProcNo, pnode: NodeName) -> Key {
    Key {
        pnode,
        home: 17,
        number,
        place: 7,
    }
}

fn filed(name: Label, snode: NodeName) -> Filed {
    Filed {
        name,
        snode,
        prty: 10,
        class: 1,
        hold: Hold::No,
        retain: Retain::No,
        start: None,
    }
}

/// The entry has this line.
fn is_told(
    rt: &impl Abort,
    alloc: Global,
    book: &Book<NoTexts>,
    entry: Entry,
    expected: &[u8],
) -> Result<(), Fail> {
    let told = told(alloc, book, &entry);
    close_entry(entry);
    let line = told?;
    assert_eq!(rt; line.as_slice(), expected);
    Ok(())
}

fn are_told(rt: &impl Abort, alloc: Global, book: &Book<NoTexts>) -> Result<(), Fail> {
    let number = ProcNo::new(42).unwrap();
    let moment = Moment::new(1_709_287_200).unwrap();
    let alpha = NodeName::new(b"ALPHA").unwrap();
    let name = Label::new(b"P1").unwrap();

    let text = Bytes::copy_of(alloc, b"P1")?;
    let submitted = Entry::Submitted(number, moment, None, filed(name, alpha), text);
    is_told(rt, alloc, book, submitted, b"00042 SUBM P1 1709287200\n")?;

    let closed = Entry::Closed(number, How::Finished, moment);
    is_told(rt, alloc, book, closed, b"00042 DONE Finished 1709287200\n")?;

    let outcomes = Outcomes {
        rc: 8,
        cause: Cause::InUse,
        bytes: 300,
        made: 0,
    };
    let result = Entry::Result(key(number, alpha), outcomes, moment);
    is_told(
        rt,
        alloc,
        book,
        result,
        b"00042 PART 0007 ALPHA 008 300 InUse 1709287200\n",
    )?;

    let dropped = Entry::Dropped(key(number, alpha), 8, Cause::Released, moment);
    is_told(
        rt,
        alloc,
        book,
        dropped,
        b"00042 PART 0007 ALPHA 008 0 Released 1709287200\n",
    )?;

    let mark = Entry::Mark(key(number, alpha), 0);
    is_told(rt, alloc, book, mark, b"")?;
    Ok(())
}

#[test]
fn entries_have_these_lines(rt: HostRuntime) -> Result<(), Fail> {
    let book = Book::new(rt.alloc(), NoTexts);
    let outcome = are_told(&rt, rt.alloc(), &book);
    close_book(book);
    outcome
}

fn none_is_told(rt: &impl Abort, alloc: Global, book: &Book<NoTexts>) -> Result<(), Fail> {
    let mut text = Vec::from_slice(alloc, b"x\n")?;
    write_statistics(alloc, book, &None, &mut text)?;
    assert_eq!(rt; text.as_slice(), b"x\nCOUNT 0\n".as_slice());
    Ok(())
}

#[test]
fn a_journal_without_entries(rt: HostRuntime) -> Result<(), Fail> {
    let book = Book::new(rt.alloc(), NoTexts);
    let outcome = none_is_told(&rt, rt.alloc(), &book);
    close_book(book);
    outcome
}
