//! The line of an entry.
ghost use Rattle.std.specs.Prelude.{◌≡◌, ◌++◌, ◌∷◌, [], codes, option_map, IfOk, OnOk};
ghost use Rattle.std.specs.Fmt.{decimal};
ghost use Rattle.cd_stats.specs.Words.{how_word};
ghost use Rattle.cd_stats.specs.Statistics.{ending, submitted_line, step_line, closed_line, part_line, of_other, line_of};
ghost use Rattle.cd_stats.specs.Seen.{seen_line};
ghost use Rattle.cd_stats.specs.Words.{kind_word};
ghost use Rattle.cd_rules.specs.Steps.{what_at};
ghost use Rattle.cd_rules.specs.Processes.{is_own};

use crate::digits::{five, four, three};
use crate::words::{cause_word, how_word, kind_word};
use cd_book::{Book, Texts};
use cd_entries::Entry;
use cd_types::{Cause, How, Key, Label, Moment, NoMemory, ProcNo, Rc};
use std::alloc::Global;
use std::marker::Model;

/// A line that is written.
#[derive(Drop)]
pub struct Line {
    text: Vec<u8>,
}

impl Model for Line {
    ghost use Rattle.std.specs.Prelude.{List, ℕ};

    ghost Value = { List ℕ };

    ghost view = { λ line. line.text.items };
}

/// The line of an entry, and the number of its Process.
#[derive(Drop)]
pub struct Numbered {
    pub number: ProcNo,
    pub line: Line,
}

impl Line {
    fn new(alloc: Global) -> Self
        ensures { result ≡ [] }
    {
        Line {
            text: Vec::new(alloc),
        }
    }

    /// Its bytes.
    pub fn as_bytes(&self) -> &[u8]
        ensures { result.now ≡ self.now }
    {
        self.text.as_slice()
    }

    fn put(&mut self, bytes: &[u8]) -> Result<(), NoMemory>
        ensures { OnOk result (self.new ≡ self.old ++ bytes.now) }
    {
        self.text.extend_from_slice(bytes)?;
        Ok(())
    }

    fn number(&mut self, alloc: Global, number: u64) -> Result<(), NoMemory>
        ensures { OnOk result (self.new ≡ self.old ++ decimal number) }
    {
        let text = format!(in alloc; "{number}")?;
        self.put(text.as_bytes())
    }

    // Behind a blank the moment, and the line's end.
    fn at(&mut self, alloc: Global, moment: Moment) -> Result<(), NoMemory>
        ensures { OnOk result (self.new ≡ self.old ++ codes " " ++ decimal moment ++ 10 ∷ []) }
    {
        self.put(b" ")?;
        self.number(alloc, moment.seconds())?;
        self.put(b"\n")
    }

    // How a step ended, and when.
    fn ending(
        &mut self,
        alloc: Global,
        rc: Rc,
        bytes: u64,
        why: Cause,
        moment: Moment,
    ) -> Result<(), NoMemory>
        ensures { OnOk result (self.new ≡ self.old ++ ending rc bytes why moment) }
    {
        self.put(&three(rc as u32))?;
        self.put(b" ")?;
        self.number(alloc, bytes)?;
        self.put(b" ")?;
        self.put(cause_word(why))?;
        self.at(alloc, moment)
    }
}

fn submitted(alloc: Global, number: ProcNo, name: Label, moment: Moment) -> Result<Line, NoMemory>
    ensures { IfOk result (λ line. line ≡ submitted_line number name moment) }
{
    let mut line = Line::new(alloc);
    line.put(&five(number.number()))?;
    line.put(b" SUBM ")?;
    line.put(name.as_bytes())?;
    line.at(alloc, moment)?;
    Ok(line)
}

// A step's line up to how it ended.
fn step(alloc: Global, number: ProcNo, place: u16, kind: &[u8]) -> Result<Line, NoMemory>
    ensures { IfOk result (λ line. line ≡ step_line number place kind.now []) }
{
    let mut line = Line::new(alloc);
    line.put(&five(number.number()))?;
    line.put(b" STEP ")?;
    line.put(&four(place as u32))?;
    line.put(b" ")?;
    line.put(kind)?;
    line.put(b" ")?;
    Ok(line)
}

fn closed(alloc: Global, number: ProcNo, how: How, moment: Moment) -> Result<Line, NoMemory>
    ensures { IfOk result (λ line. line ≡ closed_line number (how_word how) moment) }
{
    let mut line = Line::new(alloc);
    line.put(&five(number.number()))?;
    line.put(b" DONE ")?;
    line.put(how_word(how))?;
    line.at(alloc, moment)?;
    Ok(line)
}

// The line of another node's step up to how it ended.
fn part(alloc: Global, key: &Key) -> Result<Line, NoMemory>
    ensures { IfOk result (λ line. line ≡ part_line key.now []) }
{
    let mut line = Line::new(alloc);
    line.put(&five(key.number.number()))?;
    line.put(b" PART ")?;
    line.put(&four(key.place as u32))?;
    line.put(b" ")?;
    line.put(key.pnode.as_bytes())?;
    line.put(b" ")?;
    Ok(line)
}

// Only another node's steps have a line at their outcome.
fn outcome<T: Texts>(
    alloc: Global,
    book: &Book<T>,
    key: &Key,
    rc: Rc,
    bytes: u64,
    why: Cause,
    moment: Moment,
) -> Result<Option<Numbered>, NoMemory>
    ensures { IfOk result (λ line. option_map seen_line line ≡ of_other (is_own book.now.entries key.now) (key.now.number, part_line key.now (ending rc bytes why moment))) }
{
    if book.is_own(key) {
        return Ok(None);
    }
    let mut line = part(alloc, key)?;
    line.ending(alloc, rc, bytes, why, moment)?;
    Ok(Some(Numbered {
        number: key.number,
        line,
    }))
}

// The line of a step's end.
fn ended<T: Texts>(
    alloc: Global,
    book: &Book<T>,
    number: ProcNo,
    place: u16,
) -> Result<Line, NoMemory>
    ensures { IfOk result (λ line. line ≡ step_line number place (kind_word (what_at T.read book.now.entries number place)) []) }
{
    let kind = kind_word(book.what_at(number, place as usize));
    let line = step(alloc, number, place, kind)?;
    Ok(line)
}

/// The line of an entry, where it has one.
#[tactic(auto, unfolding(crate::specs::Statistics::line_of))]
pub fn line_of<T: Texts>(
    alloc: Global,
    book: &Book<T>,
    entry: &Entry,
) -> Result<Option<Numbered>, NoMemory>
    ensures { IfOk result (λ line. option_map seen_line line ≡ line_of T.read book.now.entries entry.now) }
{
    match entry {
        Entry::Submitted(number, moment, _, card, _) => {
            let line = submitted(alloc, *number, card.name, *moment)?;
            Ok(Some(Numbered {
                number: *number,
                line,
            }))
        }
        Entry::Ended(number, place, rc, why, bytes, moment) => {
            let mut line = ended(alloc, book, *number, *place)?;
            line.ending(alloc, *rc, *bytes, *why, *moment)?;
            Ok(Some(Numbered {
                number: *number,
                line,
            }))
        }
        Entry::Closed(number, how, moment) => {
            let line = closed(alloc, *number, *how, *moment)?;
            Ok(Some(Numbered {
                number: *number,
                line,
            }))
        }
        Entry::Result(key, outcomes, moment) => outcome(
            alloc,
            book,
            key,
            outcomes.rc,
            outcomes.bytes,
            outcomes.cause,
            *moment,
        ),
        Entry::Dropped(key, rc, why, moment) => outcome(alloc, book, key, *rc, 0, *why, *moment),
        Entry::Home(..)
        | Entry::Placed(..)
        | Entry::Started(..)
        | Entry::Receiving(_)
        | Entry::Mark(..)
        | Entry::Forgot(..) => Ok(None),
    }
}
