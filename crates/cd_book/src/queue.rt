//! Where Processes stand, and which one is taken next.
ghost use Rattle.std.specs.Prelude.{◌≡◌, ◌<◌, ◌∷◌, ◌==◌, ℕ, List, filter, reverse, length};
ghost use Rattle.std.specs.List.{list_any, filter_map};
ghost use Rattle.cd_entries.specs.declared.entry.Entry.{Entry};
ghost use Rattle.cd_rules.specs.Processes.{is_live};
ghost use Rattle.cd_rules.specs.Queue.{stands, by_start, by_hold, by_retain, first_placing, placing, queue_of, queue_at, runs_in, is_due, goes_before, the_earlier, choice, row_made, row_of, next_due};
ghost use Rattle.cd_book.specs.Numbers.{AreNumbered};

use crate::process::{is_live, number_behind, submission, submitted};
use cd_entries::Entry;
use cd_types::{Filed, Hold, Moment, Placing, ProcNo, Queue, Reason, Retain, Row};

fn stands(queue: Queue, reason: Reason, prty: u8) -> Placing
    ensures { result ≡ stands queue reason prty }
{
    Placing {
        queue,
        reason,
        due: 0,
        attempts: 0,
        prty,
    }
}

// By its start.
fn by_start(prty: u8, moment: Moment, start: Option<Moment>) -> Placing
    ensures { result ≡ by_start prty moment start }
{
    let Some(start) = start else {
        return stands(Queue::Wait, Reason::None, prty);
    };
    if moment.seconds() < start.seconds() {
        Placing {
            queue: Queue::Timer,
            reason: Reason::Start,
            due: start.seconds(),
            attempts: 0,
            prty,
        }
    } else {
        stands(Queue::Wait, Reason::None, prty)
    }
}

fn by_hold(card: &Filed, moment: Moment) -> Placing
    ensures { result ≡ by_hold card.now moment card.now.hold }
{
    match card.hold {
        Hold::Yes => stands(Queue::Hold, Reason::Operator, card.prty),
        Hold::Call => stands(Queue::Hold, Reason::Call, card.prty),
        Hold::No => by_start(card.prty, moment, card.start),
    }
}

// Where a Process stands when it was submitted.
fn first_placing(card: &Filed, moment: Moment) -> Placing
    ensures { result ≡ first_placing card.now moment }
{
    match card.retain {
        Retain::No => by_hold(card, moment),
        Retain::Yes | Retain::Initial => stands(Queue::Hold, Reason::Retained, card.prty),
    }
}

#[tactic(auto, unfolding(cd_rules::specs::Queue::placing))]
fn placing_after(entry: &Entry, number: ProcNo, before: Option<Placing>) -> Option<Placing>
    ensures { (journal : List Entry) → before ≡ placing journal number → result ≡ placing (entry.now ∷ journal) number }
{
    match entry {
        Entry::Placed(own, placed, _) => {
            if own.number() == number.number() {
                Some(*placed)
            } else {
                before
            }
        }
        Entry::Submitted(own, moment, _, card, _) => {
            if own.number() == number.number() {
                Some(first_placing(card, *moment))
            } else {
                before
            }
        }
        _ => before,
    }
}

pub(crate) fn placing(entries: &[Entry], number: ProcNo) -> Option<Placing>
    ensures { result ≡ placing (reverse entries.now) number }
{
    let mut found = None;
    for entry in entries {
        found = placing_after(entry, number, found);
    }
    found
}

/// The queue of a Process at a moment: where its moment has come, one in Timer counts as in Wait.
pub fn queue_at(now: Moment, placed: &Placing) -> Queue
    ensures { result ≡ queue_at now placed.now }
{
    match placed.queue {
        Queue::Timer => {
            if placed.due <= now.seconds() {
                Queue::Wait
            } else {
                Queue::Timer
            }
        }
        other => other,
    }
}

fn runs_in(queue: Queue) -> bool
    ensures { result ≡ runs_in queue }
{
    match queue {
        Queue::Wait | Queue::Execution => true,
        Queue::Timer | Queue::Hold => false,
    }
}

fn is_busy(busy: &[ProcNo], number: ProcNo) -> bool
    ensures { result ≡ list_any (λ n. n == number) busy.now }
{
    busy.iter().any(|other| other.number() == number.number())
}

fn is_due(now: Moment, busy: &[ProcNo], row: &Row) -> bool
    ensures { result ≡ is_due now busy.now row.now }
{
    runs_in(queue_at(now, &row.placing)) && !is_busy(busy, row.number)
}

// Of a greater priority, or of the same and of a smaller number.
fn goes_before(a: &Row, b: &Row) -> bool
    ensures { result ≡ goes_before a.now b.now }
{
    b.placing.prty < a.placing.prty
        || (a.placing.prty == b.placing.prty && a.number.number() < b.number.number())
}

fn the_earlier(row: Row, other: Option<Row>) -> Row
    ensures { result ≡ the_earlier row other }
{
    match other {
        Some(other) => {
            if goes_before(&other, &row) {
                other
            } else {
                row
            }
        }
        None => row,
    }
}

fn row_made(number: ProcNo, card: &Filed, placing: Placing) -> Row
    ensures { result ≡ row_made number card.now placing }
{
    Row {
        number,
        name: card.name,
        snode: card.snode,
        class: card.class,
        hold: card.hold,
        retain: card.retain,
        placing,
    }
}

fn row_of(entries: &[Entry], number: ProcNo) -> Option<Row>
    ensures { result ≡ row_of (reverse entries.now) number }
{
    match submission(entries, number) {
        Some(submission) => match placing(entries, number) {
            Some(placed) => Some(row_made(number, submission.card, placed)),
            None => None,
        },
        None => None,
    }
}

// The choice among the rows of a number and of greater ones, of which this is the choice.
fn due_after(
    entries: &[Entry],
    number: ProcNo,
    now: Moment,
    busy: &[ProcNo],
    found: Option<Row>,
) -> Option<Row>
    ensures { (greater : List ℕ) → found ≡ choice now busy.now (filter_map (row_of (reverse entries.now)) (filter (is_live (reverse entries.now)) greater))
        → result ≡ choice now busy.now (filter_map (row_of (reverse entries.now)) (filter (is_live (reverse entries.now)) (number ∷ greater))) }
{
    if !is_live(entries, number) {
        return found;
    }
    match row_of(entries, number) {
        Some(row) => {
            if is_due(now, busy, &row) {
                Some(the_earlier(row, found))
            } else {
                found
            }
        }
        None => found,
    }
}

pub(crate) fn next_due(entries: &[Entry], now: Moment, busy: &[ProcNo]) -> Option<Row>
    requires numbered { AreNumbered (reverse entries.now) }
    requires few { length entries.now < 4294967296 }
    ensures { result ≡ next_due (reverse entries.now) now busy.now }
{
    let mut found = None;
    for before in (0..submitted(entries)).rev() {
        found = due_after(entries, number_behind(before), now, busy, found);
    }
    found
}
