//! The end of a step.
ghost use Rattle.std.specs.Prelude.{◌≡◌, length, option_map};
ghost use Rattle.cd_rules.specs.Processes.{own_home};
ghost use Rattle.cd_rules.specs.Legal.{is_outcome, own_outcome, is_kept_outcome, may_end};
ghost use Rattle.cd_rules.specs.Steps.{stmts_of};

use crate::outcome::cause_code;
use crate::own::pnode_keeps;
use cd_ast::What;
use cd_book::{Book, Texts};
use cd_types::{Cause, Key, Outcomes, ProcNo, Rc};

/// How many statements a Process has.
pub(crate) fn stmts_len<T: Texts>(book: &Book<T>, number: ProcNo) -> usize
    ensures { result ≡ length (stmts_of T.read book.now.entries number) }
{
    match book.process(number) {
        Some(process) => process.stmts.as_slice().len(),
        None => 0,
    }
}

fn is_outcome(rc: Rc, cause: Cause, bytes: u64, outcome: Option<Outcomes>) -> bool
    ensures { result ≡ is_outcome rc cause bytes outcome }
{
    match outcome {
        Some(outcome) => {
            outcome.rc == rc
                && cause_code(outcome.cause) == cause_code(cause)
                && outcome.bytes == bytes
        }
        None => false,
    }
}

// The outcome that this node kept of its own step.
fn own_outcome<T: Texts>(book: &Book<T>, number: ProcNo, place: u16) -> Option<Outcomes>
    ensures { result ≡ own_outcome book.now.entries (own_home book.now.entries) number place }
{
    match book.own_home() {
        Some((name, home)) => {
            let key = Key {
                pnode: name,
                home,
                number,
                place,
            };
            book.outcome(&key)
        }
        None => None,
    }
}

// Where this node is the step's keeper, it is the outcome that it kept.
fn is_kept_outcome<T: Texts>(
    book: &Book<T>,
    number: ProcNo,
    place: u16,
    rc: Rc,
    cause: Cause,
    bytes: u64,
    what: Option<&What>,
) -> bool
    ensures { result ≡ is_kept_outcome book.now.entries number place rc cause bytes (option_map (λ w. w.now) what.entry) }
{
    match what {
        Some(what) => {
            !pnode_keeps(what) || is_outcome(rc, cause, bytes, own_outcome(book, number, place))
        }
        None => false,
    }
}

pub(crate) fn may_end<T: Texts>(
    book: &Book<T>,
    number: ProcNo,
    place: u16,
    rc: Rc,
    cause: Cause,
    bytes: u64,
) -> bool
    ensures { result ≡ may_end T.read book.now.entries number place rc cause bytes }
{
    book.is_live(number)
        && book.runs_itself(number)
        && place as usize == book.next_place(number)
        && (place as usize) < stmts_len(book, number)
        && is_kept_outcome(
            book,
            number,
            place,
            rc,
            cause,
            bytes,
            book.what_at(number, place as usize),
        )
}
