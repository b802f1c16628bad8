//! Outcomes.
ghost use Rattle.std.specs.Prelude.{◌≡◌, ◌*◌, ◌/◌, ◌<◌, ◌≢◌, ℕ};
ghost use Rattle.cd_types.specs.Choices.{cause_code};
ghost use Rattle.cd_rules.specs.Status.{Started, Fresh};
ghost use Rattle.cd_rules.specs.Legal.{is_code_of, is_cause_from, is_made, may_answer, last_mark, may_land, may_end_from, may_result};
ghost use Rattle.cd_book.specs.Seen.{seen_status};

use crate::own::{fits_kept, own_step};
use crate::started::is_restarted;
use cd_book::{Book, Status, Texts};
use cd_types::{Cause, Key, Outcomes, ProcNo, Rc, Receiving, TaskKind};

pub(crate) fn cause_code(cause: Cause) -> u8
    ensures { result ≡ cause_code cause }
{
    cause as u8
}

// Whether the cause goes with the code.
fn is_code_of(cause: Cause, rc: Rc) -> bool
    ensures { result ≡ is_code_of cause rc }
{
    match cause {
        Cause::None => true,
        Cause::NotStarted => rc == 16,
        Cause::Killed => rc == 16,
        Cause::Released => false,
        Cause::Trouble => false,
        _ => rc == 8,
    }
}

// Whether the cause is one of a step that was started, the last time as such a task.
fn is_cause_of_started(cause: Cause, made: u32, last: TaskKind) -> bool
    ensures { (tries : ℕ) → result ≡ is_cause_from (Started tries last) cause made }
{
    match cause {
        Cause::None => made == 0,
        Cause::NotStarted => true,
        Cause::Killed => true,
        Cause::Interrupted => !is_restarted(last),
        _ => false,
    }
}

// Whether the cause is one of a step that wasn't started.
fn is_cause_of_fresh(cause: Cause, made: u32) -> bool
    ensures { result ≡ is_cause_from Fresh cause made }
{
    match cause {
        Cause::None => made != 0,
        Cause::NotStarted => false,
        Cause::Killed => false,
        Cause::Interrupted => false,
        _ => true,
    }
}

fn is_cause_from(status: &Status<'_>, cause: Cause, made: u32) -> bool
    ensures { result ≡ is_cause_from (seen_status status.now) cause made }
{
    match status {
        Status::Started(_, last) => is_cause_of_started(cause, made, *last),
        Status::Fresh => is_cause_of_fresh(cause, made),
        Status::Open(..) => false,
        Status::Done(_) => false,
    }
}

// The number of the Process that the step made, with the code 0, and 0 where it made none.
fn is_made(made: Option<ProcNo>, outcomes: &Outcomes) -> bool
    ensures { result ≡ is_made made outcomes.now }
{
    match made {
        Some(number) => outcomes.made == number.number() && outcomes.rc == 0,
        None => outcomes.made == 0,
    }
}

// Of a step without a receiving.
fn may_answer<T: Texts>(book: &Book<T>, key: &Key, status: &Status<'_>, outcomes: &Outcomes) -> bool
    ensures { result ≡ may_answer book.now.entries key.now (seen_status status.now) outcomes.now }
{
    !book.is_over(key)
        && outcomes.bytes == 0
        && is_made(book.made_for(key), outcomes)
        && is_cause_from(status, outcomes.cause, outcomes.made)
        && is_code_of(outcomes.cause, outcomes.rc)
}

// The last mark that a file of this length has.
fn last_mark(interval: u64, length: u64) -> u64
    requires { interval ≢ 0 }
    ensures { result ≡ last_mark interval length }
{
    length / interval * interval
}

// Of a receiving: all bytes came, and the mark is the last one.
fn may_land(receiving: &Receiving, mark: u64, outcomes: &Outcomes) -> bool
    ensures { result ≡ may_land receiving.now mark outcomes.now }
{
    outcomes.rc == 0
        && cause_code(outcomes.cause) == 0
        && outcomes.made == 0
        && outcomes.bytes == receiving.length
        && (receiving.interval == 0 || mark == last_mark(receiving.interval, receiving.length))
}

fn may_end_from<T: Texts>(
    book: &Book<T>,
    key: &Key,
    status: &Status<'_>,
    outcomes: &Outcomes,
) -> bool
    ensures { result ≡ may_end_from book.now.entries key.now (seen_status status.now) outcomes.now }
{
    match status {
        Status::Fresh => may_answer(book, key, status, outcomes),
        Status::Started(..) => may_answer(book, key, status, outcomes),
        Status::Open(receiving, mark) => may_land(receiving, *mark, outcomes),
        Status::Done(..) => false,
    }
}

pub(crate) fn may_result<T: Texts>(book: &Book<T>, key: &Key, outcomes: &Outcomes) -> bool
    ensures { result ≡ may_result T.read book.now.entries key.now outcomes.now }
{
    may_end_from(book, key, &book.status(key), outcomes) && fits_kept(&own_step(book, key))
}
