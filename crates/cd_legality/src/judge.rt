ghost use Rattle.std.specs.Prelude.{◌≡◌, option_map};
ghost use Rattle.cd_rules.specs.Legal.{is_empty, is_from, is_first, may_follow, allowed};
ghost use Rattle.cd_book.specs.Book.{IsRead};

use crate::closed::{may_close_so, may_forget};
use crate::ended::may_end;
use crate::filed::may_submit;
use crate::outcome::may_result;
use crate::placed::may_place;
use crate::received::{may_drop_from, may_mark_from, may_receive};
use crate::started::may_start;
use cd_ast::Process;
use cd_book::{Book, Texts, moment_of};
use cd_entries::Entry;
use cd_types::Moment;

fn is_empty<T: Texts>(book: &Book<T>) -> bool
    ensures { result ≡ is_empty book.now.entries }
{
    book.len() == 0
}

// Moments don't fall.
fn is_from(earliest: u64, moment: Option<Moment>) -> bool
    ensures { result ≡ is_from earliest moment }
{
    match moment {
        Some(moment) => earliest <= moment.seconds(),
        None => true,
    }
}

fn is_first(entry: &Entry) -> bool
    ensures { result ≡ is_first entry.now }
{
    match entry {
        Entry::Home(..) => true,
        _ => false,
    }
}

// Whether the entry may follow those of the book, by what its kind asks for.
fn may_follow<T: Texts>(book: &Book<T>, entry: &Entry, process: Option<&Process>) -> bool
    requires { IsRead T.read entry.now (option_map (λ p. p.now) process) }
    ensures { result ≡ may_follow T.read book.now.entries entry.now }
{
    match entry {
        Entry::Home(..) => is_empty(book),
        Entry::Submitted(number, _, origin, card, text) => may_submit(
            book,
            *number,
            origin,
            card,
            text.as_slice(),
            process,
        ),
        Entry::Placed(number, placed, _) => may_place(book, *number, placed),
        Entry::Started(key, kind, attempt, _) => may_start(book, key, *kind, *attempt),
        Entry::Receiving(receiving) => may_receive(book, receiving),
        Entry::Mark(key, offset) => may_mark_from(&book.status(key), *offset),
        Entry::Result(key, outcomes, _) => may_result(book, key, outcomes),
        Entry::Ended(number, place, rc, cause, bytes, _) => may_end(
            book, *number, *place, *rc, *cause, *bytes,
        ),
        Entry::Closed(number, how, moment) => {
            book.is_live(*number) && may_close_so(book, *number, *how, *moment)
        }
        Entry::Forgot(name, home, number) => may_forget(book, name, *home, *number),
        Entry::Dropped(key, rc, cause, _) => may_drop_from(&book.status(key), *rc, *cause),
    }
}

/// Whether the entry may follow those of the book. With a submission comes the Process that its text reads as.
#[tactic(auto, unfolding(cd_rules::specs::Legal::allowed))]
pub fn allowed<T: Texts>(book: &Book<T>, entry: &Entry, process: Option<&Process>) -> bool
    requires { IsRead T.read entry.now (option_map (λ p. p.now) process) }
    ensures { result ≡ allowed T.read book.now.entries entry.now }
{
    (is_first(entry) || !is_empty(book))
        && is_from(book.latest(), moment_of(entry))
        && may_follow(book, entry, process)
}
