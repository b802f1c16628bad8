//! Starts of tasks and jobs.
ghost use Rattle.std.specs.Prelude.{◌≡◌};
ghost use Rattle.cd_rules.specs.Legal.{is_restarted, may_start_from, may_start};
ghost use Rattle.cd_book.specs.Seen.{seen_status};

use crate::own::{fits_run, own_step};
use cd_book::{Book, Status, Texts};
use cd_types::{Key, TaskKind};

pub(crate) fn is_restarted(kind: TaskKind) -> bool
    ensures { result ≡ is_restarted kind }
{
    match kind {
        TaskKind::Restart => true,
        TaskKind::Once | TaskKind::Job => false,
    }
}

// The first start, or one more of a task with restart that had no other starts.
fn may_start_from(status: &Status<'_>, kind: TaskKind, attempt: u32) -> bool
    ensures { result ≡ may_start_from (seen_status status.now) kind attempt }
{
    match status {
        Status::Fresh => attempt == 1,
        Status::Started(tries, last) => {
            attempt as u64 == *tries as u64 + 1 && is_restarted(*last) && is_restarted(kind)
        }
        Status::Open(..) => false,
        Status::Done(_) => false,
    }
}

pub(crate) fn may_start<T: Texts>(book: &Book<T>, key: &Key, kind: TaskKind, attempt: u32) -> bool
    ensures { result ≡ may_start T.read book.now.entries key.now kind attempt }
{
    may_start_from(&book.status(key), kind, attempt)
        && !book.is_over(key)
        && fits_run(&own_step(book, key), kind)
}
