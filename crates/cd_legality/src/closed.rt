//! The end of a Process, and of what is known of another node's.
ghost use Rattle.std.specs.Prelude.{◌≡◌};
ghost use Rattle.cd_rules.specs.Processes.{own_home};
ghost use Rattle.cd_rules.specs.Legal.{is_execution, is_running, may_close_so, is_own_identity, may_forget};

use crate::ended::stmts_len;
use cd_book::{Book, Texts, queue_at};
use cd_types::{How, Moment, NodeName, Placing, ProcNo, Queue};

fn is_execution(queue: Queue) -> bool
    ensures { result ≡ is_execution queue }
{
    match queue {
        Queue::Execution => true,
        Queue::Wait | Queue::Timer | Queue::Hold => false,
    }
}

// It stands in Execution at this moment.
fn is_running(now: Moment, placed: Option<Placing>) -> bool
    ensures { result ≡ is_running now placed }
{
    match placed {
        Some(placed) => is_execution(queue_at(now, &placed)),
        None => false,
    }
}

// Finished at the end of its statements, flushed while it ran, deleted while it did not.
pub(crate) fn may_close_so<T: Texts>(
    book: &Book<T>,
    number: ProcNo,
    how: How,
    moment: Moment,
) -> bool
    ensures { result ≡ may_close_so T.read book.now.entries number how moment }
{
    match how {
        How::Finished => {
            book.runs_itself(number) && book.next_place(number) == stmts_len(book, number)
        }
        How::Flushed => is_running(moment, book.placing(number)),
        How::Deleted => !is_running(moment, book.placing(number)),
    }
}

fn is_own_identity(home: u64, own: Option<(NodeName, u64)>) -> bool
    ensures { result ≡ is_own_identity home own }
{
    match own {
        Some((_, own)) => home == own,
        None => false,
    }
}

pub(crate) fn may_forget<T: Texts>(
    book: &Book<T>,
    name: &NodeName,
    home: u64,
    number: ProcNo,
) -> bool
    ensures { result ≡ may_forget book.now.entries name.now home number }
{
    !is_own_identity(home, book.own_home())
        && !book.is_forgotten(name, home, number)
        && !book.is_receiving_for(name, home, number)
}
