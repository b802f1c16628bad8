//! Placings.
ghost use Rattle.std.specs.Prelude.{◌≡◌};
ghost use Rattle.cd_rules.specs.Legal.{is_reason_in, is_hold, may_place};

use cd_book::{Book, Texts};
use cd_types::{Placing, ProcNo, Queue, Reason};

// Whether the reason goes with the queue.
fn is_reason_in(queue: Queue, reason: Reason) -> bool
    ensures { result ≡ is_reason_in queue reason }
{
    match (queue, reason) {
        (Queue::Execution, Reason::Running) => true,
        (Queue::Wait, Reason::None) => true,
        (Queue::Timer, Reason::Start | Reason::Retry) => true,
        (
            Queue::Hold,
            Reason::Operator
            | Reason::Call
            | Reason::Retained
            | Reason::NoConnect
            | Reason::UnknownNode
            | Reason::Rejected,
        ) => true,
        _ => false,
    }
}

fn is_hold(queue: Queue) -> bool
    ensures { result ≡ is_hold queue }
{
    match queue {
        Queue::Hold => true,
        Queue::Execution | Queue::Wait | Queue::Timer => false,
    }
}

pub(crate) fn may_place<T: Texts>(book: &Book<T>, number: ProcNo, placed: &Placing) -> bool
    ensures { result ≡ may_place book.now.entries number placed.now }
{
    book.is_live(number)
        && is_reason_in(placed.queue, placed.reason)
        && 1 <= placed.prty
        && placed.prty <= 15
        && (book.runs_itself(number) || is_hold(placed.queue))
}
