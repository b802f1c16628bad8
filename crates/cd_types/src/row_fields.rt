//! Rows that are fields.
#![tactic(auto, unfolding(crate::specs::Rows::placing_bytes, crate::specs::Rows::placing_in, crate::specs::Rows::outcomes_bytes, crate::specs::Rows::outcomes_in))]

ghost use Rattle.std.specs.Prelude.{◌≡◌, option_map, IsTrue};
ghost use Rattle.cd_types.specs.Choices.{is_kept};
ghost use Rattle.cd_types.specs.Moment.{is_moment, IsMoment};
ghost use Rattle.cd_types.specs.Text.{ranged_in};
ghost use Rattle.cd_types.specs.Rows.{placing_row, placing_bytes, placing_in, placing_law, outcomes_row, outcomes_bytes, outcomes_in, outcomes_law};

use crate::{Cause, Field, Moment, Outcomes, Placing, Queue, Reason};

/// The moment at the front as its number of seconds, and the bytes after it.
fn seconds_front(bytes: &[u8]) -> Option<(u64, &[u8])>
    ensures { option_map (λ found. (found.0, found.1.now)) result ≡ ranged_in 8 is_moment bytes.now }
{
    let Some((moment, rest)) = Moment::front(bytes) else {
        return None;
    };
    Some((moment.seconds(), rest))
}

/// One byte each for queue and reason, the moment, two bytes for the attempts, and one for the priority.
impl Field for Placing {
    ghost form = { placing_row.Form };

    ghost writable = { λ placing. IsMoment placing.due };

    ghost longest = { 13 };

    ghost spelled = { placing_bytes };

    ghost found_in = { placing_in };

    ghost law = { placing_law };

    fn front(bytes: &[u8]) -> Option<(Placing, &[u8])> {
        let (queue, rest) = Queue::front(bytes)?;
        let (reason, rest) = Reason::front(rest)?;
        let (due, rest) = seconds_front(rest)?;
        let (attempts, rest) = u16::front(rest)?;
        let (prty, rest) = u8::front(rest)?;
        let placing = Placing {
            queue,
            reason,
            due,
            attempts,
            prty,
        };
        Some((placing, rest))
    }

    fn size(&self) -> usize {
        self.queue.size()
            + self.reason.size()
            + self.due.size()
            + self.attempts.size()
            + self.prty.size()
    }

    fn put(&self, into: &mut Vec<u8>) {
        self.queue.put(into);
        self.reason.put(into);
        self.due.put(into);
        self.attempts.put(into);
        self.prty.put(into);
    }
}

/// A byte each for code and cause, which isn't Trouble, eight bytes for the length, and four for the number.
impl Field for Outcomes {
    ghost form = { outcomes_row.Form };

    ghost writable = { λ outcomes. IsTrue (is_kept outcomes.cause) };

    ghost longest = { 14 };

    ghost spelled = { outcomes_bytes };

    ghost found_in = { outcomes_in };

    ghost law = { outcomes_law };

    fn front(bytes: &[u8]) -> Option<(Outcomes, &[u8])> {
        let (rc, rest) = u8::front(bytes)?;
        let (cause, rest) = Cause::front(rest)?;
        if !cause.is_kept() {
            return None;
        }
        let (bytes, rest) = u64::front(rest)?;
        let (made, rest) = u32::front(rest)?;
        let outcomes = Outcomes {
            rc,
            cause,
            bytes,
            made,
        };
        Some((outcomes, rest))
    }

    fn size(&self) -> usize {
        self.rc.size() + self.cause.size() + self.bytes.size() + self.made.size()
    }

    fn put(&self, into: &mut Vec<u8>) {
        self.rc.put(into);
        self.cause.put(into);
        self.bytes.put(into);
        self.made.put(into);
    }
}
