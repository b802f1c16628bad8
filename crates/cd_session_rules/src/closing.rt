//! The end of a session.
ghost use Rattle.std.specs.Prelude.{◌≡◌, ◌++◌, option_map, Some, IfOk};
ghost use Rattle.cd_rules.specs.Queue.{queue_at, after_wait, in_timer, after_attempts, retried};
ghost use Rattle.cd_protocol.specs.Closing.{is_running, default_waits, waits_or_default, waits_for, own_number, key_under_way, retry_own, close, trouble_for, trouble};
ghost use Rattle.cd_protocol.specs.Node.{Go, only};
ghost use Rattle.cd_protocol.specs.Seen.{seen_effect, seen_reaction};
ghost use Rattle.cd_rules.specs.Processes.{submission};
ghost use Rattle.cd_session_rules.specs.NodeView.{seen_waits, view_of, kept};

use crate::config::{Waits, waits_of};
use crate::phases::{copy_phase, key_under_way, own_number};
use crate::reaction::{behind, go, only_one, quietly};
use crate::view::NodeView;
use cd_book::Texts;
use cd_entries::Entry;
use cd_protocol::{Effect, Outgoing, Phase, Reaction};
use cd_types::{Cause, END_OF_PLACES, Moment, NoMemory, Placing, ProcNo, Queue, Reason};
use std::alloc::Global;

/// The queue of a Process at a moment.
fn queue_at(now: Moment, placing: &Placing) -> Queue
    ensures { result ≡ queue_at now placing.now }
{
    match placing.queue {
        Queue::Timer => {
            if placing.due <= now.seconds() {
                Queue::Wait
            } else {
                Queue::Timer
            }
        }
        Queue::Execution => Queue::Execution,
        Queue::Wait => Queue::Wait,
        Queue::Hold => Queue::Hold,
    }
}

/// Whether a Process stands in Wait or Execution at a moment.
pub fn is_running(now: Moment, placing: &Placing) -> bool
    ensures { result ≡ is_running now placing.now }
{
    match queue_at(now, placing) {
        Queue::Execution => true,
        Queue::Wait => true,
        Queue::Timer => false,
        Queue::Hold => false,
    }
}

/// The waits where the netmap doesn't say.
fn default_waits() -> Waits
    ensures { seen_waits result ≡ default_waits }
{
    Waits {
        short: 30,
        short_attempts: 6,
        long: 600,
        long_attempts: 6,
    }
}

fn waits_or_default(waits: Option<Waits>) -> Waits
    ensures { seen_waits result ≡ waits_or_default (option_map seen_waits waits) }
{
    match waits {
        Some(waits) => waits,
        None => default_waits(),
    }
}

/// The waits for the partner of a Process.
fn waits_for<T: Texts>(view: &NodeView<T>, number: ProcNo) -> Waits
    ensures { seen_waits result ≡ waits_for (view_of T.read view.now.config.now view.now.book.now.entries) (submission view.now.book.now.entries number) }
{
    match view.book.submission(number) {
        Some(submission) => waits_or_default(waits_of(view.config, &submission.card.snode)),
        None => default_waits(),
    }
}

/// So many seconds later, in Timer.
fn in_timer(now: Moment, wait: u32, attempts: u16, prty: u8) -> Placing
    ensures { result ≡ in_timer (after_wait now wait) attempts prty }
{
    Placing {
        queue: Queue::Timer,
        reason: Reason::Retry,
        due: Moment::latest(now.seconds() + wait as u64).seconds(),
        attempts,
        prty,
    }
}

/// Where a Process stands after so many attempts.
fn after_attempts(waits: &Waits, now: Moment, attempts: u16, prty: u8) -> Placing
    ensures { result ≡ after_attempts (seen_waits waits.now) now attempts prty }
{
    let tried = attempts as u64;
    let short = waits.short_attempts as u64;
    if tried <= short {
        in_timer(now, waits.short, attempts, prty)
    } else if tried <= short + waits.long_attempts as u64 {
        in_timer(now, waits.long, attempts, prty)
    } else {
        Placing {
            queue: Queue::Hold,
            reason: Reason::NoConnect,
            due: 0,
            attempts,
            prty,
        }
    }
}

/// Where a Process stands after one attempt more.
pub fn retried(waits: &Waits, now: Moment, before: &Placing) -> Placing
    ensures { result ≡ retried (seen_waits waits.now) now before.now }
{
    after_attempts(waits, now, before.attempts.saturating_add(1), before.prty)
}

/// What is recorded of a Process whose session is lost.
fn retry<T: Texts>(view: &NodeView<T>, now: Moment, number: ProcNo) -> Option<Entry>
    ensures { kept result ≡ retry_own (view_of T.read view.now.config.now view.now.book.now.entries) now (Some number) }
{
    match view.book.placing(number) {
        None => None,
        Some(placing) => {
            if view.book.is_live(number) && is_running(now, &placing) {
                let waits = waits_for(view, number);
                Some(Entry::Placed(number, retried(&waits, now, &placing), now))
            } else {
                None
            }
        }
    }
}

/// What is recorded where a session ends.
fn retry_own<T: Texts>(view: &NodeView<T>, now: Moment, phase: &Phase) -> Option<Entry>
    ensures { kept result ≡ retry_own (view_of T.read view.now.config.now view.now.book.now.entries) now (own_number phase.now) }
{
    match own_number(phase) {
        None => None,
        Some(number) => retry(view, now, number),
    }
}

/// A reaction behind an entry, where there is one.
pub fn behind_kept<'a>(
    entry: Option<Entry>,
    reaction: Reaction<'a>,
) -> Result<Reaction<'a>, NoMemory>
    ensures { IfOk result (λ made. seen_reaction made ≡ record (seen_reaction reaction.entry) { effects = kept entry ++ (seen_reaction reaction.entry).effects }) }
{
    match entry {
        None => Ok(reaction),
        Some(entry) => {
            let made = behind(Effect::Keep(entry), reaction)?;
            Ok(made)
        }
    }
}

/// The session is closed, or lost.
pub fn close<'a, T: Texts>(
    alloc: Global,
    view: &NodeView<T>,
    now: Moment,
    phase: &Phase,
) -> Result<Reaction<'a>, NoMemory>
    ensures { IfOk result (λ reaction. seen_reaction reaction ≡ only (close (view_of T.read view.now.config.now view.now.book.now.entries) now phase.now)) }
{
    let entry = retry_own(view, now, phase);
    let rest = only_one(alloc, quietly(alloc, Phase::Gone))?;
    let reaction = behind_kept(entry, rest)?;
    Ok(reaction)
}

/// The partner is told of trouble with the key under way, where there is one.
fn trouble_for<'a>(alloc: Global, phase: &Phase) -> Result<Effect<'a>, NoMemory>
    ensures { IfOk result (λ effect. seen_effect effect ≡ Go phase.now (trouble_for (key_under_way phase.now))) }
{
    let copy = copy_phase(alloc, phase)?;
    match key_under_way(phase) {
        None => Ok(quietly(alloc, copy)),
        Some(key) => {
            if key.place < END_OF_PLACES {
                let effect = go(alloc, copy, Outgoing::Abort(key, Cause::Trouble))?;
                Ok(effect)
            } else {
                Ok(quietly(alloc, copy))
            }
        }
    }
}

/// A file couldn't be asked or changed: the partner is told, and then the session is lost.
pub fn trouble<'a, T: Texts>(
    alloc: Global,
    view: &NodeView<T>,
    now: Moment,
    phase: &Phase,
) -> Result<Reaction<'a>, NoMemory>
    ensures { IfOk result (λ reaction. seen_reaction reaction ≡ only (trouble (view_of T.read view.now.config.now view.now.book.now.entries) now phase.now)) }
{
    let told = trouble_for(alloc, phase)?;
    let rest = close(alloc, view, now, phase)?;
    let reaction = behind(told, rest)?;
    Ok(reaction)
}
