//! A reaction is checked where it begins.
ghost use Rattle.std.specs.Prelude.{◌≡◌, true, map, option_map, IfOk};
ghost use Rattle.cd_session_rules.specs.Kept.{allowed_kept, kept_in};
ghost use Rattle.cd_book.specs.Book.{IsRead};
ghost use Rattle.cd_protocol.specs.Rows.{is_by, is_formed, may_record, are_allowed, checked};
ghost use Rattle.cd_protocol.specs.Seen.{seen_effect, seen_reaction};
ghost use Rattle.cd_session_rules.specs.NodeView.{view_of};
ghost use Rattle.cd_session_rules.specs.Single.{keeps_one};

use crate::sendable::are_sent;
use crate::{NodeView, close};
use cd_ast::Process;
use cd_book::{Texts, moment_of};
use cd_entries::Entry;
use cd_legality::allowed;
use cd_protocol::{Effect, Phase, Reaction};
use cd_types::{END_OF_PLACES, Moment, NoMemory, is_file_name};
use std::alloc::Global;

/// Whether a moment isn't later than now.
fn is_by(now: Moment, moment: Option<Moment>) -> bool
    ensures { result ≡ is_by now moment }
{
    match moment {
        None => true,
        Some(moment) => moment.seconds() <= now.seconds(),
    }
}

/// Whether an entry can be written.
#[tactic(auto, unfolding(cd_protocol::specs::Rows::is_formed))]
fn is_formed(entry: &Entry) -> bool
    ensures { result ≡ is_formed entry.now }
{
    match entry {
        Entry::Home(..) => true,
        Entry::Submitted(..) => true,
        Entry::Placed(_, placed, _) => placed.due < 250_000_000_000,
        Entry::Started(step, _, _, _) => step.place < END_OF_PLACES,
        Entry::Receiving(receiving) => {
            receiving.key.place < END_OF_PLACES && is_file_name(receiving.name.as_slice())
        }
        Entry::Mark(step, _) => step.place < END_OF_PLACES,
        Entry::Result(step, outcomes, _) => step.place < END_OF_PLACES && outcomes.cause.is_kept(),
        Entry::Ended(_, place, _, why, _, _) => *place < END_OF_PLACES && why.is_kept(),
        Entry::Closed(..) => true,
        Entry::Forgot(..) => true,
        Entry::Dropped(step, _, why, _) => step.place < END_OF_PLACES && why.is_kept(),
    }
}

/// Whether an entry may be recorded now: it may follow the entries of the view, isn't of a later moment, and can be written. With a
/// submission comes the Process that its text reads as.
pub fn may_record<T: Texts>(
    view: &NodeView<T>,
    now: Moment,
    entry: &Entry,
    process: Option<&Process>,
) -> bool
    requires { IsRead T.read entry.now (option_map (λ p. p.now) process) }
    ensures { result ≡ may_record T.read now view.now.book.now.entries entry.now }
{
    allowed(view.book, entry, process) && is_by(now, moment_of(entry)) && is_formed(entry)
}

/// The entry that effects record, where one does.
fn kept_in<'d>(effects: &'d [Effect<'_>]) -> Option<&'d Entry>
    ensures { option_map (λ entry. entry.now) result ≡ kept_in effects.now }
{
    match effects {
        [] => None,
        [first, more @ ..] => match first {
            Effect::Keep(entry) => Some(entry),
            Effect::Write(_, _, _) => kept_in(more),
            Effect::Cut(_, _) => kept_in(more),
            Effect::Sync(_) => kept_in(more),
            Effect::Remove(_) => kept_in(more),
            Effect::Begin(_, _) => kept_in(more),
            Effect::Go(_, _) => kept_in(more),
        },
    }
}

/// Whether the one entry of these effects may be recorded now.
fn is_entry_allowed<T: Texts>(view: &NodeView<T>, now: Moment, effects: &[Effect<'_>]) -> bool
    requires { keeps_one (map seen_effect effects.now) ≡ true }
    ensures { result ≡ allowed_kept T.read now view.now.book.now.entries (kept_in effects.now) }
{
    match kept_in(effects) {
        None => true,
        Some(entry) => may_record(view, now, entry, None),
    }
}

/// Whether the one entry of these effects may be recorded now, and their frames are in their form.
fn are_allowed<T: Texts>(view: &NodeView<T>, now: Moment, effects: &[Effect<'_>]) -> bool
    requires { keeps_one (map seen_effect effects.now) ≡ true }
    ensures { result ≡ are_allowed T.read now view.now.book.now.entries (map seen_effect effects.now) }
{
    let entry = is_entry_allowed(view, now, effects);
    let frames = are_sent(effects);
    entry && frames
}

/// A reaction whose entry may be recorded; else the session is closed, and none of the reaction is done. A reaction has one entry
/// at most, and none that submits a Process.
pub fn checked<'a, T: Texts>(
    alloc: Global,
    view: &NodeView<T>,
    now: Moment,
    phase: &Phase,
    reaction: Reaction<'a>,
) -> Result<Reaction<'a>, NoMemory>
    requires { keeps_one (seen_reaction reaction).effects ≡ true }
    ensures { IfOk result (λ made. seen_reaction made ≡ checked (view_of T.read view.now.config.now view.now.book.now.entries) now phase.now (seen_reaction reaction.entry)) }
{
    if are_allowed(view, now, reaction.effects.as_slice()) {
        Ok(reaction)
    } else {
        let made = close(alloc, view, now, phase)?;
        Ok(made)
    }
}
