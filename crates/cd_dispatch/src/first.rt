//! A frame comes.
ghost use Rattle.std.specs.Prelude.{◌≡◌, true, IfOk};
ghost use Rattle.cd_frames.specs.Message.{message_of};
ghost use Rattle.cd_rules.specs.Legal.{is_legal};
ghost use Rattle.cd_protocol.specs.Rows.{reaction_in, first_reaction, is_dead, row_accept};
ghost use Rattle.cd_protocol.specs.Node.{only};
ghost use Rattle.cd_protocol.specs.Seen.{seen_reaction};
ghost use Rattle.cd_session_rules.specs.NodeView.{view_of};

use cd_book::Texts;
use cd_frames::Frame;
use cd_pnode::{row_ask, row_await, row_greet};
use cd_protocol::{Phase, Reaction};
use cd_session_rules::{
    NodeView, Sessions, checked, close, key_under_way, only_one, own_number, quietly, row_send,
    row_take,
};
use cd_snode::{row_fresh, row_offer, row_ready};
use cd_types::{Moment, NoMemory, ProcNo};
use std::alloc::Global;

/// The reaction for a frame in a phase, before it is checked. The journal is legal.
fn reaction_in<'a, T: Texts, S: Sessions>(
    alloc: Global,
    view: &NodeView<T>,
    sessions: &S,
    now: Moment,
    sid: u64,
    frame: &Frame<'a>,
    phase: &Phase,
) -> Result<Reaction<'a>, NoMemory>
    requires { is_legal T.read view.now.book.now.entries ≡ true }
    ensures { IfOk result (λ reaction. seen_reaction reaction ≡ reaction_in (view_of T.read view.now.config.now view.now.book.now.entries) (S.seen sessions.now) now sid (message_of frame.now) phase.now) }
{
    match phase {
        Phase::Gone => {
            let reaction = only_one(alloc, quietly(alloc, Phase::Gone))?;
            Ok(reaction)
        }
        Phase::Greet(number) => {
            let reaction = row_greet(alloc, view, now, *number, frame)?;
            Ok(reaction)
        }
        Phase::Await(terms, key, source) => {
            let reaction = row_await(alloc, view, now, phase, terms, key, source, frame)?;
            Ok(reaction)
        }
        Phase::Ask(terms, key) => {
            let reaction = row_ask(alloc, view, now, phase, terms, key, frame)?;
            Ok(reaction)
        }
        Phase::Fresh => {
            let reaction = row_fresh(alloc, view, now, frame)?;
            Ok(reaction)
        }
        Phase::Ready(terms, last) => {
            let reaction = row_ready(alloc, view, sessions, now, sid, phase, terms, last, frame)?;
            Ok(reaction)
        }
        Phase::Offer(terms, key, source) => {
            let reaction = row_offer(
                alloc, view, sessions, now, sid, phase, terms, key, source, frame,
            )?;
            Ok(reaction)
        }
        Phase::Send(role, terms, key, source, awaited) => {
            let reaction = row_send(
                alloc, view, now, phase, *role, terms, key, source, *awaited, frame,
            )?;
            Ok(reaction)
        }
        Phase::Take(role, terms, key, came) => {
            let reaction = row_take(alloc, view, now, phase, *role, terms, key, *came, frame)?;
            Ok(reaction)
        }
    }
}

/// Whether the Process of a session isn't live any more.
fn is_dead<T: Texts>(view: &NodeView<T>, number: Option<ProcNo>) -> bool
    ensures { result ≡ is_dead (view_of T.read view.now.config.now view.now.book.now.entries) number }
{
    match number {
        None => false,
        Some(number) => !view.book.is_live(number),
    }
}

/// The first reaction of what is done about a frame of a session that is in this phase. The journal is legal.
pub fn first_reaction<'a, T: Texts, S: Sessions>(
    alloc: Global,
    view: &NodeView<T>,
    sessions: &S,
    now: Moment,
    sid: u64,
    frame: &Frame<'a>,
    phase: &Phase,
) -> Result<Reaction<'a>, NoMemory>
    requires legal { is_legal T.read view.now.book.now.entries ≡ true }
    requires phase { phase.now ≡ (S.seen sessions.now).phase sid }
    ensures { IfOk result (λ reaction. seen_reaction reaction ≡ first_reaction (view_of T.read view.now.config.now view.now.book.now.entries) (S.seen sessions.now) now sid (message_of frame.now)) }
{
    if is_dead(view, own_number(phase)) || sessions.is_detached(sid, key_under_way(phase)) {
        let reaction = close(alloc, view, now, phase)?;
        Ok(reaction)
    } else {
        let row = reaction_in(alloc, view, sessions, now, sid, frame, phase)?;
        let made = checked(alloc, view, now, phase, row)?;
        Ok(made)
    }
}

/// A session of another node was accepted.
pub fn accepted<'a>(alloc: Global) -> Result<Reaction<'a>, NoMemory>
    ensures { IfOk result (λ reaction. seen_reaction reaction ≡ only row_accept) }
{
    let reaction = only_one(alloc, quietly(alloc, Phase::Fresh))?;
    Ok(reaction)
}
