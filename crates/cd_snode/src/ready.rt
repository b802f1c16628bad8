//! The next step is awaited.
ghost use Rattle.std.specs.Prelude.{◌≡◌, true, IfOk};
ghost use Rattle.cd_frames.specs.Message as message;
ghost use Rattle.cd_frames.specs.Message.{message_of};
ghost use Rattle.cd_rules.specs.Legal.{is_legal};
ghost use Rattle.cd_protocol.specs.Rows.{is_in_place, row_ready};
ghost use Rattle.cd_protocol.specs.Seen.{seen_reaction};
ghost use Rattle.cd_session_rules.specs.NodeView.{view_of};

use crate::forget::forget;
use crate::take_step::take_step;
use crate::terms::{is_number_of, with_number};
use cd_book::Texts;
use cd_frames::Frame;
use cd_protocol::{Announced, Continuation, Phase, Reaction, SessionTerms};
use cd_session_rules::{NodeView, Sessions, close, given_up, later, only_one, quietly, receive};
use cd_types::{Bytes, Cause, Key, Moment, NoMemory, ProcNo, Side};
use std::alloc::Global;

/// Whether a push is given up in the place of its step.
fn is_in_place(why: Cause) -> bool
    ensures { result ≡ is_in_place why }
{
    matches!(why, Cause::NoSource | Cause::TooLarge)
}

/// The partner sends a file. The journal is legal.
fn copy_to<'a, T: Texts, S: Sessions>(
    alloc: Global,
    view: &NodeView<T>,
    sessions: &S,
    now: Moment,
    sid: u64,
    phase: &Phase,
    terms: &SessionTerms,
    last: &Option<Key>,
    key: &Key,
    announced: &Announced,
) -> Result<Reaction<'a>, NoMemory>
    requires { is_legal T.read view.now.book.now.entries ≡ true }
    ensures { IfOk result (λ reaction. seen_reaction reaction ≡ row_ready (view_of T.read view.now.config.now view.now.book.now.entries) (S.seen sessions.now) now sid phase.now terms.now last.now (message.StepCopyTo key.now announced.now.name announced.now.disp announced.now.interval announced.now.length)) }
{
    let own = with_number(key.number, terms);
    let ready = Phase::Ready(own, Some(*key));
    let row = receive(alloc, view, now, &ready, Side::Snode, &own, key, announced)?;
    let reaction = take_step(alloc, view, sessions, now, sid, phase, terms, key, row)?;
    Ok(reaction)
}

/// The partner asks for a file.
fn copy_from<'a, T: Texts, S: Sessions>(
    alloc: Global,
    view: &NodeView<T>,
    sessions: &S,
    now: Moment,
    sid: u64,
    phase: &Phase,
    terms: &SessionTerms,
    last: &Option<Key>,
    key: &Key,
    name: &[u8],
    interval: u64,
) -> Result<Reaction<'a>, NoMemory>
    ensures { IfOk result (λ reaction. seen_reaction reaction ≡ row_ready (view_of T.read view.now.config.now view.now.book.now.entries) (S.seen sessions.now) now sid phase.now terms.now last.now (message.StepCopyFrom key.now name.now interval)) }
{
    let name = Bytes::copy_of(alloc, name)?;
    let own = with_number(key.number, terms);
    let row = later(alloc, Continuation::Offered(own, *key, name, interval));
    let reaction = take_step(alloc, view, sessions, now, sid, phase, terms, key, row)?;
    Ok(reaction)
}

/// The partner gives up a push in the place of its step.
fn abort<'a, T: Texts, S: Sessions>(
    alloc: Global,
    view: &NodeView<T>,
    sessions: &S,
    now: Moment,
    sid: u64,
    phase: &Phase,
    terms: &SessionTerms,
    last: &Option<Key>,
    key: &Key,
    why: Cause,
) -> Result<Reaction<'a>, NoMemory>
    ensures { IfOk result (λ reaction. seen_reaction reaction ≡ row_ready (view_of T.read view.now.config.now view.now.book.now.entries) (S.seen sessions.now) now sid phase.now terms.now last.now (message.Abort key.now why)) }
{
    if is_in_place(why) {
        let own = with_number(key.number, terms);
        let row = given_up(alloc, view, now, Side::Snode, &own, key, why)?;
        let reaction = take_step(alloc, view, sessions, now, sid, phase, terms, key, row)?;
        Ok(reaction)
    } else {
        let reaction = close(alloc, view, now, phase)?;
        Ok(reaction)
    }
}

/// The partner's Process is over: it is forgotten, where nothing is being received for it.
fn forget_it<'a, T: Texts, S: Sessions>(
    alloc: Global,
    view: &NodeView<T>,
    sessions: &S,
    now: Moment,
    sid: u64,
    phase: &Phase,
    terms: &SessionTerms,
    last: &Option<Key>,
    home: u64,
    number: ProcNo,
) -> Result<Reaction<'a>, NoMemory>
    ensures { IfOk result (λ reaction. seen_reaction reaction ≡ row_ready (view_of T.read view.now.config.now view.now.book.now.entries) (S.seen sessions.now) now sid phase.now terms.now last.now (message.Forget home number)) }
{
    if home == terms.home
        && is_number_of(terms.number, number)
        && !view.book.is_receiving_for(&terms.pnode, home, number)
    {
        let reaction = forget(alloc, view, terms, last, number)?;
        Ok(reaction)
    } else {
        let reaction = close(alloc, view, now, phase)?;
        Ok(reaction)
    }
}

/// A frame comes where the next step is awaited. The journal is legal.
pub fn row_ready<'a, T: Texts, S: Sessions>(
    alloc: Global,
    view: &NodeView<T>,
    sessions: &S,
    now: Moment,
    sid: u64,
    phase: &Phase,
    terms: &SessionTerms,
    last: &Option<Key>,
    frame: &Frame<'_>,
) -> Result<Reaction<'a>, NoMemory>
    requires { is_legal T.read view.now.book.now.entries ≡ true }
    ensures { IfOk result (λ reaction. seen_reaction reaction ≡ row_ready (view_of T.read view.now.config.now view.now.book.now.entries) (S.seen sessions.now) now sid phase.now terms.now last.now (message_of frame.now)) }
{
    match frame {
        Frame::StepCopyTo(key, name, disp, interval, length) => {
            let announced = Announced {
                name: Bytes::copy_of(alloc, *name)?,
                disp: *disp,
                interval: *interval,
                length: *length,
            };
            let reaction = copy_to(
                alloc, view, sessions, now, sid, phase, terms, last, key, &announced,
            )?;
            Ok(reaction)
        }
        Frame::StepCopyFrom(key, name, interval) => {
            let reaction = copy_from(
                alloc, view, sessions, now, sid, phase, terms, last, key, *name, *interval,
            )?;
            Ok(reaction)
        }
        Frame::Abort(key, why) => {
            let reaction = abort(
                alloc, view, sessions, now, sid, phase, terms, last, key, *why,
            )?;
            Ok(reaction)
        }
        Frame::Forget(home, number) => {
            let reaction = forget_it(
                alloc, view, sessions, now, sid, phase, terms, last, *home, *number,
            )?;
            Ok(reaction)
        }
        Frame::Bye => {
            let reaction = only_one(alloc, quietly(alloc, Phase::Gone))?;
            Ok(reaction)
        }
        _ => {
            let reaction = close(alloc, view, now, phase)?;
            Ok(reaction)
        }
    }
}
