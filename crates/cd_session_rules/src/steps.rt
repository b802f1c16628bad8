//! Receivings by what the book says of their step.
ghost use Rattle.std.specs.Prelude.{◌≡◌, ◌+◌, ◌≤◌, true, IfOk};
ghost use Rattle.cd_rules.specs.Legal.{is_legal};
ghost use Rattle.cd_protocol.specs.Receiving.{undone, given_up, receive_again, receive_first, receive};
ghost use Rattle.cd_protocol.specs.Seen.{seen_reaction};
ghost use Rattle.cd_rules.specs.Status.{status};
ghost use Rattle.cd_session_rules.specs.NodeView.{view_of};

use crate::closing::close;
use crate::copies::{copy_announced, resized};
use crate::reaction::later;
use crate::receiving::{
    drop_back, is_same_receiving, is_small, receive_anew, refuse, resume, undo_open,
};
use crate::view::NodeView;
use cd_book::{Status, Texts};
use cd_protocol::{Announced, Continuation, Phase, Reaction, SessionTerms};
use cd_types::{Cause, Key, Moment, NoMemory, Receiving, Side};
use std::alloc::Global;

/// The file of a receiving is undone, and its step ends with its cause.
pub fn undone<'a, T: Texts>(
    alloc: Global,
    view: &NodeView<T>,
    now: Moment,
    phase: &Phase,
    role: Side,
    terms: &SessionTerms,
    key: &Key,
    why: Cause,
) -> Result<Reaction<'a>, NoMemory>
    ensures { IfOk result (λ reaction. seen_reaction reaction ≡ undone (view_of T.read view.now.config.now view.now.book.now.entries) now phase.now role terms.now key.now why (status view.now.book.now.entries key.now)) }
{
    match view.book.status(key) {
        Status::Open(receiving, _) => {
            let reaction = undo_open(alloc, role, terms, key, why, now, receiving)?;
            Ok(reaction)
        }
        Status::Fresh => {
            let reaction = close(alloc, view, now, phase)?;
            Ok(reaction)
        }
        Status::Started(_, _) => {
            let reaction = close(alloc, view, now, phase)?;
            Ok(reaction)
        }
        Status::Done(_) => {
            let reaction = close(alloc, view, now, phase)?;
            Ok(reaction)
        }
    }
}

/// The sender gave up: an open receiving is dropped back, else the step has its cause.
pub fn given_up<'a, T: Texts>(
    alloc: Global,
    view: &NodeView<T>,
    now: Moment,
    role: Side,
    terms: &SessionTerms,
    key: &Key,
    why: Cause,
) -> Result<Reaction<'a>, NoMemory>
    ensures { IfOk result (λ reaction. seen_reaction reaction ≡ given_up role terms.now key.now why now (status view.now.book.now.entries key.now)) }
{
    match view.book.status(key) {
        Status::Open(_, _) => {
            let reaction = drop_back(alloc, role, terms, key, why)?;
            Ok(reaction)
        }
        Status::Fresh => {
            let reaction = refuse(alloc, role, terms, key, why, now)?;
            Ok(reaction)
        }
        Status::Started(_, _) => {
            let reaction = refuse(alloc, role, terms, key, why, now)?;
            Ok(reaction)
        }
        Status::Done(_) => {
            let reaction = refuse(alloc, role, terms, key, why, now)?;
            Ok(reaction)
        }
    }
}

/// Of a receiving that is open: the same goes on, with another length from its beginning on.
fn receive_again<'a, T: Texts>(
    alloc: Global,
    view: &NodeView<T>,
    now: Moment,
    phase: &Phase,
    role: Side,
    terms: &SessionTerms,
    receiving: &Receiving,
    mark: u64,
    announced: &Announced,
) -> Result<Reaction<'a>, NoMemory>
    requires { receiving.now.base + mark ≤ u64.MAX }
    ensures { IfOk result (λ reaction. seen_reaction reaction ≡ receive_again (view_of T.read view.now.config.now view.now.book.now.entries) now phase.now role terms.now receiving.now mark announced.now) }
{
    if !is_same_receiving(receiving, announced) {
        let reaction = close(alloc, view, now, phase)?;
        Ok(reaction)
    } else if announced.length == receiving.length {
        let reaction = resume(alloc, role, terms, receiving, mark)?;
        Ok(reaction)
    } else if is_small(receiving.base, announced.length) {
        let receiving = resized(alloc, receiving, announced.length)?;
        let reaction = receive_anew(alloc, role, terms, receiving)?;
        Ok(reaction)
    } else {
        let reaction = drop_back(alloc, role, terms, &receiving.key, Cause::TooLarge)?;
        Ok(reaction)
    }
}

/// Of a step that is new: the file must be free.
fn receive_first<'a, T: Texts>(
    alloc: Global,
    view: &NodeView<T>,
    now: Moment,
    role: Side,
    terms: &SessionTerms,
    key: &Key,
    announced: &Announced,
) -> Result<Reaction<'a>, NoMemory>
    ensures { IfOk result (λ reaction. seen_reaction reaction ≡ receive_first (view_of T.read view.now.config.now view.now.book.now.entries) now role terms.now key.now announced.now) }
{
    if view.book.is_in_use(key, announced.name.as_slice()) {
        let reaction = refuse(alloc, role, terms, key, Cause::InUse, now)?;
        Ok(reaction)
    } else {
        let announced = copy_announced(alloc, announced)?;
        Ok(later(alloc, Continuation::Onto(role, *terms, *key, announced)))
    }
}

/// A file is announced that is to be received. The journal is legal.
pub fn receive<'a, T: Texts>(
    alloc: Global,
    view: &NodeView<T>,
    now: Moment,
    phase: &Phase,
    role: Side,
    terms: &SessionTerms,
    key: &Key,
    announced: &Announced,
) -> Result<Reaction<'a>, NoMemory>
    requires { is_legal T.read view.now.book.now.entries ≡ true }
    ensures { IfOk result (λ reaction. seen_reaction reaction ≡ receive (view_of T.read view.now.config.now view.now.book.now.entries) now phase.now role terms.now key.now announced.now) }
{
    match view.book.status(key) {
        Status::Open(receiving, mark) => {
            let reaction = receive_again(
                alloc, view, now, phase, role, terms, receiving, mark, announced,
            )?;
            Ok(reaction)
        }
        Status::Fresh => {
            let reaction = receive_first(alloc, view, now, role, terms, key, announced)?;
            Ok(reaction)
        }
        Status::Started(_, _) => {
            let reaction = receive_first(alloc, view, now, role, terms, key, announced)?;
            Ok(reaction)
        }
        Status::Done(_) => {
            let reaction = receive_first(alloc, view, now, role, terms, key, announced)?;
            Ok(reaction)
        }
    }
}
