//! What both sides of a session do about a frame: a source is sent, and a destination is received.
ghost use Rattle.std.specs.Prelude.{◌≡◌, ◌+◌, ◌≤◌, true, Some, IfOk};
ghost use Rattle.cd_frames.specs.Message.{message_of};
ghost use Rattle.cd_rules.specs.Legal.{is_legal};
ghost use Rattle.cd_protocol.specs.Rows.{ready_from, row_send, row_take_of, row_take};
ghost use Rattle.cd_protocol.specs.Seen.{seen_reaction};
ghost use Rattle.cd_rules.specs.Status.{status};
ghost use Rattle.cd_session_rules.specs.NodeView.{view_of};

use crate::closing::close;
use crate::receiving::{drop_back, gives_up, is_piece_at, land, take_piece};
use crate::sending::send_from;
use crate::view::NodeView;
use cd_book::{Status, Texts, same_key};
use cd_frames::Frame;
use cd_protocol::{Phase, Reaction, SessionTerms, Source};
use cd_types::{Key, Moment, NoMemory, Receiving, Side};
use std::alloc::Global;

/// A source is sent, or sent anew, from an offset within its length.
pub fn ready_from<'a, T: Texts>(
    alloc: Global,
    view: &NodeView<T>,
    now: Moment,
    phase: &Phase,
    role: Side,
    terms: &SessionTerms,
    key: &Key,
    source: &Source,
    offset: u64,
) -> Result<Reaction<'a>, NoMemory>
    ensures { IfOk result (λ reaction. seen_reaction reaction ≡ ready_from (view_of T.read view.now.config.now view.now.book.now.entries) now phase.now role terms.now key.now (Some source.now) offset) }
{
    if offset <= source.length {
        let reaction = send_from(alloc, role, terms, key, source, offset)?;
        Ok(reaction)
    } else {
        let reaction = close(alloc, view, now, phase)?;
        Ok(reaction)
    }
}

/// The same, where a source was announced.
pub fn ready_with<'a, T: Texts>(
    alloc: Global,
    view: &NodeView<T>,
    now: Moment,
    phase: &Phase,
    role: Side,
    terms: &SessionTerms,
    key: &Key,
    source: &Option<Source>,
    offset: u64,
) -> Result<Reaction<'a>, NoMemory>
    ensures { IfOk result (λ reaction. seen_reaction reaction ≡ ready_from (view_of T.read view.now.config.now view.now.book.now.entries) now phase.now role terms.now key.now source.now offset) }
{
    match source {
        None => {
            let reaction = close(alloc, view, now, phase)?;
            Ok(reaction)
        }
        Some(source) => {
            let reaction = ready_from(alloc, view, now, phase, role, terms, key, source, offset)?;
            Ok(reaction)
        }
    }
}

/// The next piece goes out on the Ack of the last one.
pub fn row_send<'a, T: Texts>(
    alloc: Global,
    view: &NodeView<T>,
    now: Moment,
    phase: &Phase,
    role: Side,
    terms: &SessionTerms,
    key: &Key,
    source: &Source,
    awaited: u64,
    frame: &Frame<'_>,
) -> Result<Reaction<'a>, NoMemory>
    ensures { IfOk result (λ reaction. seen_reaction reaction ≡ row_send (view_of T.read view.now.config.now view.now.book.now.entries) now phase.now role terms.now key.now source.now awaited (message_of frame.now)) }
{
    match frame {
        Frame::Ack(step, offset) => {
            if same_key(step, key) && *offset == awaited {
                let reaction = send_from(alloc, role, terms, key, source, *offset)?;
                Ok(reaction)
            } else {
                let reaction = close(alloc, view, now, phase)?;
                Ok(reaction)
            }
        }
        _ => {
            let reaction = close(alloc, view, now, phase)?;
            Ok(reaction)
        }
    }
}

/// A piece comes, or the end, or the sender gives up.
fn row_take_of<'a, T: Texts>(
    alloc: Global,
    view: &NodeView<T>,
    now: Moment,
    phase: &Phase,
    role: Side,
    terms: &SessionTerms,
    receiving: &Receiving,
    came: u64,
    frame: &Frame<'a>,
) -> Result<Reaction<'a>, NoMemory>
    requires { receiving.now.base + receiving.now.length ≤ u64.MAX }
    ensures { IfOk result (λ reaction. seen_reaction reaction ≡ row_take_of (view_of T.read view.now.config.now view.now.book.now.entries) now phase.now role terms.now receiving.now came (message_of frame.now)) }
{
    match frame {
        Frame::Data(step, offset, bytes) => {
            if same_key(step, &receiving.key)
                && is_piece_at(terms, receiving, came, *offset, bytes.len() as u64)
            {
                let reaction = take_piece(alloc, role, terms, receiving, came, *bytes)?;
                Ok(reaction)
            } else {
                let reaction = close(alloc, view, now, phase)?;
                Ok(reaction)
            }
        }
        Frame::End(step, length) => {
            if same_key(step, &receiving.key)
                && *length == receiving.length
                && came == receiving.length
            {
                let reaction = land(alloc, role, terms, receiving, now)?;
                Ok(reaction)
            } else {
                let reaction = close(alloc, view, now, phase)?;
                Ok(reaction)
            }
        }
        Frame::Abort(step, why) => {
            if same_key(step, &receiving.key) && gives_up(*why) {
                let reaction = drop_back(alloc, role, terms, &receiving.key, *why)?;
                Ok(reaction)
            } else {
                let reaction = close(alloc, view, now, phase)?;
                Ok(reaction)
            }
        }
        _ => {
            let reaction = close(alloc, view, now, phase)?;
            Ok(reaction)
        }
    }
}

/// A frame comes while a destination is received. The journal is legal.
pub fn row_take<'a, T: Texts>(
    alloc: Global,
    view: &NodeView<T>,
    now: Moment,
    phase: &Phase,
    role: Side,
    terms: &SessionTerms,
    key: &Key,
    came: u64,
    frame: &Frame<'a>,
) -> Result<Reaction<'a>, NoMemory>
    requires { is_legal T.read view.now.book.now.entries ≡ true }
    ensures { IfOk result (λ reaction. seen_reaction reaction ≡ row_take (view_of T.read view.now.config.now view.now.book.now.entries) now phase.now role terms.now came (message_of frame.now) (status view.now.book.now.entries key.now)) }
{
    match view.book.status(key) {
        Status::Open(receiving, _) => {
            let reaction = row_take_of(
                alloc, view, now, phase, role, terms, receiving, came, frame,
            )?;
            Ok(reaction)
        }
        Status::Fresh => {
            let reaction = close(alloc, view, now, phase)?;
            Ok(reaction)
        }
        Status::Started(_, _) => {
            let reaction = close(alloc, view, now, phase)?;
            Ok(reaction)
        }
        Status::Done(_) => {
            let reaction = close(alloc, view, now, phase)?;
            Ok(reaction)
        }
    }
}
