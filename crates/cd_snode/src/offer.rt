//! The partner asked for a file.
ghost use Rattle.std.specs.Prelude.{◌≡◌, ◌∷◌, [], true, Some, IfOk};
ghost use Rattle.cd_frames.specs.Message as message;
ghost use Rattle.cd_protocol.specs.Node.{Go, only};
ghost use Rattle.cd_protocol.specs.declared.session.Phase.TheVariants.{Ready};
ghost use Rattle.cd_frames.specs.Message.{message_of};
ghost use Rattle.cd_rules.specs.Legal.{is_legal};
ghost use Rattle.cd_protocol.specs.Rows.{offered, row_offer};
ghost use Rattle.cd_protocol.specs.Seen.{seen_reaction};
ghost use Rattle.cd_session_rules.specs.NodeView.{view_of};

use crate::ready::row_ready;
use cd_book::{Texts, same_key};
use cd_frames::Frame;
use cd_protocol::{Outgoing, Phase, Reaction, SessionTerms, Source};
use cd_session_rules::{
    GREATEST_FILE, NodeView, Sessions, close, copy_name, go, only_one, ready_from,
};
use cd_types::{Bytes, Cause, Key, Moment, NoMemory, Side};
use std::alloc::Global;

/// The file can't be sent.
fn refuse<'a>(
    alloc: Global,
    terms: &SessionTerms,
    key: &Key,
    why: Cause,
) -> Result<Reaction<'a>, NoMemory>
    ensures { IfOk result (λ reaction. seen_reaction reaction ≡ only (Go (Ready terms.now (Some key.now)) (message.Abort key.now why ∷ []) ∷ [])) }
{
    let phase = Phase::Ready(*terms, Some(*key));
    let done = go(alloc, phase, Outgoing::Abort(*key, why))?;
    let reaction = only_one(alloc, done)?;
    Ok(reaction)
}

/// The source was asked for its length, which goes out; or Abort where it is missing or too large.
pub fn offered<'a>(
    alloc: Global,
    terms: &SessionTerms,
    key: &Key,
    name: &Bytes,
    interval: u64,
    size: Option<u64>,
) -> Result<Reaction<'a>, NoMemory>
    ensures { IfOk result (λ reaction. seen_reaction reaction ≡ offered terms.now key.now name.now interval size) }
{
    match size {
        None => {
            let reaction = refuse(alloc, terms, key, Cause::NoSource)?;
            Ok(reaction)
        }
        Some(length) => {
            if length <= GREATEST_FILE {
                let source = Source {
                    name: copy_name(alloc, name)?,
                    length,
                    interval,
                };
                let phase = Phase::Offer(*terms, *key, source);
                let done = go(alloc, phase, Outgoing::Length(*key, length))?;
                let reaction = only_one(alloc, done)?;
                Ok(reaction)
            } else {
                let reaction = refuse(alloc, terms, key, Cause::TooLarge)?;
                Ok(reaction)
            }
        }
    }
}

/// Where a length was sent, Ready begins the sending; all else is as where a step is awaited. The journal is legal.
pub fn row_offer<'a, T: Texts, S: Sessions>(
    alloc: Global,
    view: &NodeView<T>,
    sessions: &S,
    now: Moment,
    sid: u64,
    phase: &Phase,
    terms: &SessionTerms,
    key: &Key,
    source: &Source,
    frame: &Frame<'_>,
) -> Result<Reaction<'a>, NoMemory>
    requires { is_legal T.read view.now.book.now.entries ≡ true }
    ensures { IfOk result (λ reaction. seen_reaction reaction ≡ row_offer (view_of T.read view.now.config.now view.now.book.now.entries) (S.seen sessions.now) now sid phase.now terms.now key.now source.now (message_of frame.now)) }
{
    match frame {
        Frame::Ready(step, offset) => {
            if same_key(step, key) {
                let reaction = ready_from(
                    alloc,
                    view,
                    now,
                    phase,
                    Side::Snode,
                    terms,
                    key,
                    source,
                    *offset,
                )?;
                Ok(reaction)
            } else {
                let reaction = close(alloc, view, now, phase)?;
                Ok(reaction)
            }
        }
        _ => {
            let reaction = row_ready(
                alloc,
                view,
                sessions,
                now,
                sid,
                phase,
                terms,
                &Some(*key),
                frame,
            )?;
            Ok(reaction)
        }
    }
}
