//! A step was sent.
ghost use Rattle.std.specs.Prelude.{◌≡◌, IfOk};
ghost use Rattle.cd_frames.specs.Message.{message_of};
ghost use Rattle.cd_protocol.specs.Rows.{row_await};
ghost use Rattle.cd_protocol.specs.Seen.{seen_reaction};
ghost use Rattle.cd_session_rules.specs.NodeView.{view_of};

use cd_book::{Texts, same_key};
use cd_frames::Frame;
use cd_protocol::{Phase, Reaction, SessionTerms, Source};
use cd_session_rules::{NodeView, close, ended, ready_with};
use cd_types::{Key, Moment, NoMemory, Side};
use std::alloc::Global;

/// The partner is ready for the step's source, or tells its outcome.
pub fn row_await<'a, T: Texts>(
    alloc: Global,
    view: &NodeView<T>,
    now: Moment,
    phase: &Phase,
    terms: &SessionTerms,
    key: &Key,
    source: &Option<Source>,
    frame: &Frame<'_>,
) -> Result<Reaction<'a>, NoMemory>
    ensures { IfOk result (λ reaction. seen_reaction reaction ≡ row_await (view_of T.read view.now.config.now view.now.book.now.entries) now phase.now terms.now key.now source.now (message_of frame.now)) }
{
    match frame {
        Frame::Ready(step, offset) => {
            if same_key(step, key) {
                let reaction = ready_with(
                    alloc,
                    view,
                    now,
                    phase,
                    Side::Pnode,
                    terms,
                    key,
                    source,
                    *offset,
                )?;
                Ok(reaction)
            } else {
                let reaction = close(alloc, view, now, phase)?;
                Ok(reaction)
            }
        }
        Frame::Result(step, outcomes) => {
            if same_key(step, key) {
                let reaction = ended(alloc, terms, key, outcomes, now)?;
                Ok(reaction)
            } else {
                let reaction = close(alloc, view, now, phase)?;
                Ok(reaction)
            }
        }
        _ => {
            let reaction = close(alloc, view, now, phase)?;
            Ok(reaction)
        }
    }
}
