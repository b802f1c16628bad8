//! The frames that a reaction sends are in their form.
ghost use Rattle.std.specs.Prelude.{◌≡◌};
ghost use Rattle.cd_frames.specs.Frame.{is_block, is_piece, is_abort};
ghost use Rattle.cd_protocol.specs.Rows.{is_sendable};
ghost use Rattle.cd_protocol.specs.Seen.{seen_frame};
ghost use Rattle.cd_session_rules.specs.Kept.{all_sendable, are_sent};

use cd_protocol::{Effect, Outgoing};
use cd_types::{Cause, END_OF_PLACES, LONGEST_PIECE, is_file_name};

fn is_block(block: u32) -> bool
    ensures { result ≡ is_block block }
{
    1 <= block && block as usize <= LONGEST_PIECE
}

fn is_piece(bytes: &[u8]) -> bool
    ensures { result ≡ is_piece bytes.now }
{
    1 <= bytes.len() && bytes.len() <= LONGEST_PIECE
}

#[tactic(auto, unfolding(cd_frames::specs::Frame::is_abort))]
fn is_abort(cause: Cause) -> bool
    ensures { result ≡ is_abort cause }
{
    matches!(
        cause,
        Cause::NoSource | Cause::SourceChanged | Cause::TooLarge | Cause::Trouble
    )
}

/// Whether a frame is in its form.
#[tactic(auto, unfolding(cd_protocol::specs::Rows::is_sendable))]
fn is_sendable(frame: &Outgoing<'_>) -> bool
    ensures { result ≡ is_sendable (seen_frame frame.now) }
{
    match frame {
        Outgoing::Hello(hello) => is_block(hello.block),
        Outgoing::Welcome(welcome) => is_block(welcome.block),
        Outgoing::StepCopyTo(key, name, _, _, _) => {
            key.place < END_OF_PLACES && is_file_name(name.as_slice())
        }
        Outgoing::StepCopyFrom(key, name, _) => key.place < END_OF_PLACES
            && is_file_name(name.as_slice()),
        Outgoing::Ready(key, _) => key.place < END_OF_PLACES,
        Outgoing::Length(key, _) => key.place < END_OF_PLACES,
        Outgoing::Data(key, _, bytes) => key.place < END_OF_PLACES && is_piece(*bytes),
        Outgoing::Ack(key, _) => key.place < END_OF_PLACES,
        Outgoing::End(key, _) => key.place < END_OF_PLACES,
        Outgoing::Result(key, outcomes) => key.place < END_OF_PLACES && outcomes.cause.is_kept(),
        Outgoing::Abort(key, why) => key.place < END_OF_PLACES && is_abort(*why),
        Outgoing::Forget(_, _) => true,
        Outgoing::Bye => true,
    }
}

/// Whether all of these frames are in their form.
fn all_sendable(frames: &[Outgoing<'_>]) -> bool
    ensures { result ≡ all_sendable frames.now }
{
    match frames {
        [] => true,
        [first, more @ ..] => is_sendable(first) && all_sendable(more),
    }
}

/// Whether all frames of these effects are in their form.
pub(crate) fn are_sent(effects: &[Effect<'_>]) -> bool
    ensures { result ≡ are_sent effects.now }
{
    match effects {
        [] => true,
        [first, more @ ..] => match first {
            Effect::Keep(_) => are_sent(more),
            Effect::Write(_, _, _) => are_sent(more),
            Effect::Cut(_, _) => are_sent(more),
            Effect::Sync(_) => are_sent(more),
            Effect::Remove(_) => are_sent(more),
            Effect::Begin(_, _) => are_sent(more),
            Effect::Go(_, frames) => all_sendable(frames.as_slice()) && are_sent(more),
        },
    }
}
