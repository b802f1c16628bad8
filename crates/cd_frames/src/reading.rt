//! Reading: the fields of each kind, which have to be all of the bytes behind a frame's length.
ghost use Rattle.std.specs.Prelude.{◌≡◌, option_map, IfSome};
ghost use Rattle.cd_frames.specs.Frame.{body_bytes, is_abort, is_block, is_command, is_piece, message_in, IsMessage, hello_of, welcome_of, reject_of, step_copy_to_of, step_copy_from_of, step_task_of, step_submit_of, ready_of, length_of, data_of, ack_of, end_of, result_of, abort_of, forget_of, bye_of, key_and_number};
ghost use Rattle.cd_frames.specs.Message.{message_of};
ghost use Rattle.cd_frames.specs.Reject.{reject_in};
ghost use Rattle.cd_types.specs.Text.{ranged_in};

use crate::frame::{Frame, Hello, RejectCause, Welcome};
use crate::kind;
use crate::symbols::is_symbols;
use cd_types::{
    Cause, Disp, Field, Key, LONGEST_PIECE, LONGEST_TASK, NodeName, Outcomes, ProcNo, TaskKind,
    file_front, text_front,
};

/// The frame that the bytes behind a length are, all of them; `None` exactly where they are none.
pub(crate) fn frame_of(bytes: &[u8]) -> Option<Frame<'_>>
    ensures frame { option_map message_of result ≡ message_in bytes.now }
    ensures form { IfSome result (λ frame. IsMessage (message_of frame)) }
    ensures whole { IfSome result (λ frame. bytes.now ≡ body_bytes (message_of frame)) }
{
    frame_by_kind(bytes)
}

#[tactic(auto, unfolding(crate::specs::Frame::message_in))]
fn frame_by_kind(bytes: &[u8]) -> Option<Frame<'_>>
    ensures { option_map message_of result ≡ message_in bytes.now }
{
    let (code, rest) = u8::front(bytes)?;
    match code {
        kind::HELLO => hello_of(rest),
        kind::WELCOME => welcome_of(rest),
        kind::REJECT => reject_of(rest),
        kind::STEP_COPY_TO => step_copy_to_of(rest),
        kind::STEP_COPY_FROM => step_copy_from_of(rest),
        kind::STEP_TASK => step_task_of(rest),
        kind::STEP_SUBMIT => step_submit_of(rest),
        kind::READY => ready_of(rest),
        kind::LENGTH => length_of(rest),
        kind::DATA => data_of(rest),
        kind::ACK => ack_of(rest),
        kind::END => end_of(rest),
        kind::RESULT => result_of(rest),
        kind::ABORT => abort_of(rest),
        kind::FORGET => forget_of(rest),
        kind::BYE => bye_of(rest),
        _ => None,
    }
}

/// The block at the front, and the bytes after it.
#[tactic(auto, unfolding(cd_types::specs::Text::ranged_in))]
fn block_front(bytes: &[u8]) -> Option<(u32, &[u8])>
    ensures { option_map (λ found. (found.0, found.1.now)) result ≡ ranged_in 4 is_block bytes.now }
{
    let (block, rest) = u32::front(bytes)?;
    if block >= 1 && block as usize <= LONGEST_PIECE {
        Some((block, rest))
    } else {
        None
    }
}

#[tactic(auto, unfolding(crate::specs::Frame::hello_of))]
fn hello_of(bytes: &[u8]) -> Option<Frame<'_>>
    ensures { option_map message_of result ≡ hello_of bytes.now }
{
    let Some((name, rest)) = NodeName::front(bytes) else {
        return None;
    };
    let (home, rest) = u64::front(rest)?;
    let (version, rest) = u8::front(rest)?;
    let (block, rest) = block_front(rest)?;
    if !rest.is_empty() {
        return None;
    }
    Some(Frame::Hello(Hello {
        name,
        home,
        version,
        block,
    }))
}

#[tactic(auto, unfolding(crate::specs::Frame::welcome_of))]
fn welcome_of(bytes: &[u8]) -> Option<Frame<'_>>
    ensures { option_map message_of result ≡ welcome_of bytes.now }
{
    let Some((name, rest)) = NodeName::front(bytes) else {
        return None;
    };
    let (home, rest) = u64::front(rest)?;
    let (block, rest) = block_front(rest)?;
    if !rest.is_empty() {
        return None;
    }
    Some(Frame::Welcome(Welcome { name, home, block }))
}

/// The reason at the front, and the bytes after it.
#[tactic(auto, unfolding(crate::specs::Reject::reject_in))]
fn reject_front(bytes: &[u8]) -> Option<(RejectCause, &[u8])>
    ensures { option_map (λ found. (found.0, found.1.now)) result ≡ reject_in bytes.now }
{
    let (code, rest) = u8::front(bytes)?;
    let (number, rest) = u64::front(rest)?;
    match code {
        1 => Some((RejectCause::VersionUnknown(number), rest)),
        2 => Some((RejectCause::SameHome(number), rest)),
        3 => Some((RejectCause::UnknownNode(number), rest)),
        4 => Some((RejectCause::Busy(number), rest)),
        _ => None,
    }
}

#[tactic(auto, unfolding(crate::specs::Frame::reject_of))]
fn reject_of(bytes: &[u8]) -> Option<Frame<'_>>
    ensures { option_map message_of result ≡ reject_of bytes.now }
{
    let Some((cause, rest)) = reject_front(bytes) else {
        return None;
    };
    if !rest.is_empty() {
        return None;
    }
    Some(Frame::Reject(cause))
}

#[tactic(auto, unfolding(crate::specs::Frame::step_copy_to_of))]
fn step_copy_to_of(bytes: &[u8]) -> Option<Frame<'_>>
    ensures { option_map message_of result ≡ step_copy_to_of bytes.now }
{
    let Some((key, rest)) = Key::front(bytes) else {
        return None;
    };
    let (name, rest) = file_front(rest)?;
    let (disp, rest) = Disp::front(rest)?;
    let (interval, rest) = u64::front(rest)?;
    let (length, rest) = u64::front(rest)?;
    if !rest.is_empty() {
        return None;
    }
    Some(Frame::StepCopyTo(key, name, disp, interval, length))
}

#[tactic(auto, unfolding(crate::specs::Frame::step_copy_from_of))]
fn step_copy_from_of(bytes: &[u8]) -> Option<Frame<'_>>
    ensures { option_map message_of result ≡ step_copy_from_of bytes.now }
{
    let Some((key, rest)) = Key::front(bytes) else {
        return None;
    };
    let (name, rest) = file_front(rest)?;
    let (interval, rest) = u64::front(rest)?;
    if !rest.is_empty() {
        return None;
    }
    Some(Frame::StepCopyFrom(key, name, interval))
}

/// Whether a command has 1 to 32,768 bytes.
fn is_command(command: &[u8]) -> bool
    ensures { result ≡ is_command command.now }
{
    !command.is_empty() && command.len() <= LONGEST_TASK
}

#[tactic(auto, unfolding(crate::specs::Frame::step_task_of))]
fn step_task_of(bytes: &[u8]) -> Option<Frame<'_>>
    ensures { option_map message_of result ≡ step_task_of bytes.now }
{
    let Some((key, rest)) = Key::front(bytes) else {
        return None;
    };
    let (kind, rest) = TaskKind::front(rest)?;
    let (command, rest) = text_front(rest)?;
    if !is_command(command) || !rest.is_empty() {
        return None;
    }
    Some(Frame::StepTask(key, kind, command))
}

#[tactic(auto, unfolding(crate::specs::Frame::step_submit_of))]
fn step_submit_of(bytes: &[u8]) -> Option<Frame<'_>>
    ensures { option_map message_of result ≡ step_submit_of bytes.now }
{
    let Some((key, rest)) = Key::front(bytes) else {
        return None;
    };
    let (name, rest) = file_front(rest)?;
    let Some((snode, rest)) = Option::<NodeName>::front(rest) else {
        return None;
    };
    let (prty, symbols) = u8::front(rest)?;
    if !is_symbols(symbols) {
        return None;
    }
    Some(Frame::StepSubmit(key, name, snode, prty, symbols))
}

/// The key and the number that the bytes are, all of them.
fn key_and_number(bytes: &[u8]) -> Option<(Key, u64)>
    ensures { result ≡ key_and_number.read bytes.now }
{
    let Some((key, rest)) = Key::front(bytes) else {
        return None;
    };
    let (number, rest) = u64::front(rest)?;
    if !rest.is_empty() {
        return None;
    }
    Some((key, number))
}

#[tactic(auto, unfolding(crate::specs::Frame::ready_of))]
fn ready_of(bytes: &[u8]) -> Option<Frame<'_>>
    ensures { option_map message_of result ≡ ready_of bytes.now }
{
    let (key, number) = key_and_number(bytes)?;
    Some(Frame::Ready(key, number))
}

#[tactic(auto, unfolding(crate::specs::Frame::length_of))]
fn length_of(bytes: &[u8]) -> Option<Frame<'_>>
    ensures { option_map message_of result ≡ length_of bytes.now }
{
    let (key, number) = key_and_number(bytes)?;
    Some(Frame::Length(key, number))
}

#[tactic(auto, unfolding(crate::specs::Frame::ack_of))]
fn ack_of(bytes: &[u8]) -> Option<Frame<'_>>
    ensures { option_map message_of result ≡ ack_of bytes.now }
{
    let (key, number) = key_and_number(bytes)?;
    Some(Frame::Ack(key, number))
}

#[tactic(auto, unfolding(crate::specs::Frame::end_of))]
fn end_of(bytes: &[u8]) -> Option<Frame<'_>>
    ensures { option_map message_of result ≡ end_of bytes.now }
{
    let (key, number) = key_and_number(bytes)?;
    Some(Frame::End(key, number))
}

/// Whether Data may have these bytes: 1 to 65,536 of them.
fn is_piece(bytes: &[u8]) -> bool
    ensures { result ≡ is_piece bytes.now }
{
    !bytes.is_empty() && bytes.len() <= LONGEST_PIECE
}

#[tactic(auto, unfolding(crate::specs::Frame::data_of))]
fn data_of(bytes: &[u8]) -> Option<Frame<'_>>
    ensures { option_map message_of result ≡ data_of bytes.now }
{
    let Some((key, rest)) = Key::front(bytes) else {
        return None;
    };
    let (offset, piece) = u64::front(rest)?;
    if !is_piece(piece) {
        return None;
    }
    Some(Frame::Data(key, offset, piece))
}

#[tactic(auto, unfolding(crate::specs::Frame::result_of))]
fn result_of(bytes: &[u8]) -> Option<Frame<'_>>
    ensures { option_map message_of result ≡ result_of bytes.now }
{
    let Some((key, rest)) = Key::front(bytes) else {
        return None;
    };
    let (outcomes, rest) = Outcomes::front(rest)?;
    if !rest.is_empty() {
        return None;
    }
    Some(Frame::Result(key, outcomes))
}

/// Whether a step is given up with this cause.
#[tactic(auto, unfolding(crate::specs::Frame::is_abort))]
fn is_abort(cause: Cause) -> bool
    ensures { result ≡ is_abort cause }
{
    matches!(
        cause,
        Cause::NoSource | Cause::SourceChanged | Cause::TooLarge | Cause::Trouble
    )
}

#[tactic(auto, unfolding(crate::specs::Frame::abort_of))]
fn abort_of(bytes: &[u8]) -> Option<Frame<'_>>
    ensures { option_map message_of result ≡ abort_of bytes.now }
{
    let Some((key, rest)) = Key::front(bytes) else {
        return None;
    };
    let (cause, rest) = Cause::front(rest)?;
    if !is_abort(cause) || !rest.is_empty() {
        return None;
    }
    Some(Frame::Abort(key, cause))
}

#[tactic(auto, unfolding(crate::specs::Frame::forget_of))]
fn forget_of(bytes: &[u8]) -> Option<Frame<'_>>
    ensures { option_map message_of result ≡ forget_of bytes.now }
{
    let (home, rest) = u64::front(bytes)?;
    let Some((number, rest)) = ProcNo::front(rest) else {
        return None;
    };
    if !rest.is_empty() {
        return None;
    }
    Some(Frame::Forget(home, number))
}

#[tactic(auto, unfolding(crate::specs::Frame::bye_of))]
fn bye_of(bytes: &[u8]) -> Option<Frame<'_>>
    ensures { option_map message_of result ≡ bye_of bytes.now }
{
    if bytes.is_empty() {
        Some(Frame::Bye)
    } else {
        None
    }
}
