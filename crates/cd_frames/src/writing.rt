//! Writing: the length of what follows, the kind's byte, and the fields of that kind.
#![tactic(auto)]

ghost use Rattle.std.specs.Prelude.{◌≡◌, ◌+◌, ◌<◌, ◌≤◌, ◌++◌, length, vec_len, vec_capacity, IsOk, IsTrue, OnOk, OnErr};
ghost use Rattle.cd_frames.specs.Frame.{body_bytes, code_of, fields_of, frame_bytes, hello_fields, is_block, reject_fields, welcome_fields, IsFrame, IsMessage, IsWritable};
ghost use Rattle.cd_frames.specs.Message.{message_of};
ghost use Rattle.cd_frames.specs.Reject.{reject_parts, IsSendable};

use crate::frame::{Frame, Hello, RejectCause, Welcome};
use crate::kind;
use cd_types::{Field, NoMemory, file_size, put_file, put_text, put_three, put_two, text_size};

/// Appends a frame's bytes. Where the spare room of `into` holds them it takes no memory.
pub fn write_frame(frame: &Frame, into: &mut Vec<u8>) -> Result<(), NoMemory>
    requires fields { IsWritable (message_of frame.now) }
    requires short { length (body_bytes (message_of frame.now)) ≤ 131072 }
    ensures form { IsFrame (message_of frame.now) }
    ensures ok { OnOk result (into.new.items ≡ into.old.items ++ frame_bytes (message_of frame.now)) }
    ensures err { OnErr result (into.new.items ≡ into.old.items) }
    ensures room { vec_len into.old + length (frame_bytes (message_of frame.now)) ≤ vec_capacity into.old → IsOk result }
{
    into.reserve(size_of(frame))?;
    put_frame(frame, into);
    Ok(())
}

/// How many bytes a frame has.
#[tactic(auto, unfolding(crate::specs::Frame::frame_bytes))]
fn size_of(frame: &Frame) -> usize
    requires fields { IsWritable (message_of frame.now) }
    requires short { length (body_bytes (message_of frame.now)) ≤ 131072 }
    ensures size { result ≡ length (frame_bytes (message_of frame.now)) }
    ensures form { IsMessage (message_of frame.now) }
    ensures short { result ≤ 131076 }
{
    let size = body_size(frame) as u32;
    size.size() + size as usize
}

/// Appends a frame's bytes. It takes no memory.
#[tactic(auto, unfolding(crate::specs::Frame::frame_bytes))]
fn put_frame(frame: &Frame, into: &mut Vec<u8>)
    requires fields { IsWritable (message_of frame.now) }
    requires short { length (body_bytes (message_of frame.now)) ≤ 131072 }
    requires room { vec_len into.old + length (frame_bytes (message_of frame.now)) ≤ vec_capacity into.old }
    ensures { into.new.items ≡ into.old.items ++ frame_bytes (message_of frame.now) }
{
    (body_size(frame) as u32).put(into);
    put_body(frame, into);
}

/// How many bytes stand behind a frame's length.
fn body_size(frame: &Frame) -> usize
    requires fields { IsWritable (message_of frame.now) }
    requires short { length (body_bytes (message_of frame.now)) ≤ 131072 }
    ensures size { result ≡ length (body_bytes (message_of frame.now)) }
    ensures form { IsMessage (message_of frame.now) }
{
    code_of(frame).size() + fields_size(frame)
}

/// Appends what stands behind a frame's length. It takes no memory.
fn put_body(frame: &Frame, into: &mut Vec<u8>)
    requires fields { IsWritable (message_of frame.now) }
    requires room { vec_len into.old + length (body_bytes (message_of frame.now)) ≤ vec_capacity into.old }
    ensures { into.new.items ≡ into.old.items ++ body_bytes (message_of frame.now) }
{
    code_of(frame).put(into);
    put_fields(frame, into);
}

/// The byte of a frame's kind.
fn code_of(frame: &Frame) -> u8
    ensures { result ≡ code_of (message_of frame.now) }
{
    match frame {
        Frame::Hello(_) => kind::HELLO,
        Frame::Welcome(_) => kind::WELCOME,
        Frame::Reject(_) => kind::REJECT,
        Frame::StepCopyTo(..) => kind::STEP_COPY_TO,
        Frame::StepCopyFrom(..) => kind::STEP_COPY_FROM,
        Frame::StepTask(..) => kind::STEP_TASK,
        Frame::StepSubmit(..) => kind::STEP_SUBMIT,
        Frame::Ready(..) => kind::READY,
        Frame::Length(..) => kind::LENGTH,
        Frame::Data(..) => kind::DATA,
        Frame::Ack(..) => kind::ACK,
        Frame::End(..) => kind::END,
        Frame::Result(..) => kind::RESULT,
        Frame::Abort(..) => kind::ABORT,
        Frame::Forget(..) => kind::FORGET,
        Frame::Bye => kind::BYE,
    }
}

/// How many bytes a frame's fields have.
#[tactic(auto, using(crate::proofs::FrameLaw::command_is_text))]
fn fields_size(frame: &Frame) -> usize
    requires fields { IsWritable (message_of frame.now) }
    requires short { length (body_bytes (message_of frame.now)) ≤ 131072 }
    ensures size { result ≡ length (fields_of (message_of frame.now)) }
    ensures form { IsMessage (message_of frame.now) }
{
    match frame {
        Frame::Hello(hello) => hello_size(hello),
        Frame::Welcome(welcome) => welcome_size(welcome),
        Frame::Reject(cause) => reject_size(cause),
        Frame::StepCopyTo(key, name, disp, interval, length) => {
            key.size() + file_size(name) + disp.size() + interval.size() + length.size()
        }
        Frame::StepCopyFrom(key, name, interval) => key.size() + file_size(name) + interval.size(),
        Frame::StepTask(key, kind, command) => key.size() + kind.size() + text_size(command),
        Frame::StepSubmit(key, name, snode, prty, symbols) => {
            key.size() + file_size(name) + snode.size() + prty.size() + symbols.len()
        }
        Frame::Ready(key, number) => key.size() + number.size(),
        Frame::Length(key, number) => key.size() + number.size(),
        Frame::Data(key, offset, bytes) => key.size() + offset.size() + bytes.len(),
        Frame::Ack(key, number) => key.size() + number.size(),
        Frame::End(key, number) => key.size() + number.size(),
        Frame::Result(key, outcomes) => key.size() + outcomes.size(),
        Frame::Abort(key, cause) => key.size() + cause.size(),
        Frame::Forget(home, number) => home.size() + number.size(),
        Frame::Bye => 0,
    }
}

/// Appends the bytes of a frame's fields. It takes no memory.
#[tactic(auto, using(crate::proofs::FrameLaw::command_is_text))]
fn put_fields(frame: &Frame, into: &mut Vec<u8>)
    requires fields { IsWritable (message_of frame.now) }
    requires room { vec_len into.old + length (fields_of (message_of frame.now)) ≤ vec_capacity into.old }
    ensures { into.new.items ≡ into.old.items ++ fields_of (message_of frame.now) }
{
    match frame {
        Frame::Hello(hello) => put_hello(hello, into),
        Frame::Welcome(welcome) => put_three(&welcome.name, &welcome.home, &welcome.block, into),
        Frame::Reject(cause) => put_reject(cause, into),
        Frame::StepCopyTo(key, name, disp, interval, length) => {
            key.put(into);
            put_file(name, into);
            put_three(disp, interval, length, into);
        }
        Frame::StepCopyFrom(key, name, interval) => {
            key.put(into);
            put_file(name, into);
            interval.put(into);
        }
        Frame::StepTask(key, kind, command) => {
            put_two(key, kind, into);
            put_text(command, into);
        }
        Frame::StepSubmit(key, name, snode, prty, symbols) => {
            key.put(into);
            put_file(name, into);
            put_two(snode, prty, into);
            put_rest(symbols, into);
        }
        Frame::Ready(key, number) => put_two(key, number, into),
        Frame::Length(key, number) => put_two(key, number, into),
        Frame::Data(key, offset, bytes) => {
            put_two(key, offset, into);
            put_rest(bytes, into);
        }
        Frame::Ack(key, number) => put_two(key, number, into),
        Frame::End(key, number) => put_two(key, number, into),
        Frame::Result(key, outcomes) => put_two(key, outcomes, into),
        Frame::Abort(key, cause) => put_two(key, cause, into),
        Frame::Forget(home, number) => put_two(home, number, into),
        Frame::Bye => {}
    }
}

/// Appends bytes as they are. It takes no memory.
fn put_rest(bytes: &[u8], into: &mut Vec<u8>)
    requires room { vec_len into.old + length bytes.now ≤ vec_capacity into.old }
    ensures { into.new.items ≡ into.old.items ++ bytes.now }
{
    into.extend_from_slice(bytes).unwrap();
}

/// How many bytes the fields of a Hello have.
fn hello_size(hello: &Hello) -> usize
    requires { IsTrue (is_block hello.now.block) }
    ensures size { result ≡ length (hello_fields.spelled hello.now) }
    ensures form { hello_fields.Form hello.now }
    ensures short { result < 100 }
{
    hello.name.size() + hello.home.size() + hello.version.size() + hello.block.size()
}

/// Appends the fields of a Hello. It takes no memory.
fn put_hello(hello: &Hello, into: &mut Vec<u8>)
    requires room { vec_len into.old + length (hello_fields.spelled hello.now) ≤ vec_capacity into.old }
    ensures { into.new.items ≡ into.old.items ++ hello_fields.spelled hello.now }
{
    put_two(&hello.name, &hello.home, into);
    put_two(&hello.version, &hello.block, into);
}

/// How many bytes the fields of a Welcome have.
fn welcome_size(welcome: &Welcome) -> usize
    requires { IsTrue (is_block welcome.now.block) }
    ensures size { result ≡ length (welcome_fields.spelled welcome.now) }
    ensures form { welcome_fields.Form welcome.now }
    ensures short { result < 100 }
{
    welcome.name.size() + welcome.home.size() + welcome.block.size()
}

/// The byte of a reason, and its number.
fn reject_parts(cause: &RejectCause) -> (u8, u64)
    requires { IsSendable cause.now }
    ensures { result ≡ reject_parts cause.now }
{
    match cause {
        RejectCause::VersionUnknown(version) => (1, *version),
        RejectCause::SameHome(home) => (2, *home),
        RejectCause::UnknownNode(number) => (3, *number),
        RejectCause::Busy(sessions) => (4, *sessions),
        RejectCause::OtherName(_) => unreachable!(),
    }
}

/// How many bytes the fields of a Reject have.
fn reject_size(cause: &RejectCause) -> usize
    requires { IsSendable cause.now }
    ensures size { result ≡ length (reject_fields.spelled cause.now) }
    ensures form { reject_fields.Form cause.now }
    ensures short { result < 100 }
{
    let (code, number) = reject_parts(cause);
    code.size() + number.size()
}

/// Appends the fields of a Reject. It takes no memory.
fn put_reject(cause: &RejectCause, into: &mut Vec<u8>)
    requires sendable { IsSendable cause.now }
    requires room { vec_len into.old + length (reject_fields.spelled cause.now) ≤ vec_capacity into.old }
    ensures { into.new.items ≡ into.old.items ++ reject_fields.spelled cause.now }
{
    let (code, number) = reject_parts(cause);
    put_two(&code, &number, into);
}
