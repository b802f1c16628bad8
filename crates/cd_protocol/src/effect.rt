//! What is done about a happening, as the program holds it.
ghost use Rattle.std.specs.Prelude.{◌≡◌};
ghost use Rattle.cd_frames.specs.Message.{message_of};
ghost use Rattle.cd_protocol.specs.Seen.{seen_frame};

use crate::{Continuation, Phase};
use cd_entries::Entry;
use cd_frames::{Frame, Hello, Welcome};
use cd_types::{Bytes, Cause, Disp, Key, Outcomes, ProcNo};

/// A frame that is to be sent. It owns the name of the file that it tells, and the bytes of a piece are lent.
#[derive(Debug, Drop)]
pub enum Outgoing<'a> {
    Hello(Hello),
    Welcome(Welcome),
    StepCopyTo(Key, Bytes, Disp, u64, u64),
    StepCopyFrom(Key, Bytes, u64),
    Ready(Key, u64),
    Length(Key, u64),
    Data(Key, u64, &'a [u8]),
    Ack(Key, u64),
    End(Key, u64),
    Result(Key, Outcomes),
    Abort(Key, Cause),
    Forget(u64, ProcNo),
    Bye,
}

impl<'a> Outgoing<'a> {
    /// The frame, which is lent.
    pub fn frame(&self) -> Frame<'_>
        ensures { message_of result ≡ seen_frame self.now }
    {
        match self {
            Outgoing::Hello(hello) => Frame::Hello(*hello),
            Outgoing::Welcome(welcome) => Frame::Welcome(*welcome),
            Outgoing::StepCopyTo(key, name, disp, interval, length) => {
                Frame::StepCopyTo(*key, name.as_slice(), *disp, *interval, *length)
            }
            Outgoing::StepCopyFrom(key, name, interval) => {
                Frame::StepCopyFrom(*key, name.as_slice(), *interval)
            }
            Outgoing::Ready(key, offset) => Frame::Ready(*key, *offset),
            Outgoing::Length(key, length) => Frame::Length(*key, *length),
            Outgoing::Data(key, offset, bytes) => Frame::Data(*key, *offset, *bytes),
            Outgoing::Ack(key, offset) => Frame::Ack(*key, *offset),
            Outgoing::End(key, length) => Frame::End(*key, *length),
            Outgoing::Result(key, outcomes) => Frame::Result(*key, *outcomes),
            Outgoing::Abort(key, cause) => Frame::Abort(*key, *cause),
            Outgoing::Forget(home, number) => Frame::Forget(*home, *number),
            Outgoing::Bye => Frame::Bye,
        }
    }
}

/// One thing that is done, and that can be cut off.
#[derive(Debug, Drop)]
pub enum Effect<'a> {
    /// An entry is recorded.
    Keep(Entry),
    /// Bytes are written into a file of this name, from a place on.
    Write(Bytes, u64, &'a [u8]),
    /// A file is cut to a length.
    Cut(Bytes, u64),
    /// A file is synced.
    Sync(Bytes),
    /// A file is removed.
    Remove(Bytes),
    /// A step is under way: the session holds its key from now on, and is in this phase.
    Begin(Key, Phase),
    /// The frame at hand is done: the session's phase from now on, and the frames that are sent.
    Go(Phase, Vec<Outgoing<'a>>),
}

/// What is done at once about a happening, and what comes behind it.
#[derive(Debug, Drop)]
pub struct Reaction<'a> {
    pub effects: Vec<Effect<'a>>,
    pub later: Continuation,
}
