use cd_types::{Cause, Disp, Key, NodeName, Outcomes, ProcNo, TaskKind};
use thiserror::Error;

/// What a node says of itself when it opens a session.
#[derive(Clone, Copy, Debug, PartialEq, Eq)]
pub struct Hello {
    pub name: NodeName,
    pub home: u64,
    /// The version of the frames that it speaks.
    pub version: u8,
    /// The most bytes of a file that it takes in one frame, 1 to 65,536.
    pub block: u32,
}

/// What a node answers to a Hello that it takes.
#[derive(Clone, Copy, Debug, PartialEq, Eq)]
pub struct Welcome {
    pub name: NodeName,
    pub home: u64,
    /// The most bytes of a file in one frame of this session, 1 to 65,536.
    pub block: u32,
}

/// Why a node doesn't take a Hello, or its partner not the Welcome.
#[derive(Clone, Copy, Debug, PartialEq, Eq)]
pub enum RejectCause {
    /// It doesn't speak this version.
    VersionUnknown(u64),
    /// It has that very home.
    SameHome(u64),
    /// Its netmap doesn't have the node. The number is 0.
    UnknownNode(u64),
    /// It has as many sessions as it may have.
    Busy(u64),
    /// The partner has this name and not the one that was called. It is never sent.
    OtherName(NodeName),
}

/// A frame of a session. Files, texts, the bytes of Data and the symbols of StepSubmit are lent.
#[derive(Clone, Copy, Debug, PartialEq)]
pub enum Frame<'a> {
    /// The first frame of a session, from the node that opened it.
    Hello(Hello),
    /// The session is taken.
    Welcome(Welcome),
    /// The session isn't taken.
    Reject(RejectCause),
    /// A step that copies a file to the partner: its key, the destination, what becomes of that, how many bytes lie
    /// between two marks (0 for no marks), and how many bytes come.
    StepCopyTo(Key, &'a [u8], Disp, u64, u64),
    /// A step that copies a file of the partner: its key, the source, and how many bytes lie between two marks
    /// (0 for no marks).
    StepCopyFrom(Key, &'a [u8], u64),
    /// A step that runs a command of 1 to 32,768 bytes.
    StepTask(Key, TaskKind, &'a [u8]),
    /// A step that submits a Process: its key, the file with its text, the partner (`None`: as the text says), the
    /// priority (0: as the text says), and the symbols from their count on.
    StepSubmit(Key, &'a [u8], Option<NodeName>, u8, &'a [u8]),
    /// The receiver is ready for the bytes from this offset on.
    Ready(Key, u64),
    /// The source has this length.
    Length(Key, u64),
    /// 1 to 65,536 bytes of the file, from this offset on.
    Data(Key, u64, &'a [u8]),
    /// So many bytes have come.
    Ack(Key, u64),
    /// All bytes of a file of this length were sent.
    End(Key, u64),
    /// How the step ended.
    Result(Key, Outcomes),
    /// The step is given up.
    Abort(Key, Cause),
    /// The Process with this number, of this home, is over: its keys aren't asked for again.
    Forget(u64, ProcNo),
    /// The session is over.
    Bye,
}

/// Why the bytes of a stream give no further frame.
#[derive(Clone, Copy, Debug, PartialEq, Eq, Error)]
pub enum FrameFault {
    /// A length above 131,072 stands there.
    #[error("a frame of {0} bytes")]
    TooLong(u32),
    /// The frame that begins at this place of the stream is none.
    #[error("no frame at {0}")]
    Bad(u64),
}
