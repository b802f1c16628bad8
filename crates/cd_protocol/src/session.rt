//! What a session is between two happenings.
use cd_types::{Bytes, Cause, Disp, Key, NodeName, ProcNo, Side};

/// What holds for a whole session: the name and home that its keys have, the one number that they have
/// (once a step or a Forget has told it), and the most bytes of a piece.
#[derive(Clone, Copy, Debug, PartialEq, Eq)]
pub struct SessionTerms {
    pub pnode: NodeName,
    pub home: u64,
    pub number: Option<ProcNo>,
    pub block: u32,
}

/// A source that was announced: its name, its length, and how many bytes lie between two marks (0 for no marks).
#[derive(Debug, Drop)]
pub struct Source {
    pub name: Bytes,
    pub length: u64,
    pub interval: u64,
}

/// What is announced of a file that is to be received: its name, what becomes of it, how many bytes lie between two
/// marks (0 for no marks), and how many bytes come.
#[derive(Debug, Drop)]
pub struct Announced {
    pub name: Bytes,
    pub disp: Disp,
    pub interval: u64,
    pub length: u64,
}

/// Where a session stands.
#[derive(Debug, Drop)]
pub enum Phase {
    /// There is none, or it is closed.
    Gone,
    /// At the PNODE: for this Process Hello was sent.
    Greet(ProcNo),
    /// At the PNODE: a step was sent, with its source where that was announced; its Result is awaited, or Ready.
    Await(SessionTerms, Key, Option<Source>),
    /// At the PNODE: the partner was asked for a file; its Length is awaited.
    Ask(SessionTerms, Key),
    /// At the SNODE: it was accepted, and its Hello is awaited.
    Fresh,
    /// At the SNODE: the next step is awaited; the key is that of the last one.
    Ready(SessionTerms, Option<Key>),
    /// At the SNODE: the length of a source was sent, and Ready is awaited.
    Offer(SessionTerms, Key, Source),
    /// A source is sent, and the Ack of this offset is awaited.
    Send(Side, SessionTerms, Key, Source, u64),
    /// A destination is received, and so many bytes came.
    Take(Side, SessionTerms, Key, u64),
}

/// What comes behind a reaction of what is done about a happening.
#[derive(Debug, Drop)]
pub enum Continuation {
    /// Nothing: all is done.
    Done,
    /// At the PNODE: the step that comes next of this Process.
    Next(SessionTerms, ProcNo),
    /// The file of a receiving is undone, and its step ends with this cause.
    Undo(Side, SessionTerms, Key, Cause),
    /// At the PNODE: the length of the source that this step sends.
    Push(SessionTerms, Key),
    /// At the SNODE: the length of the source that is asked for, with the interval of its marks.
    Offered(SessionTerms, Key, Bytes, u64),
    /// The length of the destination that is to be received.
    Onto(Side, SessionTerms, Key, Announced),
    /// The bytes of a source from an offset on.
    Piece(Side, SessionTerms, Key, Source, u64),
}
