use cd_types::{
    Bytes, Cause, Filed, How, Key, Moment, NodeName, Outcomes, Placing, ProcNo, Rc, Receiving,
    TaskKind,
};
use thiserror::Error;

/// An entry of the journal: one thing that the node did or was told, which it knows again after a stop.
#[derive(Debug, Drop, PartialEq)]
pub enum Entry {
    /// The node's name and its home identity. It is the first entry, and stands there alone.
    Home(NodeName, u64),
    /// A Process was submitted: its number, when, the key of the SUBMIT step that made it where one did, its
    /// card and its canonical text.
    Submitted(ProcNo, Moment, Option<Key>, Filed, Bytes),
    /// A Process went to a queue, and when.
    Placed(ProcNo, Placing, Moment),
    /// A task or a job is about to be started: its step, which of the two, how many starts this makes, and when.
    Started(Key, TaskKind, u32, Moment),
    /// A file is about to be received.
    Receiving(Receiving),
    /// So many bytes of the file that a step brings are safe.
    Mark(Key, u64),
    /// How a step ended at the node that keeps its outcome, and when.
    Result(Key, Outcomes, Moment),
    /// How a step of a Process of this node ended: the Process, the step's place, code and cause, the length of
    /// what was moved, and when.
    Ended(ProcNo, u16, Rc, Cause, u64, Moment),
    /// A Process of this node ended, how, and when.
    Closed(ProcNo, How, Moment),
    /// A Process of another node is over: that node's name and home, and the number there. Its keys aren't
    /// asked for again.
    Forgot(NodeName, u64, ProcNo),
    /// A file that came was dropped: its step, with which code and cause that ended, and when.
    Dropped(Key, Rc, Cause, Moment),
}

/// Why bytes gave no entry.
#[derive(Debug, Drop, Error)]
pub enum EntryFault {
    /// They are none.
    #[error("not an entry")]
    Unfit,
    /// Memory ran out.
    #[error("no memory")]
    NoMemory,
}
