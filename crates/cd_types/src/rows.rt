//! What the queue, the book and the report pass to one another.
use crate::{Bytes, Cause, Disp, Hold, Key, Label, NodeName, ProcNo, Queue, Reason, Retain};

/// The code with which a step ended, from 0 to 255. (Process Language Reference: step return codes.)
pub type Rc = u8;

/// Where a Process stands.
#[derive(Clone, Copy, Debug, PartialEq, Eq)]
pub struct Placing {
    pub queue: Queue,
    pub reason: Reason,
    /// The second at which it leaves the Timer queue, and 0 in the others.
    pub due: u64,
    /// How many connections failed for it, one after another.
    pub attempts: u16,
    pub prty: u8,
}

/// A live Process in the queue.
#[derive(Clone, Copy, Debug, PartialEq, Eq)]
pub struct Row {
    pub number: ProcNo,
    pub name: Label,
    pub snode: NodeName,
    pub class: u8,
    pub hold: Hold,
    pub retain: Retain,
    pub placing: Placing,
}

/// What a node that receives a file keeps of it.
#[derive(Debug, Drop, PartialEq)]
pub struct Receiving {
    pub key: Key,
    /// The file's name.
    pub name: Bytes,
    pub disp: Disp,
    /// Whether a file of the name was there before.
    pub there: bool,
    /// How many bytes of that file stay.
    pub base: u64,
    /// How many bytes come.
    pub length: u64,
    /// How many bytes lie between two marks, and 0 for no marks.
    pub interval: u64,
}

/// How a step ended.
#[derive(Clone, Copy, Debug, PartialEq, Eq)]
pub struct Outcomes {
    pub rc: Rc,
    pub cause: Cause,
    /// The length of what a COPY moved, and 0 for other steps.
    pub bytes: u64,
    /// The number of the Process that a SUBMIT made, and 0 where it made none.
    pub made: u32,
}
