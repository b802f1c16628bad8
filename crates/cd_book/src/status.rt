//! How far a step is.

use cd_types::{Outcomes, Receiving, TaskKind};

/// How far a step is at the node that keeps its outcome.
#[derive(Clone, Copy, Debug)]
pub enum Status<'a> {
    /// Nothing is known of it.
    Fresh,
    /// Its command was started so often, the last time as such a task.
    Started(u32, TaskKind),
    /// Its file is being received, and is safe up to the mark.
    Open(&'a Receiving, u64),
    /// It has its outcome.
    Done(Outcomes),
}
