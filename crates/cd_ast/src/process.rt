//! A Process, as its text says it.

use crate::Stmts;
use cd_types::{Bytes, Card, Disp, Label, NodeName, Relation, Side, Symbols, TaskKind};

/// A Process: its name, what its PROCESS statement says, and the statements after it.
#[derive(Drop)]
pub struct Process {
    pub name: Label,
    pub card: Card,
    pub stmts: Stmts,
}

/// A statement, with its label where it has one.
#[derive(Drop)]
pub struct Stmt {
    pub label: Option<Label>,
    pub what: What,
}

/// What a statement says.
#[derive(Drop)]
pub enum What {
    /// COPY: a file goes from one node to the other.
    Copy(CopyStep),
    /// RUN TASK or RUN JOB: a command is run on one of the nodes.
    Task(TaskStep),
    /// SUBMIT: another Process is submitted on one of the nodes.
    Submit(SubmitStep),
    /// IF: what follows is done where the code of an earlier action stands so to a number.
    If(Label, Relation, u8),
    /// ELSE: what follows is done where the condition of the open IF didn't hold.
    Else,
    /// EIF: the open IF ends.
    Eif,
    /// GOTO: the Process goes on at a label further down.
    Goto(Label),
    /// EXIT: the Process ends.
    Exit,
}

/// A copy of a file. (Process Language Reference: COPY.)
#[derive(Drop)]
pub struct CopyStep {
    /// The source, on the node that sends.
    pub from: Bytes,
    /// The destination, on the node that receives.
    pub to: Bytes,
    /// Whether the PNODE sends.
    pub push: bool,
    pub disp: Disp,
    /// The bytes between two checkpoints, 0 where there are none; `None` where the statement doesn't say.
    pub ckpt: Option<u64>,
}

/// A command that is run. (Process Language Reference: RUN TASK and RUN JOB.)
#[derive(Drop)]
pub struct TaskStep {
    pub side: Side,
    pub command: Bytes,
    pub kind: TaskKind,
}

/// A submission by a Process. (Process Language Reference: SUBMIT.)
#[derive(Drop)]
pub struct SubmitStep {
    /// The file with the text of the Process.
    pub file: Bytes,
    pub side: Side,
    pub snode: Option<NodeName>,
    pub prty: Option<u8>,
    /// The values that names get.
    pub symbols: Symbols,
}
