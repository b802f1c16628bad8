//! What a node answers to a command.
use cd_ast::FaultName;
use cd_types::{NodeName, ProcNo};

/// Why a command isn't done. It changed nothing then.
#[derive(Clone, Copy, Debug, PartialEq, Eq)]
pub enum Refused {
    /// Its text, or the Process text in it, has this fault at this place.
    Text(FaultName, u64),
    /// The node doesn't do such commands yet.
    NotYet,
    /// The node has no home yet, and the command needs one.
    NotHome,
    /// The node has a home already.
    AlreadyHome,
    /// Neither the Process nor the command names a partner.
    NoNode,
    /// As many Processes are live as may be.
    Full,
    /// No number is left for a Process.
    NumbersSpent,
}

/// What is replied to a command.
#[derive(Clone, Copy, Debug, PartialEq, Eq)]
pub enum Reply {
    /// The node has this name and this home from now on.
    Home(NodeName, u64),
    /// A Process was submitted, and has this number.
    Submitted(ProcNo),
    Refused(Refused),
}
