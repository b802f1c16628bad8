//! What a Process text says: the pieces that it is made of, the Process, and the names of its faults.
#![tactic(auto)]

mod canonical;
mod fault;
mod piece;
mod process;
mod stmts;

pub use canonical::print;
pub use fault::{FaultName, StartRefusal};
pub use piece::PieceKind;
pub use process::{CopyStep, Process, Stmt, SubmitStep, TaskStep, What};
pub use stmts::Stmts;
