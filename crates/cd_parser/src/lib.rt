//! Reads texts of the Process language.
#![tactic(auto)]

mod classify;
mod cursor;
mod fault;
mod late;
mod leaf;
mod reader;
mod statement;
mod texts;
mod turn;
mod value;

pub use fault::ParseFault;
pub use texts::{parse, parse_plain};
