//! What a node reports of its journal.
#![tactic(auto)]

mod digits;
mod line;
mod statistics;
mod words;

pub use line::{Line, Numbered, line_of};
pub use statistics::write_statistics;
