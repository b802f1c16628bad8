//! The top call: commands in, replies out, entries into the journal.
#![tactic(auto)]

mod flow;
mod reader;
mod run;
mod telling;

pub use cd_turn::Status;
pub use run::run_node;
