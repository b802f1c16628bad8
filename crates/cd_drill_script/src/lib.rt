//! The script of a drill: its lines, read and numbered before any of it is done.
#![tactic(auto)]

mod line;
mod order;
mod script;
#[cfg(test)]
mod tests;
mod words;

pub use line::Reserved;
pub use order::{Numbered, Order, Party};
pub use script::{ScriptFault, read_script};
