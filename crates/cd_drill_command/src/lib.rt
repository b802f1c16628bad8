//! What a command is shown of the file for which it asks: the text of a Process, or what a drill of a script comes to.
#![tactic(auto)]

mod asking;
mod script;

pub use asking::show_for;
