//! Reads the commands of an operator, and says as functions what their texts say.
#![tactic(auto)]

mod bad;
mod bytes;
mod command;
mod cursor;
mod fault;
mod finish;
mod given;
mod heard;
mod heard_law;
mod kind;
mod law;
mod number;
mod order;
mod piece;
mod reading;
mod run;
mod seen;
mod start;
mod text;

pub use command::{Command, Options};
pub use fault::CommandFault;
pub use heard::{Heard, hear};
pub use heard_law::{law_of_hearing, law_of_plain_readings, law_of_resolved_readings};
pub use law::law_of_grammar;
pub use reading::read_as;
pub use text::{law_of_commands, read_command};
