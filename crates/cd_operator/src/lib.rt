//! The commands of an operator, done by a node.
#![tactic(auto)]

mod doing;
mod filing;
mod law;
mod reply;
mod wanted;

pub use doing::command;
pub use law::law_of_doings;
pub use reply::{Refused, Reply};
