//! What a node does about a happening in a session, reaction by reaction.
#![tactic(auto)]

mod answers;
mod behind;
mod first;

pub use answers::Answers;
pub use behind::reaction_behind;
pub use first::{accepted, first_reaction};
