//! What a node does with what happens in its sessions: rows of effects, and their laws.
#![tactic(auto)]

mod effect;
mod law;
mod session;
mod worked;

pub use effect::{Effect, Outgoing, Reaction};
pub use law::law_of_rows;
pub use session::{Announced, Continuation, Phase, SessionTerms, Source};
pub use worked::{worked_ends, worked_pieces, worked_push};
