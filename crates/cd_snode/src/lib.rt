//! The node that a session came to: what it does for the steps of its partner's Process.
#![tactic(auto)]

mod forget;
mod fresh;
mod offer;
mod ready;
mod take_step;
mod terms;

pub use fresh::row_fresh;
pub use offer::{offered, row_offer};
pub use ready::row_ready;
