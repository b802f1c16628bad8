//! The node that submitted a Process: what it does in a session for it.
#![tactic(auto)]

mod ask;
mod awaiting;
mod choice;
mod greet;
mod step;

pub use ask::row_ask;
pub use awaiting::row_await;
pub use choice::row_chosen;
pub use greet::row_greet;
pub use step::{next, source_known};
