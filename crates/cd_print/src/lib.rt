//! What may be said of the canonical print of a Process: how long it is, and what is read of it.
#![tactic(auto)]

mod law;

pub use law::{law_of_prints, law_of_sizes};
