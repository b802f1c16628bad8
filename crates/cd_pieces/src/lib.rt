//! What a copy makes of its destination, and the pieces in which a source is sent: where they end and how many they are,
//! as definitions with their laws.
#![tactic(auto)]

mod law;

pub use law::{law_of_counts, law_of_dispositions, law_of_pieces};
