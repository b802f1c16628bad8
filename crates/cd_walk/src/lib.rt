//! The law of recorded steps: what a journal says of the steps of a Process is the path that its statements take.
#![tactic(auto)]

mod law;

pub use law::{law_of_steps, law_of_walks, worked_walk};
