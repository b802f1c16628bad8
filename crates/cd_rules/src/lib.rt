//! The rules of a journal: what its entries say of a step, a Process and a file, and which entry may follow which.
#![tactic(auto)]

mod law;
mod status_law;

pub use law::{law_of_numbers, law_of_openings, law_of_outcomes, law_of_placings};
pub use status_law::law_of_status;
