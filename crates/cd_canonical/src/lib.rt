//! How the texts of submitted Processes are read.
#![tactic(auto)]

mod canonical;
mod law;

pub use canonical::Canonical;
pub use law::law_of_readings;
