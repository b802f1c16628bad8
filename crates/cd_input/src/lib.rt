//! The commands of the input: where each begins and ends.
#![tactic(auto)]

mod input;
mod scanner;

pub use input::{Spot, is_blank};
pub use scanner::{Found, Scanner};
