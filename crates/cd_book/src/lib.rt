//! The entries of a node's journal, held in memory, and the questions of the rules to them.
#![tactic(auto)]

mod book;
mod ended;
mod home;
mod openings;
mod process;
mod questions;
mod queue;
mod same;
mod status;
mod step;
mod submission;
mod texts;
mod walk;

pub use book::Book;
pub use process::moment_of;
pub use queue::queue_at;
pub use same::{same_bytes, same_key};
pub use status::Status;
pub use submission::Submission;
pub use texts::Texts;
