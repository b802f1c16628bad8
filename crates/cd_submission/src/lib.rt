//! A submission: the Process file that a command names, and what a node keeps of the Process.
#![tactic(auto)]

mod file;
mod file_law;
mod filing;
mod law;
mod reading;

pub use file::{Shown, look};
pub use file_law::law_of_shown;
pub use filing::{DEFAULT_INTERVAL, filled, is_push, with_options};
pub use law::law_of_filings;
pub use reading::{Unread, process_in};
