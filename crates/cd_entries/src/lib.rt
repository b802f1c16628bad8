//! The entries of the journal, and their bytes.
#![tactic(auto)]

mod entry;
mod kind;
mod law;
mod reading;
#[cfg(test)]
mod tests;
mod writing;

pub use entry::{Entry, EntryFault};
pub use law::law_of_entries;
pub use reading::read_entry;
pub use writing::write_entry;
