//! A journal over a disk: a list of entries, each of them whole or not there at any moment of a crash.
//!
//! The bytes are the header `CDNODE01` and then gates. Behind an open gate, the byte 1, stand a length of 4 bytes, the
//! highest first, a body of that length and the next gate; a closed gate ends the list, and later bytes mean nothing. An
//! entry is written behind the closed gate and synced; then the gate is opened, and synced. So opening repairs nothing.
#![tactic(auto)]

mod fault;
mod journal;
mod loading;
mod place;
mod reading;
mod writing;

pub use fault::JournalFault;
pub use journal::Journal;

#[cfg(test)]
mod tests;
