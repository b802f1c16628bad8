//! Which entries may follow those of a book.
#![tactic(auto)]

mod closed;
mod ended;
mod filed;
mod judge;
mod outcome;
mod own;
mod placed;
mod received;
mod started;
mod symbols;

pub use judge::allowed;
