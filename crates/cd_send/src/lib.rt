//! Sending a file: its pieces, one after another, each sent on the acknowledgement of the one before.
#![tactic(auto)]

mod cut;
mod sender;
#[cfg(test)]
mod tests;

pub use sender::{Piece, SendFault, Sender};
