//! A node over devices in memory, to which frames come that were written by hand, and a whole drill. Nothing stands on this crate: it has
//! tests alone.
#![tactic(auto)]

#[cfg(test)]
mod frames;
#[cfg(test)]
mod partner;
#[cfg(test)]
mod push;
