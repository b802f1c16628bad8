//! The effects of a row, carried out over the devices of a node.
#![tactic(auto)]

mod act;
mod ask;
mod effects;
mod fault;
mod law;
mod one;
mod owners;
mod registry;
mod session;
mod touch;

pub use ask::{ask_bytes, ask_size};
pub use effects::perform;
pub use fault::Fault;
pub use law::law_of_records;
pub use owners::{Holding, KeyOwners};
pub use registry::Registry;
