//! The outside world as the node sees it: traits whose ghost members say what a device holds, what a crash may leave of
//! it, and how often it has failed. Code above is generic over them.
#![tactic(auto)]

mod beat;
mod disk;
mod failed;
mod files;
mod lines;
mod sid;
mod spawner;
mod streams;
mod through;

pub use beat::Beat;
pub use disk::Disk;
pub use failed::Failed;
pub use files::Files;
pub use lines::{ConnectFault, Lines};
pub use sid::Sid;
pub use spawner::{Outcome, Spawner};
pub use streams::{Clock, Sink, Source};
pub use through::{sync_now, write_through};
