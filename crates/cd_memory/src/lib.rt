//! Devices in memory: they tell their content, fail where a script says so, and stop within a call, as a crash would.
//! Each has a steady form, which never fails within the room that was made for it.
#![tactic(auto)]

mod begun;
mod clock;
mod count;
mod disk;
mod end;
mod fate;
mod files;
mod lines;
mod reading;
mod script;
mod sink;
mod source;
mod spawner;
mod steady_disk;
mod steady_files;
mod steady_lines;
mod steady_spawner;
mod stop;
mod tally;

pub use cd_memory_state::Generator;
pub use clock::{MemoryClock, SteadyClock};
pub use disk::MemoryDisk;
pub use files::MemoryFiles;
pub use lines::MemoryLines;
pub use script::FaultScript;
pub use sink::{MemorySink, SteadySink};
pub use source::{MemorySource, SteadySource};
pub use spawner::MemorySpawner;
pub use steady_disk::SteadyDisk;
pub use steady_files::SteadyFiles;
pub use steady_lines::SteadyLines;
pub use steady_spawner::SteadySpawner;
