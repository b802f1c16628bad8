//! The drill: a script runs two whole nodes over devices in memory, and the report tells what they recorded.
#![tactic(auto)]

mod bench;
mod course;
mod fault;
mod kept;
mod refused;
mod reply;
mod report;
mod running;
mod test_node;
mod test_pair;

pub use bench::Bench;
pub use fault::DrillFault;
pub use running::{drill, rehearse};
pub use test_node::TestNode;
