//! A drill shows a world of the rules, so what holds in each such world holds of what a drill reports.
#![tactic(auto)]

mod law;
mod rehearsing;

pub use law::law_of_drills;
pub use rehearsing::rehearse;
