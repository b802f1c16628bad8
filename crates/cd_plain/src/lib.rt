//! A plain node: its sessions and what it has recorded, with its turns and choices.
#![tactic(auto)]

mod choosing;
mod handled;
mod law;
mod meeting;
mod node;
mod turning;

pub use handled::Handled;
pub use law::law_of_choice;
pub use node::Node;
