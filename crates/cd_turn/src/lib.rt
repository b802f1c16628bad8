//! One turn of the node: a command, its answer, and what it adds to the journal of its home.
#![tactic(auto)]

mod home;
mod law;
mod order;
mod reply;
mod status;
mod turn;

pub use home::Home;
pub use law::{law_of_homes, law_of_legality};
pub use order::{Order, hear_found, order_of, show_for};
pub use reply::{Refusal, Reply};
pub use status::Status;
pub use turn::make_turn;
