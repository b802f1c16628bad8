//! What a node does with what happens in one of its sessions, over its devices; and an entry, recorded.
#![tactic(auto)]

mod arriving;
mod asking;
mod at_hand;
mod behind;
mod closing;
mod ending;
mod frame;
mod given;
mod going;
mod law;
mod recording;
mod row;
mod rules;
mod rules_trait;
mod session;
mod taking;
mod turn;

pub use arriving::{Came, next_frame};
pub use asking::ask;
pub use closing::{on_end, on_trouble};
pub use ending::Ending;
pub use frame::on_frame;
pub use given::Given;
pub use law::law_of_rests;
pub use recording::try_record;
pub use row::go_all;
pub use rules::PlainRules;
pub use rules_trait::{Question, Rules};
pub use session::Session;
pub use taking::take_frame;
pub use turn::take_turn;
