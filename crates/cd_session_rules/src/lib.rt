//! The rules of a session, computed: what both sides do about a happening, and whether it may be done.
#![tactic(auto)]

mod checking;
mod closing;
mod config;
mod copies;
mod law;
mod phases;
mod reaction;
mod receiving;
mod rows;
mod same;
mod sendable;
mod sending;
mod sessions;
mod steps;
mod view;

pub use checking::{checked, may_record};
pub use closing::{behind_kept, close, is_running, retried, trouble};
pub use config::{Config, Partner, Waits, waits_of};
pub use copies::{copy_announced, copy_name, copy_source, resized};
pub use law::law_of_reactions;
pub use phases::{copy_phase, key_under_way, own_number};
pub use reaction::{behind, go, later, only, only_one, quietly};
pub use receiving::{
    answer, drop_back, failed, gives_up, is_piece_at, is_same_receiving, is_small, land,
    receive_anew, refuse, resume, take_piece, target_known, undo_open,
};
pub use rows::{ready_from, ready_with, row_send, row_take};
pub use sending::{
    GREATEST_FILE, copy, ended, finish, interval_of, piece_len, piece_read, push, send_from,
    settled,
};
pub use sessions::Sessions;
pub use steps::{given_up, receive, undone};
pub use view::NodeView;
