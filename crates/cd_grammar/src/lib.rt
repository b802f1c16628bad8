//! The grammar of the Process language: its tokens, what a reader has read, and the definitions of both.
#![tactic(auto)]

mod given;
mod lent;
mod mark;
mod reading;
mod starts;
mod step;
mod token;
mod values;
mod words;

pub use given::{Given, Slot};
pub use lent::Lent;
pub use mark::{Mark, Sketch};
pub use reading::{
    has, side_of, slot_of, takes_list, takes_parentheses, with_listed, with_parameter,
};
pub use starts::{clock_in, day_in, half_in, half_time, named_time, plain_time};
pub use step::{Begun, Clock, CopyGiven, End, Step, Work};
pub use token::{Key, Sign, Token};
pub use values::{
    disp_in, file_in, front_label_in, hold_in, interval_in, is_command, is_own, is_share, label_in,
    node_in, number_in, relation_in, restart_in, retain_in, symbol_in,
};
pub use words::{is_word, key_of, sign_of};
