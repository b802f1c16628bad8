//! The values that every other crate speaks of, each in its stated form, and the fields of the formats.
#![tactic(auto)]

mod bytes;
mod card;
mod choices;
mod field;
mod file_name;
mod key;
mod label;
mod limits;
mod memory;
mod moment;
mod node_name;
mod number;
mod numbers;
mod optional;
mod proc_no;
mod row_fields;
mod rows;
mod short;
mod start;
mod symbols;
#[cfg(test)]
mod tests;

pub use bytes::Bytes;
pub use card::Filed;
pub use choices::{Cause, Disp, Hold, How, Queue, Reason, Relation, Retain, Side, TaskKind};
pub use field::{Field, Small, put_three, put_two};
pub use file_name::{
    file_front, file_size, is_file_name, put_file, put_text, text_front, text_size,
};
pub use key::Key;
pub use label::Label;
pub use limits::{
    END_OF_PLACES, GREATEST_NUMBER, LONGEST_COMMAND, LONGEST_FRAME, LONGEST_KEPT_TEXT,
    LONGEST_PIECE, LONGEST_TASK, LONGEST_TEXT, MOST_LIVE, MOST_STATEMENTS,
};
pub use memory::NoMemory;
pub use moment::Moment;
pub use node_name::NodeName;
pub use numbers::Numbers;
pub use proc_no::ProcNo;
pub use rows::{Outcomes, Placing, Rc, Receiving, Row};
pub use start::{Card, Day, Start};
pub use symbols::Symbols;
