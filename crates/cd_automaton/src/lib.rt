//! The machine with which texts of the Process language are read, token by token, and what it has to do with the grammar.
#![tactic(auto)]

mod law;

pub use law::{
    law_of_examples, law_of_jumps, law_of_later_faults, law_of_machine, law_of_printed_values,
    law_of_ranges, law_of_reading, law_of_resolved_texts, law_of_texts, law_of_tokens,
};
