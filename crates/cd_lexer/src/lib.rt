//! The first layer of the Process language: a text's symbolic names are replaced, and it is cut into tokens.
#![tactic(auto)]

mod bytes;
mod fault;
mod given;
mod law;
mod output;
mod part;
mod piece;
mod run;
mod subst;
mod token;

pub use fault::{LexFault, SymFault};
pub use given::defaults;
pub use law::{law_of_substitution, law_of_tokens};
pub use subst::substitute;
pub use token::{Token, TokenKind, tokens};
