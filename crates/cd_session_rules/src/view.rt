//! What a node has recorded, and what it is set up with.

use crate::config::Config;
use cd_book::{Book, Texts};

/// A node's book and its configuration, lent to the rules while a reaction of a row is computed.
#[derive(Clone, Copy)]
pub struct NodeView<'a, T: Texts> {
    pub book: &'a Book<T>,
    pub config: &'a Config,
}
