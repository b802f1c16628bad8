//! What was submitted.

use cd_types::{Filed, Key, Moment};

/// What was submitted: when, for which SUBMIT step where one did it, the card and the text.
#[derive(Clone, Copy)]
pub struct Submission<'a> {
    pub moment: Moment,
    pub origin: Option<Key>,
    pub card: &'a Filed,
    pub text: &'a [u8],
}
