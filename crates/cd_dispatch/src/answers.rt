//! What the outside answers.

/// What was asked for a reaction: the length of a destination, that of a source, and the bytes of a source.
#[derive(Clone, Copy, Debug)]
pub struct Answers<'a> {
    pub there: Option<u64>,
    pub source: Option<u64>,
    pub bytes: &'a [u8],
}
