/// What the files told so far: the length of a destination, and that of a source. `None` stands for a missing file, and for
/// what wasn't asked.
#[derive(Clone, Copy, Debug, PartialEq, Eq)]
pub struct Given {
    pub there: Option<u64>,
    pub source: Option<u64>,
}
