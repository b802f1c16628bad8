/// What a call of files changed.
#[derive(Clone, Copy, Debug)]
pub enum Change {
    /// Bytes were written at that place.
    Written(u64),
    /// The length became this.
    Resized(u64),
    /// A sync.
    Synced,
    /// The file was removed.
    Removed,
    /// Bytes were put under the name from outside.
    Filled,
}

/// A call of files.
#[derive(Clone, Copy, Debug)]
pub struct Step {
    /// The beat to which it raised.
    pub beat: u64,
    /// What it changed.
    pub change: Change,
}
