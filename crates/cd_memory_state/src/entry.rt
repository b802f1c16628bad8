/// What a changing call changed.
#[derive(Clone, Copy, Debug)]
pub enum Kind {
    /// Bytes were written at that place.
    Written(u64),
    /// The length became this.
    Resized(u64),
    /// A sync.
    Synced,
}

/// A changing call of the past.
#[derive(Clone, Copy, Debug)]
pub struct Entry {
    /// The beat to which it raised.
    pub beat: u64,
    /// What it changed.
    pub kind: Kind,
    /// How many of the kept bytes are its own.
    pub used: usize,
}
