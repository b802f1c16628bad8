use thiserror::Error;

/// Why an effect wasn't done.
#[derive(Clone, Copy, Debug, PartialEq, Eq, Error)]
pub enum Fault {
    /// The journal's disk failed: its count of faults rose. The journal has to be opened again.
    #[error("the journal's disk failed")]
    Disk,
    /// The entry would make the journal, which has this length, longer than 2^30 bytes.
    #[error("the journal is full at {0} bytes")]
    JournalFull(u64),
    /// Memory ran out.
    #[error("no memory")]
    NoMemory,
    /// The files failed: their count of faults rose.
    #[error("the files failed")]
    Files,
    /// The session failed: its count of faults rose.
    #[error("the session failed")]
    Line,
}
