use cd_outside::Sid;
use cd_types::ProcNo;

/// What became of a happening.
#[derive(Clone, Copy, Debug, PartialEq, Eq)]
pub enum Handled {
    /// All that the rules say was done. They may close the session.
    Went,
    /// No Process is due.
    Idle,
    /// No session waits.
    NoMore,
    /// The partner of this Process couldn't be connected.
    NotConnected(ProcNo),
    /// The session ended, or failed, or gave what is no frame; or its Process isn't live any more; or no open session has this number.
    Lost(Sid),
    /// The files failed: the session is closed, after its partner was told of trouble where a step was under way and the session took
    /// that.
    Aborted(Sid),
}
