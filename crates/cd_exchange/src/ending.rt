/// How what happened in a session was handled.
#[derive(Clone, Copy, Debug, PartialEq, Eq)]
pub enum Ending {
    /// All that the rules say was done.
    Went,
    /// The session is lost.
    Lost,
    /// The files failed, and the rules say what is done then: the partner is told of trouble where a step is under way.
    Troubled,
}
