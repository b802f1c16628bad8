ghost use Rattle.std.specs.Prelude.{◌≡◌};
ghost use Rattle.cd_turn.specs.Status.{status_code};

/// How a run ended. Places count the journal's bytes.
#[derive(Clone, Copy, Debug, PartialEq, Eq)]
pub enum Status {
    /// The input was read to its end or to `stop;`, and the last command wasn't refused.
    Done,
    /// The words aren't those of the program.
    Usage,
    /// As `Done`, but the last command was refused.
    Refused,
    /// The journal's bytes at that place aren't a journal's.
    Unfit(u64),
    /// The journal's disk failed.
    DiskFault,
    /// The next entry doesn't fit into the journal, which has this length.
    JournalFull(u64),
    /// The input failed.
    SourceFault,
    /// The output failed.
    SinkFault,
    /// The input goes on behind the bytes that are read at most.
    InputLimit,
    /// Memory ran out.
    NoMemory,
}

impl Status {
    /// The exit status of the program.
    pub fn code(self) -> u8
        ensures { result ≡ status_code self }
    {
        match self {
            Status::Done => 0,
            Status::Usage => 1,
            Status::Refused => 2,
            Status::Unfit(_) => 6,
            Status::DiskFault => 7,
            Status::JournalFull(_) => 8,
            Status::SourceFault => 9,
            Status::SinkFault => 10,
            Status::InputLimit => 11,
            Status::NoMemory => 14,
        }
    }
}
