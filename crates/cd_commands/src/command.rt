use cd_ast::Process;
use cd_types::{Bytes, Hold, NodeName, ProcNo, Queue, Retain, Start, Symbols};

/// What a submission says in place of the PROCESS statement, and the values that it gives to names.
#[derive(Drop)]
pub struct Options {
    pub snode: Option<NodeName>,
    pub prty: Option<u8>,
    pub class: Option<u8>,
    pub hold: Option<Hold>,
    pub retain: Option<Retain>,
    pub start: Option<Start>,
    pub symbols: Symbols,
}

/// A command.
#[derive(Drop)]
pub enum Command {
    /// The node gets this name and this home.
    Init(NodeName, u64),
    /// The Process in a file is submitted.
    SubmitFile(Bytes, Options),
    /// A Process whose text stands in the command is submitted.
    SubmitText(Process, Options),
    /// The canonical text of the Process in a file is asked for, with these values of names.
    View(Bytes, Symbols),
    /// The Processes are asked for: all, one, those of a queue.
    SelectProcess(Option<ProcNo>, Option<Queue>),
    /// A Process gets a priority, is held, or is released.
    Change(ProcNo, Option<u8>, Option<Hold>, bool),
    Delete(ProcNo),
    Flush(ProcNo),
    /// What the journal tells of all Processes is asked for, or of one.
    SelectStatistics(Option<ProcNo>),
    /// What is being received into a file is dropped.
    ReleaseReceive(Bytes),
    /// Due Processes are run, with so many sessions at once, and up to so many turns.
    Work(u32, Option<u32>),
    /// So many sessions are served, so many at once, and up to so many turns.
    Serve(u32, u32, Option<u32>),
    /// The script in a file is run.
    Drill(Bytes),
    /// A script of so many Processes, drawn from a seed, is run.
    Generate(u64, u32),
    Stop,
}
