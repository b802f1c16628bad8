//! Values that are fields of one byte: the place of the value in the list of all values.
#![tactic(auto, unfolding(crate::specs::Number::number_bytes))]

ghost use Rattle.std.specs.Prelude.{◌≡◌, ⊤, option_map};
ghost use Rattle.cd_types.specs.Number.{number_bytes};
ghost use Rattle.cd_types.specs.Choices.{holds, hold_code, retains, retain_code, queues, queue_code, reasons, reason_code, causes, cause_code, is_kept, disps, disp_code, task_kinds, task_kind_code, hows, how_code};
ghost use Rattle.cd_types.specs.ChoicesLaw.{hold_law, retain_law, queue_law, reason_law, cause_law, disp_law, task_kind_law, how_law};
ghost use Rattle.cd_types.specs.Compound.{choice_in};

use crate::Field;

/// Whether a submitted Process is held: not, until an operator releases it, or until its SNODE calls.
/// (Process Language Reference: HOLD of PROCESS.)
#[derive(Clone, Copy, Debug, PartialEq, Eq)]
pub enum Hold {
    No,
    Yes,
    Call,
}

/// Whether a Process is kept for copies of it to run: not, for each release, or also for each start of the
/// node. (Process Language Reference: RETAIN of PROCESS.)
#[derive(Clone, Copy, Debug, PartialEq, Eq)]
pub enum Retain {
    No,
    Yes,
    Initial,
}

/// The logical queue in which a Process stands. (Connect:Direct for UNIX: the transmission control queue.)
#[derive(Clone, Copy, Debug, PartialEq, Eq)]
pub enum Queue {
    Execution,
    Wait,
    Timer,
    Hold,
}

/// Why a Process stands in its queue.
#[derive(Clone, Copy, Debug, PartialEq, Eq)]
pub enum Reason {
    None,
    Operator,
    Call,
    Retained,
    Start,
    Retry,
    NoConnect,
    UnknownNode,
    Rejected,
    Running,
}

/// Why a step ended with its code.
#[derive(Clone, Copy, Debug, PartialEq, Eq)]
pub enum Cause {
    None,
    Exists,
    InUse,
    NoSource,
    SourceChanged,
    Interrupted,
    NotStarted,
    Killed,
    SubmitText,
    SubmitFile,
    SubmitFull,
    SubmitNumbers,
    Released,
    TooLarge,
    SubmitNode,
    Trouble,
    SubmitStart,
}

/// What becomes of the destination of a COPY: it is made, replaced, or added to. (Process Language
/// Reference: DISP of COPY.)
#[derive(Clone, Copy, Debug, PartialEq, Eq)]
pub enum Disp {
    New,
    Rpl,
    Mod,
}

/// What a RUN starts: a task that is started again after a stop, a task that is not, or a job. (Process
/// Language Reference: RUN TASK, RUN JOB, RESTART.)
#[derive(Clone, Copy, Debug, PartialEq, Eq)]
pub enum TaskKind {
    Restart,
    Once,
    Job,
}

/// How a Process ended: at its end, deleted from a queue, or flushed while it ran.
/// (Connect:Direct for UNIX: delete process, flush process.)
#[derive(Clone, Copy, Debug, PartialEq, Eq)]
pub enum How {
    Finished,
    Deleted,
    Flushed,
}

/// The side of a session on which a step runs: the node that submitted the Process, or its partner.
/// (Process Language Reference: PNODE, SNODE.)
#[derive(Clone, Copy, Debug, PartialEq, Eq)]
pub enum Side {
    Pnode,
    Snode,
}

/// How IF compares the code of a step with a number: `=`, `<>`, `>=`, `>`, `<=`, `<`.
/// (Process Language Reference: IF.)
#[derive(Clone, Copy, Debug, PartialEq, Eq)]
pub enum Relation {
    Eq,
    Ne,
    Ge,
    Gt,
    Le,
    Lt,
}

/// The value whose place in `values` is the byte at the front, and the bytes after it.
#[tactic(auto, unfolding(crate::specs::Compound::choice_in))]
pub(crate) fn choice<'a, T: Copy>(values: &[T], bytes: &'a [u8]) -> Option<(T, &'a [u8])>
    ensures { option_map (λ found. (found.0, found.1.now)) result ≡ choice_in values.now bytes.now }
{
    let (place, rest) = u8::front(bytes)?;
    let value = values.get(place as usize)?;
    Some((*value, rest))
}

const HOLDS: [Hold; 3] = [Hold::No, Hold::Yes, Hold::Call];

impl Field for Hold {
    ghost form = { λ _. ⊤ };

    ghost writable = { λ _. ⊤ };

    ghost longest = { 1 };

    ghost spelled = { λ hold. number_bytes 1 (hold_code hold) };

    ghost found_in = { choice_in holds };

    ghost law = { hold_law };

    fn front(bytes: &[u8]) -> Option<(Hold, &[u8])> {
        choice(&HOLDS, bytes)
    }

    fn size(&self) -> usize {
        1
    }

    fn put(&self, into: &mut Vec<u8>) {
        (*self as u8).put(into);
    }
}

const RETAINS: [Retain; 3] = [Retain::No, Retain::Yes, Retain::Initial];

impl Field for Retain {
    ghost form = { λ _. ⊤ };

    ghost writable = { λ _. ⊤ };

    ghost longest = { 1 };

    ghost spelled = { λ retain. number_bytes 1 (retain_code retain) };

    ghost found_in = { choice_in retains };

    ghost law = { retain_law };

    fn front(bytes: &[u8]) -> Option<(Retain, &[u8])> {
        choice(&RETAINS, bytes)
    }

    fn size(&self) -> usize {
        1
    }

    fn put(&self, into: &mut Vec<u8>) {
        (*self as u8).put(into);
    }
}

const QUEUES: [Queue; 4] = [Queue::Execution, Queue::Wait, Queue::Timer, Queue::Hold];

impl Field for Queue {
    ghost form = { λ _. ⊤ };

    ghost writable = { λ _. ⊤ };

    ghost longest = { 1 };

    ghost spelled = { λ queue. number_bytes 1 (queue_code queue) };

    ghost found_in = { choice_in queues };

    ghost law = { queue_law };

    fn front(bytes: &[u8]) -> Option<(Queue, &[u8])> {
        choice(&QUEUES, bytes)
    }

    fn size(&self) -> usize {
        1
    }

    fn put(&self, into: &mut Vec<u8>) {
        (*self as u8).put(into);
    }
}

const REASONS: [Reason; 10] = [
    Reason::None,
    Reason::Operator,
    Reason::Call,
    Reason::Retained,
    Reason::Start,
    Reason::Retry,
    Reason::NoConnect,
    Reason::UnknownNode,
    Reason::Rejected,
    Reason::Running,
];

impl Field for Reason {
    ghost form = { λ _. ⊤ };

    ghost writable = { λ _. ⊤ };

    ghost longest = { 1 };

    ghost spelled = { λ reason. number_bytes 1 (reason_code reason) };

    ghost found_in = { choice_in reasons };

    ghost law = { reason_law };

    fn front(bytes: &[u8]) -> Option<(Reason, &[u8])> {
        choice(&REASONS, bytes)
    }

    fn size(&self) -> usize {
        1
    }

    fn put(&self, into: &mut Vec<u8>) {
        (*self as u8).put(into);
    }
}

impl Cause {
    /// Whether a result may have it. Trouble is told to the partner alone.
    #[tactic(auto, unfolding(crate::specs::Choices::is_kept))]
    pub fn is_kept(self) -> bool
        ensures { result ≡ is_kept self }
    {
        self as u8 != Cause::Trouble as u8
    }
}

const CAUSES: [Cause; 17] = [
    Cause::None,
    Cause::Exists,
    Cause::InUse,
    Cause::NoSource,
    Cause::SourceChanged,
    Cause::Interrupted,
    Cause::NotStarted,
    Cause::Killed,
    Cause::SubmitText,
    Cause::SubmitFile,
    Cause::SubmitFull,
    Cause::SubmitNumbers,
    Cause::Released,
    Cause::TooLarge,
    Cause::SubmitNode,
    Cause::Trouble,
    Cause::SubmitStart,
];

impl Field for Cause {
    ghost form = { λ _. ⊤ };

    ghost writable = { λ _. ⊤ };

    ghost longest = { 1 };

    ghost spelled = { λ cause. number_bytes 1 (cause_code cause) };

    ghost found_in = { choice_in causes };

    ghost law = { cause_law };

    fn front(bytes: &[u8]) -> Option<(Cause, &[u8])> {
        choice(&CAUSES, bytes)
    }

    fn size(&self) -> usize {
        1
    }

    fn put(&self, into: &mut Vec<u8>) {
        (*self as u8).put(into);
    }
}

const DISPS: [Disp; 3] = [Disp::New, Disp::Rpl, Disp::Mod];

impl Field for Disp {
    ghost form = { λ _. ⊤ };

    ghost writable = { λ _. ⊤ };

    ghost longest = { 1 };

    ghost spelled = { λ disp. number_bytes 1 (disp_code disp) };

    ghost found_in = { choice_in disps };

    ghost law = { disp_law };

    fn front(bytes: &[u8]) -> Option<(Disp, &[u8])> {
        choice(&DISPS, bytes)
    }

    fn size(&self) -> usize {
        1
    }

    fn put(&self, into: &mut Vec<u8>) {
        (*self as u8).put(into);
    }
}

const TASK_KINDS: [TaskKind; 3] = [TaskKind::Restart, TaskKind::Once, TaskKind::Job];

impl Field for TaskKind {
    ghost form = { λ _. ⊤ };

    ghost writable = { λ _. ⊤ };

    ghost longest = { 1 };

    ghost spelled = { λ task_kind. number_bytes 1 (task_kind_code task_kind) };

    ghost found_in = { choice_in task_kinds };

    ghost law = { task_kind_law };

    fn front(bytes: &[u8]) -> Option<(TaskKind, &[u8])> {
        choice(&TASK_KINDS, bytes)
    }

    fn size(&self) -> usize {
        1
    }

    fn put(&self, into: &mut Vec<u8>) {
        (*self as u8).put(into);
    }
}

const HOWS: [How; 3] = [How::Finished, How::Deleted, How::Flushed];

impl Field for How {
    ghost form = { λ _. ⊤ };

    ghost writable = { λ _. ⊤ };

    ghost longest = { 1 };

    ghost spelled = { λ how. number_bytes 1 (how_code how) };

    ghost found_in = { choice_in hows };

    ghost law = { how_law };

    fn front(bytes: &[u8]) -> Option<(How, &[u8])> {
        choice(&HOWS, bytes)
    }

    fn size(&self) -> usize {
        1
    }

    fn put(&self, into: &mut Vec<u8>) {
        (*self as u8).put(into);
    }
}
