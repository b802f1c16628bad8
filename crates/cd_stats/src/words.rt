//! The words of a report.
ghost use Rattle.std.specs.Prelude.{◌≡◌, option_map};
ghost use Rattle.cd_stats.specs.Words.{cause_word, how_word, task_word, kind_word};

use cd_ast::What;
use cd_types::{Cause, How, TaskKind};

/// Why a step ended so.
pub fn cause_word(cause: Cause) -> &'static [u8]
    ensures { result.now ≡ cause_word cause }
{
    match cause {
        Cause::None => b"None",
        Cause::Exists => b"Exists",
        Cause::InUse => b"InUse",
        Cause::NoSource => b"NoSource",
        Cause::SourceChanged => b"SourceChanged",
        Cause::Interrupted => b"Interrupted",
        Cause::NotStarted => b"NotStarted",
        Cause::Killed => b"Killed",
        Cause::SubmitText => b"SubmitText",
        Cause::SubmitFile => b"SubmitFile",
        Cause::SubmitFull => b"SubmitFull",
        Cause::SubmitNumbers => b"SubmitNumbers",
        Cause::Released => b"Released",
        Cause::TooLarge => b"TooLarge",
        Cause::SubmitNode => b"SubmitNode",
        Cause::Trouble => b"Trouble",
        Cause::SubmitStart => b"SubmitStart",
    }
}

/// How a Process ended.
pub fn how_word(how: How) -> &'static [u8]
    ensures { result.now ≡ how_word how }
{
    match how {
        How::Finished => b"Finished",
        How::Deleted => b"Deleted",
        How::Flushed => b"Flushed",
    }
}

fn task_word(kind: TaskKind) -> &'static [u8]
    ensures { result.now ≡ task_word kind }
{
    match kind {
        TaskKind::Restart => b"TASK",
        TaskKind::Once => b"TASK",
        TaskKind::Job => b"JOB",
    }
}

/// What the statement of a step does.
pub fn kind_word(what: Option<&What>) -> &'static [u8]
    ensures { result.now ≡ kind_word (option_map (λ what. what.now) what.entry) }
{
    match what {
        None => b"",
        Some(What::Copy(_)) => b"COPY",
        Some(What::Task(step)) => task_word(step.kind),
        Some(What::Submit(_)) => b"SUBMIT",
        Some(What::If(..)) => b"",
        Some(What::Else) => b"",
        Some(What::Eif) => b"",
        Some(What::Goto(_)) => b"",
        Some(What::Exit) => b"",
    }
}
