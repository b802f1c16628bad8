//! A question to the files.
ghost use Rattle.std.specs.Prelude.{◌≡◌, ◌≤◌, ℕ, Err, OnOk, IfErr};
ghost use Rattle.cd_outside.specs.Counts.{Rose};
ghost use Rattle.cd_effects.specs.Stands.{IsFaultOfAsking};
ghost use Rattle.cd_exchange.specs.Question.{seen_question, answers_of, IsAnswered, IsTold};

use crate::given::Given;
use crate::rules_trait::Question;
use cd_effects::{Fault, ask_bytes, ask_size};
use cd_outside::Files;

/// Asks the files, and keeps what they tell in place of what was told before. `Files` only where the count of the files rose;
/// else memory ran out.
pub fn ask<F: Files>(
    files: &mut F,
    question: Question<'_>,
    given: &mut Given,
    buffer: &mut Vec<u8>,
) -> Result<(), Fault>
    ensures answered { (now : ℕ) → OnOk result (IsAnswered (seen_question question.entry) (answers_of now given.old buffer.old.items) (answers_of now given.new buffer.new.items)) }
    ensures told { F.observable → (now : ℕ) → OnOk result (IsTold (F.state files.old).shelf (seen_question question.entry) (answers_of now given.new buffer.new.items)) }
    ensures same { F.observable → F.state files.new ≡ F.state files.old }
    ensures fault { IfErr result IsFaultOfAsking }
    ensures later { F.faults files.old ≤ F.faults files.new }
    ensures cause { result ≡ Err Fault.Files → Rose (F.faults files.old) (F.faults files.new) }
{
    match question {
        Question::Nothing => Ok(()),
        Question::Destination(name) => match ask_size(files, name) {
            Ok(size) => {
                given.there = size;
                Ok(())
            }
            Err(fault) => Err(fault),
        },
        Question::Source(name) => match ask_size(files, name) {
            Ok(size) => {
                given.source = size;
                Ok(())
            }
            Err(fault) => Err(fault),
        },
        Question::Bytes(name, at, len) => match ask_bytes(files, name, at, len, buffer) {
            Ok(()) => Ok(()),
            Err(fault) => Err(fault),
        },
    }
}
