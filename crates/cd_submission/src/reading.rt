//! The Process that a file says.
ghost use Rattle.std.specs.Prelude.{◌≡◌, ℕ, List, IfOk};
ghost use Rattle.cd_grammar.specs.Faults.{Says};
ghost use Rattle.cd_submission.specs.Reading.{process_in};

use crate::file::Shown;
use cd_ast::{FaultName, Process};
use cd_commands::{law_of_resolved_readings, read_as};
use cd_types::{Bytes, NoMemory, Symbols};
use std::alloc::Global;

/// Why a file says no Process, or why there is no report of a drill.
#[derive(Debug, Drop)]
pub enum Unread {
    /// There is no file of this name.
    NoFile(Bytes),
    /// The files failed.
    FileFault,
    /// Its text has this fault at this place.
    Wrong(FaultName, u64),
}

/// The Process that the file of this name says, by what was shown of it and with these values of names in place of its own and
/// behind them; or why it says none. It fails only where memory runs out.
pub fn process_in(
    alloc: Global,
    name: Bytes,
    symbols: &Symbols,
    shown: &Shown,
) -> Result<Result<Process, Unread>, NoMemory>
    ensures read { IfOk result (λ read. read ≡ process_in name symbols.now shown.now) }
    ensures said { IfOk result (λ read. IfOk read (λ process. (text : List ℕ) × Says text symbols.now process)) }
{
    law_of_resolved_readings();
    match shown {
        Shown::Missing | Shown::Report(_) | Shown::NoScript(_) => Ok(Err(Unread::NoFile(name))),
        Shown::Failed => Ok(Err(Unread::FileFault)),
        Shown::Long(len) => Ok(Err(Unread::Wrong(FaultName::TooLong, *len))),
        Shown::Text(text) => match read_as(alloc, text.as_slice(), symbols) {
            Ok(Ok(process)) => Ok(Ok(process)),
            Ok(Err((name, at))) => Ok(Err(Unread::Wrong(name, at))),
            Err(fault) => Err(fault),
        },
    }
}
