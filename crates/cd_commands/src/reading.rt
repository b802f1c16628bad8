//! Texts of Processes.
ghost use Rattle.std.specs.Prelude.{◌≡◌, IfOk};
ghost use Rattle.cd_commands.specs.Texts.{read_as};

use crate::heard_law::law_of_resolved_readings;
use cd_ast::{FaultName, Process};
use cd_parser::{ParseFault, parse};
use cd_types::{NoMemory, Symbols};
use std::alloc::Global;

/// Reads the text of a Process, with these values of names in place of its own and behind them: the Process that it says, or its
/// first fault, at its place. It fails only where memory runs out.
pub fn read_as(
    alloc: Global,
    text: &[u8],
    overrides: &Symbols,
) -> Result<Result<Process, (FaultName, u64)>, NoMemory>
    ensures { IfOk result (λ read. read ≡ read_as text.now overrides.now) }
{
    law_of_resolved_readings();
    match parse(alloc, text, overrides) {
        Ok(process) => Ok(Ok(process)),
        Err(ParseFault::Text(name, at)) => Ok(Err((name, at))),
        Err(ParseFault::NoMemory) => Err(NoMemory),
    }
}
