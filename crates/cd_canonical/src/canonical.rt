//! Canonical texts.
ghost use Rattle.std.specs.Prelude.{◌≡◌, Some, IfOk};
ghost use Rattle.cd_canonical.specs.Read.{process_in, if_printed};

use crate::law::law_of_readings;
use cd_ast::{Process, print};
use cd_book::Texts;
use cd_parser::{ParseFault, parse_plain};
use cd_types::NoMemory;
use std::alloc::Global;

/// Reads a text as the Process whose canonical text it is, where it is one.
#[derive(Clone, Copy, Debug, Drop)]
pub struct Canonical;

/// The Process that a text says, read as it stands, where it says one.
fn process_in(alloc: Global, text: &[u8]) -> Result<Option<Process>, NoMemory>
    ensures { IfOk result (λ process. process ≡ process_in text.now) }
{
    law_of_readings();
    match parse_plain(alloc, text) {
        Ok(process) => Ok(Some(process)),
        Err(ParseFault::Text(_, _)) => Ok(None),
        Err(ParseFault::NoMemory) => Err(NoMemory),
    }
}

/// The Process, where this is its canonical text.
fn if_printed(alloc: Global, text: &[u8], process: Process) -> Result<Option<Process>, NoMemory>
    ensures { IfOk result (λ found. found ≡ if_printed text.now (Some process)) }
{
    let printed = print(alloc, &process)?;
    if printed.as_slice() == text {
        Ok(Some(process))
    } else {
        Ok(None)
    }
}

impl Texts for Canonical {
    ghost use Rattle.cd_canonical.specs.Read.{canonical_reading};

    ghost read = { canonical_reading };

    fn process(&self, alloc: Global, text: &[u8]) -> Result<Option<Process>, NoMemory> {
        match process_in(alloc, text) {
            Ok(Some(process)) => match if_printed(alloc, text, process) {
                Ok(found) => Ok(found),
                Err(fault) => Err(fault),
            },
            Ok(None) => Ok(None),
            Err(fault) => Err(fault),
        }
    }
}
