//! Texts of commands.
ghost use Rattle.std.specs.Prelude.{◌≡◌, IfOk};
ghost use Rattle.cd_commands.specs.Heard.{heard};

use crate::heard_law::law_of_hearing;
use crate::{Command, CommandFault, read_command};
use cd_ast::FaultName;
use cd_types::NoMemory;
use std::alloc::Global;

/// What a command's text says: a command, or its first fault, at its place.
#[derive(Drop)]
pub enum Heard {
    Command(Command),
    Fault(FaultName, u64),
}

/// Reads the text of a command. It fails only where memory runs out.
pub fn hear(alloc: Global, text: &[u8]) -> Result<Heard, NoMemory>
    ensures { IfOk result (λ said. said ≡ heard text.now) }
{
    law_of_hearing();
    match read_command(alloc, text) {
        Ok(command) => Ok(Heard::Command(command)),
        Err(CommandFault::Word(at)) => Ok(Heard::Fault(FaultName::Word, at)),
        Err(CommandFault::Process(name, at)) => Ok(Heard::Fault(name, at)),
        Err(CommandFault::NoMemory) => Err(NoMemory),
    }
}
