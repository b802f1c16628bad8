//! The commands of a drill.
ghost use Rattle.std.specs.Prelude.{◌≡◌, ◌++◌, OnOk, IfOk};
ghost use Rattle.cd_drill.specs.AtRest.{IsAtRest};
ghost use Rattle.cd_drill.specs.Replies.{home_line, number_line, reply_line};
ghost use Rattle.cd_drill.specs.Commanded.{IsReplyTo};

use crate::refused::write_refused;
use crate::test_node::TestNode;
use cd_ast::FaultName;
use cd_commands::{CommandFault, read_command};
use cd_effects::Fault;
use cd_operator::{Refused, Reply};
use cd_types::NoMemory;
use std::alloc::Global;

/// The node does a command, and replies.
pub(crate) fn reply_to(alloc: Global, half: &mut TestNode, text: &[u8]) -> Result<Reply, Fault>
    requires { IsAtRest half.old }
    ensures rest { OnOk result (IsAtRest half.new) }
    ensures replied { IfOk result (λ reply. IsReplyTo text.now reply half.old half.new) }
{
    match read_command(alloc, text) {
        Ok(command) => match half.command(alloc, command) {
            Ok(reply) => Ok(reply),
            Err(fault) => Err(fault),
        },
        Err(CommandFault::Word(at)) => Ok(Reply::Refused(Refused::Text(FaultName::Word, at))),
        Err(CommandFault::Process(name, at)) => Ok(Reply::Refused(Refused::Text(name, at))),
        Err(CommandFault::NoMemory) => Err(Fault::NoMemory),
    }
}

fn write_home(alloc: Global, name: &[u8], home: u64, into: &mut Vec<u8>) -> Result<(), NoMemory>
    ensures { OnOk result (into.new.items ≡ into.old.items ++ home_line name.now home) }
{
    into.extend_from_slice(b"HOME ")?;
    into.extend_from_slice(name)?;
    let number = format!(in alloc; " {home}\n")?;
    into.extend_from_slice(number.as_bytes())?;
    Ok(())
}

fn write_number(alloc: Global, number: u32, into: &mut Vec<u8>) -> Result<(), NoMemory>
    ensures { OnOk result (into.new.items ≡ into.old.items ++ number_line number) }
{
    let line = format!(in alloc; "PROCESS {number} SUBMITTED\n")?;
    into.extend_from_slice(line.as_bytes())?;
    Ok(())
}

/// Writes what is replied to a command.
pub(crate) fn write_reply(alloc: Global, reply: Reply, into: &mut Vec<u8>) -> Result<(), NoMemory>
    ensures { OnOk result (into.new.items ≡ into.old.items ++ reply_line reply) }
{
    match reply {
        Reply::Home(name, home) => match write_home(alloc, name.as_bytes(), home, into) {
            Ok(()) => Ok(()),
            Err(fault) => Err(fault),
        },
        Reply::Submitted(number) => match write_number(alloc, number.number(), into) {
            Ok(()) => Ok(()),
            Err(fault) => Err(fault),
        },
        Reply::Refused(refused) => match write_refused(alloc, refused, into) {
            Ok(()) => Ok(()),
            Err(fault) => Err(fault),
        },
    }
}
