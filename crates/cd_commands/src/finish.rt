//! The command that the parameters make up.
ghost use Rattle.std.specs.Prelude.{◌≡◌, IfOk};
ghost use Rattle.std.specs.Option.{option_map};
ghost use Rattle.cd_grammar.specs.Reading.{or_default};
ghost use Rattle.cd_commands.specs.Given.{inited, changed, drilled, finished, options_of};

use crate::Command;
use crate::given::{Given, options_of};
use crate::kind::Kind;
use cd_grammar::Lent;
use cd_types::{Bytes, Hold, NoMemory, NodeName, ProcNo};
use std::alloc::Global;

fn inited(name: Option<NodeName>, home: Option<u64>) -> Option<Command>
    ensures { result ≡ inited name home }
{
    match (name, home) {
        (Some(name), Some(home)) => Some(Command::Init(name, home)),
        _ => None,
    }
}

fn changed(
    number: Option<ProcNo>,
    prty: Option<u8>,
    hold: Option<Hold>,
    release: bool,
) -> Option<Command>
    ensures { result ≡ changed number prty hold release }
{
    let Some(number) = number else {
        return None;
    };
    if prty.is_some() || hold.is_some() || release {
        Some(Command::Change(number, prty, hold, release))
    } else {
        None
    }
}

/// A file's name of its own, where there is one.
fn owned(alloc: Global, file: &Option<Lent<'_>>) -> Result<Option<Bytes>, NoMemory>
    ensures { IfOk result (λ bytes. bytes ≡ file.now) }
{
    match file {
        Some(file) => {
            let bytes = Bytes::copy_of(alloc, file.bytes())?;
            Ok(Some(bytes))
        }
        None => Ok(None),
    }
}

fn submitted(alloc: Global, given: Given<'_>) -> Result<Option<Command>, NoMemory>
    ensures { IfOk result (λ c. c ≡ option_map (λ file. Command.SubmitFile file (options_of given.entry)) given.entry.file) }
{
    match owned(alloc, &given.file)? {
        Some(file) => Ok(Some(Command::SubmitFile(file, options_of(given)))),
        None => Ok(None),
    }
}

fn viewed(alloc: Global, given: Given<'_>) -> Result<Option<Command>, NoMemory>
    ensures { IfOk result (λ c. c ≡ option_map (λ file. Command.View file given.entry.symbols) given.entry.file) }
{
    match owned(alloc, &given.file)? {
        Some(file) => Ok(Some(Command::View(file, given.symbols))),
        None => Ok(None),
    }
}

fn released(alloc: Global, given: Given<'_>) -> Result<Option<Command>, NoMemory>
    ensures { IfOk result (λ c. c ≡ option_map (λ file. Command.ReleaseReceive file) given.entry.file) }
{
    match owned(alloc, &given.file)? {
        Some(file) => Ok(Some(Command::ReleaseReceive(file))),
        None => Ok(None),
    }
}

fn drilled(alloc: Global, given: Given<'_>) -> Result<Option<Command>, NoMemory>
    ensures { IfOk result (λ c. c ≡ drilled given.entry.file given.entry.generate given.entry.count) }
{
    match owned(alloc, &given.file)? {
        Some(file) => Ok(Some(Command::Drill(file))),
        None => match (given.generate, given.count) {
            (Some(seed), Some(count)) => Ok(Some(Command::Generate(seed, count))),
            _ => Ok(None),
        },
    }
}

fn or_default(number: Option<u32>, other: u32) -> u32
    ensures { result ≡ or_default number other }
{
    match number {
        Some(number) => number,
        None => other,
    }
}

fn deleted(number: Option<ProcNo>) -> Option<Command>
    ensures { result ≡ option_map (λ n. Command.Delete n) number }
{
    match number {
        Some(number) => Some(Command::Delete(number)),
        None => None,
    }
}

fn flushed(number: Option<ProcNo>) -> Option<Command>
    ensures { result ≡ option_map (λ n. Command.Flush n) number }
{
    match number {
        Some(number) => Some(Command::Flush(number)),
        None => None,
    }
}

/// The command that the parameters make up, where none is missing.
#[tactic(auto, unfolding(crate::specs::Given::finished))]
pub(crate) fn finished(
    alloc: Global,
    kind: Kind,
    given: Given<'_>,
) -> Result<Option<Command>, NoMemory>
    ensures { IfOk result (λ command. command ≡ finished kind given.entry) }
{
    let command = match kind {
        Kind::Init => inited(given.name, given.home),
        Kind::Submit => submitted(alloc, given)?,
        Kind::View => viewed(alloc, given)?,
        Kind::SelectProcess => Some(Command::SelectProcess(given.pnumber, given.queue)),
        Kind::Change => changed(given.pnumber, given.prty, given.hold, given.release),
        Kind::Delete => deleted(given.pnumber),
        Kind::Flush => flushed(given.pnumber),
        Kind::SelectStatistics => Some(Command::SelectStatistics(given.pnumber)),
        Kind::Release => released(alloc, given)?,
        Kind::Work => Some(Command::Work(or_default(given.sessions, 1), given.turns)),
        Kind::Serve => Some(Command::Serve(
            or_default(given.sessions, 1),
            or_default(given.together, 1),
            given.turns,
        )),
        Kind::Drill => drilled(alloc, given)?,
        Kind::Stop => Some(Command::Stop),
    };
    Ok(command)
}
