//! Says which commands texts are, and no part of the node: its input is texts, each but the last with a line `%%` behind it, and
//! its output has of each the command, or its fault with its place, and a line `%%`.
#![tactic(auto)]

use anyhow::Result;
use cd_ast::print;
use cd_commands::{Command, CommandFault, Options, read_command};
use cd_types::{ProcNo, Queue, Symbols};
use std::alloc::Global;
use std::io;

/// What stands between two texts.
const BETWEEN: &str = "\n%%\n";

// Bytes as text.
fn text_of(alloc: Global, bytes: &[u8]) -> Result<String> {
    Ok(String::from_utf8_lossy(alloc, bytes)?)
}

// Names with their values.
fn symbols_of(alloc: Global, symbols: &Symbols) -> Result<String> {
    let mut line = String::new(alloc);
    for place in 0..symbols.len() {
        if let Some((name, value)) = symbols.pair(place) {
            let name = text_of(alloc, name)?;
            let value = text_of(alloc, value)?;
            line.push_str(&format!(in alloc; " &{name}={value}")?)?;
        }
    }
    Ok(line)
}

// The options of a submission that are given.
fn options_of(alloc: Global, options: &Options) -> Result<String> {
    let mut line = String::new(alloc);
    if let Some(name) = options.snode {
        let name = text_of(alloc, name.as_bytes())?;
        line.push_str(&format!(in alloc; " snode={name}")?)?;
    }
    if let Some(prty) = options.prty {
        line.push_str(&format!(in alloc; " prty={prty}")?)?;
    }
    if let Some(class) = options.class {
        line.push_str(&format!(in alloc; " class={class}")?)?;
    }
    if let Some(hold) = options.hold {
        line.push_str(&format!(in alloc; " hold={hold:?}")?)?;
    }
    if let Some(retain) = options.retain {
        line.push_str(&format!(in alloc; " retain={retain:?}")?)?;
    }
    if let Some(start) = options.start {
        let day = start.day;
        let seconds = start.seconds;
        line.push_str(&format!(in alloc; " start={day:?} {seconds}")?)?;
    }
    line.push_str(&symbols_of(alloc, &options.symbols)?)?;
    Ok(line)
}

// A Process's number, where one is given.
fn number_of(alloc: Global, number: Option<ProcNo>) -> Result<String> {
    match number {
        Some(number) => {
            let number = number.number();
            Ok(format!(in alloc; " pnumber={number}")?)
        }
        None => Ok(String::new(alloc)),
    }
}

// A queue, where one is given.
fn queue_of(alloc: Global, queue: Option<Queue>) -> Result<String> {
    match queue {
        Some(queue) => Ok(format!(in alloc; " queue={queue:?}")?),
        None => Ok(String::new(alloc)),
    }
}

// How many turns, where that is given.
fn turns_of(alloc: Global, turns: Option<u32>) -> Result<String> {
    match turns {
        Some(turns) => Ok(format!(in alloc; " turns={turns}")?),
        None => Ok(String::new(alloc)),
    }
}

// A submission or a view.
fn submitted(alloc: Global, command: &Command) -> Result<String> {
    match command {
        Command::SubmitFile(file, options) => {
            let file = text_of(alloc, file.as_slice())?;
            let options = options_of(alloc, options)?;
            Ok(format!(in alloc; "SubmitFile {file}{options}\n")?)
        }
        Command::SubmitText(process, options) => {
            let options = options_of(alloc, options)?;
            let Ok(print) = print(alloc, process) else {
                return Ok(String::from_str(alloc, "NoMemory\n")?);
            };
            let text = text_of(alloc, &print)?;
            Ok(format!(in alloc; "SubmitText{options}\n{text}")?)
        }
        Command::View(file, symbols) => {
            let file = text_of(alloc, file.as_slice())?;
            let symbols = symbols_of(alloc, symbols)?;
            Ok(format!(in alloc; "View {file}{symbols}\n")?)
        }
        _ => Ok(String::new(alloc)),
    }
}

// A command on the queue.
fn operated(alloc: Global, command: &Command) -> Result<String> {
    match command {
        Command::SelectProcess(number, queue) => {
            let number = number_of(alloc, *number)?;
            let queue = queue_of(alloc, *queue)?;
            Ok(format!(in alloc; "SelectProcess{number}{queue}\n")?)
        }
        Command::Change(number, prty, hold, release) => {
            let number = number.number();
            Ok(format!(in alloc; "Change {number} {prty:?} {hold:?} {release}\n")?)
        }
        Command::Delete(number) => {
            let number = number.number();
            Ok(format!(in alloc; "Delete {number}\n")?)
        }
        Command::Flush(number) => {
            let number = number.number();
            Ok(format!(in alloc; "Flush {number}\n")?)
        }
        Command::SelectStatistics(number) => {
            let number = number_of(alloc, *number)?;
            Ok(format!(in alloc; "SelectStatistics{number}\n")?)
        }
        _ => Ok(String::new(alloc)),
    }
}

// A command that runs something, or another one.
fn running(alloc: Global, command: &Command) -> Result<String> {
    match command {
        Command::Init(name, home) => {
            let name = text_of(alloc, name.as_bytes())?;
            Ok(format!(in alloc; "Init {name} {home}\n")?)
        }
        Command::ReleaseReceive(file) => {
            let file = text_of(alloc, file.as_slice())?;
            Ok(format!(in alloc; "ReleaseReceive {file}\n")?)
        }
        Command::Work(sessions, turns) => {
            let turns = turns_of(alloc, *turns)?;
            Ok(format!(in alloc; "Work {sessions}{turns}\n")?)
        }
        Command::Serve(sessions, together, turns) => {
            let turns = turns_of(alloc, *turns)?;
            Ok(format!(in alloc; "Serve {sessions} {together}{turns}\n")?)
        }
        Command::Drill(file) => {
            let file = text_of(alloc, file.as_slice())?;
            Ok(format!(in alloc; "Drill {file}\n")?)
        }
        Command::Generate(seed, count) => Ok(format!(in alloc; "Generate {seed} {count}\n")?),
        Command::Stop => Ok(String::from_str(alloc, "Stop\n")?),
        _ => Ok(String::new(alloc)),
    }
}

// A command.
fn told(alloc: Global, command: &Command) -> Result<String> {
    let mut line = submitted(alloc, command)?;
    line.push_str(&operated(alloc, command)?)?;
    line.push_str(&running(alloc, command)?)?;
    Ok(line)
}

// Why a text is none.
fn refused(alloc: Global, fault: CommandFault) -> Result<String> {
    match fault {
        CommandFault::Word(at) => Ok(format!(in alloc; "Word {at}\n")?),
        CommandFault::Process(name, at) => Ok(format!(in alloc; "Process {name:?} {at}\n")?),
        CommandFault::NoMemory => Ok(String::from_str(alloc, "NoMemory\n")?),
    }
}

// The command, or the fault with its place.
fn said(alloc: Global, text: &[u8]) -> Result<String> {
    match read_command(alloc, text) {
        Ok(command) => told(alloc, &command),
        Err(fault) => refused(alloc, fault),
    }
}

fn main(rt: HostRuntime) -> Result<()> {
    let input = io::read_to_string(rt.alloc(), rt.reader())?;
    let mut rest: &str = &input;
    for _ in 0..input.len() {
        let (text, more) = rest.split_once(BETWEEN).unwrap_or((rest, ""));
        if !text.is_empty() {
            let said = said(rt.alloc(), text.as_bytes())?;
            println!(rt; "{said}%%")?;
        }
        rest = more;
    }
    Ok(())
}
