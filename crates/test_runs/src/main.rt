//! Says what a node answers, and no part of the node: its input is texts, each but the last with a line `%%` behind it, and its
//! output has the answers to each and a line `%%`. The first line of a text is the home of a run over devices in memory, `BLANK`
//! or `ALPHA`. Lines behind it may put files: `text NAME REST` one of this name that holds REST, and `line NAME REST` the line REST
//! behind what it holds; `fail K` has the K-th next call of the files fail. What follows is the input of the run. An answer is the
//! output of the run, and a line with its exit status and the length of the journal that it leaves, in bytes.
//! Its tests are whole runs against lines and bytes that were written by hand.
#![tactic(auto)]

mod closing;
#[cfg(test)]
mod limits;
mod machine;
#[cfg(test)]
mod runs;
#[cfg(test)]
mod stops;
#[cfg(test)]
mod testing;
#[cfg(test)]
mod worked;

use anyhow::Result;
use cd_types::NoMemory;
use machine::{Machine, Ran};
use std::alloc::Global;
use std::io;

/// What stands between two texts.
const BETWEEN: &str = "\n%%\n";

/// Names the home ALPHA.
const INIT: &[u8] = b"init name=ALPHA home=17;";

// Puts what a line puts into a file. A line that puts nothing is left.
fn has_put(machine: &mut Machine, line: &str) -> Result<bool, NoMemory> {
    if let Some(file) = line.strip_prefix("text ") {
        let (name, text) = file.split_once(" ").unwrap_or((file, ""));
        machine.put(name.as_bytes(), text.as_bytes())?;
        return Ok(true);
    }
    if let Some(file) = line.strip_prefix("line ") {
        let (name, text) = file.split_once(" ").unwrap_or((file, ""));
        machine.put_line(name.as_bytes(), text.as_bytes())?;
        return Ok(true);
    }
    Ok(false)
}

// Puts the file of a line, or has a call fail. A line that asks for neither is left.
fn prepared(machine: &mut Machine, line: &str) -> Result<bool, NoMemory> {
    if has_put(machine, line)? {
        return Ok(true);
    }
    let Some(digits) = line.strip_prefix("fail ") else {
        return Ok(false);
    };
    match digits.parse::<u64>() {
        Ok(k) => machine.fail_files(k)?,
        Err(_) => return Ok(false),
    }
    Ok(true)
}

// Does what the lines at the front ask for, and gives what follows them.
fn input_of<'a>(machine: &mut Machine, text: &'a str) -> Result<&'a str, NoMemory> {
    let mut rest = text;
    for _ in 0..text.len() {
        let (line, more) = rest.split_once("\n").unwrap_or((rest, ""));
        if !prepared(machine, line)? {
            break;
        }
        rest = more;
    }
    Ok(rest)
}

// Names the home.
fn named(machine: &mut Machine) -> Result<(), NoMemory> {
    match machine.run(INIT) {
        Ok(ran) => {
            ran.close();
            Ok(())
        }
        Err(fault) => Err(fault),
    }
}

// What a run wrote, with its exit status and the length of the journal behind it.
fn answer(alloc: Global, ran: &Ran, length: usize) -> Result<String, NoMemory> {
    let lines = String::from_utf8_lossy(alloc, ran.out.bytes())?;
    let code = ran.status.code();
    Ok(format!(in alloc; "{lines}STATUS {code} JOURNAL {length}\n")?)
}

// What a machine answers to these lines and commands, once its home has a name or without one.
fn answers_of(
    alloc: Global,
    machine: &mut Machine,
    is_named: bool,
    text: &str,
) -> Result<String, NoMemory> {
    if is_named {
        named(machine)?;
    }
    let input = input_of(machine, text)?;
    match machine.run(input.as_bytes()) {
        Ok(ran) => {
            let said = answer(alloc, &ran, machine.bytes().len());
            ran.close();
            said
        }
        Err(fault) => Err(fault),
    }
}

// What a run on a home with this name, or without one, answers to these lines and commands.
fn answers(alloc: Global, is_named: bool, text: &str) -> Result<String, NoMemory> {
    let Ok(mut machine) = Machine::new(alloc, b"") else {
        return Err(NoMemory);
    };
    let said = answers_of(alloc, &mut machine, is_named, text);
    machine.close();
    said
}

// The answers to a text.
fn said(alloc: Global, text: &str) -> Result<String, NoMemory> {
    if let Some(lines) = text.strip_prefix("ALPHA\n") {
        answers(alloc, true, lines)
    } else if let Some(lines) = text.strip_prefix("BLANK\n") {
        answers(alloc, false, lines)
    } else {
        Ok(String::from_str(alloc, "NO HOME\n")?)
    }
}

fn main(rt: HostRuntime) -> Result<()> {
    let input = io::read_to_string(rt.alloc(), rt.reader())?;
    let mut rest: &str = &input;
    for _ in 0..input.len() {
        let (text, more) = rest.split_once(BETWEEN).unwrap_or((rest, ""));
        if !text.is_empty() {
            match said(rt.alloc(), text) {
                Ok(said) => println!(rt; "{said}%%")?,
                Err(_) => println!(rt; "NO MEMORY\n%%")?,
            }
        }
        rest = more;
    }
    Ok(())
}
