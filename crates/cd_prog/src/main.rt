//! The program `cdnode`: the node on the journal and the files of the current folder, standard input and standard output.
#![tactic(auto)]

mod clock;
mod disk;
#[cfg(test)]
mod exits;
mod files;
mod guard;
mod hand;
mod names;
mod report;
mod streams;
#[cfg(test)]
mod tests;

use crate::clock::SystemClock;
use crate::disk::FileDisk;
use crate::files::SystemFiles;
use crate::streams::{StandardInput, StandardOutput, take_closed_places};
use cd_cli::{Status, run_node};
use cd_outside::{Beat, Sink};
use std::io::ErrorKind;
use std::process::ExitCode;
use std::{env, io};

/// The journal's file.
const JOURNAL: &str = "journal";

/// A word that the command line hasn't, in place of words that aren't text.
const NO_WORD: &str = "\u{FFFD}";

// Why the words of the command line aren't known.
#[derive(Debug, Drop)]
enum WordsFault {
    NoMemory,
    NotText,
}

// The words of the command line, without the program's name.
fn words(rt: &HostRuntime) -> Result<Vec<String>, WordsFault> {
    let mut words = Vec::new(rt.alloc());
    let given = match env::args(rt) {
        Ok(given) => given,
        Err(e) if e.kind() == ErrorKind::OutOfMemory => return Err(WordsFault::NoMemory),
        Err(_) => return Err(WordsFault::NotText),
    };
    for word in given.skip(1) {
        if words.push(word).is_err() {
            return Err(WordsFault::NoMemory);
        }
    }
    Ok(words)
}

// Runs the node on these words.
fn run(rt: HostRuntime, words: &[&str]) -> Status {
    let mut journal = FileDisk::new(rt, JOURNAL);
    let mut files = SystemFiles::new(rt);
    let mut clock = SystemClock::new(rt);
    let mut input = StandardInput::new(rt, rt.reader());
    let mut out = StandardOutput::new(rt, io::writer(&rt));
    let mut beat = Beat::new();
    run_node(
        rt.alloc(),
        words,
        &mut journal,
        &mut files,
        &mut clock,
        &mut input,
        &mut out,
        &mut beat,
    )
}

// Tells that memory ran out before the run.
fn no_memory(rt: HostRuntime) -> Status {
    let _ = StandardOutput::new(rt, io::writer(&rt)).write(b"NO MEMORY\n");
    Status::NoMemory
}

// Runs the node on the words that were given.
fn run_on(rt: HostRuntime, given: &[String]) -> Status {
    let mut words = Vec::new(rt.alloc());
    for word in given.iter() {
        if words.push(word.as_str()).is_err() {
            return no_memory(rt);
        }
    }
    run(rt, &words)
}

// Runs the node on the words of the command line.
fn start(rt: HostRuntime) -> Status {
    match words(&rt) {
        Ok(given) => run_on(rt, &given),
        Err(WordsFault::NotText) => run(rt, &[NO_WORD]),
        Err(WordsFault::NoMemory) => no_memory(rt),
    }
}

fn main(rt: HostRuntime) -> ExitCode {
    let status = match take_closed_places(&rt) {
        Ok(_places) => start(rt),
        Err(_) => no_memory(rt),
    };
    ExitCode::from(status.code())
}
