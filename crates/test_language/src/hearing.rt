//! Texts of commands, with what they say, worked by hand.
use crate::closing::{close_command, close_symbols, print_and_close};
use cd_ast::{FaultName, print};
use cd_commands::{Command, Heard, hear, read_as};
use cd_types::Symbols;
use std::alloc::Global;
use std::process::Abort;
use std::test::Fail;

const FAULTS: &[(&[u8], FaultName, u64)] = &[
    (
        b"submit G1 PROCESS SNODE=BETA\nA1 GOTO A1\nPEND;",
        FaultName::Backward,
        30,
    ),
    (b"submit hold;", FaultName::Unexpected, 4),
    (b"submit;", FaultName::Word, 6),
    (b"x;", FaultName::Word, 0),
    (b"/* b */ stop x;", FaultName::Word, 5),
    (b"submit P PROCESS SNODE=BETA PEND; x", FaultName::Word, 34),
    (b"submit P PROCESS SNODE=BETA; x", FaultName::Unexpected, 20),
    (
        b"submit P PROCESS SNODE=&b PEND;",
        FaultName::Unresolved,
        16,
    ),
    (
        b"submit retain=initial P PROCESS SNODE=BETA STARTT=(,12:00) PEND;",
        FaultName::RetainStart,
        0,
    ),
];

const GAMMA: &[u8] = b"P PROCESS SNODE=Gamma PRTY=10 CLASS=1 HOLD=NO RETAIN=NO\nPEND\n";

const COMMANDS: &[(&[u8], &[u8])] = &[
    (b"init name=ALPHA home=17;", b"init ALPHA 17"),
    (b"stop;", b"stop"),
    (
        b"submit &to=Gamma p process snode=&to &To=beta /* which gives way */\npend;",
        GAMMA,
    ),
];

/// A command in bytes: its name with what it names, or the print of its Process; none of other commands.
fn spoken(alloc: Global, command: &Command) -> Result<Vec<u8>, Fail> {
    match command {
        Command::Init(name, home) => {
            let mut line = Vec::from_slice(alloc, b"init ")?;
            line.extend_from_slice(name.as_bytes())?;
            line.extend_from_slice(format!(in alloc; " {home}")?.as_bytes())?;
            Ok(line)
        }
        Command::SubmitText(process, _) => Ok(print(alloc, process)?),
        Command::Stop => Ok(Vec::from_slice(alloc, b"stop")?),
        _ => Ok(Vec::new(alloc)),
    }
}

/// The command that a text says; no bytes where it has a fault.
fn written(alloc: Global, text: &[u8]) -> Result<Vec<u8>, Fail> {
    match hear(alloc, text) {
        Ok(Heard::Command(command)) => {
            let line = spoken(alloc, &command);
            close_command(command);
            line
        }
        Ok(Heard::Fault(_, _)) => Ok(Vec::new(alloc)),
        Err(fault) => Err(Fail::from(fault)),
    }
}

/// The fault of a text, where it has one.
fn fault(alloc: Global, text: &[u8]) -> Result<Option<(FaultName, u64)>, Fail> {
    match hear(alloc, text) {
        Ok(Heard::Command(command)) => {
            close_command(command);
            Ok(None)
        }
        Ok(Heard::Fault(name, at)) => Ok(Some((name, at))),
        Err(fault) => Err(Fail::from(fault)),
    }
}

#[test]
fn each_fault_is_heard(rt: HostRuntime) -> Result<(), Fail> {
    let alloc = rt.alloc();
    for (text, name, at) in FAULTS {
        assert!(rt; fault(alloc, text)? == Some((*name, *at)));
    }
    Ok(())
}

#[test]
fn each_command_is_heard(rt: HostRuntime) -> Result<(), Fail> {
    let alloc = rt.alloc();
    for (text, command) in COMMANDS {
        assert!(rt; written(alloc, text)?.as_slice() == *command);
    }
    Ok(())
}

/// What is printed of the Process that a text says with these values; no bytes where it has a fault.
fn printed_with(alloc: Global, text: &[u8], values: &Symbols) -> Result<Vec<u8>, Fail> {
    match read_as(alloc, text, values) {
        Ok(Ok(process)) => Ok(print_and_close(alloc, process)?),
        Ok(Err(_)) => Ok(Vec::new(alloc)),
        Err(fault) => Err(Fail::from(fault)),
    }
}

/// The same, with this value of the name `to`.
fn printed(alloc: Global, text: &[u8], value: &[u8]) -> Result<Vec<u8>, Fail> {
    let mut values = Symbols::new(alloc);
    let printed = match values.set(b"to", value) {
        Ok(()) => printed_with(alloc, text, &values),
        Err(fault) => Err(Fail::from(fault)),
    };
    close_symbols(values);
    printed
}

#[test]
fn given_values_win(rt: HostRuntime) -> Result<(), Fail> {
    let alloc = rt.alloc();
    assert!(rt;
        printed(alloc, b"P PROCESS SNODE=&to &To=beta PEND", b"Gamma")?.as_slice() == GAMMA
    );
    assert!(rt; printed(alloc, b"P PROCESS SNODE=&to PEND", b"&to")?.is_empty());
    Ok(())
}
