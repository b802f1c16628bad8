//! Submissions worked by hand: the texts that are kept of them.
use crate::closing::{close_command, close_options, close_process, print_and_close};
use cd_ast::Process;
use cd_commands::{Command, read_command};
use cd_submission::{DEFAULT_INTERVAL, filled, is_push, with_options};
use std::alloc::Global;
use std::test::Fail;

/// The Process where it is a push, and where it still is one with its interval.
fn push_of(process: Process) -> Option<Process> {
    if !is_push(&process, None) {
        close_process(process);
        return None;
    }
    let kept = filled(process);
    if is_push(&kept, Some(DEFAULT_INTERVAL)) {
        Some(kept)
    } else {
        close_process(kept);
        None
    }
}

/// The push that a submission says, where it says one.
fn submitted(command: Command) -> Option<Process> {
    match command {
        Command::SubmitText(process, options) => {
            let process = with_options(process, &options);
            close_options(options);
            push_of(process)
        }
        other => {
            close_command(other);
            None
        }
    }
}

/// What is kept of a command; no bytes where it is no submission of a push.
fn kept_of(alloc: Global, command: Command) -> Result<Vec<u8>, Fail> {
    match submitted(command) {
        Some(process) => Ok(print_and_close(alloc, process)?),
        None => Ok(Vec::new(alloc)),
    }
}

/// What is kept of the command that a text says.
fn kept(alloc: Global, text: &[u8]) -> Result<Vec<u8>, Fail> {
    match read_command(alloc, text) {
        Ok(command) => kept_of(alloc, command),
        Err(fault) => Err(Fail::from(fault)),
    }
}

/// What a submission leaves open gets its default, and the COPY says its interval.
#[test]
fn the_worked_text(rt: HostRuntime) -> Result<(), Fail> {
    let text = kept(
        rt.alloc(),
        b"submit P1 PROCESS SNODE=BETA S1 COPY FROM (FILE=a.txt) TO (FILE=b.txt) PEND;",
    )?;
    let expected = b"P1 PROCESS SNODE=BETA PRTY=10 CLASS=1 HOLD=NO RETAIN=NO
S1 COPY FROM (FILE=\"a.txt\" PNODE) TO (FILE=\"b.txt\" SNODE DISP=RPL) CKPT=64K
PEND
";
    assert!(rt; text.as_slice() == expected.as_slice());
    Ok(())
}

/// The options go before what the text says, in each of the parameters that a push may choose.
#[test]
fn options_win(rt: HostRuntime) -> Result<(), Fail> {
    let text = kept(
        rt.alloc(),
        b"submit snode=GAMMA class=3 prty=10 hold=no retain=no P1 PROCESS SNODE=BETA CLASS=2 PRTY=4 HOLD=YES RETAIN=YES S1 COPY FROM (FILE=a.txt) TO (FILE=b.txt) PEND;",
    )?;
    let expected = b"P1 PROCESS SNODE=GAMMA PRTY=10 CLASS=3 HOLD=NO RETAIN=NO
S1 COPY FROM (FILE=\"a.txt\" PNODE) TO (FILE=\"b.txt\" SNODE DISP=RPL) CKPT=64K
PEND
";
    assert!(rt; text.as_slice() == expected.as_slice());
    Ok(())
}

/// Submissions that say another Process than a push: held by the text or by an option, with two steps, a pull, with an interval.
const OTHERS: [&[u8]; 5] = [
    b"submit P1 PROCESS SNODE=BETA HOLD=YES S1 COPY FROM (FILE=a.txt) TO (FILE=b.txt) PEND;",
    b"submit hold=call P1 PROCESS SNODE=BETA S1 COPY FROM (FILE=a.txt) TO (FILE=b.txt) PEND;",
    b"submit P1 PROCESS SNODE=BETA S1 COPY FROM (FILE=a.txt) TO (FILE=b.txt) S2 COPY FROM (FILE=c.txt) TO (FILE=d.txt) PEND;",
    b"submit P1 PROCESS SNODE=BETA S1 COPY FROM (FILE=a.txt SNODE) TO (FILE=b.txt PNODE) PEND;",
    b"submit P1 PROCESS SNODE=BETA S1 COPY FROM (FILE=a.txt) TO (FILE=b.txt) CKPT=64K PEND;",
];

#[test]
fn others_are_no_pushes(rt: HostRuntime) -> Result<(), Fail> {
    for text in OTHERS {
        assert!(rt; kept(rt.alloc(), text)?.is_empty());
    }
    Ok(())
}
