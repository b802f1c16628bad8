//! What is at a limit, and one above it.
ghost use Rattle.std.specs.Prelude.{◌≡◌, ◌≤◌, ◌<◌, [], length, vec_len, true, IfOk, OnOk, IsTrue};
ghost use Rattle.cd_outside.specs.Counts.{next, Rose};
ghost use Rattle.cd_outside.specs.Doubt.{settled};

use crate::closing::close_journal;
use crate::machine::{Machine, quiet};
use crate::testing::is_said;
use crate::worked::{NAMED, SUBMIT, SUBMITTED};
use cd_cli::Status;
use cd_journal::{Journal, JournalFault};
use cd_outside::{Beat, Disk, Failed, Source};
use std::alloc::{AllocError, Global};
use std::process::Abort;
use std::test::Fail;

// An input of so many blanks.
#[derive(Drop)]
struct Blanks {
    left: usize,
}

impl Source for Blanks {
    ghost observable = { ⊥ };

    ghost remaining = { λ _. [] };

    ghost faults = { λ _. 0 };

    fn read(&mut self, into: &mut [u8]) -> Result<usize, Failed> {
        let count = into.len().min(self.left);
        into.fill(b' ');
        self.left -= count;
        Ok(count)
    }
}

// A run on an input of so many blanks ends so, with this line.
fn blanks_end(
    rt: &impl Abort,
    alloc: Global,
    count: usize,
    status: Status,
    line: &[u8],
) -> Result<(), Fail> {
    let mut input = Blanks { left: count };
    let Ok(mut machine) = Machine::new(alloc, b"") else {
        return Err(Fail::from("no machine"));
    };
    let ran = machine.answer(&[], &mut input, quiet(alloc));
    machine.close();
    match ran {
        Ok(ran) => {
            let ended = is_said(rt, ran, line);
            assert_eq!(rt; ended, status);
            Ok(())
        }
        Err(fault) => Err(Fail::from(fault)),
    }
}

#[test]
fn the_input_is_at_its_limit(rt: HostRuntime) -> Result<(), Fail> {
    for (count, status, line) in [
        (16_777_216, Status::Done, b"".as_slice()),
        (16_777_217, Status::InputLimit, b"INPUT LIMIT\n"),
    ] {
        blanks_end(&rt, rt.alloc(), count, status, line)?;
    }
    assert_eq!(rt; Status::InputLimit.code(), 11);
    Ok(())
}

// A run on these commands ends so, with these lines, and leaves the journal with a home alone.
fn commands_end(
    rt: &impl Abort,
    machine: &mut Machine,
    commands: &[u8],
    lines: &[u8],
    status: Status,
) -> Result<(), Fail> {
    let ended = machine.says(rt, commands, lines)?;
    assert_eq!(rt; ended, status);
    assert_eq!(rt; machine.bytes(), NAMED);
    Ok(())
}

#[test]
fn a_command_is_at_its_limit(rt: HostRuntime) -> Result<(), Fail> {
    for (count, lines, status) in [
        (
            69_999,
            b"REFUSED TEXT Word 0\nSTOPPED\n".as_slice(),
            Status::Done,
        ),
        (70_000, b"REFUSED TEXT TooLong 70000\n", Status::Refused),
    ] {
        let mut commands = vec![in rt.alloc(); b'a'; count]?;
        commands.extend_from_slice(b";stop;")?;
        let Ok(mut machine) = Machine::new(rt.alloc(), NAMED) else {
            return Err(Fail::from("no machine"));
        };
        let outcome = commands_end(&rt, &mut machine, &commands, lines, status);
        machine.close();
        outcome?;
    }
    Ok(())
}

// A Process text of so many bytes: a push, and then a comment.
fn push_of(alloc: Global, count: usize) -> Result<Vec<u8>, AllocError> {
    let mut text = Vec::from_slice(
        alloc,
        b"P1 PROCESS SNODE=BETA S1 COPY FROM (FILE=a) TO (FILE=b) PEND/*",
    )?;
    text.resize(count.saturating_sub(2), b'-')?;
    text.extend_from_slice(b"*/")?;
    Ok(text)
}

// The text stands in a file.
fn file_is_taken(
    rt: &impl Abort,
    machine: &mut Machine,
    text: &[u8],
    line: &[u8],
) -> Result<(), Fail> {
    machine.put(b"p", text)?;
    machine.says(rt, b"submit file=p;", line)?;
    Ok(())
}

// The command says this line, and so does the one that names a file with the text.
fn both_are_taken(
    rt: &impl Abort,
    alloc: Global,
    command: &[u8],
    text: &[u8],
    line: &[u8],
) -> Result<(), Fail> {
    let Ok(mut machine) = Machine::new(alloc, NAMED) else {
        return Err(Fail::from("no machine"));
    };
    let said = machine.says(rt, command, line);
    machine.close();
    said?;
    let Ok(mut machine) = Machine::new(alloc, NAMED) else {
        return Err(Fail::from("no machine"));
    };
    let outcome = file_is_taken(rt, &mut machine, text, line);
    machine.close();
    outcome
}

// As it stands in the command, and in a file.
#[test]
fn a_process_text_is_at_its_limit(rt: HostRuntime) -> Result<(), Fail> {
    for (count, line) in [
        (65_536, b"PROCESS 1 SUBMITTED\n".as_slice()),
        (65_537, b"REFUSED TEXT TooLong 65537\n"),
    ] {
        let text = push_of(rt.alloc(), count)?;
        let mut command = Vec::from_slice(rt.alloc(), b"submit ")?;
        command.extend_from_slice(&text)?;
        command.push(b';')?;
        both_are_taken(&rt, rt.alloc(), &command, &text, line)?;
    }
    Ok(())
}

fn one_more_and_none(rt: &impl Abort, machine: &mut Machine) -> Result<(), Fail> {
    machine.says(rt, SUBMIT, b"PROCESS 4096 SUBMITTED\n")?;
    let status = machine.says(rt, SUBMIT, b"REFUSED FULL 4096\n")?;
    assert_eq!(rt; status, Status::Refused);
    let kept = machine.kept(rt)?;
    assert_eq!(rt; kept.count, 4097);
    Ok(())
}

// A journal with 4,095 Processes: each has the next number, and else the bytes of the first.
#[test]
fn as_many_are_live_as_may_be(rt: HostRuntime) -> Result<(), Fail> {
    let mut bytes = Vec::from_slice(rt.alloc(), &NAMED[..28])?;
    for number in 1..4096u32 {
        bytes.extend_from_slice(b"\x01\0\0\0\xa8\x02")?;
        bytes.extend_from_slice(&number.to_be_bytes())?;
        bytes.extend_from_slice(&SUBMITTED[5..])?;
    }
    bytes.push(0)?;
    let Ok(mut machine) = Machine::new(rt.alloc(), &bytes) else {
        return Err(Fail::from("no machine"));
    };
    let outcome = one_more_and_none(&rt, &mut machine);
    machine.close();
    outcome
}

// A disk that takes all and forgets it: it reads as the blank journal.
#[derive(Drop)]
struct Forgetful;

impl Disk for Forgetful {
    ghost observable = { ⊥ };

    ghost state = { λ _. record { seen = []; doubt = settled []; calls = [] } };

    ghost faults = { λ _. 18446744073709551615 };

    ghost seen_is_image = { λ _ told. absurd told };

    fn len(&mut self) -> Result<u64, Failed> {
        Ok(9)
    }

    fn read(&mut self, _at: u64, into: &mut [u8]) -> Result<(), Failed> {
        if into.len() != 9 {
            return Err(Failed);
        }
        into.copy_from_slice(b"CDNODE01\0");
        Ok(())
    }

    fn write_at(&mut self, _at: u64, _bytes: &[u8], beat: &mut Beat) -> Result<(), Failed> {
        if beat.raise() { Ok(()) } else { Err(Failed) }
    }

    fn cut(&mut self, _len: u64, beat: &mut Beat) -> Result<(), Failed> {
        if beat.raise() { Ok(()) } else { Err(Failed) }
    }

    fn sync(&mut self, beat: &mut Beat) -> Result<(), Failed> {
        if beat.raise() { Ok(()) } else { Err(Failed) }
    }
}

// A body of so many bytes.
fn body_of(alloc: Global, count: usize) -> Result<Vec<u8>, AllocError>
    ensures { IfOk result (λ body. vec_len body ≡ count) }
{
    let mut body = Vec::new(alloc);
    body.resize(count, 7)?;
    Ok(body)
}

// Appends a body so many times.
fn append_often(
    journal: &mut Journal,
    beat: &mut Beat,
    body: &[u8],
    times: u32,
) -> Result<(), JournalFault>
    requires some { 1 ≤ length body.now }
    requires short { length body.now ≤ 262144 }
    requires sound { journal.old.sound ≡ true }
    requires header { journal.old.has_header ≡ true }
    ensures sound { OnOk result (journal.new.sound ≡ true) }
    ensures header { OnOk result (journal.new.has_header ≡ true) }
{
    for _ in 0..times {
        match journal.append(&mut Forgetful, body, beat) {
            Ok(()) => {}
            Err(fault) => return Err(fault),
        }
    }
    Ok(())
}

// Whether the journal is full for a body, and of that length.
fn is_full(journal: &mut Journal, beat: &mut Beat, body: &[u8], wanted: u64) -> bool
    requires some { 1 ≤ length body.now }
    requires short { length body.now ≤ 262144 }
    requires sound { journal.old.sound ≡ true }
    requires header { journal.old.has_header ≡ true }
    ensures sound { IsTrue result → journal.new.sound ≡ true }
    ensures header { journal.new.has_header ≡ true }
{
    match journal.append(&mut Forgetful, body, beat) {
        Err(JournalFault::Full(len)) => len == wanted,
        _ => false,
    }
}

fn journal_fills(
    rt: &impl Abort,
    alloc: Global,
    journal: &mut Journal,
    beat: &mut Beat,
) -> Result<(), Fail>
    requires { journal.old.sound ≡ true }
{
    assert!(rt; journal.has_header());
    let longest = body_of(alloc, 262_144)?;
    append_often(journal, beat, &longest, 4095)?;
    let longer = body_of(alloc, 241_656)?;
    assert!(rt; is_full(journal, beat, &longer, 1_073_500_164));
    let last = body_of(alloc, 241_655)?;
    append_often(journal, beat, &last, 1)?;
    assert!(rt; is_full(journal, beat, &[7], 1_073_741_824));
    assert_eq!(rt; journal.count(), 4096);
    Ok(())
}

// A journal begins with 9 bytes. 4,095 entries of 262,149 bytes each and one of 241,660 bring it to 2^30 bytes.
#[test]
fn a_journal_is_at_its_limit(rt: HostRuntime) -> Result<(), Fail> {
    let mut beat = Beat::new();
    match Journal::open(rt.alloc(), &mut Forgetful, &mut beat) {
        Ok(mut journal) => {
            let outcome = journal_fills(&rt, rt.alloc(), &mut journal, &mut beat);
            close_journal(journal);
            outcome
        }
        Err(fault) => Err(Fail::from(fault)),
    }
}
