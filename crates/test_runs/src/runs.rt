//! Whole runs: what they write, how they end, and what they leave on the disk.
ghost use Rattle.std.specs.Prelude.{◌≤◌};
ghost use Rattle.cd_outside.specs.Disk.{last_of};
ghost use Rattle.cd_memory.specs.SteadyDisk.{steady_state};

use crate::closing::{close_source, close_steady_disk, close_steady_files};
use crate::machine::{Machine, quiet};
use crate::testing::is_said;
use crate::worked::{FILE, FIRST, FROM_FILE, INIT, JOURNAL, NAMED, SUBMIT};
use cd_cli::{Status, run_node};
use cd_memory::{
    FaultScript, MemorySource, SteadyClock, SteadyDisk, SteadyFiles, SteadySink, SteadySource,
};
use cd_outside::Beat;
use cd_types::Moment;
use std::alloc::Global;
use std::process::Abort;
use std::test::Fail;

fn home_is_named(rt: &impl Abort, machine: &mut Machine) -> Result<(), Fail> {
    let status = machine.says(rt, INIT, b"HOME ALPHA 17\n")?;
    assert_eq!(rt; status.code(), 0);
    assert_eq!(rt; machine.bytes(), NAMED);
    Ok(())
}

fn commands_are_done(rt: &impl Abort, machine: &mut Machine) -> Result<(), Fail> {
    let status = machine.says(rt, FIRST, b"HOME ALPHA 17\nPROCESS 1 SUBMITTED\nSTOPPED\n")?;
    assert_eq!(rt; status, Status::Done);
    assert_eq!(rt; status.code(), 0);
    assert_eq!(rt; machine.bytes(), JOURNAL);
    Ok(())
}

#[test]
fn the_first_commands(rt: HostRuntime) -> Result<(), Fail> {
    assert_eq!(rt; NAMED.len(), 29);
    assert_eq!(rt; JOURNAL.len(), 202);
    let Ok(mut machine) = Machine::new(rt.alloc(), b"") else {
        return Err(Fail::from("no machine"));
    };
    let named = home_is_named(&rt, &mut machine);
    machine.close();
    named?;
    let Ok(mut machine) = Machine::new(rt.alloc(), b"") else {
        return Err(Fail::from("no machine"));
    };
    let done = commands_are_done(&rt, &mut machine);
    machine.close();
    done
}

fn file_is_taken(rt: &impl Abort, machine: &mut Machine) -> Result<(), Fail> {
    machine.put(b"p1.cd", FILE)?;
    let status = machine.says(
        rt,
        FROM_FILE,
        b"HOME ALPHA 17\nPROCESS 1 SUBMITTED\nSTOPPED\n",
    )?;
    assert_eq!(rt; status, Status::Done);
    assert_eq!(rt; machine.bytes(), JOURNAL);
    let as_it_was = Some(FILE);
    assert_eq!(rt; machine.file(b"p1.cd"), as_it_was);
    Ok(())
}

// The Process stands in a file, which is left as it was.
#[test]
fn a_process_in_a_file(rt: HostRuntime) -> Result<(), Fail> {
    let Ok(mut machine) = Machine::new(rt.alloc(), b"") else {
        return Err(Fail::from("no machine"));
    };
    let outcome = file_is_taken(&rt, &mut machine);
    machine.close();
    outcome
}

fn steady_devices_do_them(
    rt: &impl Abort,
    alloc: Global,
    disk: &mut SteadyDisk,
    files: &mut SteadyFiles,
    beat: &mut Beat,
) -> Result<(), Fail>
    requires { last_of (steady_state disk.old).calls ≤ beat.old }
{
    disk.room(20, 1000)?;
    files.put(b"p1.cd", FILE)?;
    files.room(2, 0)?;
    let mut clock = SteadyClock::new(alloc)?;
    clock.set(Moment::new(1_709_287_200).ok_or("no moment")?);
    let mut input = SteadySource::new(alloc)?;
    input.room(2, 200)?;
    input.feed(FROM_FILE)?;
    let mut out = SteadySink::new(alloc)?;
    out.room(4, 100)?;
    let status = run_node(
        alloc,
        &[],
        disk,
        files,
        &mut clock,
        &mut input,
        &mut out,
        beat,
    );
    assert_eq!(rt; status, Status::Done);
    assert_eq!(rt;
        out.bytes(),
        b"HOME ALPHA 17\nPROCESS 1 SUBMITTED\nSTOPPED\n".as_slice()
    );
    assert_eq!(rt; disk.bytes(), JOURNAL);
    Ok(())
}

// The same over devices that never fail within their room.
#[test]
fn the_first_commands_on_steady_devices(rt: HostRuntime) -> Result<(), Fail> {
    let alloc = rt.alloc();
    let Ok(mut files) = SteadyFiles::new(alloc) else {
        return Err(Fail::from("no files"));
    };
    let Ok(mut disk) = SteadyDisk::new(alloc) else {
        close_steady_files(files);
        return Err(Fail::from("no disk"));
    };
    let mut beat = Beat::new();
    let outcome = steady_devices_do_them(&rt, alloc, &mut disk, &mut files, &mut beat);
    close_steady_disk(disk);
    close_steady_files(files);
    outcome
}

fn home_stays(rt: &impl Abort, machine: &mut Machine) -> Result<(), Fail> {
    let named = machine.says(rt, b"init name=BETA home=1;", b"REFUSED ALREADYHOME\n")?;
    assert_eq!(rt; named, Status::Refused);
    assert_eq!(rt; named.code(), 2);
    assert_eq!(rt; machine.bytes(), JOURNAL);
    let next = machine.says(rt, SUBMIT, b"PROCESS 2 SUBMITTED\n")?;
    assert_eq!(rt; next, Status::Done);
    assert_eq!(rt; machine.bytes().len(), 375);
    Ok(())
}

#[test]
fn a_home_that_has_a_name(rt: HostRuntime) -> Result<(), Fail> {
    let Ok(mut machine) = Machine::new(rt.alloc(), JOURNAL) else {
        return Err(Fail::from("no machine"));
    };
    let outcome = home_stays(&rt, &mut machine);
    machine.close();
    outcome
}

/// Commands that submit the Process of the worked journal, each in its own way.
const SAME: [&[u8]; 4] = [
    b"SUBMIT p1 process snode=BETA s1 copy from (file=a.txt) to (file=b.txt) pend;",
    b"submit P1 PROCESS, SNODE = BETA, PRTY=10 /* overnight; */ S1 COPY TO (FILE=\"b.txt\" DISP=RPL) FROM (FILE='a.txt' PNODE) PEND ;",
    b"submit snode=BETA class=1 &f=a &End=txt P1 PROCESS CLASS=7 SNODE=GAMMA S1 COPY FROM (FILE=&F..&end) TO (FILE=b.txt) PEND;",
    b"submit P1 PROCESS &g=b.txt -\nSNODE=BETA\n* A line of its own.\nS1 COPY FROM (FILE=a.txt) TO (FILE=&g) PEND;",
];

fn process_is_kept(rt: &impl Abort, machine: &mut Machine, command: &[u8]) -> Result<(), Fail> {
    machine.says(rt, command, b"PROCESS 1 SUBMITTED\n")?;
    assert_eq!(rt; machine.bytes(), JOURNAL, "{command:?}");
    Ok(())
}

#[test]
fn one_process_in_other_words(rt: HostRuntime) -> Result<(), Fail> {
    for command in SAME {
        let Ok(mut machine) = Machine::new(rt.alloc(), NAMED) else {
            return Err(Fail::from("no machine"));
        };
        let outcome = process_is_kept(&rt, &mut machine, command);
        machine.close();
        outcome?;
    }
    Ok(())
}

/// Journals that aren't fit, with the first place.
const UNFIT: [(&[u8], &[u8]); 6] = [
    // No entry begins with the byte 238.
    (
        b"CDNODE01\x01\0\0\0\x0f\x01\x05ALPHA\0\0\0\0\0\0\0\x11\x01\0\0\0\x01\xee\0",
        b"UNFIT 33\n",
    ),
    // The body passes the end.
    (
        b"CDNODE01\x01\0\0\0\x0f\x01\x05ALPHA\0\0\0\0\0\0\0\x11\x01\0\0\0\x02\xee",
        b"UNFIT 29\n",
    ),
    // The last gate is missing.
    (
        b"CDNODE01\x01\0\0\0\x0f\x01\x05ALPHA\0\0\0\0\0\0\0\x11",
        b"UNFIT 28\n",
    ),
    // A home whose name has no bytes, and one that is named twice.
    (
        b"CDNODE01\x01\0\0\0\x0a\x01\0\0\0\0\0\0\0\0\x11\0",
        b"UNFIT 13\n",
    ),
    (
        b"CDNODE01\x01\0\0\0\x0f\x01\x05ALPHA\0\0\0\0\0\0\0\x11\x01\0\0\0\x0f\x01\x05ALPHA\0\0\0\0\0\0\0\x11\0",
        b"UNFIT 33\n",
    ),
    (b"CDNODE02", b"UNFIT 7\n"),
];

fn journal_is_told(
    rt: &impl Abort,
    machine: &mut Machine,
    bytes: &[u8],
    line: &[u8],
) -> Result<(), Fail> {
    let status = machine.says(rt, SUBMIT, line)?;
    assert_eq!(rt; status.code(), 6);
    assert_eq!(rt; machine.bytes(), bytes);
    Ok(())
}

#[test]
fn a_journal_that_is_not_fit(rt: HostRuntime) -> Result<(), Fail> {
    for (bytes, line) in UNFIT {
        let Ok(mut machine) = Machine::new(rt.alloc(), bytes) else {
            return Err(Fail::from("no machine"));
        };
        let outcome = journal_is_told(&rt, &mut machine, bytes, line);
        machine.close();
        outcome?;
    }
    Ok(())
}

fn second_is_kept(rt: &impl Abort, machine: &mut Machine) -> Result<(), Fail> {
    let status = machine.says(rt, SUBMIT, b"PROCESS 2 SUBMITTED\n")?;
    assert_eq!(rt; status, Status::Done);
    assert_eq!(rt; machine.bytes().len(), 383);
    Ok(())
}

// The worked journal with a start in the card of its Process, which its text doesn't say. The body is longer by the moment.
#[test]
fn a_start_in_a_card_is_not_compared(rt: HostRuntime) -> Result<(), Fail> {
    let mut bytes = Vec::from_slice(rt.alloc(), &JOURNAL[..32])?;
    bytes.push(0xb0)?;
    bytes.extend_from_slice(&JOURNAL[33..59])?;
    bytes.extend_from_slice(b"\x01\0\0\0\0\0\0\0\x07")?;
    bytes.extend_from_slice(&JOURNAL[60..])?;
    let Ok(mut machine) = Machine::new(rt.alloc(), &bytes) else {
        return Err(Fail::from("no machine"));
    };
    let outcome = second_is_kept(&rt, &mut machine);
    machine.close();
    outcome
}

// A run with these words on this input, over an output whose calls of these numbers fail: it writes these lines. How it ended is
// told.
fn ended(
    rt: &impl Abort,
    machine: &mut Machine,
    words: &[&str],
    input: &mut MemorySource,
    script: FaultScript,
    lines: &[u8],
) -> Result<Status, Fail> {
    match machine.answer(words, input, script) {
        Ok(ran) => Ok(is_said(rt, ran, lines)),
        Err(fault) => Err(Fail::from(fault)),
    }
}

fn word_is_refused(
    rt: &impl Abort,
    alloc: Global,
    machine: &mut Machine,
    input: &mut MemorySource,
) -> Result<(), Fail> {
    input.feed(INIT)?;
    let lines = b"USAGE cdnode [--echo] [--max-turns N]\n";
    let status = ended(rt, machine, &["--echo"], input, quiet(alloc), lines)?;
    assert_eq!(rt; status, Status::Usage);
    assert_eq!(rt; status.code(), 1);
    assert_eq!(rt; machine.bytes(), b"".as_slice());
    Ok(())
}

#[test]
fn a_word_is_not_taken(rt: HostRuntime) -> Result<(), Fail> {
    let Ok(mut input) = MemorySource::new(rt.alloc(), quiet(rt.alloc())) else {
        return Err(Fail::from("no input"));
    };
    let Ok(mut machine) = Machine::new(rt.alloc(), b"") else {
        close_source(input);
        return Err(Fail::from("no machine"));
    };
    let outcome = word_is_refused(&rt, rt.alloc(), &mut machine, &mut input);
    machine.close();
    close_source(input);
    outcome
}

fn fault_of_input_is_told(
    rt: &impl Abort,
    alloc: Global,
    machine: &mut Machine,
    input: &mut MemorySource,
) -> Result<(), Fail> {
    input.feed(INIT)?;
    input.feed(SUBMIT)?;
    let lines = b"HOME ALPHA 17\nPROCESS 1 SUBMITTED\nINPUT FAULT\n";
    let status = ended(rt, machine, &[], input, quiet(alloc), lines)?;
    assert_eq!(rt; status, Status::SourceFault);
    assert_eq!(rt; status.code(), 9);
    assert_eq!(rt; machine.bytes(), JOURNAL);
    Ok(())
}

// The first read gives all commands, and the second one fails: they were done.
#[test]
fn the_input_fails(rt: HostRuntime) -> Result<(), Fail> {
    let second = FaultScript::new(Vec::from_slice(rt.alloc(), &[2])?);
    let Ok(mut input) = MemorySource::new(rt.alloc(), second) else {
        return Err(Fail::from("no input"));
    };
    let Ok(mut machine) = Machine::new(rt.alloc(), b"") else {
        close_source(input);
        return Err(Fail::from("no machine"));
    };
    let outcome = fault_of_input_is_told(&rt, rt.alloc(), &mut machine, &mut input);
    machine.close();
    close_source(input);
    outcome
}

fn fault_of_output_is_told(
    rt: &impl Abort,
    alloc: Global,
    machine: &mut Machine,
    input: &mut MemorySource,
) -> Result<(), Fail> {
    input.feed(FIRST)?;
    let second = FaultScript::new(Vec::from_slice(alloc, &[2])?);
    let status = ended(rt, machine, &[], input, second, b"HOME ALPHA 17\n")?;
    assert_eq!(rt; status, Status::SinkFault);
    assert_eq!(rt; status.code(), 10);
    assert_eq!(rt; machine.bytes(), JOURNAL);
    Ok(())
}

// The second line fails: it was to acknowledge the submission, which is kept.
#[test]
fn the_output_fails(rt: HostRuntime) -> Result<(), Fail> {
    let Ok(mut input) = MemorySource::new(rt.alloc(), quiet(rt.alloc())) else {
        return Err(Fail::from("no input"));
    };
    let Ok(mut machine) = Machine::new(rt.alloc(), b"") else {
        close_source(input);
        return Err(Fail::from("no machine"));
    };
    let outcome = fault_of_output_is_told(&rt, rt.alloc(), &mut machine, &mut input);
    machine.close();
    close_source(input);
    outcome
}
