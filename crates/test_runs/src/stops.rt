//! Stops and failures of the disk within a run, and what is found afterwards.
ghost use Rattle.std.specs.Prelude.{◌≤◌, IfOk};

use crate::machine::{Machine, Ran};
use crate::worked::{HOME, JOURNAL, NAMED, SUBMIT, SUBMITTED};
use cd_cli::Status;
use cd_entries::{Entry, read_entry};
use std::alloc::Global;
use std::process::Abort;
use std::test::Fail;

// How many entries a disk has: the name of the home, and perhaps the Process behind it, each of them whole.
fn whole_entries(rt: &impl Abort, machine: &mut Machine) -> Result<u32, Fail>
    ensures { IfOk result (λ count. count ≤ 2) }
{
    let kept = machine.kept(rt)?;
    let body = if kept.count == 1 { HOME } else { SUBMITTED };
    assert!(rt; kept.count <= 2);
    assert_eq!(rt; kept.last.as_slice(), body);
    Ok(kept.count)
}

fn entries_after_stop(
    rt: &impl Abort,
    machine: &mut Machine,
    call: u8,
    image: u64,
) -> Result<u32, Fail> {
    machine.stop_within(u64::from(call) + 1);
    let status = machine.says(rt, SUBMIT, b"DISK FAULT\n")?;
    assert!(rt; machine.stopped());
    assert_eq!(rt; status, Status::DiskFault);
    machine.crash(image);
    Ok(whole_entries(rt, machine)?)
}

// A submission with a stop within one of the four changing calls of its append, which come behind the opening's sync.
fn stopped_submission(rt: &impl Abort, alloc: Global, call: u8, image: u64) -> Result<u32, Fail> {
    let Ok(mut machine) = Machine::new(alloc, NAMED) else {
        return Err(Fail::from("no machine"));
    };
    let count = entries_after_stop(rt, &mut machine, call, image);
    machine.close();
    count
}

#[test]
fn a_stop_within_a_submission(rt: HostRuntime) -> Result<(), Fail> {
    for call in 1..=4 {
        for image in 0..10 {
            let count = stopped_submission(&rt, rt.alloc(), call, image)?;
            if call <= 2 || image == 0 {
                assert_eq!(rt; count, 1, "call {call}, image {image}");
            } else if image == 1 {
                assert_eq!(rt; count, 2, "call {call}, image {image}");
            }
        }
    }
    Ok(())
}

// Whether the submission was done. It says so, and else that the disk failed.
fn is_done(rt: &impl Abort, ran: Ran) -> bool {
    let is_done = ran.status == Status::Done;
    if is_done {
        assert_eq!(rt; ran.out.bytes(), b"PROCESS 1 SUBMITTED\n".as_slice());
    } else {
        assert_eq!(rt; ran.status, Status::DiskFault);
        assert_eq!(rt; ran.out.bytes(), b"DISK FAULT\n".as_slice());
    }
    ran.close();
    is_done
}

// How a submission ended, whatever was written.
fn submitted(machine: &mut Machine) -> Result<Status, Fail> {
    match machine.run(SUBMIT) {
        Ok(ran) => {
            let status = ran.status;
            ran.close();
            Ok(status)
        }
        Err(fault) => Err(Fail::from(fault)),
    }
}

fn failed(rt: &impl Abort, alloc: Global, machine: &mut Machine, call: u64) -> Result<bool, Fail> {
    machine.fail(call)?;
    let is_done = match machine.run(SUBMIT) {
        Ok(ran) => is_done(rt, ran),
        Err(fault) => return Err(Fail::from(fault)),
    };
    if is_done {
        assert_eq!(rt; machine.bytes(), JOURNAL);
        return Ok(false);
    }
    let before = whole_entries(rt, machine)?;
    let again = submitted(machine)?;
    assert_eq!(rt; again, Status::Done);
    let kept = machine.kept(rt)?;
    assert_eq!(rt; kept.count, before + 1);
    assert!(rt;
        matches!(read_entry(alloc, &kept.last)?, Entry::Submitted(number, ..) if number.number() == before)
    );
    Ok(true)
}

// A submission within which a call of the disk fails. Opened again, the disk has the Process or doesn't. The answer tells
// whether the call came.
fn failed_submission(rt: &impl Abort, alloc: Global, call: u64) -> Result<bool, Fail> {
    let Ok(mut machine) = Machine::new(alloc, NAMED) else {
        return Err(Fail::from("no machine"));
    };
    let came = failed(rt, alloc, &mut machine, call);
    machine.close();
    came
}

// Whichever call it is: a sync, a read, or one of the two writes. A submission makes seven calls at least: the opening syncs,
// asks for the length and reads, and an append has four.
#[test]
fn a_call_of_the_disk_fails(rt: HostRuntime) -> Result<(), Fail> {
    for call in 1..20 {
        let came = failed_submission(&rt, rt.alloc(), call)?;
        assert!(rt; came || call > 7);
    }
    assert!(rt; !failed_submission(&rt, rt.alloc(), 20)?);
    Ok(())
}
