//! A whole drill: a push of 300 bytes.
use cd_drill::{DrillFault, rehearse};
use std::alloc::Global;
use std::test::Fail;

/// A file of 300 bytes is filled at ALPHA, which submits a Process that copies it to BETA, and so many turns are made.
const PUSH: &[u8] =
    b"fill A a.txt 300\ndo A submit P1 PROCESS SNODE=BETA S1 COPY FROM (FILE=a.txt) TO (FILE=b.txt) PEND;\nturn ";

/// The report where the Process came to its end: with the eleventh turn nothing is left to do.
const ENDED: &[u8] =
    b"PROCESS 1 SUBMITTED\nNODE ALPHA UP ENTRIES 5\n00001 SUBM P1 1709287200\n00001 STEP 0000 COPY 000 300 None 1709287200\n00001 DONE Finished 1709287200\nCOUNT 3\nFILE a.txt 300 32551\nNODE BETA UP ENTRIES 4\n00001 PART 0000 ALPHA 000 300 None 1709287200\nCOUNT 1\nFILE b.txt 300 32551\nTURNS 11\n";

/// The report of the push with so many turns.
fn report(alloc: Global, turns: &[u8]) -> Result<Vec<u8>, Fail> {
    let mut script = Vec::from_slice(alloc, PUSH)?;
    script.extend_from_slice(turns)?;
    match rehearse(alloc, &script) {
        Ok(report) => Ok(report),
        Err(DrillFault::ScriptText(_)) => Err("no script".into()),
        Err(DrillFault::NoMemory) => Err("no memory".into()),
    }
}

/// Whether a step is reported.
fn tells_a_step(report: &[u8]) -> bool {
    report.windows(4).any(|word| word == b"STEP".as_slice())
}

// All turns are made that there are to make.
#[test]
fn a_push_is_reported(rt: HostRuntime) -> Result<(), Fail> {
    let told = report(rt.alloc(), b"100\n")?;
    assert!(rt; told.as_slice() == ENDED);
    Ok(())
}

// The step's end is recorded in the ninth turn, and not before.
#[test]
fn a_push_ends_in_its_ninth_turn(rt: HostRuntime) -> Result<(), Fail> {
    let eight = report(rt.alloc(), b"8\n")?;
    assert!(rt; !tells_a_step(&eight));
    let nine = report(rt.alloc(), b"9\n")?;
    assert!(rt; tells_a_step(&nine));
    Ok(())
}
