//! Every kind of entry against bytes that were written by hand from the formats.
use crate::{Entry, EntryFault, read_entry, write_entry};
use cd_types::{
    Bytes, Cause, Disp, Filed, Hold, How, Key, Label, Moment, NodeName, Outcomes, Placing, ProcNo,
    Queue, Reason, Receiving, Retain, TaskKind,
};
use std::alloc::Global;
use std::process::Abort;
use std::test::Fail;

const HOME: &[u8] = b"\x01\x05ALPHA\0\0\0\0\0\0\0\x11";

const SUBMITTED: &[u8] =
    b"\x02\0\0\0\x01\0\0\0\0\x65\xe1\xa7\x20\0\x02P1\x04BETA\x0a\x01\0\0\0\0\0\0\x89P1 PROCESS SNODE=BETA PRTY=10 CLASS=1 HOLD=NO RETAIN=NO\nS1 COPY FROM (FILE=\"a.txt\" PNODE) TO (FILE=\"b.txt\" SNODE DISP=RPL) CKPT=64K\nPEND\n";

const PLACED: &[u8] =
    b"\x03\0\0\0\x01\x02\x05\0\0\0\0\x65\xe1\xa7\x20\0\x03\x0a\0\0\0\0\x65\xe1\xa7\x20";

const STARTED: &[u8] =
    b"\x04\x05ALPHA\0\0\0\0\0\0\0\x11\0\0\0\x01\0\0\0\0\0\0\x01\0\0\0\0\x65\xe1\xa7\x20";

const RECEIVING: &[u8] =
    b"\x05\x05ALPHA\0\0\0\0\0\0\0\x11\0\0\0\x01\0\0\0\x05b.txt\x02\x01\0\0\0\0\0\0\0\x05\0\0\0\0\0\0\x01\x2c\0\0\0\0\0\x01\0\0";

const MARK: &[u8] = b"\x06\x05ALPHA\0\0\0\0\0\0\0\x11\0\0\0\x01\0\0\0\0\0\0\0\0\x08\0";

const RESULT: &[u8] =
    b"\x07\x05ALPHA\0\0\0\0\0\0\0\x11\0\0\0\x01\0\0\x08\x03\0\0\0\0\0\0\0\0\0\0\0\0\0\0\0\0\x65\xe1\xa7\x20";

const ENDED: &[u8] = b"\x08\0\0\0\x01\0\x02\x04\0\0\0\0\0\0\0\x01\x2c\0\0\0\0\x65\xe1\xa7\x20";

const CLOSED: &[u8] = b"\x09\0\0\0\x01\x01\0\0\0\0\x65\xe1\xa7\x20";

const FORGOT: &[u8] = b"\x0a\x05ALPHA\0\0\0\0\0\0\0\x11\0\x01\x86\x9f";

const DROPPED: &[u8] =
    b"\x0b\x05ALPHA\0\0\0\0\0\0\0\x11\0\0\0\x01\0\0\x08\x0c\0\0\0\0\x65\xe1\xa7\x20";

/// Each of them has one field out of its range.
const BROKEN: [&[u8]; 11] = [
    b"\x01\x05ALP A\0\0\0\0\0\0\0\x11",
    b"\x02\0\0\0\x01\0\0\0\0\x65\xe1\xa7\x20\x02\x02P1\x04BETA\x0a\x01\0\0\0\0\0\0\x89P1 PROCESS SNODE=BETA PRTY=10 CLASS=1 HOLD=NO RETAIN=NO\nS1 COPY FROM (FILE=\"a.txt\" PNODE) TO (FILE=\"b.txt\" SNODE DISP=RPL) CKPT=64K\nPEND\n",
    b"\x03\0\0\0\x01\x04\x05\0\0\0\0\x65\xe1\xa7\x20\0\x03\x0a\0\0\0\0\x65\xe1\xa7\x20",
    b"\x04\x05ALPHA\0\0\0\0\0\0\0\x11\0\0\0\x01\0\0\x03\0\0\0\x01\0\0\0\0\x65\xe1\xa7\x20",
    b"\x05\x05ALPHA\0\0\0\0\0\0\0\x11\0\0\0\x01\0\0\0\x05b.txt\x02\x02\0\0\0\0\0\0\0\x05\0\0\0\0\0\0\x01\x2c\0\0\0\0\0\x01\0\0",
    b"\x06\x05ALPHA\0\0\0\0\0\0\0\x11\0\0\0\x01\x04\0\0\0\0\0\0\0\x08\0",
    b"\x07\x05ALPHA\0\0\0\0\0\0\0\x11\0\0\0\x01\0\0\x08\x0f\0\0\0\0\0\0\0\0\0\0\0\0\0\0\0\0\x65\xe1\xa7\x20",
    b"\x08\0\0\0\x01\0\x02\x04\x11\0\0\0\0\0\0\x01\x2c\0\0\0\0\x65\xe1\xa7\x20",
    b"\x09\0\0\0\x01\x03\0\0\0\0\x65\xe1\xa7\x20",
    b"\x0a\x05ALPHA\0\0\0\0\0\0\0\x11\0\x01\x86\xa0",
    b"\x0b\x05ALPHA\0\0\0\0\0\0\0\x11\0\0\0\x01\0\0\x08\x0c\0\0\0\x3a\x35\x29\x44\0",
];

/// The bytes are the entry, and neither more nor fewer are.
fn same(rt: &impl Abort, alloc: Global, bytes: &[u8], want: Entry) -> Result<(), Fail> {
    let entry = read_entry(alloc, bytes)?;
    assert!(rt; entry == want);
    let mut written = Vec::new(alloc);
    write_entry(&entry, &mut written)?;
    assert_eq!(rt; written.as_slice(), bytes);
    written.push(0)?;
    let (_, fewer) = bytes.split_last().ok_or("no bytes")?;
    for other in [fewer, written.as_slice()] {
        assert!(rt; matches!(read_entry(alloc, other), Err(EntryFault::Unfit)));
    }
    Ok(())
}

fn key() -> Option<Key> {
    Some(Key {
        pnode: NodeName::new(b"ALPHA")?,
        home: 17,
        number: ProcNo::new(1)?,
        place: 0,
    })
}

fn card() -> Option<Filed> {
    Some(Filed {
        name: Label::new(b"P1")?,
        snode: NodeName::new(b"BETA")?,
        prty: 10,
        class: 1,
        hold: Hold::No,
        retain: Retain::No,
        start: None,
    })
}

#[test]
fn entries_of_a_process(rt: HostRuntime) -> Result<(), Fail> {
    let alloc = rt.alloc();
    let name = NodeName::new(b"ALPHA").ok_or("no name")?;
    let number = ProcNo::new(1).ok_or("no number")?;
    let moment = Moment::new(1_709_287_200).ok_or("no moment")?;
    let card = card().ok_or("no card")?;
    let text = Bytes::copy_of(
        alloc,
        b"P1 PROCESS SNODE=BETA PRTY=10 CLASS=1 HOLD=NO RETAIN=NO\nS1 COPY FROM (FILE=\"a.txt\" PNODE) TO (FILE=\"b.txt\" SNODE DISP=RPL) CKPT=64K\nPEND\n",
    )?;
    let placing = Placing {
        queue: Queue::Timer,
        reason: Reason::Retry,
        due: 1_709_287_200,
        attempts: 3,
        prty: 10,
    };
    let last = ProcNo::new(99_999).ok_or("no number")?;
    assert_eq!(rt; SUBMITTED.len(), 168);
    same(&rt, alloc, HOME, Entry::Home(name, 17))?;
    same(
        &rt,
        alloc,
        SUBMITTED,
        Entry::Submitted(number, moment, None, card, text),
    )?;
    same(&rt, alloc, PLACED, Entry::Placed(number, placing, moment))?;
    same(
        &rt,
        alloc,
        ENDED,
        Entry::Ended(number, 2, 4, Cause::None, 300, moment),
    )?;
    same(
        &rt,
        alloc,
        CLOSED,
        Entry::Closed(number, How::Deleted, moment),
    )?;
    same(&rt, alloc, FORGOT, Entry::Forgot(name, 17, last))?;
    Ok(())
}

#[test]
fn entries_of_a_step(rt: HostRuntime) -> Result<(), Fail> {
    let alloc = rt.alloc();
    let key = key().ok_or("no key")?;
    let moment = Moment::new(1_709_287_200).ok_or("no moment")?;
    let receiving = Receiving {
        key,
        name: Bytes::copy_of(alloc, b"b.txt")?,
        disp: Disp::Mod,
        there: true,
        base: 5,
        length: 300,
        interval: 65_536,
    };
    let outcomes = Outcomes {
        rc: 8,
        cause: Cause::NoSource,
        bytes: 0,
        made: 0,
    };
    same(
        &rt,
        alloc,
        STARTED,
        Entry::Started(key, TaskKind::Restart, 1, moment),
    )?;
    same(&rt, alloc, RECEIVING, Entry::Receiving(receiving))?;
    same(&rt, alloc, MARK, Entry::Mark(key, 2048))?;
    same(&rt, alloc, RESULT, Entry::Result(key, outcomes, moment))?;
    same(
        &rt,
        alloc,
        DROPPED,
        Entry::Dropped(key, 8, Cause::Released, moment),
    )?;
    Ok(())
}

#[test]
fn fields_out_of_range(rt: HostRuntime) {
    for bytes in BROKEN {
        assert!(rt; matches!(read_entry(rt.alloc(), bytes), Err(EntryFault::Unfit)));
    }
    assert!(rt; matches!(read_entry(rt.alloc(), b"\xee"), Err(EntryFault::Unfit)));
    assert!(rt; matches!(read_entry(rt.alloc(), b""), Err(EntryFault::Unfit)));
}
