//! Every kind of frame against bytes that were written by hand from the formats, and the reader on pieces of any size.
use cd_frames::{
    Frame, FrameFault, Hello, Reader, RejectCause, Welcome, symbols_of, write_frame, write_symbols,
};
use cd_types::{Cause, Disp, Key, NodeName, Outcomes, ProcNo, Symbols, TaskKind};
use std::alloc::Global;
use std::process::Abort;
use std::test::Fail;

const HELLO: &[u8] = b"\0\0\0\x14\x01\x05ALPHA\0\0\0\0\0\0\0\x11\x01\0\0\x20\0";

const WELCOME: &[u8] = b"\0\0\0\x12\x02\x04BETA\0\0\0\0\0\0\0\x12\0\x01\0\0";

const REJECT: &[u8] = b"\0\0\0\x0a\x03\x04\0\0\0\0\0\0\0\x03";

const STEP_COPY_TO: &[u8] =
    b"\0\0\0\x2d\x04\x05ALPHA\0\0\0\0\0\0\0\x11\0\0\0\x01\0\0\0\x05b.txt\x01\0\0\0\0\0\x01\0\0\0\0\0\0\0\0\x01\x2c";

const STEP_COPY_FROM: &[u8] =
    b"\0\0\0\x24\x05\x05ALPHA\0\0\0\0\0\0\0\x11\0\0\0\x01\0\x02\0\x05a.txt\0\0\0\0\0\0\0\0";

const STEP_TASK: &[u8] =
    b"\0\0\0\x1c\x06\x05ALPHA\0\0\0\0\0\0\0\x11\0\0\0\x01\0\x03\x02\0\0\0\x02ls";

const STEP_SUBMIT: &[u8] =
    b"\0\0\0\x2f\x07\x05ALPHA\0\0\0\0\0\0\0\x11\0\0\0\x01\0\x04\0\x06sub.cd\x01\x04BETA\x0a\0\x01\x02&X\0\0\0\x02hi";

const SYMBOLS: &[u8] = b"\0\x01\x02&X\0\0\0\x02hi";

const WITHOUT_SYMBOLS: &[u8] =
    b"\0\0\0\x21\x07\x05ALPHA\0\0\0\0\0\0\0\x11\0\0\0\x01\0\x04\0\x06sub.cd\0\0\0\0";

const READY: &[u8] = b"\0\0\0\x1d\x08\x05ALPHA\0\0\0\0\0\0\0\x11\0\0\0\x01\0\0\0\0\0\0\0\0\x08\0";

const LENGTH: &[u8] =
    b"\0\0\0\x1d\x09\x05ALPHA\0\0\0\0\0\0\0\x11\0\0\0\x01\x03\xff\0\0\0\0\0\0\0\x05";

const DATA: &[u8] = b"\0\0\0\x20\x0a\x05ALPHA\0\0\0\0\0\0\0\x11\0\0\0\x01\0\0\0\0\0\0\0\0\x08\0abc";

const ACK: &[u8] = b"\0\0\0\x1d\x0b\x05ALPHA\0\0\0\0\0\0\0\x11\0\0\0\x01\0\0\0\0\0\0\0\0\x08\x03";

const END: &[u8] = b"\0\0\0\x1d\x0c\x05ALPHA\0\0\0\0\0\0\0\x11\0\0\0\x01\0\0\0\0\0\0\0\0\x08\x03";

const RESULT: &[u8] =
    b"\0\0\0\x23\x0d\x05ALPHA\0\0\0\0\0\0\0\x11\0\0\0\x01\0\0\x08\x03\0\0\0\0\0\0\0\0\0\0\0\x07";

const ABORT: &[u8] = b"\0\0\0\x16\x0e\x05ALPHA\0\0\0\0\0\0\0\x11\0\0\0\x01\0\0\x0f";

const FORGET: &[u8] = b"\0\0\0\x0d\x0f\0\0\0\0\0\0\0\x11\0\x01\x86\x9f";

const BYE: &[u8] = b"\0\0\0\x01\x10";

/// Each of them has one field out of its range.
const BROKEN: [&[u8]; 22] = [
    b"\0\0\0\x14\x01\x05ALPHA\0\0\0\0\0\0\0\x11\x01\0\0\0\0",
    b"\0\0\0\x14\x01\x05ALP A\0\0\0\0\0\0\0\x11\x01\0\0\x20\0",
    b"\0\0\0\x12\x02\x04BETA\0\0\0\0\0\0\0\x12\0\x01\0\x01",
    b"\0\0\0\x0a\x03\x05\0\0\0\0\0\0\0\x03",
    b"\0\0\0\x0a\x03\0\0\0\0\0\0\0\0\x03",
    b"\0\0\0\x2d\x04\x05ALPHA\0\0\0\0\0\0\0\x11\0\0\0\x01\0\0\0\x05b.txt\x03\0\0\0\0\0\x01\0\0\0\0\0\0\0\0\x01\x2c",
    b"\0\0\0\x24\x05\x05ALPHA\0\0\0\0\0\0\0\x11\0\0\0\x01\0\x02\0\x05a\0txt\0\0\0\0\0\0\0\0",
    b"\0\0\0\x1a\x06\x05ALPHA\0\0\0\0\0\0\0\x11\0\0\0\x01\0\x03\x02\0\0\0\0",
    b"\0\0\0\x1c\x06\x05ALPHA\0\0\0\0\0\0\0\x11\0\0\0\x01\0\x03\x03\0\0\0\x02ls",
    b"\0\0\0\x2f\x07\x05ALPHA\0\0\0\0\0\0\0\x11\0\0\0\x01\0\x04\0\x06sub.cd\x01\x04BETA\x0a\0\x02\x02&X\0\0\0\x02hi",
    b"\0\0\0\x2d\x07\x05ALPHA\0\0\0\0\0\0\0\x11\0\0\0\x01\0\x04\0\x06sub.cd\x01\x04BETA\x0a\0\x01\0\0\0\0\x02hi",
    b"\0\0\0\x1d\x08\x05ALPHA\0\0\0\0\0\0\0\x11\0\x01\x86\xa0\0\0\0\0\0\0\0\0\x08\0",
    b"\0\0\0\x1d\x09\x05ALPHA\0\0\0\0\0\0\0\x11\0\0\0\x01\x04\0\0\0\0\0\0\0\0\x05",
    b"\0\0\0\x1d\x0a\x05ALPHA\0\0\0\0\0\0\0\x11\0\0\0\x01\0\0\0\0\0\0\0\0\x08\0",
    b"\0\0\0\x1d\x0b\x05ALPHA\0\0\0\0\0\0\0\x11\0\0\0\0\0\0\0\0\0\0\0\0\x08\x03",
    b"\0\0\0\x18\x0c\0\0\0\0\0\0\0\0\x11\0\0\0\x01\0\0\0\0\0\0\0\0\x08\x03",
    b"\0\0\0\x23\x0d\x05ALPHA\0\0\0\0\0\0\0\x11\0\0\0\x01\0\0\x08\x0f\0\0\0\0\0\0\0\0\0\0\0\x07",
    b"\0\0\0\x16\x0e\x05ALPHA\0\0\0\0\0\0\0\x11\0\0\0\x01\0\0\x05",
    b"\0\0\0\x0d\x0f\0\0\0\0\0\0\0\x11\0\0\0\0",
    b"\0\0\0\x01\x11",
    b"\0\0\0\x01\0",
    b"\0\0\0\0",
];

/// Puts bytes into the room, all of them.
#[tactic(auto, using(cd_frames::proofs::ReadingLaw::length_overwritten))]
fn fill(reader: &mut Reader, bytes: &[u8]) -> Result<(), Fail> {
    let room = reader.room();
    if room.len() < bytes.len() {
        return Err(Fail::from("little room"));
    }
    let (front, _) = room.split_at_mut(bytes.len());
    front.copy_from_slice(bytes);
    reader.filled(bytes.len());
    Ok(())
}

/// The next frame is this one, and is written as these bytes.
fn next_is(
    rt: &impl Abort,
    alloc: Global,
    reader: &mut Reader,
    bytes: &[u8],
    want: &Frame,
) -> Result<(), Fail> {
    let Ok(Some(frame)) = reader.next() else {
        return Err(Fail::from("no frame"));
    };
    assert!(rt; frame == *want);
    let mut written = Vec::new(alloc);
    write_frame(&frame, &mut written)?;
    assert_eq!(rt; written.as_slice(), bytes);
    Ok(())
}

/// The bytes are the frame, and one byte fewer waits.
fn same(rt: &impl Abort, alloc: Global, bytes: &[u8], want: &Frame) -> Result<(), Fail> {
    let mut reader = Reader::new(alloc)?;
    let (last, fewer) = bytes.split_last().ok_or("no bytes")?;
    fill(&mut reader, fewer)?;
    assert!(rt; matches!(reader.next(), Ok(None)));
    fill(&mut reader, &[*last])?;
    next_is(rt, alloc, &mut reader, bytes, want)
}

/// The bytes with another length before them aren't a frame.
fn bad_length(rt: &impl Abort, alloc: Global, bytes: &[u8], length: u8) -> Result<(), Fail> {
    let mut reader = Reader::new(alloc)?;
    let (_, body) = bytes.split_at_checked(4).ok_or("no bytes")?;
    fill(&mut reader, &[0, 0, 0, length])?;
    fill(&mut reader, body)?;
    fill(&mut reader, &[0])?;
    assert!(rt; matches!(reader.next(), Err(FrameFault::Bad(0))));
    assert!(rt; matches!(reader.next(), Err(FrameFault::Bad(0))));
    Ok(())
}

fn key(place: u16) -> Option<Key> {
    Some(Key {
        pnode: NodeName::new(b"ALPHA")?,
        home: 17,
        number: ProcNo::new(1)?,
        place,
    })
}

/// The frame of a kind that speaks of a session.
fn of_session(kind: u8) -> Option<Frame<'static>> {
    let name = NodeName::new(b"ALPHA")?;
    let partner = NodeName::new(b"BETA")?;
    match kind {
        1 => Some(Frame::Hello(Hello {
            name,
            home: 17,
            version: 1,
            block: 8192,
        })),
        2 => Some(Frame::Welcome(Welcome {
            name: partner,
            home: 18,
            block: 65_536,
        })),
        3 => Some(Frame::Reject(RejectCause::Busy(3))),
        15 => Some(Frame::Forget(17, ProcNo::new(99_999)?)),
        16 => Some(Frame::Bye),
        _ => None,
    }
}

/// The frame of a kind that speaks of a step with this key.
fn of_step(kind: u8, key: Key) -> Option<Frame<'static>> {
    let outcomes = Outcomes {
        rc: 8,
        cause: Cause::NoSource,
        bytes: 0,
        made: 7,
    };
    match kind {
        4 => Some(Frame::StepCopyTo(key, b"b.txt", Disp::Rpl, 65_536, 300)),
        5 => Some(Frame::StepCopyFrom(key, b"a.txt", 0)),
        6 => Some(Frame::StepTask(key, TaskKind::Job, b"ls")),
        7 => Some(Frame::StepSubmit(key, b"sub.cd", NodeName::new(b"BETA"), 10, SYMBOLS)),
        8 => Some(Frame::Ready(key, 2048)),
        9 => Some(Frame::Length(key, 5)),
        10 => Some(Frame::Data(key, 2048, b"abc")),
        11 => Some(Frame::Ack(key, 2051)),
        12 => Some(Frame::End(key, 2051)),
        13 => Some(Frame::Result(key, outcomes)),
        14 => Some(Frame::Abort(key, Cause::Trouble)),
        _ => None,
    }
}

#[test]
fn frames_of_a_session(rt: HostRuntime) -> Result<(), Fail> {
    for (kind, bytes) in [
        (1, HELLO),
        (2, WELCOME),
        (3, REJECT),
        (15, FORGET),
        (16, BYE),
    ] {
        let Some(want) = of_session(kind) else {
            return Err(Fail::from("no kind"));
        };
        same(&rt, rt.alloc(), bytes, &want)?;
    }
    Ok(())
}

#[test]
fn frames_of_a_step(rt: HostRuntime) -> Result<(), Fail> {
    for (kind, place, bytes) in [
        (4, 0, STEP_COPY_TO),
        (5, 2, STEP_COPY_FROM),
        (6, 3, STEP_TASK),
        (7, 4, STEP_SUBMIT),
        (8, 0, READY),
        (9, 1023, LENGTH),
        (10, 0, DATA),
        (11, 0, ACK),
        (12, 0, END),
        (13, 0, RESULT),
        (14, 0, ABORT),
    ] {
        let key = key(place).ok_or("no key")?;
        let Some(want) = of_step(kind, key) else {
            return Err(Fail::from("no kind"));
        };
        same(&rt, rt.alloc(), bytes, &want)?;
    }
    Ok(())
}

#[test]
fn bytes_too_many_and_too_few(rt: HostRuntime) -> Result<(), Fail> {
    let alloc = rt.alloc();
    for bytes in [
        HELLO,
        WELCOME,
        REJECT,
        STEP_COPY_TO,
        STEP_COPY_FROM,
        STEP_TASK,
        STEP_SUBMIT,
        READY,
        LENGTH,
        ACK,
        END,
        RESULT,
        ABORT,
        FORGET,
        BYE,
    ] {
        let (length, _) = bytes[3..].split_first().ok_or("no bytes")?;
        bad_length(&rt, alloc, bytes, length.wrapping_add(1))?;
        bad_length(&rt, alloc, bytes, length.wrapping_sub(1))?;
    }
    Ok(())
}

#[test]
fn fields_out_of_range(rt: HostRuntime) -> Result<(), Fail> {
    for bytes in BROKEN {
        let mut reader = Reader::new(rt.alloc())?;
        fill(&mut reader, bytes)?;
        assert!(rt; matches!(reader.next(), Err(FrameFault::Bad(0))));
    }
    Ok(())
}

#[test]
fn single_bytes(rt: HostRuntime) -> Result<(), Fail> {
    let key = key(0).ok_or("no key")?;
    let mut reader = Reader::new(rt.alloc())?;
    for (place, byte) in READY.iter().enumerate() {
        fill(&mut reader, &[*byte])?;
        if place < 32 {
            assert!(rt; matches!(reader.next(), Ok(None)));
        }
    }
    assert!(rt; matches!(reader.next(), Ok(Some(frame)) if frame == Frame::Ready(key, 2048)));
    assert!(rt; matches!(reader.next(), Ok(None)));
    for _ in 0..4 {
        fill(&mut reader, b"\xff")?;
    }
    for _ in 0..2 {
        assert!(rt; matches!(reader.next(), Err(FrameFault::TooLong(4_294_967_295))));
    }
    Ok(())
}

#[test]
fn a_fault_behind_frames(rt: HostRuntime) -> Result<(), Fail> {
    let mut reader = Reader::new(rt.alloc())?;
    fill(&mut reader, BYE)?;
    fill(&mut reader, READY)?;
    fill(&mut reader, b"\0\0\0\0")?;
    assert!(rt; matches!(reader.next(), Ok(Some(Frame::Bye))));
    assert!(rt; matches!(reader.next(), Ok(Some(Frame::Ready(..)))));
    assert!(rt; matches!(reader.next(), Err(FrameFault::Bad(38))));
    assert!(rt; matches!(reader.next(), Err(FrameFault::Bad(38))));
    Ok(())
}

/// Drops the values. They have parts within parts, and what drops them all is laid out at each exit of the function that does.
fn close_symbols(symbols: Symbols) {
    drop(symbols);
}

/// The next frame is a StepSubmit with these symbols, and they are written as they came.
fn symbols_are(
    rt: &impl Abort,
    alloc: Global,
    reader: &mut Reader,
    want: &[u8],
) -> Result<(), Fail> {
    let Ok(Some(frame)) = reader.next() else {
        return Err(Fail::from("no frame"));
    };
    let Frame::StepSubmit(_, _, _, _, bytes) = frame else {
        return Err(Fail::from("no submission"));
    };
    let symbols = match symbols_of(alloc, bytes) {
        Ok(symbols) => symbols,
        Err(fault) => return Err(Fail::from(fault)),
    };
    let mut written = Vec::new(alloc);
    let outcome = write_symbols(&symbols, &mut written);
    close_symbols(symbols);
    outcome?;
    assert_eq!(rt; written.as_slice(), want);
    Ok(())
}

#[test]
fn symbols_come_back(rt: HostRuntime) -> Result<(), Fail> {
    let mut reader = Reader::new(rt.alloc())?;
    fill(&mut reader, STEP_SUBMIT)?;
    fill(&mut reader, WITHOUT_SYMBOLS)?;
    symbols_are(&rt, rt.alloc(), &mut reader, SYMBOLS)?;
    symbols_are(&rt, rt.alloc(), &mut reader, b"\0\0")?;
    Ok(())
}
