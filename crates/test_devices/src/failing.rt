//! Devices that fail by a script and stop within a call.
use crate::closing::{
    close_disk, close_files, close_lines, close_sink, close_source, close_spawner,
    close_steady_disk, close_steady_sink, close_steady_source,
};
use cd_memory::{
    FaultScript, MemoryClock, MemoryDisk, MemoryFiles, MemoryLines, MemorySink, MemorySource,
    MemorySpawner, SteadyClock, SteadyDisk, SteadySink, SteadySource,
};
use cd_outside::{
    Beat, Clock, ConnectFault, Disk, Files, Lines, Outcome, Sink, Source, Spawner, sync_now,
    write_through,
};
use cd_types::Moment;
use std::alloc::Global;
use std::process::Abort;
use std::test::Fail;

/// No call of the device fails by it.
fn quiet(alloc: Global) -> FaultScript {
    FaultScript::new(Vec::new(alloc))
}

fn disk_stops(rt: &impl Abort, disk: &mut MemoryDisk) -> Result<(), Fail> {
    let mut beat = Beat::new();
    disk.put(&[1, 2, 3])?;
    sync_now(disk, &mut beat)?;
    write_through(disk, 3, &[4], &mut beat)?;
    disk.stop_at(5);
    assert!(rt; write_through(disk, 0, &[9, 9], &mut beat).is_err());
    assert!(rt; disk.stopped());
    assert!(rt; !disk.starved());
    assert_eq!(rt; disk.bytes(), [9, 9, 3, 4].as_slice());
    disk.crash(2);
    assert_eq!(rt; disk.bytes(), [170, 136, 3, 4].as_slice());
    disk.fail(2)?;
    assert_eq!(rt; disk.len()?, 4);
    assert!(rt; disk.len().is_err());
    Ok(())
}

// A write goes through; another is stopped within its sync, and the generator with seed 2 draws what it leaves.
#[test]
fn a_disk_stops(rt: HostRuntime) -> Result<(), Fail> {
    let alloc = rt.alloc();
    let Ok(mut disk) = MemoryDisk::new(alloc, quiet(alloc)) else {
        return Err(Fail::from("no disk"));
    };
    let outcome = disk_stops(&rt, &mut disk);
    close_disk(disk);
    outcome
}

fn files_stop_within(rt: &impl Abort, files: &mut MemoryFiles) -> Result<(), Fail> {
    let mut beat = Beat::new();
    files.put(b"a", &[1, 2, 3])?;
    files.write_at(b"a", 3, &[4], &mut beat)?;
    files.sync(b"a", &mut beat)?;
    files.write_at(b"b", 2, &[9], &mut beat)?;
    let second = Some(b"b".as_slice());
    let written = Some([0, 0, 9].as_slice());
    assert_eq!(rt; files.get(b"b"), written);
    assert_eq!(rt; files.name(1), second);
    assert_eq!(rt; files.name(2), None);
    let mut into = [0, 0];
    assert_eq!(rt; files.read(b"b", 2, &mut into)?, 1);
    assert_eq!(rt; files.size(b"c")?, None);
    files.fail(1)?;
    assert!(rt; files.cut(b"a", 0, &mut beat).is_err());
    files.stop_at(5);
    assert!(rt; files.write_at(b"a", 0, &[7, 7], &mut beat).is_err());
    assert!(rt; files.stopped());
    assert!(rt; !files.starved());
    let under_way = Some([7, 7, 3, 4].as_slice());
    let left = Some([251, 67, 3, 4].as_slice());
    let drawn = Some([67, 202, 52].as_slice());
    assert_eq!(rt; files.get(b"a"), under_way);
    files.crash(3);
    assert_eq!(rt; files.get(b"a"), left);
    assert_eq!(rt; files.get(b"b"), drawn);
    files.remove(b"a", &mut beat)?;
    assert_eq!(rt; files.get(b"a"), None);
    assert_eq!(rt; files.name(0), second);
    files.crash(0);
    assert_eq!(rt; files.get(b"a"), left);
    Ok(())
}

// Two files are written, one of them made; the stop comes within a write, and the generator draws what each name has.
#[test]
fn files_stop(rt: HostRuntime) -> Result<(), Fail> {
    let alloc = rt.alloc();
    let Ok(mut files) = MemoryFiles::new(alloc, quiet(alloc)) else {
        return Err(Fail::from("no files"));
    };
    let outcome = files_stop_within(&rt, &mut files);
    close_files(files);
    outcome
}

fn lines_give(rt: &impl Abort, lines: &mut MemoryLines) -> Result<(), Fail> {
    lines.offer(1, b"ab", None)?;
    lines.offer(1, b"c", Some((2, 3)))?;
    lines.incoming(2)?;
    lines.listen(1364)?;
    let one = lines.accept()?.ok_or("none waits")?;
    let two = lines.accept()?.ok_or("none waits")?;
    assert_eq!(rt; lines.accept()?, None);
    let mut into = [0; 8];
    assert_eq!(rt; lines.receive(one, &mut into)?, 2);
    assert_eq!(rt; lines.receive(one, &mut into)?, 0);
    lines.send(two, b"xyz")?;
    assert_eq!(rt; lines.receive(one, &mut into)?, 1);
    assert_eq!(rt; into[0], b'c');
    lines.fail(1)?;
    assert!(rt; lines.send(two, b"no").is_err());
    assert_eq!(rt; lines.given(2), b"xyz".as_slice());
    lines.close(two);
    lines.refuse(true);
    assert_eq!(rt; lines.connect(b"host", 1), Err(ConnectFault::Refused));
    assert!(rt; !lines.starved());
    Ok(())
}

// The first session gives its second piece only after the second session was given three bytes.
#[test]
fn lines_give_what_is_offered(rt: HostRuntime) -> Result<(), Fail> {
    let alloc = rt.alloc();
    let Ok(mut lines) = MemoryLines::new(alloc, quiet(alloc)) else {
        return Err(Fail::from("no lines"));
    };
    let outcome = lines_give(&rt, &mut lines);
    close_lines(lines);
    outcome
}

fn spawner_answers(rt: &impl Abort, spawner: &mut MemorySpawner) -> Result<(), Fail> {
    spawner.next_outcome(Outcome::Exit(4))?;
    spawner.next_outcome(Outcome::Killed)?;
    spawner.next_outcome(Outcome::Failed)?;
    assert_eq!(rt; spawner.run(b"a"), Outcome::Exit(4));
    spawner.start(b"b")?;
    assert!(rt; spawner.start(b"c").is_err());
    spawner.fail(1)?;
    assert_eq!(rt; spawner.run(b"d"), Outcome::Failed);
    assert_eq!(rt; spawner.run(b"e"), Outcome::Exit(0));
    let fifth = Some(b"e".as_slice());
    assert_eq!(rt; spawner.started(2), fifth);
    assert_eq!(rt; spawner.started(3), None);
    assert!(rt; !spawner.starved());
    Ok(())
}

#[test]
fn a_spawner_answers_what_was_set(rt: HostRuntime) -> Result<(), Fail> {
    let alloc = rt.alloc();
    let Ok(mut spawner) = MemorySpawner::new(alloc, quiet(alloc)) else {
        return Err(Fail::from("no spawner"));
    };
    let outcome = spawner_answers(&rt, &mut spawner);
    close_spawner(spawner);
    outcome
}

fn steady_disk_keeps(rt: &impl Abort, disk: &mut SteadyDisk) -> Result<(), Fail> {
    let mut beat = Beat::new();
    disk.put(&[1])?;
    disk.room(3, 2)?;
    write_through(disk, 1, &[2, 3], &mut beat)?;
    disk.cut(2, &mut beat)?;
    assert_eq!(rt; disk.bytes(), [1, 2].as_slice());
    Ok(())
}

fn steady_source_gives(
    rt: &impl Abort,
    source: &mut SteadySource,
    into: &mut [u8; 2],
) -> Result<(), Fail> {
    source.room(1, 1)?;
    source.feed(&[5])?;
    assert_eq!(rt; source.read(into)?, 1);
    Ok(())
}

fn steady_sink_takes(rt: &impl Abort, sink: &mut SteadySink, bytes: &[u8]) -> Result<(), Fail> {
    sink.room(1, 2)?;
    sink.write(bytes)?;
    assert_eq!(rt; sink.bytes(), [5, 0].as_slice());
    Ok(())
}

#[test]
fn the_steady_forms(rt: HostRuntime) -> Result<(), Fail> {
    let alloc = rt.alloc();
    let Ok(mut disk) = SteadyDisk::new(alloc) else {
        return Err(Fail::from("no disk"));
    };
    let kept = steady_disk_keeps(&rt, &mut disk);
    close_steady_disk(disk);
    kept?;
    let mut into = [0, 0];
    let mut source = SteadySource::new(alloc)?;
    let given = steady_source_gives(&rt, &mut source, &mut into);
    close_steady_source(source);
    given?;
    let mut sink = SteadySink::new(alloc)?;
    let taken = steady_sink_takes(&rt, &mut sink, &into);
    close_steady_sink(sink);
    taken
}

fn source_fails(
    rt: &impl Abort,
    source: &mut MemorySource,
    into: &mut [u8; 2],
) -> Result<(), Fail> {
    source.feed(&[5, 6, 7])?;
    assert!(rt; source.read(into).is_err());
    assert_eq!(rt; source.read(into)?, 2);
    assert_eq!(rt; into.as_slice(), [5, 6].as_slice());
    source.fail(1)?;
    assert!(rt; source.read(into).is_err());
    assert_eq!(rt; source.read(into)?, 1);
    Ok(())
}

fn sink_fails(rt: &impl Abort, sink: &mut MemorySink, bytes: &[u8]) -> Result<(), Fail> {
    sink.fail(2)?;
    sink.write(bytes)?;
    assert!(rt; sink.write(bytes).is_err());
    assert_eq!(rt; sink.bytes(), [7, 6].as_slice());
    Ok(())
}

#[test]
fn calls_fail_by_the_script(rt: HostRuntime) -> Result<(), Fail> {
    let alloc = rt.alloc();
    let mut into = [0, 0];
    let mut source = MemorySource::new(alloc, FaultScript::new(Vec::from_slice(alloc, &[1])?))?;
    let read = source_fails(&rt, &mut source, &mut into);
    close_source(source);
    read?;
    let mut sink = MemorySink::new(alloc, quiet(alloc))?;
    let written = sink_fails(&rt, &mut sink, &into);
    close_sink(sink);
    written?;
    let mut clock = MemoryClock::new(alloc, quiet(alloc))?;
    clock.set(Moment::new(7).ok_or("no moment")?);
    assert_eq!(rt; clock.now().seconds(), 7);
    let mut steady = SteadyClock::new(alloc)?;
    assert_eq!(rt; steady.now().seconds(), 0);
    Ok(())
}
