//! The steady forms of files, lines and the spawner, within the room that was made for them.
use crate::closing::{close_steady_files, close_steady_lines, close_steady_spawner};
use cd_memory::{SteadyFiles, SteadyLines, SteadySpawner};
use cd_outside::{Beat, Files, Lines, Outcome, Spawner};
use std::process::Abort;
use std::test::Fail;

fn files_are_written(rt: &impl Abort, files: &mut SteadyFiles) -> Result<(), Fail> {
    let mut beat = Beat::new();
    files.put(b"b", &[1, 2])?;
    files.room(5, 11)?;
    files.write_at(b"a", 1, &[7], &mut beat)?;
    files.write_at(b"b", 1, &[8, 9], &mut beat)?;
    files.cut(b"c", 2, &mut beat)?;
    files.sync(b"b", &mut beat)?;
    assert_eq!(rt; files.get(b"a"), Some([0, 7].as_slice()));
    assert_eq!(rt; files.get(b"b"), Some([1, 8, 9].as_slice()));
    assert_eq!(rt; files.name(1), Some(b"b".as_slice()));
    files.remove(b"b", &mut beat)?;
    assert_eq!(rt; files.get(b"b"), None);
    assert_eq!(rt; files.name(0), Some(b"a".as_slice()));
    assert_eq!(rt; files.name(1), Some(b"c".as_slice()));
    assert_eq!(rt; files.name(2), None);
    let mut into = [9, 9, 9];
    assert_eq!(rt; files.read(b"a", 1, &mut into)?, 1);
    assert_eq!(rt; into, [7, 9, 9]);
    assert_eq!(rt; files.size(b"c")?, Some(2));
    Ok(())
}

// Eleven bytes are taken in all: of each call those of its name, and those that it writes or by which a file gets longer.
#[test]
fn files_keep_their_names_in_order(rt: HostRuntime) -> Result<(), Fail> {
    let Ok(mut files) = SteadyFiles::new(rt.alloc()) else {
        return Err(Fail::from("no files"));
    };
    let outcome = files_are_written(&rt, &mut files);
    close_steady_files(files);
    outcome
}

fn lines_give(rt: &impl Abort, lines: &mut SteadyLines) -> Result<(), Fail> {
    lines.room(8, 16)?;
    lines.offer(2, b"ab", Some((2, 3)))?;
    lines.incoming(1)?;
    lines.listen(1364)?;
    assert!(rt; lines.accept()?.is_some());
    assert_eq!(rt; lines.accept()?, None);
    let Ok(two) = lines.connect(b"host", 1) else {
        return Err(Fail::from("no session"));
    };
    let mut into = [0; 4];
    lines.send(two, b"xy")?;
    assert_eq!(rt; lines.receive(two, &mut into)?, 0);
    lines.send(two, b"z")?;
    assert_eq!(rt; lines.receive(two, &mut into)?, 2);
    assert_eq!(rt; into, [97, 98, 0, 0]);
    assert_eq!(rt; lines.given(2), b"xyz".as_slice());
    assert_eq!(rt; lines.given(3), b"".as_slice());
    lines.close(two);
    Ok(())
}

// The piece of the second session comes only once it was given three bytes.
#[test]
fn lines_give_what_is_offered(rt: HostRuntime) -> Result<(), Fail> {
    let Ok(mut lines) = SteadyLines::new(rt.alloc()) else {
        return Err(Fail::from("no lines"));
    };
    let outcome = lines_give(&rt, &mut lines);
    close_steady_lines(lines);
    outcome
}

fn spawner_answers(rt: &impl Abort, spawner: &mut SteadySpawner) -> Result<(), Fail> {
    spawner.next_outcome(Outcome::Killed)?;
    spawner.next_outcome(Outcome::Exit(3))?;
    spawner.room(3, 3)?;
    assert_eq!(rt; spawner.run(b"a"), Outcome::Killed);
    spawner.start(b"b")?;
    assert_eq!(rt; spawner.run(b"c"), Outcome::Exit(0));
    let second = Some(b"b".as_slice());
    assert_eq!(rt; spawner.started(1), second);
    assert_eq!(rt; spawner.started(3), None);
    Ok(())
}

#[test]
fn a_spawner_answers_what_was_set(rt: HostRuntime) -> Result<(), Fail> {
    let Ok(mut spawner) = SteadySpawner::new(rt.alloc()) else {
        return Err(Fail::from("no spawner"));
    };
    let outcome = spawner_answers(&rt, &mut spawner);
    close_steady_spawner(spawner);
    outcome
}
