//! The adapters against the system: each call goes well once and fails once, and nothing of the home is written.
use crate::clock::SystemClock;
use crate::disk::FileDisk;
use crate::files::SystemFiles;
use crate::streams::{StandardInput, StandardOutput};
use cd_outside::{Beat, Clock, Disk, Files, Sink, Source};
use std::fs::File;
use std::io::{ErrorKind, Read};
use std::os::unix::fs::{MetadataExt, symlink};
use std::test::Fail;
use std::{env, fs, io};

// Makes an empty folder, and goes there.
pub fn enter(rt: &HostRuntime, name: &str) -> io::Result<()> {
    if fs::exists(rt, name)? {
        fs::remove_dir_all(rt, name)?;
    }
    fs::create_dir(rt, name)?;
    env::set_current_dir(rt, name)
}

// The fault counts of an adapter are told on standard error too, which the script of faults reads.
#[test]
fn journal_goes_well_and_fails(rt: HostRuntime) -> Result<(), Fail> {
    enter(&rt, "journal_goes_well")?;
    let mut beat = Beat::new();
    let mut into = [7; 4];
    let mut disk = FileDisk::new(rt, "journal");
    disk.sync(&mut beat)?;
    assert_eq!(rt; disk.len()?, 0);
    disk.read(0, &mut [])?;
    assert!(rt; !fs::exists(&rt, "journal")?);
    disk.write_at(0, b"abcdef", &mut beat)?;
    disk.sync(&mut beat)?;
    disk.cut(5, &mut beat)?;
    disk.read(1, &mut into)?;
    assert_eq!(rt; into.as_slice(), b"bcde".as_slice());
    assert_eq!(rt; fs::metadata(&rt, "journal")?.mode() & 0o777, 0o600);
    assert_eq!(rt; beat.at(), 4);

    let mut below = FileDisk::new(rt, "journal/below");
    assert!(rt; below.len().is_err());
    assert!(rt; below.read(0, &mut into).is_err());
    assert!(rt; below.write_at(0, b"a", &mut beat).is_err());
    assert!(rt; below.cut(0, &mut beat).is_err());
    assert!(rt; below.sync(&mut beat).is_err());
    assert_eq!(rt; below.faults(), 5);
    Ok(())
}

// What an opening writes again is what was there, at each length.
#[test]
fn opening_keeps_each_byte(rt: HostRuntime) -> Result<(), Fail> {
    enter(&rt, "opening_keeps")?;
    for length in [0_u32, 1, 4096, 262_150, 300_000] {
        let mut bytes = Vec::new(rt.alloc());
        for i in 0..length {
            bytes.push((i % 251) as u8)?;
        }
        fs::write(&rt, "journal", bytes.as_slice())?;
        let mut disk = FileDisk::new(rt, "journal");
        disk.sync(&mut Beat::new())?;
        assert!(rt; fs::read(&rt, "journal")?.as_slice() == bytes.as_slice());
    }
    Ok(())
}

#[test]
fn second_program_fails(rt: HostRuntime) -> Result<(), Fail> {
    enter(&rt, "second_program")?;
    let mut beat = Beat::new();
    let mut first = FileDisk::new(rt, "journal");
    let mut second = FileDisk::new(rt, "journal");
    assert_eq!(rt; first.len()?, 0);
    assert_eq!(rt; second.len()?, 0);
    first.write_at(0, b"a", &mut beat)?;
    assert!(rt; second.write_at(0, b"b", &mut beat).is_err());
    let mut third = FileDisk::new(rt, "journal");
    assert!(rt; third.len().is_err());
    assert!(rt; third.sync(&mut beat).is_err());
    assert_eq!(rt; third.faults(), 2);
    drop(first);
    assert!(rt; second.write_at(0, b"b", &mut beat).is_err());
    assert_eq!(rt; third.len()?, 1);
    Ok(())
}

// Each call fails on a name below a file, which can't be.
#[test]
fn files_go_well_and_fail(rt: HostRuntime) -> Result<(), Fail> {
    enter(&rt, "files_go_well")?;
    let mut beat = Beat::new();
    let mut files = SystemFiles::new(rt);
    let mut into = [7; 4];
    let name = b"a".as_slice();
    files.remove(name, &mut beat)?;
    files.sync(name, &mut beat)?;
    assert_eq!(rt; files.size(name)?, None);
    assert_eq!(rt; files.read(name, 0, &mut into)?, 0);
    files.write_at(name, 1, b"ab", &mut beat)?;
    files.sync(name, &mut beat)?;
    assert_eq!(rt; files.read(name, 0, &mut into)?, 3);
    assert_eq!(rt; into.as_slice(), [0, b'a', b'b', 7].as_slice());
    files.cut(name, 5, &mut beat)?;
    files.write_at(b"b", 2, b"", &mut beat)?;
    files.sync(name, &mut beat)?;
    assert_eq!(rt; files.size(name)?, Some(5));
    assert_eq!(rt; files.size(b"b")?, Some(2));
    assert_eq!(rt; files.read(name, u64::MAX, &mut into)?, 0);
    assert_eq!(rt; files.size(b".")?, None);

    let below = b"a/below".as_slice();
    assert!(rt; files.size(below).is_err());
    assert!(rt; files.read(below, 0, &mut into).is_err());
    assert!(rt; files.write_at(below, 0, b"a", &mut beat).is_err());
    assert!(rt; files.cut(below, 0, &mut beat).is_err());
    assert!(rt; files.sync(below, &mut beat).is_err());
    assert!(rt; files.remove(below, &mut beat).is_err());
    assert_eq!(rt; files.faults(), 6);
    files.remove(name, &mut beat)?;
    assert_eq!(rt; files.size(name)?, None);
    Ok(())
}

// Links that lead to the home, and one that doesn't.
fn link_home(rt: &HostRuntime) -> io::Result<()> {
    fs::create_dir(rt, "cfg")?;
    fs::create_dir(rt, "other")?;
    fs::write(rt, "cfg/netmap.cfg", "a")?;
    fs::write(rt, "journal", "a")?;
    symlink(rt, "journal", "to_journal")?;
    fs::hard_link(rt, "cfg/netmap.cfg", "linked")?;
    symlink(rt, "cfg", "to_cfg")?;
    symlink(rt, "cfg/new", "to_new")?;
    symlink(rt, "other", "to_other")
}

#[test]
fn home_is_spared(rt: HostRuntime) -> Result<(), Fail> {
    enter(&rt, "home_is_spared")?;
    link_home(&rt)?;
    let mut beat = Beat::new();
    let mut files = SystemFiles::new(rt);
    for name in [
        "journal",
        "other/../journal",
        "to_journal",
        "linked",
        "cfg/netmap.cfg",
        "cfg/new",
        "to_cfg/new",
        "to_new",
        "other",
        "/dev/null",
    ] {
        let name = name.as_bytes();
        assert!(rt; files.write_at(name, 0, b"b", &mut beat).is_err());
        assert!(rt; files.cut(name, 0, &mut beat).is_err());
    }
    assert!(rt; files.remove(b"journal", &mut beat).is_err());
    assert!(rt; files.remove(b"to_cfg/netmap.cfg", &mut beat).is_err());
    assert_eq!(rt; files.faults(), 22);
    files.write_at(b"to_other/a", 0, b"b", &mut beat)?;
    files.sync(b"to_other/a", &mut beat)?;
    assert_eq!(rt; fs::read(&rt, "other/a")?.as_slice(), b"b".as_slice());
    fs::remove_file(&rt, "journal")?;
    assert!(rt; files.cut(b"other/../journal", 0, &mut beat).is_err());
    Ok(())
}

// A reader that a signal interrupts once.
#[derive(Drop)]
struct Interrupted {
    was: bool,
}

impl Read for Interrupted {
    fn read(&mut self, _buf: &mut [u8]) -> io::Result<usize> {
        if self.was {
            return Ok(0);
        }
        self.was = true;
        Err(io::Error::from(ErrorKind::Interrupted))
    }
}

// A folder can be opened to be read, and neither gives nor takes a byte.
#[test]
fn streams_go_well_and_fail(rt: HostRuntime) -> Result<(), Fail> {
    let mut into = [7; 4];
    let mut input = StandardInput::new(rt, b"ab".as_slice());
    assert_eq!(rt; input.read(&mut into)?, 2);
    assert_eq!(rt; input.read(&mut into)?, 0);
    let mut interrupted = StandardInput::new(rt, Interrupted { was: false });
    assert_eq!(rt; interrupted.read(&mut into)?, 0);
    let mut broken = StandardInput::new(rt, File::open(&rt, "/")?);
    assert!(rt; broken.read(&mut into).is_err());
    assert_eq!(rt; broken.faults(), 1);

    StandardOutput::new(rt, io::writer(&rt)).write(b"written\n")?;
    let mut closed = StandardOutput::new(rt, File::open(&rt, "/")?);
    assert!(rt; closed.write(b"written\n").is_err());
    assert_eq!(rt; closed.faults(), 1);
    let _ = SystemClock::new(rt).now();
    Ok(())
}
