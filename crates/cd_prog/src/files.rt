ghost use Rattle.std.specs.Prelude.{◌≡◌, ◌≤◌, length, IfOk, None};
ghost use Rattle.cd_outside.specs.Counts.{Rose};
ghost use Rattle.cd_outside.specs.Files.{files_at_first};

use crate::guard::{destination, spare_home};
use crate::hand::Hand;
use crate::names::{find, sync_folder, unlink};
use crate::report::{no_beat, report};
use cd_outside::{Beat, Failed, Files};
use std::fs::File;
use std::io::ErrorKind;
use std::os::unix::fs::FileExt;
use std::{fs, io};

/// The files of the system by their names: absolute ones as they are, others from the current folder. A folder's name is
/// no file. What is written is a regular file, and nothing of the home.
///
/// They tell nothing of their content, and count each error of the system.
#[derive(Drop)]
pub struct SystemFiles {
    rt: HostRuntime,
    hand: Hand,
    faults: u64,
}

impl SystemFiles {
    /// The files; nothing is opened yet.
    pub fn new(rt: HostRuntime) -> Self {
        SystemFiles {
            rt,
            hand: Hand::new(rt),
            faults: 0,
        }
    }

    // How often a call failed.
    #[cfg(test)]
    pub fn faults(&self) -> u64 {
        self.faults
    }

    // Counts an error, and tells it.
    fn failed(&mut self, name: &[u8], why: io::Error) -> Failed
        ensures rose { Rose self.old.faults self.new.faults }
        ensures later { self.old.faults ≤ self.new.faults }
    {
        report(&self.rt, "files", name, why);
        self.faults = self.faults.saturating_add(1);
        Failed
    }
}

impl Files for SystemFiles {
    ghost observable = { ⊥ };

    ghost state = { λ _. files_at_first (λ name. None) };

    ghost faults = { λ files. files.faults };

    ghost counted = { ⊥ };

    ghost calls = { λ _. 0 };

    ghost seen_is_image = { λ files name told. absurd told };

    fn size(&mut self, name: &[u8]) -> Result<Option<u64>, Failed> {
        match size(&self.rt, name) {
            Ok(size) => Ok(size),
            Err(e) => Err(self.failed(name, e)),
        }
    }

    fn read(&mut self, name: &[u8], at: u64, into: &mut [u8]) -> Result<usize, Failed> {
        match read(&self.rt, name, at, into) {
            Ok(count) => Ok(count),
            Err(e) => Err(self.failed(name, e)),
        }
    }

    fn write_at(
        &mut self,
        name: &[u8],
        at: u64,
        bytes: &[u8],
        beat: &mut Beat,
    ) -> Result<(), Failed> {
        if !beat.raise() {
            return Err(self.failed(name, no_beat()));
        }
        match write(&self.rt, &mut self.hand, name, at, bytes) {
            Ok(()) => Ok(()),
            Err(e) => Err(self.failed(name, e)),
        }
    }

    fn cut(&mut self, name: &[u8], len: u64, beat: &mut Beat) -> Result<(), Failed> {
        if !beat.raise() {
            return Err(self.failed(name, no_beat()));
        }
        match cut(&self.rt, &mut self.hand, name, len) {
            Ok(()) => Ok(()),
            Err(e) => Err(self.failed(name, e)),
        }
    }

    fn sync(&mut self, name: &[u8], beat: &mut Beat) -> Result<(), Failed> {
        if !beat.raise() {
            return Err(self.failed(name, no_beat()));
        }
        match sync(&self.rt, &mut self.hand, name) {
            Ok(()) => Ok(()),
            Err(e) => Err(self.failed(name, e)),
        }
    }

    fn remove(&mut self, name: &[u8], beat: &mut Beat) -> Result<(), Failed> {
        if !beat.raise() {
            return Err(self.failed(name, no_beat()));
        }
        match remove(&self.rt, &mut self.hand, name) {
            Ok(()) => Ok(()),
            Err(e) => Err(self.failed(name, e)),
        }
    }
}

// A name as text.
fn text(name: &[u8]) -> io::Result<&str> {
    match std::str::from_utf8(name) {
        Ok(text) => Ok(text),
        Err(_) => Err(io::Error::new(ErrorKind::InvalidInput, "it is no text")),
    }
}

// The length of a regular file; `None` where there is nothing, or a folder.
fn size(rt: &HostRuntime, name: &[u8]) -> io::Result<Option<u64>> {
    match find(rt, text(name)?)? {
        Some(found) if found.is_file() => Ok(Some(found.len())),
        Some(found) if found.is_dir() => Ok(None),
        Some(_) => Err(io::Error::other("it is no regular file")),
        None => Ok(None),
    }
}

// Reads a file from a place on; a missing one gives nothing, and so does a place behind the end.
fn read(rt: &HostRuntime, name: &[u8], at: u64, into: &mut [u8]) -> io::Result<usize>
    ensures { IfOk result (λ n. n ≤ length into.old) }
{
    match size(rt, name)? {
        Some(size) if at < size => fill(&File::open(rt, text(name)?)?, at, into),
        _ => Ok(0),
    }
}

// Reads until the buffer is full or the file ends.
fn fill(file: &File, at: u64, into: &mut [u8]) -> io::Result<usize>
    ensures { IfOk result (λ n. n ≤ length into.old) }
{
    let mut count = 0;
    for _ in 0..u64::MAX {
        let place = at.saturating_add(count as u64);
        match file.read_at(&mut into[count..], place) {
            Ok(0) => return Ok(count),
            Ok(more) => count += more,
            Err(e) if e.kind() == ErrorKind::Interrupted => {}
            Err(e) => return Err(e),
        }
    }
    Err(io::Error::from(ErrorKind::Interrupted))
}

// Writes from a place on. Where no byte follows, a shorter file is made longer up to the place.
fn write(rt: &HostRuntime, hand: &mut Hand, name: &[u8], at: u64, bytes: &[u8]) -> io::Result<()> {
    let name = text(name)?;
    let found = destination(rt, name)?;
    spare_home(rt, name, found.as_ref())?;
    hand.take(rt, name, found.as_ref())?.write(at, bytes)
}

// Cuts to a length, or makes longer by zeros.
fn cut(rt: &HostRuntime, hand: &mut Hand, name: &[u8], len: u64) -> io::Result<()> {
    let name = text(name)?;
    let found = destination(rt, name)?;
    spare_home(rt, name, found.as_ref())?;
    hand.take(rt, name, found.as_ref())?.cut(len)
}

// Puts a file on the disk, and its name where that may lack. Of a missing one only that it is missing.
fn sync(rt: &HostRuntime, hand: &mut Hand, name: &[u8]) -> io::Result<()> {
    let name = text(name)?;
    match destination(rt, name)? {
        Some(found) => hand.take(rt, name, Some(&found))?.settle(rt, name),
        None => sync_folder(rt, name),
    }
}

// Removes a file, where there is one.
fn remove(rt: &HostRuntime, hand: &mut Hand, name: &[u8]) -> io::Result<()> {
    if size(rt, name)?.is_none() {
        return Ok(());
    }
    let name = text(name)?;
    let found = destination(rt, name)?;
    spare_home(rt, name, found.as_ref())?;
    let named = fs::symlink_metadata(rt, name)?;
    unlink(rt, name)?;
    hand.leave(&named);
    Ok(())
}
