ghost use Rattle.std.specs.Prelude.{[], ◌≡◌, ◌≤◌, OnErr};
ghost use Rattle.cd_outside.specs.Counts.{Rose};
ghost use Rattle.cd_outside.specs.Doubt.{settled};

use crate::names::{Identity, find, look_at, sync_folder};
use crate::report::{no_beat, report};
use cd_outside::{Beat, Disk, Failed};
use std::fs::{File, OpenFile, OpenOptions, TryLockError};
use std::io;
use std::io::ErrorKind;
use std::os::unix::fs::{FileExt, OpenOptionsExt};

/// How many bytes at a file's end may be those that an earlier program wrote and didn't sync: a gate, a length, the longest
/// body, and the next gate.
const LAST: u64 = 262_150;

/// How many of them are written again at once.
const PIECE: usize = 4096;

// What stands under the journal's name.
#[derive(Drop)]
enum Place {
    /// Nobody has looked.
    Unknown,
    /// Nothing, and only this program may change that.
    Empty,
    /// This file, which this program has locked.
    Taken(File),
}

/// The journal's file in the current folder. It is made at the first write, not before, and locked as long as the program
/// runs, so that a second program on the same file fails.
///
/// A sync may follow one that failed, in this program or an earlier one. The system then takes for written what never
/// reached the disk. So the first sync, and each sync behind one that failed, writes the file's last bytes again as it
/// reads them; it also syncs the folder that has the name.
///
/// It tells nothing of its content, and counts each error of the system.
#[derive(Drop)]
pub struct FileDisk {
    rt: HostRuntime,
    name: &'static str,
    place: Place,
    may_lack_bytes: bool,
    may_lack_name: bool,
    faults: u64,
}

impl FileDisk {
    /// The file of that name; nothing is opened yet.
    pub fn new(rt: HostRuntime, name: &'static str) -> Self {
        FileDisk {
            rt,
            name,
            place: Place::Unknown,
            may_lack_bytes: true,
            may_lack_name: true,
            faults: 0,
        }
    }

    // How often a call failed.
    #[cfg(test)]
    pub fn faults(&self) -> u64 {
        self.faults
    }

    // Counts an error, and tells it.
    fn failed(&mut self, why: io::Error) -> Failed
        ensures rose { Rose self.old.faults self.new.faults }
        ensures later { self.old.faults ≤ self.new.faults }
    {
        report(&self.rt, "disk", self.name.as_bytes(), why);
        self.faults = self.faults.saturating_add(1);
        Failed
    }

    // Opens the file, where there is one.
    fn look(&mut self) -> io::Result<()>
        ensures { self.new.faults ≡ self.old.faults }
    {
        if let Place::Unknown = self.place {
            self.place = match open(&self.rt, self.name)? {
                Some(file) => Place::Taken(file),
                None => Place::Empty,
            };
        }
        Ok(())
    }

    // Opens the file, or makes it.
    fn make(&mut self) -> io::Result<()>
        ensures { self.new.faults ≡ self.old.faults }
    {
        self.look()?;
        if let Place::Empty = self.place {
            let file = make(&self.rt, self.name)?;
            self.place = Place::Taken(file);
            self.may_lack_bytes = false;
            self.may_lack_name = true;
        }
        Ok(())
    }

    // The length of the file; 0 where there is none.
    fn length(&mut self) -> io::Result<u64>
        ensures { self.new.faults ≡ self.old.faults }
    {
        self.look()?;
        match &self.place {
            Place::Taken(file) => Ok(look_at(file)?.len()),
            _ => Ok(0),
        }
    }

    // Reads from a place on.
    fn fill(&mut self, at: u64, into: &mut [u8]) -> io::Result<()>
        ensures { self.new.faults ≡ self.old.faults }
    {
        self.look()?;
        match &self.place {
            Place::Taken(file) => file.read_exact_at(into, at),
            _ if into.is_empty() => Ok(()),
            _ => Err(io::Error::from(ErrorKind::UnexpectedEof)),
        }
    }

    // Writes from a place on.
    fn put(&mut self, at: u64, bytes: &[u8]) -> io::Result<()>
        ensures { self.new.faults ≡ self.old.faults }
    {
        self.make()?;
        match &self.place {
            Place::Taken(file) => file.write_all_at(bytes, at),
            _ => Err(io::Error::from(ErrorKind::NotFound)),
        }
    }

    // Cuts to a length.
    fn shorten(&mut self, len: u64) -> io::Result<()>
        ensures { self.new.faults ≡ self.old.faults }
    {
        self.make()?;
        match &self.place {
            Place::Taken(file) => file.set_len(len),
            _ => Err(io::Error::from(ErrorKind::NotFound)),
        }
    }

    // Puts the file on the disk, and its name where that may lack.
    fn settle(&mut self) -> io::Result<()>
        ensures { self.new.faults ≡ self.old.faults }
    {
        self.look()?;
        if let Place::Taken(file) = &self.place {
            let lacks = self.may_lack_bytes;
            self.may_lack_bytes = true;
            settle_bytes(file, lacks)?;
        }
        self.may_lack_bytes = false;
        if self.may_lack_name {
            sync_folder(&self.rt, self.name)?;
            self.may_lack_name = false;
        }
        Ok(())
    }
}

// Locks a file until it is closed.
fn lock(file: &File) -> io::Result<()> {
    match file.try_lock() {
        Ok(()) => Ok(()),
        Err(TryLockError::WouldBlock) => Err(io::Error::new(
            ErrorKind::WouldBlock,
            "another program has locked it",
        )),
        Err(TryLockError::Error(e)) => Err(e),
    }
}

// A file that was opened under a name is still the one that has it.
fn has_name(rt: &HostRuntime, file: &File, name: &str) -> io::Result<()> {
    match find(rt, name)? {
        Some(found) if Identity::of(&found) == Identity::of(&look_at(file)?) => Ok(()),
        _ => Err(io::Error::other("another program has replaced it")),
    }
}

// Opens a file and locks it; `None` where there is none.
fn open(rt: &HostRuntime, name: &str) -> io::Result<Option<File>> {
    match OpenOptions::new().read(true).write(true).open(rt, name) {
        Ok(file) => {
            lock(&file)?;
            has_name(rt, &file, name)?;
            Ok(Some(file))
        }
        Err(e) if e.kind() == ErrorKind::NotFound => Ok(None),
        Err(e) => Err(e),
    }
}

// Makes a file that isn't there, and locks it. Another program may have come between the two.
fn make(rt: &HostRuntime, name: &str) -> io::Result<File> {
    let mut options = OpenOptions::new();
    options.read(true).write(true).create_new(true).mode(0o600);
    let file = options.open(rt, name)?;
    lock(&file)?;
    has_name(rt, &file, name)?;
    if look_at(&file)?.len() > 0 {
        return Err(io::Error::other("another program has written it"));
    }
    Ok(file)
}

// Puts an opened file on the disk. Where it may lack bytes that an earlier sync should have put there, its last bytes are
// written again before.
fn settle_bytes(file: &File, lacks: bool) -> io::Result<()> {
    if lacks {
        write_again(file)?;
    }
    file.sync_all()
}

// Writes the last bytes of a file as they are read, each in its place.
fn write_again(file: &File) -> io::Result<()> {
    let mut piece = [0; PIECE];
    let length = look_at(file)?.len();
    let first = length.saturating_sub(LAST);
    for i in 0..LAST.div_ceil(PIECE as u64) {
        let at = first.saturating_add(i * PIECE as u64);
        let count = length.saturating_sub(at).min(PIECE as u64) as usize;
        if count == 0 {
            break;
        }
        file.read_exact_at(&mut piece[..count], at)?;
        file.write_all_at(&piece[..count], at)?;
    }
    Ok(())
}

impl Disk for FileDisk {
    ghost observable = { ⊥ };

    ghost state = { λ _. record { seen = []; doubt = settled []; calls = [] } };

    ghost faults = { λ disk. disk.faults };

    ghost seen_is_image = { λ disk told. absurd told };

    fn len(&mut self) -> Result<u64, Failed> {
        match self.length() {
            Ok(length) => Ok(length),
            Err(e) => Err(self.failed(e)),
        }
    }

    fn read(&mut self, at: u64, into: &mut [u8]) -> Result<(), Failed> {
        match self.fill(at, into) {
            Ok(()) => Ok(()),
            Err(e) => Err(self.failed(e)),
        }
    }

    fn write_at(&mut self, at: u64, bytes: &[u8], beat: &mut Beat) -> Result<(), Failed> {
        if !beat.raise() {
            return Err(self.failed(no_beat()));
        }
        match self.put(at, bytes) {
            Ok(()) => Ok(()),
            Err(e) => Err(self.failed(e)),
        }
    }

    fn cut(&mut self, len: u64, beat: &mut Beat) -> Result<(), Failed> {
        if !beat.raise() {
            return Err(self.failed(no_beat()));
        }
        match self.shorten(len) {
            Ok(()) => Ok(()),
            Err(e) => Err(self.failed(e)),
        }
    }

    fn sync(&mut self, beat: &mut Beat) -> Result<(), Failed> {
        if !beat.raise() {
            return Err(self.failed(no_beat()));
        }
        match self.settle() {
            Ok(()) => Ok(()),
            Err(e) => Err(self.failed(e)),
        }
    }
}
