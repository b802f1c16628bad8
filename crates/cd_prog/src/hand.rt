//! The files that are being written.
ghost use Rattle.std.specs.Prelude.{◌<◌, length, IfSome};

use crate::names::{Identity, look_at, sync_folder};
use std::fs::{File, Metadata, OpenFile, OpenOptions};
use std::io;
use std::os::unix::fs::FileExt;

/// A file that was opened to be written. It stays open until it is synced, so that an error of writing back reaches that
/// sync.
#[derive(Drop)]
pub struct Held {
    identity: Identity,
    file: File,
    may_lack_name: bool,
    has_failed: bool,
    is_synced: bool,
}

impl Held {
    // A file that has just been opened. An earlier program may have made its name and not synced the folder.
    fn new(file: File) -> io::Result<Self> {
        Ok(Held {
            identity: Identity::of(&look_at(&file)?),
            file,
            may_lack_name: true,
            has_failed: false,
            is_synced: false,
        })
    }

    /// Writes from a place on. Where no byte follows, a shorter file is made longer up to the place.
    pub fn write(&mut self, at: u64, bytes: &[u8]) -> io::Result<()> {
        self.is_synced = false;
        if bytes.is_empty() && look_at(&self.file)?.len() < at {
            return self.file.set_len(at);
        }
        self.file.write_all_at(bytes, at)
    }

    /// Cuts to a length, or makes longer by zeros.
    pub fn cut(&mut self, len: u64) -> io::Result<()> {
        self.is_synced = false;
        self.file.set_len(len)
    }

    /// Puts the file on the disk, and its name where that may lack. Behind a sync that failed every other fails too, since
    /// the system then takes for written what isn't.
    pub fn settle(&mut self, rt: &HostRuntime, name: &str) -> io::Result<()> {
        if self.has_failed {
            return Err(io::Error::other("an earlier sync of it failed"));
        }
        self.has_failed = true;
        self.file.sync_all()?;
        if self.may_lack_name {
            sync_folder(rt, name)?;
        }
        self.has_failed = false;
        self.may_lack_name = false;
        self.is_synced = true;
        Ok(())
    }
}

/// The files that are being written. One that is synced stays until the next is taken.
#[derive(Drop)]
pub struct Hand {
    held: Vec<Held>,
}

impl Hand {
    /// None.
    pub fn new(rt: HostRuntime) -> Self {
        Hand {
            held: Vec::new(rt.alloc()),
        }
    }

    /// The file of a name, by what stands there; it is made where nothing does. A link that leads to nothing is refused.
    pub fn take(
        &mut self,
        rt: &HostRuntime,
        name: &str,
        found: Option<&Metadata>,
    ) -> io::Result<&mut Held> {
        if let Some(i) = position(&self.held, found) {
            return Ok(&mut self.held[i]);
        }
        self.held.retain(|held| !held.is_synced);
        let file = open(rt, name, found.is_none())?;
        if self.held.push(Held::new(file)?).is_err() {
            return Err(io::Error::from(io::ErrorKind::OutOfMemory));
        }
        let last = self.held.len() - 1;
        Ok(&mut self.held[last])
    }

    /// Lets a file go that was removed.
    pub fn leave(&mut self, removed: &Metadata) {
        if let Some(i) = position(&self.held, Some(removed)) {
            let _ = self.held.swap_remove(i);
        }
    }
}

// Where the file stands that was found.
fn position(held: &[Held], found: Option<&Metadata>) -> Option<usize>
    ensures { IfSome result (λ i. i < length held.now) }
{
    let identity = Identity::of(found?);
    for i in 0..held.len() {
        if held[i].identity == identity {
            return Some(i);
        }
    }
    None
}

// Opens a file to be written, or makes it.
fn open(rt: &HostRuntime, name: &str, is_missing: bool) -> io::Result<File> {
    let mut options = OpenOptions::new();
    options.read(true).write(true).create_new(is_missing);
    options.open(rt, name)
}
