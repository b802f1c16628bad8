use std::fs::{File, Metadata};
use std::io::ErrorKind;
use std::os::unix::fs::MetadataExt;
use std::path::{Path, PathBuf};
use std::{fs, io};

/// A file of the system, whatever its names: its device, and its number there.
#[derive(Clone, Copy, PartialEq, Eq)]
pub struct Identity {
    device: u64,
    inode: u64,
}

impl Identity {
    /// The file that was found.
    pub fn of(found: &Metadata) -> Self {
        Identity {
            device: found.dev(),
            inode: found.ino(),
        }
    }
}

// The reason of a call that was interrupted more often than can be counted.
fn interrupted() -> io::Error {
    io::Error::from(ErrorKind::Interrupted)
}

/// What stands under a name, behind all links; `None` where nothing does.
pub fn find(rt: &HostRuntime, name: &str) -> io::Result<Option<Metadata>> {
    for _ in 0..u64::MAX {
        match fs::metadata(rt, name) {
            Ok(found) => return Ok(Some(found)),
            Err(e) if e.kind() == ErrorKind::NotFound => return Ok(None),
            Err(e) if e.kind() == ErrorKind::Interrupted => {}
            Err(e) => return Err(e),
        }
    }
    Err(interrupted())
}

/// What is known of an opened file.
pub fn look_at(file: &File) -> io::Result<Metadata> {
    for _ in 0..u64::MAX {
        match file.metadata() {
            Err(e) if e.kind() == ErrorKind::Interrupted => {}
            other => return other,
        }
    }
    Err(interrupted())
}

/// Removes a name.
pub fn unlink(rt: &HostRuntime, name: &str) -> io::Result<()> {
    for _ in 0..u64::MAX {
        match fs::remove_file(rt, name) {
            Err(e) if e.kind() == ErrorKind::Interrupted => {}
            other => return other,
        }
    }
    Err(interrupted())
}

// The folder that a name tells.
fn parent(name: &str) -> &str {
    match Path::new(name).parent() {
        Some(parent) if !parent.as_str().is_empty() => parent.as_str(),
        _ => ".",
    }
}

/// The folder in which a name really lies, as an absolute path without links. Where the name is a link to a file, it is the
/// folder of that file.
pub fn folder_of(rt: &HostRuntime, name: &str) -> io::Result<PathBuf> {
    match fs::canonicalize(rt, name) {
        Ok(path) => fs::canonicalize(rt, parent(path.as_str())),
        Err(e) if e.kind() == ErrorKind::NotFound => fs::canonicalize(rt, parent(name)),
        Err(e) => Err(e),
    }
}

/// Puts on the disk which names the folder of a name has. Where there is no such folder, it has none.
pub fn sync_folder(rt: &HostRuntime, name: &str) -> io::Result<()> {
    match folder_of(rt, name) {
        Ok(folder) => File::open(rt, folder.as_str())?.sync_all(),
        Err(e) if e.kind() == ErrorKind::NotFound => Ok(()),
        Err(e) => Err(e),
    }
}
