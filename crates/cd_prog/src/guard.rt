use crate::JOURNAL;
use crate::names::{Identity, find, folder_of};
use std::fs::Metadata;
use std::io;
use std::io::ErrorKind;
use std::os::unix::fs::MetadataExt;
use std::path::Path;

/// The folder of the home that has its configuration.
const CONFIGURATION: &str = "cfg";

// The reason of a change that is refused.
fn refused(why: &str) -> io::Error {
    io::Error::new(ErrorKind::PermissionDenied, why)
}

/// What stands under the name of a destination, which is a regular file or nothing.
pub fn destination(rt: &HostRuntime, name: &str) -> io::Result<Option<Metadata>> {
    match find(rt, name)? {
        Some(found) if !found.is_file() => Err(refused("it is no regular file")),
        other => Ok(other),
    }
}

/// Refuses a change of the home's journal or below its `cfg/`, whatever the spelling and the links that lead there. A file
/// with several names is refused too, since one of them may lie there.
pub fn spare_home(rt: &HostRuntime, name: &str, found: Option<&Metadata>) -> io::Result<()> {
    let folder = folder_of(rt, name)?;
    spare_journal(rt, name, found, folder.as_str())?;
    let Some(configuration) = find(rt, CONFIGURATION)? else {
        return Ok(());
    };
    if is_in(rt, folder.as_str(), Identity::of(&configuration))? {
        return Err(refused("it lies below cfg/"));
    }
    Ok(())
}

// Refuses the journal: the file that there is, or its name where there is none yet.
fn spare_journal(
    rt: &HostRuntime,
    name: &str,
    found: Option<&Metadata>,
    folder: &str,
) -> io::Result<()> {
    let is_journal = match (found, find(rt, JOURNAL)?) {
        (Some(found), Some(journal)) => Identity::of(found) == Identity::of(&journal),
        (None, None) => is_journal_name(rt, name, folder)?,
        _ => false,
    };
    if is_journal {
        return Err(refused("it is the journal"));
    }
    match found {
        Some(found) if found.nlink() > 1 => Err(refused("it has several names")),
        _ => Ok(()),
    }
}

// The name is that of the journal in the home's folder.
fn is_journal_name(rt: &HostRuntime, name: &str, folder: &str) -> io::Result<bool> {
    match Path::new(name).file_name() {
        Some(last) if last == JOURNAL => {}
        _ => return Ok(false),
    }
    is_same(rt, folder, ".")
}

// Two names lead to one file or folder.
fn is_same(rt: &HostRuntime, a: &str, b: &str) -> io::Result<bool> {
    match (find(rt, a)?, find(rt, b)?) {
        (Some(a), Some(b)) => Ok(Identity::of(&a) == Identity::of(&b)),
        _ => Ok(false),
    }
}

// A folder, whose path has no links, is this one or lies below it.
fn is_in(rt: &HostRuntime, folder: &str, top: Identity) -> io::Result<bool> {
    for above in Path::new(folder).ancestors() {
        match find(rt, above.as_str())? {
            Some(found) if Identity::of(&found) == top => return Ok(true),
            _ => {}
        }
    }
    Ok(false)
}
