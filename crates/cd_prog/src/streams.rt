ghost use Rattle.std.specs.Prelude.{[], ◌≡◌, ◌≤◌, length, IfOk, OnErr};
ghost use Rattle.cd_outside.specs.Counts.{Rose};

use crate::report::report;
use cd_outside::{Failed, Sink, Source};
use std::fs::File;
use std::io;
use std::io::{ErrorKind, Read, Write};
use std::os::fd::AsRawFd;

/// Standard input. It tells nothing of its bytes, and counts each error of the system.
#[derive(Drop)]
pub struct StandardInput<R: Read + Drop> {
    rt: HostRuntime,
    reader: R,
    faults: u64,
}

impl<R: Read + Drop> StandardInput<R> {
    /// The input that this reader gives.
    pub fn new(rt: HostRuntime, reader: R) -> Self {
        StandardInput {
            rt,
            reader,
            faults: 0,
        }
    }

    // How often a call failed.
    #[cfg(test)]
    pub fn faults(&self) -> u64 {
        self.faults
    }
}

// Reads once, and again where a signal came first.
fn read_once<R: Read>(reader: &mut R, into: &mut [u8]) -> io::Result<usize>
    ensures { IfOk result (λ n. n ≤ length into.old) }
{
    for _ in 0..u64::MAX {
        match reader.read(into) {
            Err(e) if e.kind() == ErrorKind::Interrupted => {}
            other => return other,
        }
    }
    Err(io::Error::from(ErrorKind::Interrupted))
}

impl<R: Read + Drop> Source for StandardInput<R> {
    ghost observable = { ⊥ };

    ghost remaining = { λ _. [] };

    ghost faults = { λ input. input.faults };

    fn read(&mut self, into: &mut [u8]) -> Result<usize, Failed> {
        match read_once(&mut self.reader, into) {
            Ok(n) => Ok(n),
            Err(e) => {
                report(&self.rt, "input", b"stdin", e);
                self.faults = self.faults.saturating_add(1);
                Err(Failed)
            }
        }
    }
}

/// Standard output. It tells nothing of its bytes, and counts each error of the system.
#[derive(Drop)]
pub struct StandardOutput<W: Write + Drop> {
    rt: HostRuntime,
    writer: W,
    faults: u64,
}

impl<W: Write + Drop> StandardOutput<W> {
    /// The output that this writer takes.
    pub fn new(rt: HostRuntime, writer: W) -> Self {
        StandardOutput {
            rt,
            writer,
            faults: 0,
        }
    }

    // How often a call failed.
    #[cfg(test)]
    pub fn faults(&self) -> u64 {
        self.faults
    }
}

// Writes all, and keeps nothing back.
fn write_bytes<W: Write>(writer: &mut W, bytes: &[u8]) -> io::Result<()> {
    writer.write_all(bytes)?;
    writer.flush()
}

impl<W: Write + Drop> Sink for StandardOutput<W> {
    ghost observable = { ⊥ };

    ghost taken = { λ _. [] };

    ghost faults = { λ output. output.faults };

    fn write(&mut self, bytes: &[u8]) -> Result<(), Failed> {
        match write_bytes(&mut self.writer, bytes) {
            Ok(()) => Ok(()),
            Err(e) => {
                report(&self.rt, "output", b"stdout", e);
                self.faults = self.faults.saturating_add(1);
                Err(Failed)
            }
        }
    }
}

/// Takes the places of standard streams that are closed, as long as what it gives is kept. Otherwise the next file that is
/// opened gets such a place, and what is meant for the stream is written into the file. A folder stands there now, which
/// can be neither read nor written, so a call on the stream still fails.
pub fn take_closed_places(rt: &HostRuntime) -> io::Result<Vec<File>> {
    let mut taken = Vec::new(rt.alloc());
    for _ in 0..3 {
        let file = File::open(rt, "/")?;
        if file.as_raw_fd() > 2 {
            break;
        }
        if taken.push(file).is_err() {
            return Err(io::Error::from(ErrorKind::OutOfMemory));
        }
    }
    Ok(taken)
}
