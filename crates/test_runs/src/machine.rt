//! A node over devices in memory.
//! A device has parts within parts, and what drops them all is laid out at each exit of the function that owns one. So a device
//! is lent to what may fail, and each kind is dropped in one place (`closing`).
ghost use Rattle.std.specs.Prelude.{◌≤◌};
ghost use Rattle.cd_outside.specs.Disk.{last_of};
ghost use Rattle.cd_memory.specs.MemoryDisk.{state_of};

use crate::closing::{close_disk, close_files, close_sink, close_source};
use cd_cli::{Status, run_node};
use cd_memory::{FaultScript, MemoryClock, MemoryDisk, MemoryFiles, MemorySink, MemorySource};
use cd_outside::{Beat, Sink, Source};
use cd_types::{Moment, NoMemory};
use std::alloc::Global;

/// A disk and files in memory, on which the node may run more than once.
#[derive(Drop)]
pub struct Machine {
    pub alloc: Global,
    pub disk: MemoryDisk,
    pub files: MemoryFiles,
    pub beat: Beat,
    ghost order: { last_of (state_of disk).calls ≤ beat },
}

/// How a run ended, and what it wrote.
#[derive(Drop)]
pub struct Ran {
    pub status: Status,
    pub out: MemorySink,
}

impl Ran {
    /// Nobody needs it afterwards.
    pub fn close(self) {
        close_sink(self.out);
    }
}

/// No call of the device fails by it.
pub fn quiet(alloc: Global) -> FaultScript {
    FaultScript::new(Vec::new(alloc))
}

impl Machine {
    /// With these bytes on its disk.
    pub fn new(alloc: Global, bytes: &[u8]) -> Result<Self, NoMemory> {
        let Ok(files) = MemoryFiles::new(alloc, quiet(alloc)) else {
            return Err(NoMemory);
        };
        let Ok(mut disk) = MemoryDisk::new(alloc, quiet(alloc)) else {
            close_files(files);
            return Err(NoMemory);
        };
        match disk.put(bytes) {
            Ok(()) => Ok(Machine {
                alloc,
                disk,
                files,
                beat: Beat::new(),
            }),
            Err(fault) => {
                close_disk(disk);
                close_files(files);
                Err(fault)
            }
        }
    }

    /// Nobody needs it afterwards.
    pub fn close(self) {
        drop(self);
    }

    /// The bytes on the disk.
    pub fn bytes(&self) -> &[u8] {
        self.disk.bytes()
    }

    /// Puts a file with these bytes.
    pub fn put(&mut self, name: &[u8], bytes: &[u8]) -> Result<(), NoMemory> {
        self.files.put(name, bytes)
    }

    /// Puts a line behind what the file of this name holds.
    pub fn put_line(&mut self, name: &[u8], line: &[u8]) -> Result<(), NoMemory> {
        let mut bytes = Vec::new(self.alloc);
        if let Some(held) = self.files.get(name) {
            bytes.extend_from_slice(held)?;
        }
        bytes.extend_from_slice(line)?;
        bytes.push(b'\n')?;
        self.files.put(name, &bytes)
    }

    /// The k-th next call of the files fails.
    pub fn fail_files(&mut self, k: u64) -> Result<(), NoMemory> {
        self.files.fail(k)
    }

    /// Runs the node on this input and output, at the moment 1,709,287,200.
    pub fn serve<S: Source, O: Sink>(
        &mut self,
        words: &[&str],
        input: &mut S,
        out: &mut O,
    ) -> Result<Status, NoMemory> {
        let mut clock = MemoryClock::new(self.alloc, quiet(self.alloc))?;
        if let Some(moment) = Moment::new(1_709_287_200) {
            clock.set(moment);
        }
        Ok(run_node(
            self.alloc,
            words,
            &mut self.disk,
            &mut self.files,
            &mut clock,
            input,
            out,
            &mut self.beat,
        ))
    }

    /// Runs the node on this input, over an output whose calls of these numbers fail.
    pub fn answer<S: Source>(
        &mut self,
        words: &[&str],
        input: &mut S,
        script: FaultScript,
    ) -> Result<Ran, NoMemory> {
        let Ok(mut out) = MemorySink::new(self.alloc, script) else {
            return Err(NoMemory);
        };
        match self.serve(words, input, &mut out) {
            Ok(status) => Ok(Ran { status, out }),
            Err(fault) => {
                close_sink(out);
                Err(fault)
            }
        }
    }

    /// Runs the node on these commands.
    pub fn run(&mut self, commands: &[u8]) -> Result<Ran, NoMemory> {
        let Ok(mut input) = MemorySource::new(self.alloc, quiet(self.alloc)) else {
            return Err(NoMemory);
        };
        let ran = match input.feed(commands) {
            Ok(()) => self.answer(&[], &mut input, quiet(self.alloc)),
            Err(fault) => Err(fault),
        };
        close_source(input);
        ran
    }
}
