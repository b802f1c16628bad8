//! What the tests ask of a machine.
use crate::closing::close_journal;
use crate::machine::{Machine, Ran};
use cd_cli::Status;
use cd_journal::Journal;
use std::process::Abort;
use std::test::Fail;

/// What stands on a disk.
#[derive(Drop)]
pub struct Kept {
    pub count: u32,
    pub last: Vec<u8>,
}

impl Machine {
    /// The k-th next call of the disk fails.
    pub fn fail(&mut self, k: u64) -> Result<(), Fail> {
        self.disk.fail(k)?;
        Ok(())
    }

    /// Stops within the k-th next changing call of the disk.
    pub fn stop_within(&mut self, k: u64) {
        self.disk.stop_at(self.beat.at().saturating_add(k));
    }

    /// The disk met the stop.
    pub fn stopped(&self) -> bool {
        self.disk.stopped()
    }

    /// The machine starts again, with this image of the disk.
    pub fn crash(&mut self, image: u64) {
        self.disk.crash(image);
    }

    /// The bytes of a file.
    pub fn file(&self, name: &[u8]) -> Option<&[u8]> {
        self.files.get(name)
    }

    /// Runs the node on these commands: it writes these lines. How it ended is told.
    pub fn says(&mut self, rt: &impl Abort, commands: &[u8], lines: &[u8]) -> Result<Status, Fail> {
        match self.run(commands) {
            Ok(ran) => Ok(is_said(rt, ran, lines)),
            Err(fault) => Err(Fail::from(fault)),
        }
    }

    /// Opens the journal, and reads its last entry.
    pub fn kept(&mut self, rt: &impl Abort) -> Result<Kept, Fail> {
        let mut journal = match Journal::open(self.alloc, &mut self.disk, &mut self.beat) {
            Ok(journal) => journal,
            Err(fault) => return Err(Fail::from(fault)),
        };
        let count = journal.count();
        assert!(rt; journal.has_header());
        assert!(rt; count > 0);
        let mut last = Vec::new(self.alloc);
        let read = journal.entry(&mut self.disk, count - 1, &mut last);
        close_journal(journal);
        read?;
        Ok(Kept { count, last })
    }
}

/// The run wrote these lines. How it ended is told.
pub fn is_said(rt: &impl Abort, ran: Ran, lines: &[u8]) -> Status {
    assert_eq!(rt; ran.out.bytes(), lines);
    let status = ran.status;
    ran.close();
    status
}
