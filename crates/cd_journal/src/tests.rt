// Worked bytes, stops within an append, and first places that aren't a journal's, over a disk that tells nothing.
ghost use Rattle.std.specs.Prelude.{◌≡◌, ◌≤◌, ◌<◌, []};
ghost use Rattle.std.specs.Bool.{OnTrue};
ghost use Rattle.cd_outside.specs.Counts.{next, Rose};
ghost use Rattle.cd_outside.specs.Doubt.{settled};

use super::*;
use cd_outside::{Beat, Disk, Failed};
use std::alloc::{AllocError, Global};
use std::test::Fail;

// Bytes in memory, and those at the last sync. The changing call of the number `stop`, counted from 1, is under way at
// a stop: a write is done, a sync isn't, and each later call fails. The number 0 stops nothing.
#[derive(Drop)]
struct TestDisk {
    alloc: Global,
    seen: Vec<u8>,
    synced: Vec<u8>,
    calls: u64,
    stop: u64,
    faults: u64,
}

impl TestDisk {
    fn new(alloc: Global, bytes: &[u8]) -> Result<Self, AllocError> {
        Ok(TestDisk {
            alloc,
            seen: bytes.to_vec(alloc)?,
            synced: bytes.to_vec(alloc)?,
            calls: 0,
            stop: 0,
            faults: 0,
        })
    }

    // Stops within the changing call of this number from now on.
    fn stop_within(&mut self, call: u64) {
        self.stop = self.calls.saturating_add(call);
    }

    // Image 0 is what the last sync left, image 1 what a read gives.
    fn crash(&mut self, image: u64) -> Result<(), AllocError> {
        if image == 0 {
            self.seen = self.synced.to_vec(self.alloc)?;
        } else {
            self.synced = self.seen.to_vec(self.alloc)?;
        }
        self.stop = 0;
        Ok(())
    }
}

// The fault is counted.
fn fault(faults: &mut u64) -> Failed
    ensures rose { Rose faults.old faults.new }
    ensures later { faults.old ≤ faults.new }
{
    *faults = faults.saturating_add(1);
    Failed
}

// Raises the beat, and counts a changing call; `true` where it may be made, since no call before it stopped.
fn begin(beat: &mut Beat, calls: &mut u64, stop: u64) -> bool
    ensures beat { beat.new ≡ next beat.old }
    ensures forward { beat.old ≤ beat.new }
    ensures raised { OnTrue result (beat.old < beat.new) }
{
    let _at = beat.at();
    *calls = calls.saturating_add(1);
    beat.raise() && (stop == 0 || *calls <= stop)
}

fn overwrite(seen: &mut Vec<u8>, at: usize, bytes: &[u8]) -> Result<(), AllocError> {
    let mut place = at;
    for byte in bytes {
        if place < seen.len() {
            seen[place] = *byte;
        } else {
            seen.push(*byte)?;
        }
        place = place.saturating_add(1);
    }
    Ok(())
}

impl Disk for TestDisk {
    ghost observable = { ⊥ };

    ghost state = { λ _. record { seen = []; doubt = settled []; calls = [] } };

    ghost faults = { λ disk. disk.faults };

    ghost seen_is_image = { λ _ told. absurd told };

    fn len(&mut self) -> Result<u64, Failed> {
        Ok(self.seen.len() as u64)
    }

    fn read(&mut self, at: u64, into: &mut [u8]) -> Result<(), Failed> {
        let at = at as usize;
        if at > self.seen.len() || into.len() > self.seen.len() - at {
            return Err(fault(&mut self.faults));
        }
        into.copy_from_slice(&self.seen[at..at + into.len()]);
        Ok(())
    }

    fn write_at(&mut self, at: u64, bytes: &[u8], beat: &mut Beat) -> Result<(), Failed> {
        if !begin(beat, &mut self.calls, self.stop) {
            return Err(fault(&mut self.faults));
        }
        match overwrite(&mut self.seen, at as usize, bytes) {
            Ok(()) if self.calls != self.stop => Ok(()),
            _ => Err(fault(&mut self.faults)),
        }
    }

    fn cut(&mut self, _len: u64, beat: &mut Beat) -> Result<(), Failed> {
        let _raised = begin(beat, &mut self.calls, self.stop);
        Err(fault(&mut self.faults))
    }

    fn sync(&mut self, beat: &mut Beat) -> Result<(), Failed> {
        if !begin(beat, &mut self.calls, self.stop) {
            return Err(fault(&mut self.faults));
        }
        match self.seen.to_vec(self.alloc) {
            Ok(bytes) if self.calls != self.stop => {
                self.synced = bytes;
                Ok(())
            }
            _ => Err(fault(&mut self.faults)),
        }
    }
}

// The body of the first entry of a home ALPHA with the identity 17, and the journal that has it alone.
const HOME: [u8; 15] = [1, 5, 65, 76, 80, 72, 65, 0, 0, 0, 0, 0, 0, 0, 17];

const WITH_HOME: [u8; 29] = [
    67, 68, 78, 79, 68, 69, 48, 49, 1, 0, 0, 0, 15, 1, 5, 65, 76, 80, 72, 65, 0, 0, 0, 0, 0, 0, 0,
    17, 0,
];

#[test]
fn an_entry_is_added_and_read_back(rt: HostRuntime) -> Result<(), Fail> {
    let alloc = rt.alloc();
    let mut disk = TestDisk::new(alloc, &[])?;
    let mut beat = Beat::new();
    let blank = Journal::open(alloc, &mut disk, &mut beat)?;
    assert!(rt; !blank.has_header());
    assert_eq!(rt; blank.count(), 0);
    Journal::create(&mut disk, &mut beat)?;
    let mut journal = Journal::open(alloc, &mut disk, &mut beat)?;
    assert!(rt; journal.has_header());
    journal.reserve(1, 15)?;
    journal.append(&mut disk, &HOME, &mut beat)?;
    assert_eq!(rt; disk.seen.as_slice(), WITH_HOME.as_slice());
    assert_eq!(rt; journal.count(), 1);
    let mut body = Vec::new(alloc);
    journal.entry(&mut disk, 0, &mut body)?;
    assert_eq!(rt; body.as_slice(), HOME.as_slice());
    Ok(())
}

#[test]
fn the_first_unfit_place_is_told(rt: HostRuntime) -> Result<(), Fail> {
    let alloc = rt.alloc();
    let table: [(&[u8], u64); 8] = [
        (b"CDN", 3),
        (b"CDNODE01", 8),
        (b"CDnODE01\x00", 2),
        (b"CDNODE01\x01", 9),
        (b"CDNODE01\x01\x00\x00\x00\x00\x07\x00", 9),
        (b"CDNODE01\x01\x00\x04\x00\x01\x07\x00", 9),
        (b"CDNODE01\x01\x00\x00\x00\x02\x07", 9),
        (b"CDNODE01\x01\x00\x00\x00\x01\x07", 14),
    ];
    for (bytes, place) in table {
        let mut disk = TestDisk::new(alloc, bytes)?;
        let mut beat = Beat::new();
        match Journal::open(alloc, &mut disk, &mut beat) {
            Err(JournalFault::Unfit(at)) => assert_eq!(rt; at, place),
            _ => panic!(rt; "no place for {place}"),
        }
    }
    Ok(())
}

// The entry behind the first has one byte, at the place 33: whether it is an entry is judged above.
#[test]
fn any_body_is_read(rt: HostRuntime) -> Result<(), Fail> {
    let alloc = rt.alloc();
    let mut bytes = WITH_HOME[..28].to_vec(alloc)?;
    bytes.extend_from_slice(&[1, 0, 0, 0, 1, 0xee, 0])?;
    let mut disk = TestDisk::new(alloc, &bytes)?;
    let mut beat = Beat::new();
    let mut journal = Journal::open(alloc, &mut disk, &mut beat)?;
    assert_eq!(rt; journal.count(), 2);
    let mut body = Vec::new(alloc);
    journal.entry(&mut disk, 1, &mut body)?;
    assert_eq!(rt; body.as_slice(), [0xee].as_slice());
    assert_eq!(rt; disk.seen.as_slice(), bytes.as_slice());
    Ok(())
}

// Stopped within each of the four changing calls of an append.
#[test]
fn a_stop_leaves_the_entry_whole_or_not_there(rt: HostRuntime) -> Result<(), Fail> {
    let alloc = rt.alloc();
    let table = [
        (1, 0, 1),
        (1, 1, 1),
        (2, 0, 1),
        (2, 1, 1),
        (3, 0, 1),
        (3, 1, 2),
        (4, 0, 1),
        (4, 1, 2),
    ];
    for (call, image, count) in table {
        let mut disk = TestDisk::new(alloc, &WITH_HOME)?;
        let mut beat = Beat::new();
        let mut journal = Journal::open(alloc, &mut disk, &mut beat)?;
        assert!(rt; journal.has_header());
        disk.stop_within(call);
        let answer = journal.append(&mut disk, &[2, 3], &mut beat);
        assert!(rt; answer.is_err());
        assert!(rt; !journal.is_sound());
        disk.crash(image)?;
        let again = Journal::open(alloc, &mut disk, &mut beat)?;
        assert_eq!(rt; again.count(), count, "call {call}, image {image}");
    }
    Ok(())
}
