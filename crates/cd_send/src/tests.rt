//! Pieces that were worked by hand, over files that tell nothing.
ghost use Rattle.std.specs.Prelude.{◌≡◌, ◌≤◌, None};
ghost use Rattle.cd_outside.specs.Counts.{next, Rose};
ghost use Rattle.cd_outside.specs.Files.{files_at_first};

use crate::{Piece, SendFault, Sender};
use cd_outside::{Beat, Failed, Files};
use std::test::Fail;

/// One file of this length, whatever its bytes are. It can't be changed.
#[derive(Drop)]
struct Given {
    len: u64,
    fails: bool,
    faults: u64,
}

/// The fault is counted.
fn fault(faults: &mut u64) -> Failed
    ensures rose { Rose faults.old faults.new }
    ensures later { faults.old ≤ faults.new }
{
    *faults = faults.saturating_add(1);
    Failed
}

/// Raises the beat for a call that fails.
fn begin(beat: &mut Beat)
    ensures beat { beat.new ≡ next beat.old }
    ensures forward { beat.old ≤ beat.new }
{
    let _at = beat.at();
    let _raised = beat.raise();
}

impl Files for Given {
    ghost observable = { ⊥ };

    ghost state = { λ _. files_at_first (λ _. None) };

    ghost faults = { λ files. files.faults };

    ghost counted = { ⊥ };

    ghost calls = { λ _. 0 };

    ghost seen_is_image = { λ _ _ told. absurd told };

    fn size(&mut self, _name: &[u8]) -> Result<Option<u64>, Failed> {
        Ok(Some(self.len))
    }

    fn read(&mut self, _name: &[u8], at: u64, into: &mut [u8]) -> Result<usize, Failed> {
        if self.fails {
            return Err(fault(&mut self.faults));
        }
        let left = self.len.saturating_sub(at);
        Ok(left.min(into.len() as u64) as usize)
    }

    fn write_at(
        &mut self,
        _name: &[u8],
        _at: u64,
        _bytes: &[u8],
        beat: &mut Beat,
    ) -> Result<(), Failed> {
        begin(beat);
        Err(fault(&mut self.faults))
    }

    fn cut(&mut self, _name: &[u8], _len: u64, beat: &mut Beat) -> Result<(), Failed> {
        begin(beat);
        Err(fault(&mut self.faults))
    }

    fn sync(&mut self, _name: &[u8], beat: &mut Beat) -> Result<(), Failed> {
        begin(beat);
        Err(fault(&mut self.faults))
    }

    fn remove(&mut self, _name: &[u8], beat: &mut Beat) -> Result<(), Failed> {
        begin(beat);
        Err(fault(&mut self.faults))
    }
}

#[test]
fn a_file_goes_in_blocks_up_to_each_mark(rt: HostRuntime) -> Result<(), Fail> {
    let mut files = Given {
        len: 2500,
        fails: false,
        faults: 0,
    };
    let mut buffer = [0u8; 1024];
    let mut sender = Sender::start(2500, 0, 1024, 1500);
    assert!(rt; sender.next_piece(&mut files, b"a", &mut buffer) == Ok(Piece::Bytes(0, 1024)));
    assert!(rt; sender.next_piece(&mut files, b"a", &mut buffer) == Ok(Piece::Bytes(1024, 476)));
    assert!(rt; sender.next_piece(&mut files, b"a", &mut buffer) == Ok(Piece::Bytes(1500, 1000)));
    assert!(rt; sender.next_piece(&mut files, b"a", &mut buffer) == Ok(Piece::AllSent));
    assert!(rt; !sender.acked(1500));
    assert!(rt; sender.acked(1024));
    assert!(rt; !sender.acked(1024));
    assert!(rt; sender.acked(1500));
    assert!(rt; sender.acked(2500));
    assert!(rt; !sender.acked(2500));
    Ok(())
}

#[test]
fn a_source_that_ends_early_is_short(rt: HostRuntime) -> Result<(), Fail> {
    let mut files = Given {
        len: 2000,
        fails: false,
        faults: 0,
    };
    let mut buffer = [0u8; 1024];
    let mut sender = Sender::start(2500, 0, 1024, 2048);
    assert!(rt; sender.next_piece(&mut files, b"a", &mut buffer) == Ok(Piece::Bytes(0, 1024)));
    assert!(rt; sender.next_piece(&mut files, b"a", &mut buffer) == Err(SendFault::Short(1024)));
    files.fails = true;
    assert!(rt; sender.next_piece(&mut files, b"a", &mut buffer) == Err(SendFault::Files));
    Ok(())
}
