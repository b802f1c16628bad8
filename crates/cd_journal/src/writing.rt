// Writes an entry, in two steps of which each is on the disk before the next begins.
ghost use Rattle.std.specs.Prelude.{◌≡◌, ◌+◌, ◌<◌, ◌≤◌, length, OnOk, OnErr, vec_capacity};
ghost use Rattle.cd_outside.specs.Counts.{Rose};
ghost use Rattle.cd_outside.specs.Doubt.{settled};
ghost use Rattle.cd_outside.specs.Disk.{last_of, LeftAt};
ghost use Rattle.cd_outside.specs.Moments.{Moments};
ghost use Rattle.cd_outside.specs.Through.{IsSettledAs};
ghost use Rattle.cd_journal.specs.Journal.{entry_block};
ghost use Rattle.cd_journal.specs.Writing.{opened, IsTornEntry};

use byteorder::{BigEndian, ByteOrder};
use cd_outside::{Beat, Disk, Failed, write_through};
use std::alloc::AllocError;

/// Fills the buffer with what is written behind a closed gate: the body's length, the body and the next gate, closed.
#[tactic(auto, unfolding(crate::specs::Journal::entry_block))]
pub fn fill(block: &mut Vec<u8>, body: &[u8]) -> Result<(), AllocError>
    requires { length body.now ≤ 262144 }
    ensures block { OnOk result (block.new.items ≡ entry_block body.now) }
    ensures full { OnErr result (vec_capacity block.old < length body.now + 5) }
    ensures capacity { vec_capacity block.old ≤ vec_capacity block.new }
{
    let mut len = [0; 4];
    BigEndian::write_u32(&mut len, body.len() as u32);
    block.clear();
    block.extend_from_slice(&len)?;
    block.extend_from_slice(body)?;
    block.push(0)?;
    Ok(())
}

/// Writes a block behind the closed gate, and then opens the gate.
pub fn put<P: Disk>(disk: &mut P, gate: u32, block: &[u8], beat: &mut Beat) -> Result<(), Failed>
    requires range { P.observable → gate < length (P.state disk.old).seen }
    requires order { P.observable → last_of (P.state disk.old).calls ≤ beat.old }
    requires rests { P.observable → (P.state disk.old).doubt ≡ settled (P.state disk.old).seen }
    ensures done { P.observable → OnOk result (IsSettledAs (opened gate block.now (P.state disk.old).seen) (P.state disk.new)) }
    ensures moments { P.observable → Moments (LeftAt (P.state disk.old)) (LeftAt (P.state disk.new)) beat.old
        (IsTornEntry gate block.now (P.state disk.old).seen) }
    ensures order { P.observable → last_of (P.state disk.new).calls ≤ beat.new }
    ensures beat { beat.old ≤ beat.new }
    ensures later { P.faults disk.old ≤ P.faults disk.new }
    ensures cause { OnErr result (Rose (P.faults disk.old) (P.faults disk.new)) }
{
    write_through(disk, gate as u64 + 1, block, beat)?;
    write_through(disk, gate as u64, &[1], beat)?;
    Ok(())
}
