// Changes that are on the disk once they return.
ghost use Rattle.std.specs.Prelude.{◌≡◌, ◌≤◌, length, OnOk, OnErr};
ghost use Rattle.cd_outside.specs.Content.{overwritten};
ghost use Rattle.cd_outside.specs.Counts.{Rose};
ghost use Rattle.cd_outside.specs.Doubt.{IsImage, settled};
ghost use Rattle.cd_outside.specs.Disk.{last_of, LeftAt};
ghost use Rattle.cd_outside.specs.Moments.{Moments};
ghost use Rattle.cd_outside.specs.Through.{IsSettledAs, IsTorn};

use crate::{Beat, Disk, Failed};

/// Syncs. At `Ok` a crash leaves what a read gives.
pub fn sync_now<D: Disk>(disk: &mut D, beat: &mut Beat) -> Result<(), Failed>
    requires { D.observable → last_of (D.state disk.old).calls ≤ beat.old }
    ensures settled { D.observable → OnOk result (IsSettledAs (D.state disk.old).seen (D.state disk.new)) }
    ensures same { D.observable → OnErr result (D.state disk.new ≡ D.state disk.old) }
    ensures moments { D.observable → Moments (LeftAt (D.state disk.old)) (LeftAt (D.state disk.new)) beat.old (IsImage (D.state disk.old).doubt) }
    ensures order { D.observable → last_of (D.state disk.new).calls ≤ beat.new }
    ensures beat { beat.old ≤ beat.new }
    ensures later { D.faults disk.old ≤ D.faults disk.new }
    ensures cause { OnErr result (Rose (D.faults disk.old) (D.faults disk.new)) }
{
    disk.sync(beat)?;
    Ok(())
}

/// Writes and syncs. At `Ok` a crash leaves the new content. At each beat of the call it leaves the old content with any
/// bytes in the range, of a length between.
pub fn write_through<D: Disk>(
    disk: &mut D,
    at: u64,
    bytes: &[u8],
    beat: &mut Beat,
) -> Result<(), Failed>
    requires range { D.observable → at ≤ length (D.state disk.old).seen }
    requires order { D.observable → last_of (D.state disk.old).calls ≤ beat.old }
    requires settled { D.observable → (D.state disk.old).doubt ≡ settled (D.state disk.old).seen }
    ensures settled { D.observable → OnOk result (IsSettledAs (overwritten at bytes.now (D.state disk.old).seen) (D.state disk.new)) }
    ensures moments { D.observable → Moments (LeftAt (D.state disk.old)) (LeftAt (D.state disk.new)) beat.old (IsTorn at (length bytes.now) (D.state disk.old).seen) }
    ensures order { D.observable → last_of (D.state disk.new).calls ≤ beat.new }
    ensures beat { beat.old ≤ beat.new }
    ensures later { D.faults disk.old ≤ D.faults disk.new }
    ensures cause { OnErr result (Rose (D.faults disk.old) (D.faults disk.new)) }
{
    disk.write_at(at, bytes, beat)?;
    disk.sync(beat)?;
    Ok(())
}
