ghost use Rattle.std.specs.Prelude.{◌≡◌, ◌+◌, ◌≤◌, ◌<◌, ℕ, length, take, drop, IfOk, OnOk, OnErr};
ghost use Rattle.cd_outside.specs.Counts.{next, Rose};
ghost use Rattle.cd_outside.specs.Doubt.{IsImage};
ghost use Rattle.cd_outside.specs.Disk.{DiskState, Write, Cut, Sync, last_of, did, WasCutOff};

use crate::{Beat, Failed};

/// The bytes of one file, as a journal needs them. Between two syncs a crash may leave any bytes in each range that was
/// written, and past the least length since; it leaves any length between the least and the greatest.
///
/// Each changing call raises the beat by one. At the greatest beat it changes nothing and fails.
pub trait Disk {
    /// It tells its content.
    ghost observable: { Type 0 };

    /// What it tells: what a read gives, and what a crash may leave at each beat.
    ghost state: { Self → DiskState };

    /// How often it has failed, up to the greatest u64.
    ghost faults: { Self → ℕ };

    /// The length in bytes.
    fn len(&mut self) -> Result<u64, Failed>
        ensures same { observable → state self.new ≡ state self.old }
        ensures length { observable → IfOk result (λ n. n ≡ length (state self.old).seen) }
        ensures later { faults self.old ≤ faults self.new }
        ensures cause { OnErr result (Rose (faults self.old) (faults self.new)) };

    /// Reads as many bytes as the buffer has, from a place on.
    fn read(&mut self, at: u64, into: &mut [u8]) -> Result<(), Failed>
        requires { observable → at + length into.old ≤ length (state self.old).seen }
        ensures same { observable → state self.new ≡ state self.old }
        ensures bytes { observable → OnOk result (into.new ≡ take (length into.old) (drop at (state self.old).seen)) }
        ensures later { faults self.old ≤ faults self.new }
        ensures cause { OnErr result (Rose (faults self.old) (faults self.new)) };

    /// Writes over what is there, and past the end.
    fn write_at(&mut self, at: u64, bytes: &[u8], beat: &mut Beat) -> Result<(), Failed>
        requires range { observable → at ≤ length (state self.old).seen }
        requires order { observable → last_of (state self.old).calls ≤ beat.old }
        ensures done { observable → OnOk result (state self.new ≡ did (Write at bytes.now) beat.new (state self.old)) }
        ensures cut_off { observable → OnErr result (WasCutOff (Write at bytes.now) beat.old beat.new (state self.old) (state self.new)) }
        ensures order { observable → last_of (state self.new).calls ≤ beat.new }
        ensures beat { beat.new ≡ next beat.old }
        ensures forward { beat.old ≤ beat.new }
        ensures raised { OnOk result (beat.old < beat.new) }
        ensures later { faults self.old ≤ faults self.new }
        ensures cause { OnErr result (Rose (faults self.old) (faults self.new)) };

    /// Cuts to a length, or makes longer by zeros.
    fn cut(&mut self, len: u64, beat: &mut Beat) -> Result<(), Failed>
        requires { observable → last_of (state self.old).calls ≤ beat.old }
        ensures done { observable → OnOk result (state self.new ≡ did (Cut len) beat.new (state self.old)) }
        ensures cut_off { observable → OnErr result (WasCutOff (Cut len) beat.old beat.new (state self.old) (state self.new)) }
        ensures order { observable → last_of (state self.new).calls ≤ beat.new }
        ensures beat { beat.new ≡ next beat.old }
        ensures forward { beat.old ≤ beat.new }
        ensures raised { OnOk result (beat.old < beat.new) }
        ensures later { faults self.old ≤ faults self.new }
        ensures cause { OnErr result (Rose (faults self.old) (faults self.new)) };

    /// After it a crash leaves what a read gives. Where it fails, nothing was changed.
    fn sync(&mut self, beat: &mut Beat) -> Result<(), Failed>
        requires { observable → last_of (state self.old).calls ≤ beat.old }
        ensures done { observable → OnOk result (state self.new ≡ did Sync beat.new (state self.old)) }
        ensures same { observable → OnErr result (state self.new ≡ state self.old) }
        ensures order { observable → last_of (state self.new).calls ≤ beat.new }
        ensures beat { beat.new ≡ next beat.old }
        ensures forward { beat.old ≤ beat.new }
        ensures raised { OnOk result (beat.old < beat.new) }
        ensures later { faults self.old ≤ faults self.new }
        ensures cause { OnErr result (Rose (faults self.old) (faults self.new)) };

    /// What a read gives is one of the contents that a crash now may leave.
    ghost seen_is_image: { (disk : Self) → observable → IsImage (state disk).doubt (state disk).seen };
}
