// Reads bytes of the disk.
ghost use Rattle.std.specs.Prelude.{◌≡◌, ◌+◌, ◌≤◌, length, take, drop, OnOk};
ghost use Rattle.cd_outside.specs.Counts.{Rose};
ghost use Rattle.cd_journal.specs.Fault.{OnDisk, IfFull, IfUnfit};

use crate::JournalFault;
use cd_outside::Disk;

/// Puts as many bytes of the disk, from a place on, into the vector in place of what it held.
pub fn read_into<P: Disk>(
    disk: &mut P,
    at: u64,
    len: usize,
    into: &mut Vec<u8>,
) -> Result<(), JournalFault>
    requires { P.observable → at + len ≤ length (P.state disk.old).seen }
    ensures bytes { P.observable → OnOk result (into.new.items ≡ take len (drop at (P.state disk.old).seen)) }
    ensures len { OnOk result (length into.new.items ≡ len) }
    ensures same { P.observable → P.state disk.new ≡ P.state disk.old }
    ensures cause { OnDisk result (Rose (P.faults disk.old) (P.faults disk.new)) }
    ensures full { IfFull result (λ _. ⊥) }
    ensures unfit { IfUnfit result (λ _. ⊥) }
    ensures later { P.faults disk.old ≤ P.faults disk.new }
{
    into.clear();
    into.resize(len, 0)?;
    disk.read(at, into.as_mut_slice())?;
    Ok(())
}
