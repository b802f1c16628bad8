//! What is asked of the files. It changes nothing.
ghost use Rattle.std.specs.Prelude.{◌≡◌, ◌≤◌, Err, length, take, drop, IfOk, IfErr, OnOk, OnErr};
ghost use Rattle.std.specs.Option.{option_map};
ghost use Rattle.cd_outside.specs.Counts.{Rose};
ghost use Rattle.cd_outside.specs.Shelf.{content_of};
ghost use Rattle.cd_effects.specs.Stands.{IsFaultOfAsking};

use crate::Fault;
use cd_outside::Files;

/// The length of a file; `None` where there is no such file. `Files` only where the count of the files rose; there is no
/// other fault.
pub fn ask_size<F: Files>(files: &mut F, name: &[u8]) -> Result<Option<u64>, Fault>
    ensures size { F.observable → IfOk result (λ size. size ≡ option_map length ((F.state files.old).shelf.seen name.now)) }
    ensures same { F.observable → F.state files.new ≡ F.state files.old }
    ensures fault { IfErr result (λ fault. fault ≡ Fault.Files) }
    ensures later { F.faults files.old ≤ F.faults files.new }
    ensures cause { OnErr result (Rose (F.faults files.old) (F.faults files.new)) }
{
    match files.size(name) {
        Ok(size) => Ok(size),
        Err(_) => Err(Fault::Files),
    }
}

/// Puts bytes of a file into the vector in place of what it held: from a place on so many, fewer only at the file's end. A
/// missing file gives none. `Files` only where the count of the files rose; else memory ran out. After a fault nothing is
/// said of what the vector holds.
pub fn ask_bytes<F: Files>(
    files: &mut F,
    name: &[u8],
    at: u64,
    len: u32,
    into: &mut Vec<u8>,
) -> Result<(), Fault>
    ensures bytes { F.observable → OnOk result (into.new.items ≡ take len (drop at (content_of ((F.state files.old).shelf.seen name.now)))) }
    ensures within { OnOk result (length into.new.items ≤ len) }
    ensures same { F.observable → F.state files.new ≡ F.state files.old }
    ensures fault { IfErr result IsFaultOfAsking }
    ensures later { F.faults files.old ≤ F.faults files.new }
    ensures cause { result ≡ Err Fault.Files → Rose (F.faults files.old) (F.faults files.new) }
{
    into.clear();
    match into.resize(len as usize, 0) {
        Ok(()) => {}
        Err(_) => return Err(Fault::NoMemory),
    }
    match files.read(name, at, into.as_mut_slice()) {
        Ok(count) => {
            into.truncate(count);
            Ok(())
        }
        Err(_) => Err(Fault::Files),
    }
}
