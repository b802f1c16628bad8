//! A look at a file.
ghost use Rattle.std.specs.Prelude.{◌≡◌, ◌≤◌, length, take, drop, Some, IfOk};
ghost use Rattle.std.specs.Option.{option_map};
ghost use Rattle.cd_outside.specs.Counts.{Rose};
ghost use Rattle.cd_outside.specs.Shelf.{content_of};
ghost use Rattle.cd_submission.specs.Shown.{show, IsShown};

use cd_outside::Files;
use cd_types::{Bytes, NoMemory};
use std::alloc::Global;

/// The most bytes that the text of a Process may have.
const LONGEST: u64 = 65_536;

/// What a command is shown of the file for which it asks: a Process's text, or what a drill of a script came to.
#[derive(Debug, Drop)]
pub enum Shown {
    /// There is no such file.
    Missing,
    /// The files failed.
    Failed,
    /// It has so many bytes, which are more than a Process's text may have.
    Long(u64),
    /// Its text.
    Text(Bytes),
    /// It is a script, and a drill of it reports this.
    Report(Bytes),
    /// It is no script: its line that begins at this place asks for nothing.
    NoScript(u64),
}

/// Looks at a file in which a Process stands: asks its length, and where there is one reads it in one call, of which no more is kept than a Process's text
/// may have. The files are changed in nothing, and have failed only where their count rose.
pub fn look<F: Files>(alloc: Global, files: &mut F, name: &[u8]) -> Result<Shown, NoMemory>
    ensures shown { F.observable → IfOk result (λ shown. IsShown ((F.state files.old).shelf.seen name.now) shown) }
    ensures failed { IfOk result (λ shown. shown ≡ Shown.Failed → Rose (F.faults files.old) (F.faults files.new)) }
    ensures same { F.observable → F.state files.new ≡ F.state files.old }
    ensures later { F.faults files.old ≤ F.faults files.new }
{
    match files.size(name) {
        Ok(Some(len)) => match read(alloc, files, name, len) {
            Ok(shown) => Ok(shown),
            Err(fault) => Err(fault),
        },
        Ok(None) => Ok(Shown::Missing),
        Err(_) => Ok(Shown::Failed),
    }
}

// Reads a file of that length.
fn read<F: Files>(alloc: Global, files: &mut F, name: &[u8], len: u64) -> Result<Shown, NoMemory>
    requires len { F.observable → option_map length ((F.state files.old).shelf.seen name.now) ≡ Some len }
    ensures shown { F.observable → IfOk result (λ shown. IsShown ((F.state files.old).shelf.seen name.now) shown) }
    ensures failed { IfOk result (λ shown. shown ≡ Shown.Failed → Rose (F.faults files.old) (F.faults files.new)) }
    ensures same { F.observable → F.state files.new ≡ F.state files.old }
    ensures later { F.faults files.old ≤ F.faults files.new }
{
    let room = len.min(LONGEST + 1) as usize;
    let mut text = vec![in alloc; 0; room]?;
    match files.read(name, 0, text.as_mut_slice()) {
        Ok(_) if len > LONGEST => Ok(Shown::Long(len)),
        Ok(count) => {
            text.truncate(count);
            Ok(Shown::Text(Bytes::new(text)))
        }
        Err(_) => Ok(Shown::Failed),
    }
}
