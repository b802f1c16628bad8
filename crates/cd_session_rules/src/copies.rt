//! Copies of what a phase owns.
ghost use Rattle.std.specs.Prelude.{◌≡◌, IfOk};

use cd_protocol::{Announced, Source};
use cd_types::{Bytes, NoMemory, Receiving};
use std::alloc::Global;

/// A copy of a name.
pub fn copy_name(alloc: Global, name: &Bytes) -> Result<Bytes, NoMemory>
    ensures { IfOk result (λ copy. copy ≡ name.now) }
{
    let copy = Bytes::copy_of(alloc, name.as_slice())?;
    Ok(copy)
}

/// A copy of a source.
pub fn copy_source(alloc: Global, source: &Source) -> Result<Source, NoMemory>
    ensures { IfOk result (λ copy. copy ≡ source.now) }
{
    let name = copy_name(alloc, &source.name)?;
    Ok(Source {
        name,
        length: source.length,
        interval: source.interval,
    })
}

/// A copy of what is announced of a file.
pub fn copy_announced(alloc: Global, announced: &Announced) -> Result<Announced, NoMemory>
    ensures { IfOk result (λ copy. copy ≡ announced.now) }
{
    let name = copy_name(alloc, &announced.name)?;
    Ok(Announced {
        name,
        disp: announced.disp,
        interval: announced.interval,
        length: announced.length,
    })
}

/// The receiving of another length.
pub fn resized(alloc: Global, receiving: &Receiving, length: u64) -> Result<Receiving, NoMemory>
    ensures { IfOk result (λ copy. copy ≡ record receiving.now { length = length }) }
{
    let name = copy_name(alloc, &receiving.name)?;
    Ok(Receiving {
        key: receiving.key,
        name,
        disp: receiving.disp,
        there: receiving.there,
        base: receiving.base,
        length,
        interval: receiving.interval,
    })
}
