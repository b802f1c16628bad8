//! What a phase tells.
ghost use Rattle.std.specs.Prelude.{◌≡◌, IfOk};
ghost use Rattle.cd_protocol.specs.Closing.{own_number, key_under_way};

use crate::copies::copy_source;
use cd_protocol::{Phase, Source};
use cd_types::{Key, NoMemory, ProcNo, Side};
use std::alloc::Global;

/// The Process of a session of the PNODE.
pub fn own_number(phase: &Phase) -> Option<ProcNo>
    ensures { result ≡ own_number phase.now }
{
    match phase {
        Phase::Gone => None,
        Phase::Greet(number) => Some(*number),
        Phase::Await(_, key, _) => Some(key.number),
        Phase::Ask(_, key) => Some(key.number),
        Phase::Fresh => None,
        Phase::Ready(_, _) => None,
        Phase::Offer(_, _, _) => None,
        Phase::Send(Side::Pnode, _, key, _, _) => Some(key.number),
        Phase::Send(Side::Snode, _, _, _, _) => None,
        Phase::Take(Side::Pnode, _, key, _) => Some(key.number),
        Phase::Take(Side::Snode, _, _, _) => None,
    }
}

/// The key under way: that of the last step.
pub fn key_under_way(phase: &Phase) -> Option<Key>
    ensures { result ≡ key_under_way phase.now }
{
    match phase {
        Phase::Gone => None,
        Phase::Greet(_) => None,
        Phase::Await(_, key, _) => Some(*key),
        Phase::Ask(_, key) => Some(*key),
        Phase::Fresh => None,
        Phase::Ready(_, key) => *key,
        Phase::Offer(_, key, _) => Some(*key),
        Phase::Send(_, _, key, _, _) => Some(*key),
        Phase::Take(_, _, key, _) => Some(*key),
    }
}

fn copy_optional(alloc: Global, source: &Option<Source>) -> Result<Option<Source>, NoMemory>
    ensures { IfOk result (λ copy. copy ≡ source.now) }
{
    match source {
        None => Ok(None),
        Some(source) => {
            let copy = copy_source(alloc, source)?;
            Ok(Some(copy))
        }
    }
}

/// A copy of a phase.
pub fn copy_phase(alloc: Global, phase: &Phase) -> Result<Phase, NoMemory>
    ensures { IfOk result (λ copy. copy ≡ phase.now) }
{
    match phase {
        Phase::Gone => Ok(Phase::Gone),
        Phase::Greet(number) => Ok(Phase::Greet(*number)),
        Phase::Await(terms, key, source) => {
            let source = copy_optional(alloc, source)?;
            Ok(Phase::Await(*terms, *key, source))
        }
        Phase::Ask(terms, key) => Ok(Phase::Ask(*terms, *key)),
        Phase::Fresh => Ok(Phase::Fresh),
        Phase::Ready(terms, key) => Ok(Phase::Ready(*terms, *key)),
        Phase::Offer(terms, key, source) => {
            let source = copy_source(alloc, source)?;
            Ok(Phase::Offer(*terms, *key, source))
        }
        Phase::Send(role, terms, key, source, awaited) => {
            let source = copy_source(alloc, source)?;
            Ok(Phase::Send(*role, *terms, *key, source, *awaited))
        }
        Phase::Take(role, terms, key, came) => Ok(Phase::Take(*role, *terms, *key, *came)),
    }
}
