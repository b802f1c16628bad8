ghost use Rattle.std.specs.Prelude.{◌≡◌, ◌++◌, [], ◌∷◌, map, slice_index_or, OnOk, OnErr};
ghost use Rattle.cd_outside.specs.declared.spawner.Outcome.TheVariants as outcome;
ghost use Rattle.cd_memory.specs.Children.{child_by, child_of};

use cd_outside::Outcome;
use cd_types::NoMemory;
use std::alloc::Global;

/// How a command was begun.
#[derive(Clone, Copy, Debug)]
pub enum Way {
    /// It was run to its end, with this outcome.
    Run(Outcome),
    /// It was only started.
    Start,
}

/// A command that was begun.
#[derive(Drop)]
pub struct Begun {
    pub command: Vec<u8>,
    pub way: Way,
}

/// The outcome of the next call, where so many are used up.
pub fn next_outcome(outcomes: &[Outcome], used: usize) -> Outcome
    ensures { result ≡ slice_index_or outcomes.now used (outcome.Exit 0) }
{
    if used < outcomes.len() {
        outcomes[used]
    } else {
        Outcome::Exit(0)
    }
}

/// Keeps a command that was begun.
pub fn keep(alloc: Global, begun: &mut Vec<Begun>, command: &[u8], way: Way) -> Result<(), NoMemory>
    ensures kept { OnOk result (map child_of begun.new.items ≡ map child_of begun.old.items ++ child_by way command.now ∷ []) }
    ensures same { OnErr result (begun.new.items ≡ begun.old.items) }
{
    let command = Vec::from_slice(alloc, command)?;
    begun.push(Begun { command, way })?;
    Ok(())
}
