ghost use Rattle.std.specs.Prelude.{◌≡◌, ◌++◌, [], ◌∷◌, ◌==◌, OnOk, OnErr};
ghost use Rattle.std.specs.List.{list_any};

use cd_types::NoMemory;
use std::marker::Model;

/// The calls of a device that fail, by their number, from 1 on. Contracts see the list of the numbers.
#[derive(Drop)]
pub struct FaultScript {
    calls: Vec<u64>,
}

impl Model for FaultScript {
    ghost use Rattle.std.specs.Prelude.{List, ℕ};

    ghost Value = { List ℕ };

    ghost view = { λ script. script.calls.items };
}

impl FaultScript {
    /// These calls fail.
    pub fn new(calls: Vec<u64>) -> Self
        ensures { result ≡ calls.items }
    {
        FaultScript { calls }
    }

    /// The call of that number fails.
    pub fn has(&self, call: u64) -> bool
        ensures { result ≡ list_any (λ n. n == call) self.now }
    {
        self.calls.iter().any(|n| *n == call)
    }

    /// The call of that number fails too.
    pub fn add(&mut self, call: u64) -> Result<(), NoMemory>
        ensures added { OnOk result (self.new ≡ self.old ++ call ∷ []) }
        ensures same { OnErr result (self.new ≡ self.old) }
    {
        self.calls.push(call)?;
        Ok(())
    }
}
