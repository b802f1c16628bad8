// What each device in memory counts.
ghost use Rattle.std.specs.Prelude.{◌≡◌, ◌≤◌, ◌+◌, ◌++◌, [], ◌∷◌, ◌==◌, min, true, false, OnOk, OnErr};
ghost use Rattle.std.specs.List.{list_any};
ghost use Rattle.cd_outside.specs.Counts.{next};

use crate::FaultScript;
use cd_outside::Failed;
use cd_types::NoMemory;

/// The calls of a device, those that are to fail, and how many failed.
#[derive(Drop)]
pub struct Tally {
    pub script: FaultScript,
    pub calls: u64,
    pub faults: u64,
    pub starved: bool,
}

impl Tally {
    /// No calls so far.
    pub fn new(script: FaultScript) -> Self
        ensures script { result.script ≡ script }
        ensures calls { result.calls ≡ 0 }
        ensures faults { result.faults ≡ 0 }
        ensures fed { result.starved ≡ false }
    {
        Tally {
            script,
            calls: 0,
            faults: 0,
            starved: false,
        }
    }

    /// The k-th next call fails.
    pub fn fail(&mut self, k: u64) -> Result<(), NoMemory>
        ensures added { OnOk result (self.new.script ≡ self.old.script ++ min (self.old.calls + k) 18446744073709551615 ∷ []) }
        ensures same { OnErr result (self.new.script ≡ self.old.script) }
        ensures calls { self.new.calls ≡ self.old.calls }
        ensures faults { self.new.faults ≡ self.old.faults }
        ensures fed { self.new.starved ≡ self.old.starved }
    {
        self.script.add(self.calls.saturating_add(k))
    }

    /// Counts a call, and tells whether it is to fail.
    pub fn begin(&mut self) -> bool
        ensures fails { result ≡ list_any (λ n. n == next self.old.calls) self.old.script }
        ensures script { self.new.script ≡ self.old.script }
        ensures calls { self.new.calls ≡ next self.old.calls }
        ensures faults { self.new.faults ≡ self.old.faults }
        ensures fed { self.new.starved ≡ self.old.starved }
    {
        self.calls = self.calls.saturating_add(1);
        self.script.has(self.calls)
    }

    /// Counts a fault.
    pub fn failed(&mut self) -> Failed
        ensures script { self.new.script ≡ self.old.script }
        ensures calls { self.new.calls ≡ self.old.calls }
        ensures faults { self.new.faults ≡ next self.old.faults }
        ensures later { self.old.faults ≤ self.new.faults }
        ensures fed { self.new.starved ≡ self.old.starved }
    {
        self.faults = self.faults.saturating_add(1);
        Failed
    }

    /// Counts a fault for want of memory.
    pub fn starve(&mut self) -> Failed
        ensures script { self.new.script ≡ self.old.script }
        ensures calls { self.new.calls ≡ self.old.calls }
        ensures faults { self.new.faults ≡ next self.old.faults }
        ensures later { self.old.faults ≤ self.new.faults }
        ensures starved { self.new.starved ≡ true }
    {
        self.starved = true;
        self.failed()
    }
}
