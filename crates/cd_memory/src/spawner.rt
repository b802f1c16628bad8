ghost use Rattle.std.specs.Prelude.{◌≤◌, vec_len};

use crate::FaultScript;
use crate::begun::{Begun, Way, keep, next_outcome};
use crate::tally::Tally;
use cd_outside::{Failed, Outcome, Spawner};
use cd_types::NoMemory;
use std::alloc::Global;

/// A spawner in memory: it runs nothing, and answers the outcomes that were set.
#[derive(Drop)]
pub struct MemorySpawner {
    alloc: Global,
    begun: Vec<Begun>,
    outcomes: Vec<Outcome>,
    used: usize,
    tally: Tally,
    ghost within: { used ≤ vec_len outcomes },
}

impl MemorySpawner {
    ghost use Rattle.std.specs.Prelude.{◌≡◌, ◌+◌, ◌++◌, [], ◌∷◌, min, false, OnOk, OnErr, IfOk, option_map, slice_get};
    ghost use Rattle.cd_memory.specs.MemorySpawner.{children_of, spawner_script, spawner_calls, spawner_faults, is_spawner_starved, outcomes_of, used_of};

    /// A spawner that started nothing; the calls of these numbers fail.
    pub fn new(alloc: Global, script: FaultScript) -> Result<Self, NoMemory>
        ensures none { IfOk result (λ spawner. (children_of spawner ≡ []) × (outcomes_of spawner ≡ []) × (used_of spawner ≡ 0)) }
        ensures script { IfOk result (λ spawner. spawner_script spawner ≡ script) }
        ensures counts { IfOk result (λ spawner. (spawner_calls spawner ≡ 0) × (spawner_faults spawner ≡ 0) × (is_spawner_starved spawner ≡ false)) }
    {
        Ok(MemorySpawner {
            alloc,
            begun: Vec::new(alloc),
            outcomes: Vec::new(alloc),
            used: 0,
            tally: Tally::new(script),
        })
    }

    /// The k-th next call fails.
    pub fn fail(&mut self, k: u64) -> Result<(), NoMemory>
        ensures added { OnOk result (spawner_script self.new ≡ spawner_script self.old ++ min (spawner_calls self.old + k) 18446744073709551615 ∷ []) }
        ensures same { OnErr result (spawner_script self.new ≡ spawner_script self.old) }
        ensures others { (children_of self.new ≡ children_of self.old) × (outcomes_of self.new ≡ outcomes_of self.old) × (used_of self.new ≡ used_of self.old) × (spawner_calls self.new ≡ spawner_calls self.old) × (spawner_faults self.new ≡ spawner_faults self.old) × (is_spawner_starved self.new ≡ is_spawner_starved self.old) }
    {
        self.tally.fail(k)
    }

    /// The next call that has no outcome yet has this one. A call without one has exit status 0.
    pub fn next_outcome(&mut self, outcome: Outcome) -> Result<(), NoMemory>
        ensures added { OnOk result (outcomes_of self.new ≡ outcomes_of self.old ++ outcome ∷ []) }
        ensures same { OnErr result (outcomes_of self.new ≡ outcomes_of self.old) }
        ensures others { (children_of self.new ≡ children_of self.old) × (used_of self.new ≡ used_of self.old) × (spawner_script self.new ≡ spawner_script self.old) × (spawner_calls self.new ≡ spawner_calls self.old) × (spawner_faults self.new ≡ spawner_faults self.old) × (is_spawner_starved self.new ≡ is_spawner_starved self.old) }
    {
        self.outcomes.push(outcome)?;
        Ok(())
    }

    /// The i-th command that it started.
    pub fn started(&self, i: usize) -> Option<&[u8]>
        ensures { option_map (λ bytes. bytes.now) result ≡ option_map (λ begun. begun.command.items) (slice_get self.now.begun.items i) }
    {
        if i < self.begun.len() {
            Some(&self.begun[i].command)
        } else {
            None
        }
    }

    /// A call found no memory.
    pub fn starved(&self) -> bool
        ensures { result ≡ is_spawner_starved self.now }
    {
        self.tally.starved
    }
}

impl Spawner for MemorySpawner {
    ghost use Rattle.std.specs.Prelude.{◌≡◌, ◌≢◌, ◌≤◌, ◌+◌, length, min, map, true, false, IsOk, IsErr, OnOk, OnErr};
    ghost use Rattle.cd_outside.specs.Counts.{next, Rose};
    ghost use Rattle.cd_outside.specs.Spawner.{with_run, with_start, OnFailed};
    ghost use Rattle.cd_memory.specs.Children.{child_of};
    ghost use Rattle.cd_memory.specs.MemorySpawner.{children_of, spawner_script, spawner_calls, spawner_faults, is_spawner_starved, outcomes_of, used_of, coming_outcome, spawner_fails_next};
    ghost use Rattle.cd_outside.specs.declared.spawner.Outcome.TheVariants as outcome;

    ghost observable = { Unit {0} };

    ghost children = { λ spawner. map child_of spawner.begun.items };

    ghost faults = { λ spawner. spawner.tally.faults };

    fn run(&mut self, command: &[u8]) -> Outcome
        ensures ran { children_of self.new ≡ with_run command.now result (children_of self.old) }
        ensures later { spawner_faults self.old ≤ spawner_faults self.new }
        ensures cause { OnFailed result (Rose (spawner_faults self.old) (spawner_faults self.new)) }
        ensures counted { (spawner_script self.new ≡ spawner_script self.old) × (spawner_calls self.new ≡ next (spawner_calls self.old)) }
        ensures used { (outcomes_of self.new ≡ outcomes_of self.old) × (used_of self.new ≡ min (used_of self.old + 1) (length (outcomes_of self.old))) }
        ensures fails { spawner_fails_next self.old ≡ true → result ≡ outcome.Failed }
        ensures goes { spawner_fails_next self.old ≡ false → is_spawner_starved self.new ≡ false → result ≡ coming_outcome self.old }
        ensures asked_for { spawner_fails_next self.old ≡ true → is_spawner_starved self.new ≡ is_spawner_starved self.old }
        ensures fed { coming_outcome self.old ≡ outcome.Failed → is_spawner_starved self.new ≡ is_spawner_starved self.old }
        ensures served { result ≢ outcome.Failed → is_spawner_starved self.new ≡ is_spawner_starved self.old }
    {
        let outcome = next_outcome(&self.outcomes, self.used);
        if self.used < self.outcomes.len() {
            self.used += 1;
        }
        if self.tally.begin() {
            self.tally.failed();
            return Outcome::Failed;
        }
        if let Outcome::Failed = outcome {
            self.tally.failed();
            return Outcome::Failed;
        }
        match keep(self.alloc, &mut self.begun, command, Way::Run(outcome)) {
            Ok(()) => outcome,
            Err(_) => {
                self.tally.starve();
                Outcome::Failed
            }
        }
    }

    fn start(&mut self, command: &[u8]) -> Result<(), Failed>
        ensures started { OnOk result (children_of self.new ≡ with_start command.now (children_of self.old)) }
        ensures none { OnErr result (children_of self.new ≡ children_of self.old) }
        ensures later { spawner_faults self.old ≤ spawner_faults self.new }
        ensures cause { OnErr result (Rose (spawner_faults self.old) (spawner_faults self.new)) }
        ensures counted { (spawner_script self.new ≡ spawner_script self.old) × (spawner_calls self.new ≡ next (spawner_calls self.old)) }
        ensures used { (outcomes_of self.new ≡ outcomes_of self.old) × (used_of self.new ≡ min (used_of self.old + 1) (length (outcomes_of self.old))) }
        ensures fails { spawner_fails_next self.old ≡ true → IsErr result }
        ensures refused { coming_outcome self.old ≡ outcome.Failed → IsErr result }
        ensures goes { spawner_fails_next self.old ≡ false → is_spawner_starved self.new ≡ false → IsErr result → coming_outcome self.old ≡ outcome.Failed }
        ensures asked_for { spawner_fails_next self.old ≡ true → is_spawner_starved self.new ≡ is_spawner_starved self.old }
        ensures fed { coming_outcome self.old ≡ outcome.Failed → is_spawner_starved self.new ≡ is_spawner_starved self.old }
        ensures served { OnOk result (is_spawner_starved self.new ≡ is_spawner_starved self.old) }
    {
        let outcome = next_outcome(&self.outcomes, self.used);
        if self.used < self.outcomes.len() {
            self.used += 1;
        }
        if self.tally.begin() {
            return Err(self.tally.failed());
        }
        if let Outcome::Failed = outcome {
            return Err(self.tally.failed());
        }
        match keep(self.alloc, &mut self.begun, command, Way::Start) {
            Ok(()) => Ok(()),
            Err(_) => Err(self.tally.starve()),
        }
    }
}
