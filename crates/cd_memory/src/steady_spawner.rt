ghost use Rattle.std.specs.Prelude.{◌≡◌, ◌≤◌, length, vec_len};

use crate::begun::Way;
use crate::count::failed;
use crate::end::{End, next_end};
use cd_memory_state::Parts;
use cd_outside::{Failed, Outcome, Spawner};
use cd_types::NoMemory;
use std::alloc::Global;

/// A spawner in memory that never fails within the room that was made for it: it runs nothing, and answers the outcomes
/// that were set.
#[derive(Drop)]
pub struct SteadySpawner {
    commands: Parts,
    ways: Vec<Way>,
    ends: Vec<End>,
    used: usize,
    faults: u64,
    ghost within: { used ≤ vec_len ends },
    ghost even: { length commands.items ≡ length ways.items },
}

impl SteadySpawner {
    ghost use Rattle.std.specs.Prelude.{◌≡◌, ◌≢◌, ◌≤◌, ◌+◌, ◌++◌, [], ◌∷◌, length, min, IsOk, OnOk, OnErr, IfOk, option_map, slice_get, slice_index_or};
    ghost use Rattle.cd_outside.specs.declared.spawner.Outcome.TheVariants as fate;
    ghost use Rattle.cd_memory.specs.declared.end.End.TheVariants as ends;
    ghost use Rattle.cd_memory.specs.Children.{child_by};
    ghost use Rattle.cd_memory.specs.Ends.{outcome_of};
    ghost use Rattle.cd_memory.specs.SteadySpawner.{children_of, spawner_faults, outcomes_of, used_of, coming_outcome, calls_left, bytes_left};

    /// A spawner that started nothing, without room.
    pub fn new(alloc: Global) -> Result<Self, NoMemory>
        ensures none { IfOk result (λ spawner. (children_of spawner ≡ []) × (outcomes_of spawner ≡ []) × (used_of spawner ≡ 0)) }
        ensures faults { IfOk result (λ spawner. spawner_faults spawner ≡ 0) }
    {
        Ok(SteadySpawner {
            commands: Parts::new(alloc),
            ways: Vec::new(alloc),
            ends: Vec::new(alloc),
            used: 0,
            faults: 0,
        })
    }

    /// Makes room for that many further calls, whose commands have so many bytes in all.
    pub fn room(&mut self, calls: usize, bytes: usize) -> Result<(), NoMemory>
        ensures same { (children_of self.new ≡ children_of self.old) × (outcomes_of self.new ≡ outcomes_of self.old) × (used_of self.new ≡ used_of self.old) × (spawner_faults self.new ≡ spawner_faults self.old) }
        ensures calls { OnOk result (calls ≤ calls_left self.new) }
        ensures bytes { OnOk result (bytes ≤ bytes_left self.new) }
        ensures more_calls { calls_left self.old ≤ calls_left self.new }
        ensures more_bytes { bytes_left self.old ≤ bytes_left self.new }
        ensures there { calls ≤ calls_left self.old → bytes ≤ bytes_left self.old → IsOk result }
    {
        self.ways.reserve(calls)?;
        self.commands.room(calls, bytes)
    }

    /// The next call that has no outcome yet has this one, by which it was started. A call without one has exit status 0.
    pub fn next_outcome(&mut self, outcome: Outcome) -> Result<(), NoMemory>
        requires { outcome ≢ fate.Failed }
        ensures added { OnOk result (outcomes_of self.new ≡ outcomes_of self.old ++ outcome ∷ []) }
        ensures same { OnErr result (outcomes_of self.new ≡ outcomes_of self.old) }
        ensures others { (children_of self.new ≡ children_of self.old) × (used_of self.new ≡ used_of self.old) × (spawner_faults self.new ≡ spawner_faults self.old) × (calls_left self.new ≡ calls_left self.old) × (bytes_left self.new ≡ bytes_left self.old) }
    {
        match outcome {
            Outcome::Exit(code) => self.ends.push(End::Exit(code))?,
            Outcome::Killed => self.ends.push(End::Killed)?,
            Outcome::Failed => unreachable!(),
        }
        Ok(())
    }

    /// The i-th command that it started.
    pub fn started(&self, i: usize) -> Option<&[u8]>
        ensures { option_map (λ bytes. bytes.now) result ≡ slice_get self.now.commands.items i }
    {
        if i < self.commands.count() {
            Some(self.commands.part(i))
        } else {
            None
        }
    }

    // Uses up the end of the next call.
    fn use_up(&mut self) -> End
        ensures end { outcome_of result ≡ coming_outcome self.old }
        ensures used { (outcomes_of self.new ≡ outcomes_of self.old) × (used_of self.new ≡ min (used_of self.old + 1) (length (outcomes_of self.old))) }
        ensures same { (children_of self.new ≡ children_of self.old) × (spawner_faults self.new ≡ spawner_faults self.old) × (calls_left self.new ≡ calls_left self.old) × (bytes_left self.new ≡ bytes_left self.old) }
    {
        let end = next_end(&self.ends, self.used);
        if self.used < self.ends.len() {
            self.used += 1;
        }
        end
    }

    // Keeps a command that was begun.
    fn keep(&mut self, command: &[u8], way: Way) -> Result<(), NoMemory>
        ensures kept { OnOk result (children_of self.new ≡ children_of self.old ++ child_by way command.now ∷ []) }
        ensures same { OnErr result (children_of self.new ≡ children_of self.old) }
        ensures others { (spawner_faults self.new ≡ spawner_faults self.old) × (outcomes_of self.new ≡ outcomes_of self.old) × (used_of self.new ≡ used_of self.old) }
        ensures there { 1 ≤ calls_left self.old → length command.now ≤ bytes_left self.old → IsOk result }
        ensures calls { calls_left self.old ≤ calls_left self.new + 1 }
        ensures bytes { bytes_left self.old ≤ bytes_left self.new + length command.now }
    {
        self.room(1, command.len())?;
        self.commands.push(command);
        self.ways.push_reserved(way);
        Ok(())
    }
}

impl Spawner for SteadySpawner {
    ghost use Rattle.std.specs.Prelude.{◌≡◌, ◌≤◌, ◌+◌, length, min, IsOk, OnOk, OnErr};
    ghost use Rattle.cd_outside.specs.Counts.{Rose};
    ghost use Rattle.cd_outside.specs.Spawner.{with_run, with_start, OnFailed};
    ghost use Rattle.cd_memory.specs.Ends.{children_by};
    ghost use Rattle.cd_memory.specs.SteadySpawner.{children_of, spawner_faults, outcomes_of, used_of, coming_outcome, calls_left, bytes_left};

    ghost observable = { Unit {0} };

    ghost children = { λ spawner. children_by spawner.ways.items spawner.commands.items };

    ghost faults = { λ spawner. spawner.faults };

    fn run(&mut self, command: &[u8]) -> Outcome
        ensures ran { children_of self.new ≡ with_run command.now result (children_of self.old) }
        ensures later { spawner_faults self.old ≤ spawner_faults self.new }
        ensures cause { OnFailed result (Rose (spawner_faults self.old) (spawner_faults self.new)) }
        ensures used { (outcomes_of self.new ≡ outcomes_of self.old) × (used_of self.new ≡ min (used_of self.old + 1) (length (outcomes_of self.old))) }
        ensures steady { 1 ≤ calls_left self.old → length command.now ≤ bytes_left self.old → result ≡ coming_outcome self.old }
        ensures count { 1 ≤ calls_left self.old → length command.now ≤ bytes_left self.old → spawner_faults self.new ≡ spawner_faults self.old }
        ensures calls { calls_left self.old ≤ calls_left self.new + 1 }
        ensures bytes { bytes_left self.old ≤ bytes_left self.new + length command.now }
    {
        match self.use_up() {
            End::Exit(code) => match self.keep(command, Way::Run(Outcome::Exit(code))) {
                Ok(()) => Outcome::Exit(code),
                Err(_) => {
                    failed(&mut self.faults);
                    Outcome::Failed
                }
            },
            End::Killed => match self.keep(command, Way::Run(Outcome::Killed)) {
                Ok(()) => Outcome::Killed,
                Err(_) => {
                    failed(&mut self.faults);
                    Outcome::Failed
                }
            },
        }
    }

    fn start(&mut self, command: &[u8]) -> Result<(), Failed>
        ensures started { OnOk result (children_of self.new ≡ with_start command.now (children_of self.old)) }
        ensures none { OnErr result (children_of self.new ≡ children_of self.old) }
        ensures later { spawner_faults self.old ≤ spawner_faults self.new }
        ensures cause { OnErr result (Rose (spawner_faults self.old) (spawner_faults self.new)) }
        ensures used { (outcomes_of self.new ≡ outcomes_of self.old) × (used_of self.new ≡ min (used_of self.old + 1) (length (outcomes_of self.old))) }
        ensures steady { 1 ≤ calls_left self.old → length command.now ≤ bytes_left self.old → IsOk result }
        ensures count { OnOk result (spawner_faults self.new ≡ spawner_faults self.old) }
        ensures calls { calls_left self.old ≤ calls_left self.new + 1 }
        ensures bytes { bytes_left self.old ≤ bytes_left self.new + length command.now }
    {
        self.use_up();
        match self.keep(command, Way::Start) {
            Ok(()) => Ok(()),
            Err(_) => Err(failed(&mut self.faults)),
        }
    }
}
