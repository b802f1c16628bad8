use crate::FaultScript;
use crate::count::failed;
use crate::tally::Tally;
use cd_outside::{Failed, Sink};
use cd_types::NoMemory;
use std::alloc::Global;

/// A sink in memory.
#[derive(Drop)]
pub struct MemorySink {
    taken: Vec<u8>,
    tally: Tally,
}

impl MemorySink {
    ghost use Rattle.std.specs.Prelude.{◌≡◌, ◌+◌, ◌++◌, [], ◌∷◌, min, false, OnOk, OnErr, IfOk};
    ghost use Rattle.cd_memory.specs.MemoryStreams.{taken_of, sink_script, sink_calls, sink_faults, is_sink_starved};

    /// A sink that took nothing, whose calls of these numbers fail.
    pub fn new(alloc: Global, script: FaultScript) -> Result<Self, NoMemory>
        ensures empty { IfOk result (λ sink. taken_of sink ≡ []) }
        ensures script { IfOk result (λ sink. sink_script sink ≡ script) }
        ensures counts { IfOk result (λ sink. (sink_calls sink ≡ 0) × (sink_faults sink ≡ 0) × (is_sink_starved sink ≡ false)) }
    {
        Ok(MemorySink {
            taken: Vec::new(alloc),
            tally: Tally::new(script),
        })
    }

    /// The k-th next call fails.
    pub fn fail(&mut self, k: u64) -> Result<(), NoMemory>
        ensures added { OnOk result (sink_script self.new ≡ sink_script self.old ++ min (sink_calls self.old + k) 18446744073709551615 ∷ []) }
        ensures same { OnErr result (sink_script self.new ≡ sink_script self.old) }
        ensures others { (taken_of self.new ≡ taken_of self.old) × (sink_calls self.new ≡ sink_calls self.old) × (sink_faults self.new ≡ sink_faults self.old) × (is_sink_starved self.new ≡ is_sink_starved self.old) }
    {
        self.tally.fail(k)
    }

    /// A call found no memory.
    pub fn starved(&self) -> bool
        ensures { result ≡ is_sink_starved self.now }
    {
        self.tally.starved
    }

    /// The bytes that it took.
    pub fn bytes(&self) -> &[u8]
        ensures { result.now ≡ taken_of self.now }
    {
        &self.taken
    }
}

impl Sink for MemorySink {
    ghost use Rattle.std.specs.Prelude.{◌≡◌, ◌≤◌, ◌++◌, true, false, IsOk, IsErr, OnOk, OnErr};
    ghost use Rattle.cd_outside.specs.Counts.{next, Rose};
    ghost use Rattle.cd_outside.specs.Streams.{TookFront};
    ghost use Rattle.cd_memory.specs.MemoryStreams.{taken_of, sink_script, sink_calls, sink_faults, is_sink_starved};
    ghost use Rattle.cd_memory.specs.MemoryStreams.{sink_fails_next as fails_next};

    ghost observable = { Unit {0} };

    ghost taken = { λ sink. sink.taken.items };

    ghost faults = { λ sink. sink.tally.faults };

    fn write(&mut self, bytes: &[u8]) -> Result<(), Failed>
        ensures taken { OnOk result (taken_of self.new ≡ taken_of self.old ++ bytes.now) }
        ensures none { OnErr result (taken_of self.new ≡ taken_of self.old) }
        ensures front { OnErr result (TookFront (taken_of self.old) bytes.now (taken_of self.new)) }
        ensures later { sink_faults self.old ≤ sink_faults self.new }
        ensures cause { OnErr result (Rose (sink_faults self.old) (sink_faults self.new)) }
        ensures fails { fails_next self.old ≡ true → IsErr result }
        ensures goes { fails_next self.old ≡ false → is_sink_starved self.new ≡ false → IsOk result }
        ensures asked_for { fails_next self.old ≡ true → is_sink_starved self.new ≡ is_sink_starved self.old }
        ensures served { OnOk result (is_sink_starved self.new ≡ is_sink_starved self.old) }
        ensures fed { is_sink_starved self.old ≡ true → is_sink_starved self.new ≡ true }
        ensures counted { (sink_script self.new ≡ sink_script self.old) × (sink_calls self.new ≡ next (sink_calls self.old)) }
    {
        if self.tally.begin() {
            return Err(self.tally.failed());
        }
        match self.taken.extend_from_slice(bytes) {
            Ok(()) => Ok(()),
            Err(_) => Err(self.tally.starve()),
        }
    }
}

/// A sink in memory that never fails within the room that was made for it.
#[derive(Drop)]
pub struct SteadySink {
    taken: Vec<u8>,
    faults: u64,
}

impl SteadySink {
    ghost use Rattle.std.specs.Prelude.{◌≡◌, ◌≤◌, [], OnOk, IfOk};
    ghost use Rattle.cd_memory.specs.SteadyStreams.{taken_of, sink_faults, sink_room};

    /// A sink that took nothing, without room.
    pub fn new(alloc: Global) -> Result<Self, NoMemory>
        ensures empty { IfOk result (λ sink. taken_of sink ≡ []) }
        ensures faults { IfOk result (λ sink. sink_faults sink ≡ 0) }
    {
        Ok(SteadySink {
            taken: Vec::new(alloc),
            faults: 0,
        })
    }

    /// Makes room for so many bytes, in however many calls.
    pub fn room(&mut self, _: usize, bytes: usize) -> Result<(), NoMemory>
        ensures taken { taken_of self.new ≡ taken_of self.old }
        ensures faults { sink_faults self.new ≡ sink_faults self.old }
        ensures room { OnOk result (bytes ≤ sink_room self.new) }
        ensures more { sink_room self.old ≤ sink_room self.new }
    {
        self.taken.reserve(bytes)?;
        Ok(())
    }

    /// The bytes that it took.
    pub fn bytes(&self) -> &[u8]
        ensures { result.now ≡ taken_of self.now }
    {
        &self.taken
    }
}

impl Sink for SteadySink {
    ghost use Rattle.std.specs.Prelude.{◌≡◌, ◌≤◌, ◌+◌, ◌++◌, length, IsOk, OnOk, OnErr};
    ghost use Rattle.cd_outside.specs.Counts.{Rose};
    ghost use Rattle.cd_outside.specs.Streams.{TookFront};
    ghost use Rattle.cd_memory.specs.SteadyStreams.{taken_of, sink_faults, sink_room};

    ghost observable = { Unit {0} };

    ghost taken = { λ sink. sink.taken.items };

    ghost faults = { λ sink. sink.faults };

    fn write(&mut self, bytes: &[u8]) -> Result<(), Failed>
        ensures taken { OnOk result (taken_of self.new ≡ taken_of self.old ++ bytes.now) }
        ensures front { OnErr result (TookFront (taken_of self.old) bytes.now (taken_of self.new)) }
        ensures later { sink_faults self.old ≤ sink_faults self.new }
        ensures cause { OnErr result (Rose (sink_faults self.old) (sink_faults self.new)) }
        ensures steady { length bytes.now ≤ sink_room self.old → IsOk result }
        ensures count { OnOk result (sink_faults self.new ≡ sink_faults self.old) }
        ensures room { sink_room self.old ≤ sink_room self.new + length bytes.now }
    {
        match self.taken.extend_from_slice(bytes) {
            Ok(()) => Ok(()),
            Err(_) => Err(failed(&mut self.faults)),
        }
    }
}
