use crate::FaultScript;
use crate::tally::Tally;
use cd_memory_state::Feed;
use cd_outside::{Failed, Source};
use cd_types::NoMemory;
use std::alloc::Global;

/// A source in memory.
#[derive(Drop)]
pub struct MemorySource {
    feed: Feed,
    tally: Tally,
}

impl MemorySource {
    ghost use Rattle.std.specs.Prelude.{◌≡◌, ◌+◌, ◌++◌, [], ◌∷◌, min, false, OnOk, OnErr, IfOk};
    ghost use Rattle.cd_memory.specs.MemoryStreams.{left_of, source_script, source_calls, source_faults, is_source_starved};

    /// A source without bytes, whose calls of these numbers fail.
    pub fn new(alloc: Global, script: FaultScript) -> Result<Self, NoMemory>
        ensures empty { IfOk result (λ source. left_of source ≡ []) }
        ensures script { IfOk result (λ source. source_script source ≡ script) }
        ensures counts { IfOk result (λ source. (source_calls source ≡ 0) × (source_faults source ≡ 0) × (is_source_starved source ≡ false)) }
    {
        Ok(MemorySource {
            feed: Feed::new(alloc),
            tally: Tally::new(script),
        })
    }

    /// The k-th next call fails.
    pub fn fail(&mut self, k: u64) -> Result<(), NoMemory>
        ensures added { OnOk result (source_script self.new ≡ source_script self.old ++ min (source_calls self.old + k) 18446744073709551615 ∷ []) }
        ensures same { OnErr result (source_script self.new ≡ source_script self.old) }
        ensures others { (left_of self.new ≡ left_of self.old) × (source_calls self.new ≡ source_calls self.old) × (source_faults self.new ≡ source_faults self.old) × (is_source_starved self.new ≡ is_source_starved self.old) }
    {
        self.tally.fail(k)
    }

    /// Gives these bytes too.
    pub fn feed(&mut self, bytes: &[u8]) -> Result<(), NoMemory>
        ensures added { OnOk result (left_of self.new ≡ left_of self.old ++ bytes.now) }
        ensures same { OnErr result (left_of self.new ≡ left_of self.old) }
        ensures others { (source_script self.new ≡ source_script self.old) × (source_calls self.new ≡ source_calls self.old) × (source_faults self.new ≡ source_faults self.old) × (is_source_starved self.new ≡ is_source_starved self.old) }
    {
        self.feed.add(bytes)
    }

    /// A call found no memory, which none needs.
    pub fn starved(&self) -> bool
        ensures { result ≡ is_source_starved self.now }
    {
        self.tally.starved
    }
}

impl Source for MemorySource {
    ghost use Rattle.std.specs.Prelude.{◌≡◌, ◌≤◌, ◌<◌, ◌↔◌, ◌++◌, [], length, take, true, false, IsOk, IsErr, IfOk, OnErr};
    ghost use Rattle.cd_outside.specs.Counts.{next, Rose};
    ghost use Rattle.cd_memory.specs.MemoryStreams.{left_of, source_script, source_calls, source_faults, is_source_starved};
    ghost use Rattle.cd_memory.specs.MemoryStreams.{source_fails_next as fails_next};

    ghost observable = { Unit {0} };

    ghost remaining = { λ source. source.feed.rest };

    ghost faults = { λ source. source.tally.faults };

    fn read(&mut self, into: &mut [u8]) -> Result<usize, Failed>
        requires { 0 < length into.old }
        ensures within { IfOk result (λ n. n ≤ length into.old) }
        ensures given { IfOk result (λ n. left_of self.old ≡ take n into.new ++ left_of self.new) }
        ensures end { IfOk result (λ n. (n ≡ 0) ↔ (left_of self.old ≡ [])) }
        ensures none { OnErr result (left_of self.new ≡ left_of self.old) }
        ensures later { source_faults self.old ≤ source_faults self.new }
        ensures cause { OnErr result (Rose (source_faults self.old) (source_faults self.new)) }
        ensures fails { fails_next self.old ≡ true → IsErr result }
        ensures goes { fails_next self.old ≡ false → IsOk result }
        ensures fed { is_source_starved self.new ≡ is_source_starved self.old }
        ensures counted { (source_script self.new ≡ source_script self.old) × (source_calls self.new ≡ next (source_calls self.old)) }
    {
        if self.tally.begin() {
            return Err(self.tally.failed());
        }
        Ok(self.feed.give(into))
    }
}

/// A source in memory that never fails.
#[derive(Drop)]
pub struct SteadySource {
    feed: Feed,
}

impl SteadySource {
    ghost use Rattle.std.specs.Prelude.{◌≡◌, ◌≤◌, ◌+◌, ◌++◌, [], length, IsOk, OnOk, OnErr, IfOk};
    ghost use Rattle.cd_memory.specs.SteadyStreams.{left_of, source_room};

    /// A source without bytes.
    pub fn new(alloc: Global) -> Result<Self, NoMemory>
        ensures { IfOk result (λ source. left_of source ≡ []) }
    {
        Ok(SteadySource {
            feed: Feed::new(alloc),
        })
    }

    /// Makes room for so many bytes to be fed. Its reads need none.
    pub fn room(&mut self, _: usize, bytes: usize) -> Result<(), NoMemory>
        ensures left { left_of self.new ≡ left_of self.old }
        ensures room { OnOk result (bytes ≤ source_room self.new) }
        ensures more { source_room self.old ≤ source_room self.new }
    {
        self.feed.room(bytes)
    }

    /// Gives these bytes too.
    pub fn feed(&mut self, bytes: &[u8]) -> Result<(), NoMemory>
        ensures added { OnOk result (left_of self.new ≡ left_of self.old ++ bytes.now) }
        ensures same { OnErr result (left_of self.new ≡ left_of self.old) }
        ensures steady { length bytes.now ≤ source_room self.old → IsOk result }
        ensures room { source_room self.old ≤ source_room self.new + length bytes.now }
    {
        self.feed.add(bytes)
    }
}

impl Source for SteadySource {
    ghost use Rattle.std.specs.Prelude.{◌≡◌, ◌≤◌, ◌<◌, ◌↔◌, ◌++◌, [], length, take, IsOk, IfOk};
    ghost use Rattle.cd_memory.specs.SteadyStreams.{left_of};

    ghost observable = { Unit {0} };

    ghost remaining = { λ source. source.feed.rest };

    ghost faults = { λ source. 0 };

    fn read(&mut self, into: &mut [u8]) -> Result<usize, Failed>
        requires { 0 < length into.old }
        ensures within { IfOk result (λ n. n ≤ length into.old) }
        ensures given { IfOk result (λ n. left_of self.old ≡ take n into.new ++ left_of self.new) }
        ensures end { IfOk result (λ n. (n ≡ 0) ↔ (left_of self.old ≡ [])) }
        ensures steady { IsOk result }
    {
        Ok(self.feed.give(into))
    }
}
