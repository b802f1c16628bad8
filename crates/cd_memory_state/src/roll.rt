ghost use Rattle.std.specs.Prelude.{◌≡◌, length};

use crate::parts::Parts;
use cd_types::NoMemory;
use std::alloc::Global;

/// The sessions of lines, by number from 1 on, and the order of their sends. Within the room that was made no call takes
/// memory.
#[derive(Drop)]
pub struct Roll {
    taken: Parts,
    given: Parts,
    faults: Vec<u64>,
    ends: Vec<u64>,
    sends: Vec<u64>,
    ghost both: { length taken.items ≡ length given.items },
    ghost with_faults: { length faults.items ≡ length given.items },
    ghost with_ends: { length ends.items ≡ length given.items },
}

impl Roll {
    ghost use Rattle.std.specs.Prelude.{◌≡◌, ◌≤◌, ◌<◌, ◌+◌, ◌^◌, length, IsOk, IfOk, OnOk, OnErr};
    ghost use Rattle.cd_outside.specs.Lines.{IsFresh, took, sent};
    ghost use Rattle.cd_memory_state.specs.Numbered.{bytes_of};
    ghost use Rattle.cd_memory_state.specs.Roll.{roll_traffic, roll_last, roll_calls_left, roll_bytes_left, NoRollCounts, SameRollCounts, SameRoll, CountsRollFault, CountsRollEnd};

    /// No session, and no room.
    pub fn new(alloc: Global) -> Self
        ensures last { roll_last result ≡ 0 }
        ensures counts { NoRollCounts result }
    {
        Roll {
            taken: Parts::new(alloc),
            given: Parts::new(alloc),
            faults: Vec::new(alloc),
            ends: Vec::new(alloc),
            sends: Vec::new(alloc),
        }
    }

    /// Takes room for that many further calls with so many bytes in all; none where it is there.
    pub fn room(&mut self, calls: usize, bytes: usize) -> Result<(), NoMemory>
        ensures traffic { roll_traffic self.new ≡ roll_traffic self.old }
        ensures last { roll_last self.new ≡ roll_last self.old }
        ensures counts { SameRollCounts self.old self.new }
        ensures calls { OnOk result (calls ≤ roll_calls_left self.new) }
        ensures bytes { OnOk result (bytes ≤ roll_bytes_left self.new) }
        ensures more_calls { roll_calls_left self.old ≤ roll_calls_left self.new }
        ensures more_bytes { roll_bytes_left self.old ≤ roll_bytes_left self.new }
        ensures there { calls ≤ roll_calls_left self.old → bytes ≤ roll_bytes_left self.old → IsOk result }
    {
        self.faults.reserve(calls)?;
        self.ends.reserve(calls)?;
        self.sends.reserve(calls)?;
        self.taken.room(calls, bytes)?;
        self.given.room(calls, bytes)
    }

    /// The number of the newest session.
    pub fn last(&self) -> u64
        ensures { result ≡ roll_last self.now }
    {
        self.given.count() as u64
    }

    /// Makes a session, and tells its number.
    pub fn open(&mut self) -> Result<u64, NoMemory>
        ensures number { IfOk result (λ number. (number ≡ roll_last self.old + 1) × (roll_last self.new ≡ number)) }
        ensures fresh { IfOk result (λ number. IsFresh number (roll_traffic self.new)) }
        ensures traffic { roll_traffic self.new ≡ roll_traffic self.old }
        ensures none { OnErr result (roll_last self.new ≡ roll_last self.old) }
        ensures counts { SameRollCounts self.old self.new }
        ensures there { 1 ≤ roll_calls_left self.old → IsOk result }
        ensures calls { roll_calls_left self.old ≤ roll_calls_left self.new + 1 }
        ensures bytes { roll_bytes_left self.old ≤ roll_bytes_left self.new }
    {
        self.room(1, 0)?;
        self.taken.push(&[]);
        self.given.push(&[]);
        self.faults.push_reserved(0);
        self.ends.push_reserved(0);
        Ok(self.given.count() as u64)
    }

    /// The bytes that were given to a session; none where there is no such session.
    pub fn given(&self, number: u64) -> &[u8]
        ensures { result.now ≡ (roll_traffic self.now).given number }
    {
        if 0 < number && number <= self.last() {
            self.given.part((number - 1) as usize)
        } else {
            &[]
        }
    }

    /// The bytes that were taken from a session; none where there is no such session.
    pub fn taken(&self, number: u64) -> &[u8]
        ensures { result.now ≡ (roll_traffic self.now).taken number }
    {
        if 0 < number && number <= self.last() {
            self.taken.part((number - 1) as usize)
        } else {
            &[]
        }
    }

    /// Takes bytes from a session.
    pub fn take(&mut self, number: u64, bytes: &[u8]) -> Result<(), NoMemory>
        requires from { 1 ≤ number }
        requires to { number ≤ roll_last self.old }
        ensures taken { OnOk result (roll_traffic self.new ≡ took number bytes.now (roll_traffic self.old)) }
        ensures same { OnErr result (roll_traffic self.new ≡ roll_traffic self.old) }
        ensures last { roll_last self.new ≡ roll_last self.old }
        ensures counts { SameRollCounts self.old self.new }
        ensures there { 1 ≤ roll_calls_left self.old → length bytes.now ≤ roll_bytes_left self.old → IsOk result }
        ensures calls { roll_calls_left self.old ≤ roll_calls_left self.new }
        ensures bytes { roll_bytes_left self.old ≤ roll_bytes_left self.new + length bytes.now }
    {
        self.room(1, bytes.len())?;
        self.taken.append((number - 1) as usize, bytes);
        Ok(())
    }

    /// Gives bytes to a session.
    pub fn give(&mut self, number: u64, bytes: &[u8]) -> Result<(), NoMemory>
        requires from { 1 ≤ number }
        requires to { number ≤ roll_last self.old }
        ensures sent { OnOk result (roll_traffic self.new ≡ sent number bytes.now (roll_traffic self.old)) }
        ensures same { OnErr result (roll_traffic self.new ≡ roll_traffic self.old) }
        ensures last { roll_last self.new ≡ roll_last self.old }
        ensures counts { SameRollCounts self.old self.new }
        ensures there { 1 ≤ roll_calls_left self.old → length bytes.now ≤ roll_bytes_left self.old → IsOk result }
        ensures calls { roll_calls_left self.old ≤ roll_calls_left self.new + 1 }
        ensures bytes { roll_bytes_left self.old ≤ roll_bytes_left self.new + length bytes.now }
    {
        self.room(1, bytes.len())?;
        self.given.append((number - 1) as usize, bytes);
        self.sends.push_reserved(number);
        Ok(())
    }

    /// Counts a fault of a session.
    pub fn fail(&mut self, number: u64)
        requires from { 1 ≤ number }
        requires to { number ≤ roll_last self.old }
        ensures counts { CountsRollFault number self.old self.new }
        ensures same { SameRoll self.old self.new }
    {
        let i = (number - 1) as usize;
        self.faults[i] = self.faults[i].saturating_add(1);
    }

    /// Counts an end of a session.
    pub fn end(&mut self, number: u64)
        requires from { 1 ≤ number }
        requires to { number ≤ roll_last self.old }
        ensures counts { CountsRollEnd number self.old self.new }
        ensures same { SameRoll self.old self.new }
    {
        let i = (number - 1) as usize;
        self.ends[i] = self.ends[i].saturating_add(1);
    }
}
