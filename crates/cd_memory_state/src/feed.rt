ghost use Rattle.std.specs.Prelude.{◌≡◌, ◌≤◌, ◌<◌, ◌+◌, ◌-◌, ◌++◌, ◌↔◌, [], take, drop, length, min, vec_len, vec_capacity, IsOk, OnOk, OnErr};

use cd_types::NoMemory;
use std::alloc::Global;
use std::marker::Model;

/// Bytes that wait to be read. Contracts see those that are left, and for how many more there is room.
#[derive(Drop)]
pub struct Feed {
    bytes: Vec<u8>,
    given: usize,
}

impl Model for Feed {
    ghost use Rattle.cd_memory_state.specs.Feeds.{Fed};
    ghost use Rattle.std.specs.Prelude.{◌-◌, ◌≤◌, drop, vec_len, vec_capacity};

    ghost Value = { Fed };

    ghost view = { λ feed. record { rest = drop feed.given feed.bytes.items; room = vec_capacity feed.bytes - vec_len feed.bytes } };

    ghost invariant = { λ feed. feed.given ≤ vec_len feed.bytes };
}

impl Feed {
    /// No bytes.
    pub fn new(alloc: Global) -> Self
        ensures { result.rest ≡ [] }
    {
        Feed {
            bytes: Vec::new(alloc),
            given: 0,
        }
    }

    /// Takes room for that many bytes.
    pub fn room(&mut self, bytes: usize) -> Result<(), NoMemory>
        ensures rest { self.new.rest ≡ self.old.rest }
        ensures room { OnOk result (bytes ≤ self.new.room) }
        ensures more { self.old.room ≤ self.new.room }
    {
        self.bytes.reserve(bytes)?;
        Ok(())
    }

    /// These bytes come behind.
    pub fn add(&mut self, bytes: &[u8]) -> Result<(), NoMemory>
        ensures rest { OnOk result (self.new.rest ≡ self.old.rest ++ bytes.now) }
        ensures same { OnErr result (self.new.rest ≡ self.old.rest) }
        ensures within { length bytes.now ≤ self.old.room → IsOk result }
        ensures room { self.old.room ≤ self.new.room + length bytes.now }
    {
        self.bytes.extend_from_slice(bytes)?;
        Ok(())
    }

    /// Gives as many bytes as there are and the buffer holds, and tells how many.
    pub fn give(&mut self, into: &mut [u8]) -> usize
        ensures count { result ≡ min (length into.old) (length self.old.rest) }
        ensures given { self.old.rest ≡ take result into.new ++ self.new.rest }
        ensures room { self.new.room ≡ self.old.room }
    {
        let left = self.bytes.len() - self.given;
        let count = left.min(into.len());
        into[..count].copy_from_slice(&self.bytes[self.given..self.given + count]);
        self.given += count;
        count
    }
}
