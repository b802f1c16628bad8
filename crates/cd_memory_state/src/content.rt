ghost use Rattle.std.specs.Prelude.{◌≡◌, ◌≤◌, ◌+◌, ◌-◌, ◌++◌, length, take, drop, OnOk, OnErr, IsOk, [], min, vec_len, vec_capacity};
ghost use Rattle.cd_outside.specs.Disk.{Write, Cut, Sync, did};
ghost use Rattle.cd_outside.specs.Doubt.{IsImage};
ghost use Rattle.cd_memory_state.specs.Generator.{left_by};
ghost use Rattle.cd_memory_state.specs.Record.{at_first};

use crate::bytes::{append_within, overwrite_within, replace_within, resize_within};
use crate::entry::{Entry, Kind};
use crate::image::{InDoubt, leave};
use cd_types::NoMemory;
use std::alloc::Global;
use std::marker::Model;

/// The content of a disk in memory, with the record of all its changing calls. Contracts see its state, and for how many
/// calls with how many bytes it has room.
#[derive(Drop)]
pub struct Content {
    seen: Vec<u8>,
    base: Vec<u8>,
    ranges: Vec<(u64, u64)>,
    least: usize,
    greatest: usize,
    // The first content, and the bytes of each entry behind it.
    kept: Vec<u8>,
    first: usize,
    entries: Vec<Entry>,
}

impl Model for Content {
    ghost use Rattle.cd_memory_state.specs.Record.{Held};

    ghost Value = { Held };

    ghost use Rattle.cd_memory_state.specs.Tied.{held_in, IsTied};

    ghost view = { held_in };

    ghost invariant = { IsTied };
}

impl Content {
    /// No bytes, and no room.
    pub fn new(alloc: Global) -> Self
        ensures { result.state ≡ at_first [] }
    {
        Content {
            seen: Vec::new(alloc),
            base: Vec::new(alloc),
            ranges: Vec::new(alloc),
            least: 0,
            greatest: 0,
            kept: Vec::new(alloc),
            first: 0,
            entries: Vec::new(alloc),
        }
    }

    /// What a read gives.
    pub fn seen(&self) -> &[u8]
        ensures { result.now ≡ self.now.state.seen }
    {
        &self.seen
    }

    /// Takes room for that many further calls with so many bytes in all; none where it is there.
    pub fn room(&mut self, calls: usize, bytes: usize) -> Result<(), NoMemory>
        ensures state { self.new.state ≡ self.old.state }
        ensures calls { OnOk result (calls ≤ self.new.calls_left) }
        ensures bytes { OnOk result (bytes ≤ self.new.bytes_left) }
        ensures more_calls { self.old.calls_left ≤ self.new.calls_left }
        ensures more_bytes { self.old.bytes_left ≤ self.new.bytes_left }
        ensures there { calls ≤ self.old.calls_left → bytes ≤ self.old.bytes_left → IsOk result }
    {
        let Some(total) = self.greatest.checked_add(bytes) else {
            return Err(NoMemory);
        };
        self.entries.reserve(calls)?;
        self.ranges.reserve(calls)?;
        self.kept.reserve(bytes)?;
        self.seen.reserve(total - self.seen.len())?;
        self.base.reserve(total - self.base.len())?;
        Ok(())
    }

    /// Writes over what is there, and past the end.
    pub fn write(&mut self, at: u64, bytes: &[u8], beat: u64)
        requires place { at ≤ length self.old.state.seen }
        requires calls { 1 ≤ self.old.calls_left }
        requires bytes { length bytes.now ≤ self.old.bytes_left }
        ensures state { self.new.state ≡ did (Write at bytes.now) beat self.old.state }
        ensures image { IsImage self.old.state.doubt self.old.state.seen → IsImage self.new.state.doubt self.new.state.seen }
        ensures calls { self.old.calls_left ≤ self.new.calls_left + 1 }
        ensures bytes { self.old.bytes_left ≤ self.new.bytes_left + length bytes.now }
    {
        let place = at as usize;
        self.entries.push_reserved(Entry {
            beat,
            kind: Kind::Written(at),
            used: bytes.len(),
        });
        self.ranges.push_reserved((at, bytes.len() as u64));
        append_within(&mut self.kept, bytes);
        overwrite_within(&mut self.seen, place, bytes);
        self.greatest = self.greatest.max(place + bytes.len());
    }

    /// Cuts to a length, or makes longer by zeros, which count as bytes.
    pub fn cut(&mut self, len: u64, beat: u64)
        requires calls { 1 ≤ self.old.calls_left }
        requires bytes { len ≤ length self.old.state.seen + self.old.bytes_left }
        ensures state { self.new.state ≡ did (Cut len) beat self.old.state }
        ensures image { IsImage self.old.state.doubt self.old.state.seen → IsImage self.new.state.doubt self.new.state.seen }
        ensures calls { self.old.calls_left ≤ self.new.calls_left + 1 }
        ensures bytes { self.old.bytes_left ≤ self.new.bytes_left + (len - length self.old.state.seen) }
    {
        let len = len as usize;
        let used = len.saturating_sub(self.seen.len());
        self.entries.push_reserved(Entry {
            beat,
            kind: Kind::Resized(len as u64),
            used,
        });
        let kept = self.kept.len() + used;
        resize_within(&mut self.kept, kept);
        resize_within(&mut self.seen, len);
        self.least = self.least.min(len);
        self.greatest = self.greatest.max(len);
    }

    /// Settles what a read gives.
    pub fn sync(&mut self, beat: u64)
        requires { 1 ≤ self.old.calls_left }
        ensures state { self.new.state ≡ did Sync beat self.old.state }
        ensures image { IsImage self.new.state.doubt self.new.state.seen }
        ensures calls { self.old.calls_left ≤ self.new.calls_left + 1 }
        ensures bytes { self.old.bytes_left ≤ self.new.bytes_left }
    {
        self.entries.push_reserved(Entry {
            beat,
            kind: Kind::Synced,
            used: 0,
        });
        replace_within(&mut self.base, &self.seen);
        self.ranges.clear();
        self.least = self.seen.len();
        self.greatest = self.seen.len();
    }

    /// A crash leaves the image of that number, all of it settled, and the calls of the past are forgotten.
    pub fn leave(&mut self, image: u64)
        requires { IsImage self.old.state.doubt self.old.state.seen }
        ensures state { self.new.state ≡ at_first (left_by image self.old.state.doubt self.old.state.seen) }
        ensures image { IsImage self.old.state.doubt self.new.state.seen }
        ensures calls { self.old.calls_left ≤ self.new.calls_left }
        ensures bytes { self.old.bytes_left ≤ self.new.bytes_left }
    {
        let doubt = InDoubt {
            base: &self.base,
            ranges: &self.ranges,
            least: self.least,
            greatest: self.greatest,
        };
        leave(&mut self.seen, doubt, image);
        replace_within(&mut self.base, &self.seen);
        replace_within(&mut self.kept, &self.seen);
        self.entries.clear();
        self.ranges.clear();
        self.first = self.seen.len();
        self.least = self.seen.len();
        self.greatest = self.seen.len();
    }

    /// Settles these bytes in place of all that was there, and forgets the calls of the past.
    pub fn put(&mut self, bytes: &[u8]) -> Result<(), NoMemory>
        requires { IsImage self.old.state.doubt self.old.state.seen }
        ensures put { OnOk result (self.new.state ≡ at_first bytes.now) }
        ensures same { OnErr result (self.new.state ≡ self.old.state) }
    {
        self.room(2, bytes.len())?;
        self.write(0, bytes, 0);
        self.cut(bytes.len() as u64, 0);
        self.leave(1);
        Ok(())
    }
}
