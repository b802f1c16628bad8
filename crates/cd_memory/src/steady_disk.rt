ghost use Rattle.cd_outside.specs.Doubt.{IsImage};

use crate::count::failed;
use cd_memory_state::Content;
use cd_outside::{Beat, Disk, Failed};
use cd_types::NoMemory;
use std::alloc::Global;

/// A disk in memory that never fails within the room that was made for it and below the greatest beat.
#[derive(Drop)]
pub struct SteadyDisk {
    content: Content,
    faults: u64,
    ghost sound: { IsImage content.state.doubt content.state.seen },
}

impl SteadyDisk {
    ghost use Rattle.std.specs.Prelude.{◌≡◌, ◌≤◌, [], OnOk, OnErr, IfOk};
    ghost use Rattle.cd_memory_state.specs.Record.{at_first};
    ghost use Rattle.cd_memory.specs.SteadyDisk.{steady_state, steady_faults, calls_left, bytes_left};

    /// An empty disk, without room.
    pub fn new(alloc: Global) -> Result<Self, NoMemory>
        ensures empty { IfOk result (λ disk. steady_state disk ≡ at_first []) }
        ensures faults { IfOk result (λ disk. steady_faults disk ≡ 0) }
    {
        Ok(SteadyDisk {
            content: Content::new(alloc),
            faults: 0,
        })
    }

    /// Makes room for that many further changing calls with so many bytes in all. The bytes by which the disk is
    /// lengthened count.
    pub fn room(&mut self, calls: usize, bytes: usize) -> Result<(), NoMemory>
        ensures state { steady_state self.new ≡ steady_state self.old }
        ensures faults { steady_faults self.new ≡ steady_faults self.old }
        ensures calls { OnOk result (calls ≤ calls_left self.new) }
        ensures bytes { OnOk result (bytes ≤ bytes_left self.new) }
        ensures more_calls { calls_left self.old ≤ calls_left self.new }
        ensures more_bytes { bytes_left self.old ≤ bytes_left self.new }
    {
        self.content.room(calls, bytes)
    }

    /// Settles these bytes in place of all that was there.
    pub fn put(&mut self, bytes: &[u8]) -> Result<(), NoMemory>
        ensures put { OnOk result (steady_state self.new ≡ at_first bytes.now) }
        ensures same { OnErr result (steady_state self.new ≡ steady_state self.old) }
        ensures faults { steady_faults self.new ≡ steady_faults self.old }
    {
        self.content.put(bytes)
    }

    /// What a read gives.
    pub fn bytes(&self) -> &[u8]
        ensures { result.now ≡ (steady_state self.now).seen }
    {
        self.content.seen()
    }
}

impl Disk for SteadyDisk {
    ghost use Rattle.std.specs.Prelude.{◌≡◌, ◌≤◌, ◌<◌, ◌+◌, ◌-◌, ◌^◌, length, take, drop, IsOk, IfOk, OnOk, OnErr};
    ghost use Rattle.cd_outside.specs.Counts.{next, Rose};
    ghost use Rattle.cd_outside.specs.Disk.{Write, Cut, Sync, last_of, did, WasCutOff};
    ghost use Rattle.cd_memory.specs.SteadyDisk.{steady_state, steady_faults, calls_left, bytes_left};

    ghost observable = { Unit {0} };

    ghost state = { λ disk. disk.content.state };

    ghost faults = { λ disk. disk.faults };

    ghost seen_is_image = { λ disk told. disk.sound };

    fn len(&mut self) -> Result<u64, Failed>
        ensures same { self.new ≡ self.old }
        ensures length { IfOk result (λ n. n ≡ length (steady_state self.old).seen) }
        ensures later { steady_faults self.old ≤ steady_faults self.new }
        ensures steady { IsOk result }
    {
        Ok(self.content.seen().len() as u64)
    }

    fn read(&mut self, at: u64, into: &mut [u8]) -> Result<(), Failed>
        requires { at + length into.old ≤ length (steady_state self.old).seen }
        ensures same { self.new ≡ self.old }
        ensures bytes { OnOk result (into.new ≡ take (length into.old) (drop at (steady_state self.old).seen)) }
        ensures later { steady_faults self.old ≤ steady_faults self.new }
        ensures steady { IsOk result }
    {
        let at = at as usize;
        into.copy_from_slice(&self.content.seen()[at..at + into.len()]);
        Ok(())
    }

    fn write_at(&mut self, at: u64, bytes: &[u8], beat: &mut Beat) -> Result<(), Failed>
        requires range { at ≤ length (steady_state self.old).seen }
        requires order { last_of (steady_state self.old).calls ≤ beat.old }
        ensures done { OnOk result (steady_state self.new ≡ did (Write at bytes.now) beat.new (steady_state self.old)) }
        ensures cut_off { OnErr result (WasCutOff (Write at bytes.now) beat.old beat.new (steady_state self.old) (steady_state self.new)) }
        ensures order { last_of (steady_state self.new).calls ≤ beat.new }
        ensures beat { beat.new ≡ next beat.old }
        ensures forward { beat.old ≤ beat.new }
        ensures raised { OnOk result (beat.old < beat.new) }
        ensures later { steady_faults self.old ≤ steady_faults self.new }
        ensures cause { OnErr result (Rose (steady_faults self.old) (steady_faults self.new)) }
        ensures steady { beat.old + 1 < 2 ^ 64 → 1 ≤ calls_left self.old → length bytes.now ≤ bytes_left self.old → IsOk result }
        ensures count { OnOk result (steady_faults self.new ≡ steady_faults self.old) }
        ensures calls { calls_left self.old ≤ calls_left self.new + 1 }
        ensures bytes { bytes_left self.old ≤ bytes_left self.new + length bytes.now }
    {
        if !beat.raise() {
            return Err(failed(&mut self.faults));
        }
        match self.content.room(1, bytes.len()) {
            Ok(()) => {
                self.content.write(at, bytes, beat.at());
                Ok(())
            }
            Err(_) => Err(failed(&mut self.faults)),
        }
    }

    fn cut(&mut self, len: u64, beat: &mut Beat) -> Result<(), Failed>
        requires { last_of (steady_state self.old).calls ≤ beat.old }
        ensures done { OnOk result (steady_state self.new ≡ did (Cut len) beat.new (steady_state self.old)) }
        ensures cut_off { OnErr result (WasCutOff (Cut len) beat.old beat.new (steady_state self.old) (steady_state self.new)) }
        ensures order { last_of (steady_state self.new).calls ≤ beat.new }
        ensures beat { beat.new ≡ next beat.old }
        ensures forward { beat.old ≤ beat.new }
        ensures raised { OnOk result (beat.old < beat.new) }
        ensures later { steady_faults self.old ≤ steady_faults self.new }
        ensures cause { OnErr result (Rose (steady_faults self.old) (steady_faults self.new)) }
        ensures steady { beat.old + 1 < 2 ^ 64 → 1 ≤ calls_left self.old → len ≤ length (steady_state self.old).seen + bytes_left self.old → IsOk result }
        ensures count { OnOk result (steady_faults self.new ≡ steady_faults self.old) }
        ensures calls { calls_left self.old ≤ calls_left self.new + 1 }
        ensures bytes { bytes_left self.old ≤ bytes_left self.new + (len - length (steady_state self.old).seen) }
    {
        if !beat.raise() {
            return Err(failed(&mut self.faults));
        }
        let longer = (len as usize).saturating_sub(self.content.seen().len());
        match self.content.room(1, longer) {
            Ok(()) => {
                self.content.cut(len, beat.at());
                Ok(())
            }
            Err(_) => Err(failed(&mut self.faults)),
        }
    }

    fn sync(&mut self, beat: &mut Beat) -> Result<(), Failed>
        requires { last_of (steady_state self.old).calls ≤ beat.old }
        ensures done { OnOk result (steady_state self.new ≡ did Sync beat.new (steady_state self.old)) }
        ensures same { OnErr result (steady_state self.new ≡ steady_state self.old) }
        ensures order { last_of (steady_state self.new).calls ≤ beat.new }
        ensures beat { beat.new ≡ next beat.old }
        ensures forward { beat.old ≤ beat.new }
        ensures raised { OnOk result (beat.old < beat.new) }
        ensures later { steady_faults self.old ≤ steady_faults self.new }
        ensures cause { OnErr result (Rose (steady_faults self.old) (steady_faults self.new)) }
        ensures steady { beat.old + 1 < 2 ^ 64 → 1 ≤ calls_left self.old → IsOk result }
        ensures count { OnOk result (steady_faults self.new ≡ steady_faults self.old) }
        ensures calls { calls_left self.old ≤ calls_left self.new + 1 }
        ensures bytes { bytes_left self.old ≤ bytes_left self.new }
    {
        if !beat.raise() {
            return Err(failed(&mut self.faults));
        }
        match self.content.room(1, 0) {
            Ok(()) => {
                self.content.sync(beat.at());
                Ok(())
            }
            Err(_) => Err(failed(&mut self.faults)),
        }
    }
}
