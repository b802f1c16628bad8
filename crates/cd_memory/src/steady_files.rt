use crate::count::failed;
use crate::reading::read_from;
use cd_memory_state::Ledger;
use cd_outside::{Beat, Failed, Files};
use cd_types::NoMemory;
use std::alloc::Global;

/// Files in memory that never fail within the room that was made for them and below the greatest beat.
#[derive(Drop)]
pub struct SteadyFiles {
    ledger: Ledger,
    faults: u64,
}

impl SteadyFiles {
    ghost use Rattle.std.specs.Prelude.{◌≡◌, ◌≤◌, None, OnOk, OnErr, IfOk, option_map, slice_get};
    ghost use Rattle.cd_outside.specs.Files.{files_at_first};
    ghost use Rattle.cd_memory_state.specs.Names.{AreNames};
    ghost use Rattle.cd_memory_state.specs.Put.{files_put};
    ghost use Rattle.cd_memory.specs.SteadyFiles.{steady_state, steady_faults, calls_left, bytes_left, names_of};

    /// No files, without room.
    pub fn new(alloc: Global) -> Result<Self, NoMemory>
        ensures empty { IfOk result (λ files. steady_state files ≡ files_at_first (λ name. None)) }
        ensures faults { IfOk result (λ files. steady_faults files ≡ 0) }
    {
        Ok(SteadyFiles {
            ledger: Ledger::new(alloc),
            faults: 0,
        })
    }

    /// Makes room for that many further changing calls with so many bytes in all: those of each call's name, and those
    /// that it writes or by which it makes a file longer, whichever are more.
    pub fn room(&mut self, calls: usize, bytes: usize) -> Result<(), NoMemory>
        ensures state { steady_state self.new ≡ steady_state self.old }
        ensures faults { steady_faults self.new ≡ steady_faults self.old }
        ensures calls { OnOk result (calls ≤ calls_left self.new) }
        ensures bytes { OnOk result (bytes ≤ bytes_left self.new) }
        ensures more_calls { calls_left self.old ≤ calls_left self.new }
        ensures more_bytes { bytes_left self.old ≤ bytes_left self.new }
    {
        self.ledger.room(calls, bytes)
    }

    /// Settles these bytes under a name, whatever was there, and forgets the calls of the past.
    pub fn put(&mut self, name: &[u8], bytes: &[u8]) -> Result<(), NoMemory>
        ensures put { OnOk result (steady_state self.new ≡ files_put name.now bytes.now (steady_state self.old)) }
        ensures same { OnErr result (steady_state self.new ≡ steady_state self.old) }
        ensures faults { steady_faults self.new ≡ steady_faults self.old }
    {
        self.ledger.put(name, bytes)
    }

    /// The file of a name.
    pub fn get(&self, name: &[u8]) -> Option<&[u8]>
        ensures { option_map (λ bytes. bytes.now) result ≡ (steady_state self.now).shelf.seen name.now }
    {
        self.ledger.seen(name)
    }

    /// The i-th name, in the order of their bytes, of the files that there are.
    pub fn name(&self, i: usize) -> Option<&[u8]>
        ensures name { option_map (λ bytes. bytes.now) result ≡ slice_get (names_of self.now) i }
        ensures names { AreNames (names_of self.now) (steady_state self.now).shelf.seen }
    {
        self.ledger.name(i)
    }
}

impl Files for SteadyFiles {
    ghost use Rattle.std.specs.Prelude.{◌≡◌, ◌≤◌, ◌<◌, ◌+◌, ◌^◌, length, take, drop, IsOk, IfOk, OnOk, OnErr, option_map};
    ghost use Rattle.cd_outside.specs.Counts.{next, Rose};
    ghost use Rattle.cd_outside.specs.Shelf.{content_of, WriteFile, CutFile, SyncFile, RemoveFile};
    ghost use Rattle.cd_outside.specs.Files.{files_last_of, files_did, FilesWereCutOff};
    ghost use Rattle.cd_memory_state.specs.Ledger.{ledger_state};
    ghost use Rattle.cd_memory_state.specs.Room.{write_takes, cut_takes};
    ghost use Rattle.cd_memory_state.proofs.Tidied.{log_image};
    ghost use Rattle.cd_memory.specs.SteadyFiles.{steady_state, steady_faults, calls_left, bytes_left};

    ghost observable = { Unit {0} };

    ghost state = { λ files. ledger_state files.ledger };

    ghost faults = { λ files. files.faults };

    ghost counted = { ⊥ };

    ghost calls = { λ _. 0 };

    ghost seen_is_image = { λ files name told. log_image files.ledger.log name };

    fn size(&mut self, name: &[u8]) -> Result<Option<u64>, Failed>
        ensures same { self.new ≡ self.old }
        ensures size { IfOk result (λ size. size ≡ option_map length ((steady_state self.old).shelf.seen name.now)) }
        ensures later { steady_faults self.old ≤ steady_faults self.new }
        ensures steady { IsOk result }
    {
        match self.ledger.seen(name) {
            Some(bytes) => Ok(Some(bytes.len() as u64)),
            None => Ok(None),
        }
    }

    fn read(&mut self, name: &[u8], at: u64, into: &mut [u8]) -> Result<usize, Failed>
        ensures same { self.new ≡ self.old }
        ensures within { IfOk result (λ n. n ≤ length into.old) }
        ensures bytes { IfOk result (λ n. take n into.new ≡ take (length into.old) (drop at (content_of ((steady_state self.old).shelf.seen name.now)))) }
        ensures later { steady_faults self.old ≤ steady_faults self.new }
        ensures steady { IsOk result }
    {
        match self.ledger.seen(name) {
            Some(bytes) => Ok(read_from(bytes, at, into)),
            None => Ok(read_from(&[], at, into)),
        }
    }

    fn write_at(
        &mut self,
        name: &[u8],
        at: u64,
        bytes: &[u8],
        beat: &mut Beat,
    ) -> Result<(), Failed>
        requires { files_last_of (steady_state self.old).calls ≤ beat.old }
        ensures done { OnOk result (steady_state self.new ≡ files_did (WriteFile name.now at bytes.now) beat.new (steady_state self.old)) }
        ensures same { OnErr result (steady_state self.new ≡ steady_state self.old) }
        ensures cut_off { OnErr result (FilesWereCutOff (WriteFile name.now at bytes.now) beat.old beat.new (steady_state self.old) (steady_state self.new)) }
        ensures order { files_last_of (steady_state self.new).calls ≤ beat.new }
        ensures beat { beat.new ≡ next beat.old }
        ensures forward { beat.old ≤ beat.new }
        ensures raised { OnOk result (beat.old < beat.new) }
        ensures later { steady_faults self.old ≤ steady_faults self.new }
        ensures cause { OnErr result (Rose (steady_faults self.old) (steady_faults self.new)) }
        ensures steady { beat.old + 1 < 2 ^ 64 → 1 ≤ calls_left self.old → write_takes name.now at bytes.now (content_of ((steady_state self.old).shelf.seen name.now)) ≤ bytes_left self.old → IsOk result }
        ensures count { OnOk result (steady_faults self.new ≡ steady_faults self.old) }
        ensures calls { calls_left self.old ≤ calls_left self.new + 1 }
        ensures bytes { bytes_left self.old ≤ bytes_left self.new + write_takes name.now at bytes.now (content_of ((steady_state self.old).shelf.seen name.now)) }
    {
        if !beat.raise() {
            return Err(failed(&mut self.faults));
        }
        match self.ledger.write(name, at, bytes, beat.at()) {
            Ok(()) => Ok(()),
            Err(_) => Err(failed(&mut self.faults)),
        }
    }

    fn cut(&mut self, name: &[u8], len: u64, beat: &mut Beat) -> Result<(), Failed>
        requires { files_last_of (steady_state self.old).calls ≤ beat.old }
        ensures done { OnOk result (steady_state self.new ≡ files_did (CutFile name.now len) beat.new (steady_state self.old)) }
        ensures same { OnErr result (steady_state self.new ≡ steady_state self.old) }
        ensures cut_off { OnErr result (FilesWereCutOff (CutFile name.now len) beat.old beat.new (steady_state self.old) (steady_state self.new)) }
        ensures order { files_last_of (steady_state self.new).calls ≤ beat.new }
        ensures beat { beat.new ≡ next beat.old }
        ensures forward { beat.old ≤ beat.new }
        ensures raised { OnOk result (beat.old < beat.new) }
        ensures later { steady_faults self.old ≤ steady_faults self.new }
        ensures cause { OnErr result (Rose (steady_faults self.old) (steady_faults self.new)) }
        ensures steady { beat.old + 1 < 2 ^ 64 → 1 ≤ calls_left self.old → cut_takes name.now len (content_of ((steady_state self.old).shelf.seen name.now)) ≤ bytes_left self.old → IsOk result }
        ensures count { OnOk result (steady_faults self.new ≡ steady_faults self.old) }
        ensures calls { calls_left self.old ≤ calls_left self.new + 1 }
        ensures bytes { bytes_left self.old ≤ bytes_left self.new + cut_takes name.now len (content_of ((steady_state self.old).shelf.seen name.now)) }
    {
        if !beat.raise() {
            return Err(failed(&mut self.faults));
        }
        match self.ledger.cut(name, len, beat.at()) {
            Ok(()) => Ok(()),
            Err(_) => Err(failed(&mut self.faults)),
        }
    }

    fn sync(&mut self, name: &[u8], beat: &mut Beat) -> Result<(), Failed>
        requires { files_last_of (steady_state self.old).calls ≤ beat.old }
        ensures done { OnOk result (steady_state self.new ≡ files_did (SyncFile name.now) beat.new (steady_state self.old)) }
        ensures same { OnErr result (steady_state self.new ≡ steady_state self.old) }
        ensures order { files_last_of (steady_state self.new).calls ≤ beat.new }
        ensures beat { beat.new ≡ next beat.old }
        ensures forward { beat.old ≤ beat.new }
        ensures raised { OnOk result (beat.old < beat.new) }
        ensures later { steady_faults self.old ≤ steady_faults self.new }
        ensures cause { OnErr result (Rose (steady_faults self.old) (steady_faults self.new)) }
        ensures steady { beat.old + 1 < 2 ^ 64 → 1 ≤ calls_left self.old → length name.now ≤ bytes_left self.old → IsOk result }
        ensures count { OnOk result (steady_faults self.new ≡ steady_faults self.old) }
        ensures calls { calls_left self.old ≤ calls_left self.new + 1 }
        ensures bytes { bytes_left self.old ≤ bytes_left self.new + length name.now }
    {
        if !beat.raise() {
            return Err(failed(&mut self.faults));
        }
        match self.ledger.sync(name, beat.at()) {
            Ok(()) => Ok(()),
            Err(_) => Err(failed(&mut self.faults)),
        }
    }

    fn remove(&mut self, name: &[u8], beat: &mut Beat) -> Result<(), Failed>
        requires { files_last_of (steady_state self.old).calls ≤ beat.old }
        ensures done { OnOk result (steady_state self.new ≡ files_did (RemoveFile name.now) beat.new (steady_state self.old)) }
        ensures same { OnErr result (steady_state self.new ≡ steady_state self.old) }
        ensures cut_off { OnErr result (FilesWereCutOff (RemoveFile name.now) beat.old beat.new (steady_state self.old) (steady_state self.new)) }
        ensures order { files_last_of (steady_state self.new).calls ≤ beat.new }
        ensures beat { beat.new ≡ next beat.old }
        ensures forward { beat.old ≤ beat.new }
        ensures raised { OnOk result (beat.old < beat.new) }
        ensures later { steady_faults self.old ≤ steady_faults self.new }
        ensures cause { OnErr result (Rose (steady_faults self.old) (steady_faults self.new)) }
        ensures steady { beat.old + 1 < 2 ^ 64 → 1 ≤ calls_left self.old → length name.now ≤ bytes_left self.old → IsOk result }
        ensures count { OnOk result (steady_faults self.new ≡ steady_faults self.old) }
        ensures calls { calls_left self.old ≤ calls_left self.new + 1 }
        ensures bytes { bytes_left self.old ≤ bytes_left self.new + length name.now }
    {
        if !beat.raise() {
            return Err(failed(&mut self.faults));
        }
        match self.ledger.remove(name, beat.at()) {
            Ok(()) => Ok(()),
            Err(_) => Err(failed(&mut self.faults)),
        }
    }
}
