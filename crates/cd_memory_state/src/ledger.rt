ghost use Rattle.std.specs.Prelude.{◌≡◌};
ghost use Rattle.cd_memory_state.specs.Cabinet.{file_in};
ghost use Rattle.cd_memory_state.specs.Log.{log_state};

use crate::cabinet::Cabinet;
use crate::log::Log;
use crate::step::Change;
use cd_types::NoMemory;
use std::alloc::Global;

/// Files by their names, with a record of all their changing calls. Within the room that was made no call takes memory.
#[derive(Drop)]
pub struct Ledger {
    log: Log,
    cabinet: Cabinet,
    ghost seen: { file_in cabinet ≡ (log_state log).shelf.seen },
}

impl Ledger {
    ghost use Rattle.std.specs.Prelude.{◌≡◌, ◌≤◌, ◌<◌, ◌+◌, ◌-◌, ◌^◌, max, length, Some, None, IsOk, OnOk, OnErr, option_map, slice_get};
    ghost use Rattle.cd_outside.specs.Shelf.{content_of, WriteFile, CutFile, SyncFile, RemoveFile};
    ghost use Rattle.cd_outside.specs.Files.{files_did};
    ghost use Rattle.cd_memory_state.specs.Ledger.{ledger_state, ledger_calls_left, ledger_bytes_left, ledger_names};
    ghost use Rattle.cd_memory_state.specs.Names.{AreNames};
    ghost use Rattle.cd_memory_state.specs.Put.{files_put};
    ghost use Rattle.cd_memory_state.specs.Room.{write_takes, cut_takes};
    ghost use Rattle.cd_memory_state.specs.Steps.{no_files};

    /// No files, and no room.
    pub fn new(alloc: Global) -> Self
        ensures { ledger_state result ≡ no_files }
    {
        Ledger {
            log: Log::new(alloc),
            cabinet: Cabinet::new(alloc),
        }
    }

    /// Takes room for that many further calls with so many bytes in all; none where it is there.
    pub fn room(&mut self, calls: usize, bytes: usize) -> Result<(), NoMemory>
        ensures state { ledger_state self.new ≡ ledger_state self.old }
        ensures calls { OnOk result (calls ≤ ledger_calls_left self.new) }
        ensures bytes { OnOk result (bytes ≤ ledger_bytes_left self.new) }
        ensures more_calls { ledger_calls_left self.old ≤ ledger_calls_left self.new }
        ensures more_bytes { ledger_bytes_left self.old ≤ ledger_bytes_left self.new }
        ensures there { calls ≤ ledger_calls_left self.old → bytes ≤ ledger_bytes_left self.old → IsOk result }
        ensures range { OnOk result (ledger_bytes_left self.new < 2 ^ 63) }
    {
        self.log.room(calls, bytes)?;
        self.cabinet.room(calls, bytes)
    }

    /// The file that a read gives.
    pub fn seen(&self, name: &[u8]) -> Option<&[u8]>
        ensures { option_map (λ bytes. bytes.now) result ≡ (ledger_state self.now).shelf.seen name.now }
    {
        self.cabinet.seen(name)
    }

    /// The i-th name, in the order of their bytes, of the files that there are.
    pub fn name(&self, i: usize) -> Option<&[u8]>
        ensures name { option_map (λ bytes. bytes.now) result ≡ slice_get (ledger_names self.now) i }
        ensures names { AreNames (ledger_names self.now) (ledger_state self.now).shelf.seen }
    {
        self.cabinet.name(i)
    }

    // How many bytes a read gives of a name.
    fn size(&self, name: &[u8]) -> usize
        ensures size { result ≡ length (content_of ((ledger_state self.now).shelf.seen name.now)) }
        ensures range { result < 2 ^ 63 }
    {
        match self.seen(name) {
            Some(bytes) => bytes.len(),
            None => 0,
        }
    }

    /// Writes over what is there, and past the end; a missing file is made.
    pub fn write(&mut self, name: &[u8], at: u64, bytes: &[u8], beat: u64) -> Result<(), NoMemory>
        ensures done { OnOk result (ledger_state self.new ≡ files_did (WriteFile name.now at bytes.now) beat (ledger_state self.old)) }
        ensures same { OnErr result (ledger_state self.new ≡ ledger_state self.old) }
        ensures there { 1 ≤ ledger_calls_left self.old → write_takes name.now at bytes.now (content_of ((ledger_state self.old).shelf.seen name.now)) ≤ ledger_bytes_left self.old → IsOk result }
        ensures calls { ledger_calls_left self.old ≤ ledger_calls_left self.new + 1 }
        ensures bytes { ledger_bytes_left self.old ≤ ledger_bytes_left self.new + write_takes name.now at bytes.now (content_of ((ledger_state self.old).shelf.seen name.now)) }
    {
        let place = at as usize;
        let longer = place
            .saturating_add(bytes.len())
            .saturating_sub(self.size(name));
        self.room(1, name.len().saturating_add(bytes.len().max(longer)))?;
        self.log.add(beat, Change::Written(at), name, bytes);
        self.cabinet.write(name, place, bytes);
        Ok(())
    }

    /// Cuts to a length, or makes longer by zeros; a missing file is made.
    pub fn cut(&mut self, name: &[u8], len: u64, beat: u64) -> Result<(), NoMemory>
        ensures done { OnOk result (ledger_state self.new ≡ files_did (CutFile name.now len) beat (ledger_state self.old)) }
        ensures same { OnErr result (ledger_state self.new ≡ ledger_state self.old) }
        ensures there { 1 ≤ ledger_calls_left self.old → cut_takes name.now len (content_of ((ledger_state self.old).shelf.seen name.now)) ≤ ledger_bytes_left self.old → IsOk result }
        ensures calls { ledger_calls_left self.old ≤ ledger_calls_left self.new + 1 }
        ensures bytes { ledger_bytes_left self.old ≤ ledger_bytes_left self.new + cut_takes name.now len (content_of ((ledger_state self.old).shelf.seen name.now)) }
    {
        let longer = (len as usize).saturating_sub(self.size(name));
        self.room(1, name.len().saturating_add(longer))?;
        self.log.add(beat, Change::Resized(len), name, &[]);
        self.cabinet.cut(name, len as usize);
        Ok(())
    }

    /// Removes a file, where there is one.
    pub fn remove(&mut self, name: &[u8], beat: u64) -> Result<(), NoMemory>
        ensures done { OnOk result (ledger_state self.new ≡ files_did (RemoveFile name.now) beat (ledger_state self.old)) }
        ensures same { OnErr result (ledger_state self.new ≡ ledger_state self.old) }
        ensures there { 1 ≤ ledger_calls_left self.old → length name.now ≤ ledger_bytes_left self.old → IsOk result }
        ensures calls { ledger_calls_left self.old ≤ ledger_calls_left self.new + 1 }
        ensures bytes { ledger_bytes_left self.old ≤ ledger_bytes_left self.new + length name.now }
    {
        self.room(1, name.len())?;
        self.log.add(beat, Change::Removed, name, &[]);
        self.cabinet.remove(name);
        Ok(())
    }

    /// Settles what a read gives of a name.
    pub fn sync(&mut self, name: &[u8], beat: u64) -> Result<(), NoMemory>
        ensures done { OnOk result (ledger_state self.new ≡ files_did (SyncFile name.now) beat (ledger_state self.old)) }
        ensures same { OnErr result (ledger_state self.new ≡ ledger_state self.old) }
        ensures there { 1 ≤ ledger_calls_left self.old → length name.now ≤ ledger_bytes_left self.old → IsOk result }
        ensures calls { ledger_calls_left self.old ≤ ledger_calls_left self.new + 1 }
        ensures bytes { ledger_bytes_left self.old ≤ ledger_bytes_left self.new + length name.now }
    {
        self.room(1, name.len())?;
        self.log.add(beat, Change::Synced, name, &[]);
        Ok(())
    }

    /// Settles these bytes under a name in place of what was there, and forgets the calls of the past.
    pub fn put(&mut self, name: &[u8], bytes: &[u8]) -> Result<(), NoMemory>
        ensures put { OnOk result (ledger_state self.new ≡ files_put name.now bytes.now (ledger_state self.old)) }
        ensures same { OnErr result (ledger_state self.new ≡ ledger_state self.old) }
    {
        self.room(1, name.len().saturating_add(bytes.len()))?;
        self.log.add(0, Change::Filled, name, bytes);
        self.cabinet.remove(name);
        self.cabinet.write(name, 0, bytes);
        Ok(())
    }
}
