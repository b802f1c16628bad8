use crate::FaultScript;
use crate::fate::Fate;
use crate::reading::read_from;
use crate::stop::Stop;
use crate::tally::Tally;
use cd_memory_state::Shelves;
use cd_outside::{Beat, Failed, Files};
use cd_types::NoMemory;
use std::alloc::Global;

/// Files in memory, which keep a record of all their changing calls.
#[derive(Drop)]
pub struct MemoryFiles {
    shelves: Shelves,
    tally: Tally,
    stop: Stop,
}

impl MemoryFiles {
    ghost use Rattle.std.specs.Prelude.{◌≡◌, ◌+◌, ◌++◌, [], ◌∷◌, min, false, true, OnOk, OnErr, IfOk, Some, None, option_map, slice_get};
    ghost use Rattle.cd_memory_state.specs.Names.{AreNames};
    ghost use Rattle.cd_memory_state.specs.Put.{files_put};
    ghost use Rattle.cd_memory_state.specs.FileImage.{shelf_left_by};
    ghost use Rattle.cd_outside.specs.Shelf.{IsShelfImage};
    ghost use Rattle.cd_outside.specs.Files.{files_at_first};
    ghost use Rattle.cd_memory.specs.MemoryFiles.{state_of, script_of, calls_of, faults_of, is_starved, stop_of, is_stopped, names_of, ChangesState, ChangesScript};

    /// No files; the calls of these numbers fail.
    pub fn new(alloc: Global, script: FaultScript) -> Result<Self, NoMemory>
        ensures empty { IfOk result (λ files. state_of files ≡ files_at_first (λ name. None)) }
        ensures script { IfOk result (λ files. script_of files ≡ script) }
        ensures calls { IfOk result (λ files. calls_of files ≡ 0) }
        ensures faults { IfOk result (λ files. faults_of files ≡ 0) }
        ensures fed { IfOk result (λ files. is_starved files ≡ false) }
        ensures goes_on { IfOk result (λ files. (stop_of files ≡ None) × (is_stopped files ≡ false)) }
    {
        Ok(MemoryFiles {
            shelves: Shelves::new(alloc),
            tally: Tally::new(script),
            stop: Stop::none(),
        })
    }

    /// The k-th next call fails.
    pub fn fail(&mut self, k: u64) -> Result<(), NoMemory>
        ensures added { OnOk result (ChangesScript self.old self.new (script_of self.old ++ min (calls_of self.old + k) 18446744073709551615 ∷ [])) }
        ensures same { OnErr result (ChangesScript self.old self.new (script_of self.old)) }
    {
        self.tally.fail(k)
    }

    /// The changing call that raises to that beat is under way at a stop, and each later one comes to nothing.
    pub fn stop_at(&mut self, beat: u64)
        ensures set { (stop_of self.new ≡ Some beat) × (is_stopped self.new ≡ false) }
        ensures others { (state_of self.new ≡ state_of self.old) × (script_of self.new ≡ script_of self.old) × (calls_of self.new ≡ calls_of self.old) × (faults_of self.new ≡ faults_of self.old) × (is_starved self.new ≡ is_starved self.old) }
    {
        self.stop = Stop::at(beat);
    }

    /// A changing call met the stop.
    pub fn stopped(&self) -> bool
        ensures { result ≡ is_stopped self.now }
    {
        self.stop.reached
    }

    /// Leaves an image of each name and ends the stop: 0 is the last sync, 1 what a read gives, each other one is
    /// generated with its number as seed, for each name apart. The image is settled.
    pub fn crash(&mut self, image: u64)
        ensures left { state_of self.new ≡ files_at_first (shelf_left_by image (state_of self.old).shelf) }
        ensures image { IsShelfImage (state_of self.old).shelf.doubt (state_of self.new).shelf.seen }
        ensures ended { (stop_of self.new ≡ None) × (is_stopped self.new ≡ false) }
        ensures others { (script_of self.new ≡ script_of self.old) × (calls_of self.new ≡ calls_of self.old) × (faults_of self.new ≡ faults_of self.old) × (is_starved self.new ≡ is_starved self.old) }
    {
        self.shelves.leave(image);
        self.stop = Stop::none();
    }

    /// A call found no memory.
    pub fn starved(&self) -> bool
        ensures { result ≡ is_starved self.now }
    {
        self.tally.starved
    }

    /// Settles these bytes under a name, whatever was there.
    pub fn put(&mut self, name: &[u8], bytes: &[u8]) -> Result<(), NoMemory>
        ensures put { OnOk result (ChangesState self.old self.new (files_put name.now bytes.now (state_of self.old))) }
        ensures same { OnErr result (ChangesState self.old self.new (state_of self.old)) }
    {
        self.shelves.put(name, bytes)
    }

    /// The file of a name.
    pub fn get(&self, name: &[u8]) -> Option<&[u8]>
        ensures { option_map (λ bytes. bytes.now) result ≡ (state_of self.now).shelf.seen name.now }
    {
        self.shelves.seen(name)
    }

    /// The i-th name, in the order of their bytes, of the files that there are.
    pub fn name(&self, i: usize) -> Option<&[u8]>
        ensures name { option_map (λ bytes. bytes.now) result ≡ slice_get (names_of self.now) i }
        ensures names { AreNames (names_of self.now) (state_of self.now).shelf.seen }
    {
        self.shelves.name(i)
    }
}

impl Files for MemoryFiles {
    ghost use Rattle.std.specs.Prelude.{◌≡◌, ◌≤◌, ◌<◌, length, take, drop, true, false, IsOk, IsErr, IfOk, OnOk, OnErr, option_map};
    ghost use Rattle.cd_outside.specs.Counts.{next, Rose};
    ghost use Rattle.cd_outside.specs.Shelf.{content_of, WriteFile, CutFile, SyncFile, RemoveFile};
    ghost use Rattle.cd_outside.specs.Files.{files_last_of, files_did, FilesWereCutOff};
    ghost use Rattle.cd_memory_state.specs.Shelves.{state_in};
    ghost use Rattle.cd_memory.specs.MemoryFiles.{state_of, calls_of, faults_of, is_starved, fails_next, next_fate, WasAsked, WasCalled};
    ghost use Rattle.cd_memory.specs.declared.fate.Fate.TheVariants.{Done, UnderWay, Nothing};

    ghost observable = { Unit {0} };

    ghost state = { λ files. state_in files.shelves };

    ghost faults = { λ files. files.tally.faults };

    ghost counted = { Unit {0} };

    ghost calls = { λ files. files.tally.calls };

    ghost seen_is_image = { λ files name told. (files.shelves.sound name).image };

    fn size(&mut self, name: &[u8]) -> Result<Option<u64>, Failed>
        ensures same { state_of self.new ≡ state_of self.old }
        ensures size { IfOk result (λ size. size ≡ option_map length ((state_of self.old).shelf.seen name.now)) }
        ensures later { faults_of self.old ≤ faults_of self.new }
        ensures cause { OnErr result (Rose (faults_of self.old) (faults_of self.new)) }
        ensures asked { WasAsked self.old self.new }
        ensures fails { fails_next self.old ≡ true → IsErr result }
        ensures goes { fails_next self.old ≡ false → IsOk result }
        ensures call { calls_of self.new ≡ next (calls_of self.old) }
    {
        if self.tally.begin() {
            return Err(self.tally.failed());
        }
        match self.shelves.seen(name) {
            Some(bytes) => Ok(Some(bytes.len() as u64)),
            None => Ok(None),
        }
    }

    fn read(&mut self, name: &[u8], at: u64, into: &mut [u8]) -> Result<usize, Failed>
        ensures same { state_of self.new ≡ state_of self.old }
        ensures within { IfOk result (λ n. n ≤ length into.old) }
        ensures bytes { IfOk result (λ n. take n into.new ≡ take (length into.old) (drop at (content_of ((state_of self.old).shelf.seen name.now)))) }
        ensures none { OnErr result (into.new ≡ into.old) }
        ensures later { faults_of self.old ≤ faults_of self.new }
        ensures cause { OnErr result (Rose (faults_of self.old) (faults_of self.new)) }
        ensures asked { WasAsked self.old self.new }
        ensures fails { fails_next self.old ≡ true → IsErr result }
        ensures goes { fails_next self.old ≡ false → IsOk result }
        ensures call { calls_of self.new ≡ next (calls_of self.old) }
    {
        if self.tally.begin() {
            return Err(self.tally.failed());
        }
        match self.shelves.seen(name) {
            Some(bytes) => Ok(read_from(bytes, at, into)),
            None => Ok(0),
        }
    }

    fn write_at(
        &mut self,
        name: &[u8],
        at: u64,
        bytes: &[u8],
        beat: &mut Beat,
    ) -> Result<(), Failed>
        requires { files_last_of (state_of self.old).calls ≤ beat.old }
        ensures done { OnOk result (state_of self.new ≡ files_did (WriteFile name.now at bytes.now) beat.new (state_of self.old)) }
        ensures cut_off { OnErr result (FilesWereCutOff (WriteFile name.now at bytes.now) beat.old beat.new (state_of self.old) (state_of self.new)) }
        ensures order { files_last_of (state_of self.new).calls ≤ beat.new }
        ensures beat { beat.new ≡ next beat.old }
        ensures forward { beat.old ≤ beat.new }
        ensures raised { OnOk result (beat.old < beat.new) }
        ensures later { faults_of self.old ≤ faults_of self.new }
        ensures cause { OnErr result (Rose (faults_of self.old) (faults_of self.new)) }
        ensures called { WasCalled beat.old self.old self.new }
        ensures nothing { next_fate self.old beat.old ≡ Nothing → IsErr result × (state_of self.new ≡ state_of self.old) }
        ensures under_way { next_fate self.old beat.old ≡ UnderWay → IsErr result × (is_starved self.new ≡ false → state_of self.new ≡ files_did (WriteFile name.now at bytes.now) beat.new (state_of self.old)) }
        ensures goes { next_fate self.old beat.old ≡ Done → is_starved self.new ≡ false → IsOk result }
        ensures served { OnOk result (is_starved self.new ≡ is_starved self.old) }
        ensures call { calls_of self.new ≡ next (calls_of self.old) }
    {
        let fails = self.tally.begin();
        let fate = self.stop.fate(beat, fails);
        if let Fate::Nothing = fate {
            return Err(self.tally.failed());
        }
        match self.shelves.write(name, at, bytes, beat.at()) {
            Ok(()) => {}
            Err(_) => return Err(self.tally.starve()),
        }
        match fate {
            Fate::Done => Ok(()),
            _ => Err(self.tally.failed()),
        }
    }

    fn cut(&mut self, name: &[u8], len: u64, beat: &mut Beat) -> Result<(), Failed>
        requires { files_last_of (state_of self.old).calls ≤ beat.old }
        ensures done { OnOk result (state_of self.new ≡ files_did (CutFile name.now len) beat.new (state_of self.old)) }
        ensures cut_off { OnErr result (FilesWereCutOff (CutFile name.now len) beat.old beat.new (state_of self.old) (state_of self.new)) }
        ensures order { files_last_of (state_of self.new).calls ≤ beat.new }
        ensures beat { beat.new ≡ next beat.old }
        ensures forward { beat.old ≤ beat.new }
        ensures raised { OnOk result (beat.old < beat.new) }
        ensures later { faults_of self.old ≤ faults_of self.new }
        ensures cause { OnErr result (Rose (faults_of self.old) (faults_of self.new)) }
        ensures called { WasCalled beat.old self.old self.new }
        ensures nothing { next_fate self.old beat.old ≡ Nothing → IsErr result × (state_of self.new ≡ state_of self.old) }
        ensures under_way { next_fate self.old beat.old ≡ UnderWay → IsErr result × (is_starved self.new ≡ false → state_of self.new ≡ files_did (CutFile name.now len) beat.new (state_of self.old)) }
        ensures goes { next_fate self.old beat.old ≡ Done → is_starved self.new ≡ false → IsOk result }
        ensures served { OnOk result (is_starved self.new ≡ is_starved self.old) }
        ensures call { calls_of self.new ≡ next (calls_of self.old) }
    {
        let fails = self.tally.begin();
        let fate = self.stop.fate(beat, fails);
        if let Fate::Nothing = fate {
            return Err(self.tally.failed());
        }
        match self.shelves.cut(name, len, beat.at()) {
            Ok(()) => {}
            Err(_) => return Err(self.tally.starve()),
        }
        match fate {
            Fate::Done => Ok(()),
            _ => Err(self.tally.failed()),
        }
    }

    fn sync(&mut self, name: &[u8], beat: &mut Beat) -> Result<(), Failed>
        requires { files_last_of (state_of self.old).calls ≤ beat.old }
        ensures done { OnOk result (state_of self.new ≡ files_did (SyncFile name.now) beat.new (state_of self.old)) }
        ensures same { OnErr result (state_of self.new ≡ state_of self.old) }
        ensures order { files_last_of (state_of self.new).calls ≤ beat.new }
        ensures beat { beat.new ≡ next beat.old }
        ensures forward { beat.old ≤ beat.new }
        ensures raised { OnOk result (beat.old < beat.new) }
        ensures later { faults_of self.old ≤ faults_of self.new }
        ensures cause { OnErr result (Rose (faults_of self.old) (faults_of self.new)) }
        ensures called { WasCalled beat.old self.old self.new }
        ensures nothing { next_fate self.old beat.old ≡ Nothing → IsErr result × (state_of self.new ≡ state_of self.old) }
        ensures under_way { next_fate self.old beat.old ≡ UnderWay → IsErr result × (state_of self.new ≡ state_of self.old) }
        ensures goes { next_fate self.old beat.old ≡ Done → is_starved self.new ≡ false → IsOk result }
        ensures served { OnOk result (is_starved self.new ≡ is_starved self.old) }
        ensures call { calls_of self.new ≡ next (calls_of self.old) }
    {
        let fails = self.tally.begin();
        match self.stop.fate(beat, fails) {
            Fate::Done => {}
            _ => return Err(self.tally.failed()),
        }
        match self.shelves.sync(name, beat.at()) {
            Ok(()) => Ok(()),
            Err(_) => Err(self.tally.starve()),
        }
    }

    fn remove(&mut self, name: &[u8], beat: &mut Beat) -> Result<(), Failed>
        requires { files_last_of (state_of self.old).calls ≤ beat.old }
        ensures done { OnOk result (state_of self.new ≡ files_did (RemoveFile name.now) beat.new (state_of self.old)) }
        ensures cut_off { OnErr result (FilesWereCutOff (RemoveFile name.now) beat.old beat.new (state_of self.old) (state_of self.new)) }
        ensures order { files_last_of (state_of self.new).calls ≤ beat.new }
        ensures beat { beat.new ≡ next beat.old }
        ensures forward { beat.old ≤ beat.new }
        ensures raised { OnOk result (beat.old < beat.new) }
        ensures later { faults_of self.old ≤ faults_of self.new }
        ensures cause { OnErr result (Rose (faults_of self.old) (faults_of self.new)) }
        ensures called { WasCalled beat.old self.old self.new }
        ensures nothing { next_fate self.old beat.old ≡ Nothing → IsErr result × (state_of self.new ≡ state_of self.old) }
        ensures under_way { next_fate self.old beat.old ≡ UnderWay → IsErr result × (is_starved self.new ≡ false → state_of self.new ≡ files_did (RemoveFile name.now) beat.new (state_of self.old)) }
        ensures goes { next_fate self.old beat.old ≡ Done → is_starved self.new ≡ false → IsOk result }
        ensures served { OnOk result (is_starved self.new ≡ is_starved self.old) }
        ensures call { calls_of self.new ≡ next (calls_of self.old) }
    {
        let fails = self.tally.begin();
        let fate = self.stop.fate(beat, fails);
        if let Fate::Nothing = fate {
            return Err(self.tally.failed());
        }
        match self.shelves.remove(name, beat.at()) {
            Ok(()) => {}
            Err(_) => return Err(self.tally.starve()),
        }
        match fate {
            Fate::Done => Ok(()),
            _ => Err(self.tally.failed()),
        }
    }
}
