ghost use Rattle.cd_outside.specs.Doubt.{IsImage};

use crate::FaultScript;
use crate::fate::Fate;
use crate::stop::Stop;
use crate::tally::Tally;
use cd_memory_state::Content;
use cd_outside::{Beat, Disk, Failed};
use cd_types::NoMemory;
use std::alloc::Global;

/// A disk in memory, which keeps a record of all its changing calls.
#[derive(Drop)]
pub struct MemoryDisk {
    content: Content,
    tally: Tally,
    stop: Stop,
    ghost sound: { IsImage content.state.doubt content.state.seen },
}

impl MemoryDisk {
    ghost use Rattle.std.specs.Prelude.{◌≡◌, ◌+◌, ◌++◌, [], ◌∷◌, min, false, true, OnOk, OnErr, IfOk, Some, None};
    ghost use Rattle.cd_memory_state.specs.Record.{at_first};
    ghost use Rattle.cd_memory_state.specs.Generator.{left_by};
    ghost use Rattle.cd_memory.specs.MemoryDisk.{state_of, script_of, calls_of, faults_of, is_starved, stop_of, is_stopped, ChangesState, ChangesScript};

    /// An empty disk, whose calls of these numbers fail.
    pub fn new(alloc: Global, script: FaultScript) -> Result<Self, NoMemory>
        ensures empty { IfOk result (λ disk. state_of disk ≡ at_first []) }
        ensures script { IfOk result (λ disk. script_of disk ≡ script) }
        ensures calls { IfOk result (λ disk. calls_of disk ≡ 0) }
        ensures faults { IfOk result (λ disk. faults_of disk ≡ 0) }
        ensures fed { IfOk result (λ disk. is_starved disk ≡ false) }
        ensures goes_on { IfOk result (λ disk. (stop_of disk ≡ None) × (is_stopped disk ≡ false)) }
    {
        Ok(MemoryDisk {
            content: Content::new(alloc),
            tally: Tally::new(script),
            stop: Stop::none(),
        })
    }

    /// The k-th next call fails.
    pub fn fail(&mut self, k: u64) -> Result<(), NoMemory>
        ensures added { OnOk result (ChangesScript self.old self.new (script_of self.old ++ min (calls_of self.old + k) 18446744073709551615 ∷ [])) }
        ensures same { OnErr result (ChangesScript self.old self.new (script_of self.old)) }
    {
        self.tally.fail(k)
    }

    /// The changing call that raises to that beat is under way at a stop, and each later one comes to nothing.
    pub fn stop_at(&mut self, beat: u64)
        ensures set { (stop_of self.new ≡ Some beat) × (is_stopped self.new ≡ false) }
        ensures others { (state_of self.new ≡ state_of self.old) × (script_of self.new ≡ script_of self.old) × (calls_of self.new ≡ calls_of self.old) × (faults_of self.new ≡ faults_of self.old) × (is_starved self.new ≡ is_starved self.old) }
    {
        self.stop = Stop::at(beat);
    }

    /// A changing call met the stop.
    pub fn stopped(&self) -> bool
        ensures { result ≡ is_stopped self.now }
    {
        self.stop.reached
    }

    /// Leaves an image and ends the stop: 0 is the last sync, 1 what a read gives, each other one is generated with its
    /// number as seed. The image is settled.
    pub fn crash(&mut self, image: u64)
        ensures left { state_of self.new ≡ at_first (left_by image (state_of self.old).doubt (state_of self.old).seen) }
        ensures image { IsImage (state_of self.old).doubt (state_of self.new).seen }
        ensures ended { (stop_of self.new ≡ None) × (is_stopped self.new ≡ false) }
        ensures others { (script_of self.new ≡ script_of self.old) × (calls_of self.new ≡ calls_of self.old) × (faults_of self.new ≡ faults_of self.old) × (is_starved self.new ≡ is_starved self.old) }
    {
        self.content.leave(image);
        self.stop = Stop::none();
    }

    /// A call found no memory.
    pub fn starved(&self) -> bool
        ensures { result ≡ is_starved self.now }
    {
        self.tally.starved
    }

    /// Settles these bytes in place of all that was there.
    pub fn put(&mut self, bytes: &[u8]) -> Result<(), NoMemory>
        ensures put { OnOk result (ChangesState self.old self.new (at_first bytes.now)) }
        ensures same { OnErr result (ChangesState self.old self.new (state_of self.old)) }
    {
        self.content.put(bytes)
    }

    /// What a read gives.
    pub fn bytes(&self) -> &[u8]
        ensures { result.now ≡ (state_of self.now).seen }
    {
        self.content.seen()
    }
}

impl Disk for MemoryDisk {
    ghost use Rattle.std.specs.Prelude.{◌≡◌, ◌≤◌, ◌<◌, ◌+◌, length, take, drop, true, false, IsOk, IsErr, IfOk, OnOk, OnErr};
    ghost use Rattle.cd_outside.specs.Counts.{next, Rose};
    ghost use Rattle.cd_outside.specs.Disk.{Write, Cut, Sync, last_of, did, WasCutOff};
    ghost use Rattle.cd_memory.specs.MemoryDisk.{state_of, faults_of, is_starved, fails_next, next_fate, WasAsked, WasCalled};
    ghost use Rattle.cd_memory.specs.declared.fate.Fate.TheVariants.{Done, UnderWay, Nothing};

    ghost observable = { Unit {0} };

    ghost state = { λ disk. disk.content.state };

    ghost faults = { λ disk. disk.tally.faults };

    ghost seen_is_image = { λ disk told. disk.sound };

    fn len(&mut self) -> Result<u64, Failed>
        ensures same { state_of self.new ≡ state_of self.old }
        ensures length { IfOk result (λ n. n ≡ length (state_of self.old).seen) }
        ensures later { faults_of self.old ≤ faults_of self.new }
        ensures cause { OnErr result (Rose (faults_of self.old) (faults_of self.new)) }
        ensures asked { WasAsked self.old self.new }
        ensures fails { fails_next self.old ≡ true → IsErr result }
        ensures goes { fails_next self.old ≡ false → IsOk result }
    {
        if self.tally.begin() {
            return Err(self.tally.failed());
        }
        Ok(self.content.seen().len() as u64)
    }

    fn read(&mut self, at: u64, into: &mut [u8]) -> Result<(), Failed>
        requires { at + length into.old ≤ length (state_of self.old).seen }
        ensures same { state_of self.new ≡ state_of self.old }
        ensures bytes { OnOk result (into.new ≡ take (length into.old) (drop at (state_of self.old).seen)) }
        ensures none { OnErr result (into.new ≡ into.old) }
        ensures later { faults_of self.old ≤ faults_of self.new }
        ensures cause { OnErr result (Rose (faults_of self.old) (faults_of self.new)) }
        ensures asked { WasAsked self.old self.new }
        ensures fails { fails_next self.old ≡ true → IsErr result }
        ensures goes { fails_next self.old ≡ false → IsOk result }
    {
        if self.tally.begin() {
            return Err(self.tally.failed());
        }
        let at = at as usize;
        into.copy_from_slice(&self.content.seen()[at..at + into.len()]);
        Ok(())
    }

    fn write_at(&mut self, at: u64, bytes: &[u8], beat: &mut Beat) -> Result<(), Failed>
        requires range { at ≤ length (state_of self.old).seen }
        requires order { last_of (state_of self.old).calls ≤ beat.old }
        ensures done { OnOk result (state_of self.new ≡ did (Write at bytes.now) beat.new (state_of self.old)) }
        ensures cut_off { OnErr result (WasCutOff (Write at bytes.now) beat.old beat.new (state_of self.old) (state_of self.new)) }
        ensures order { last_of (state_of self.new).calls ≤ beat.new }
        ensures beat { beat.new ≡ next beat.old }
        ensures forward { beat.old ≤ beat.new }
        ensures raised { OnOk result (beat.old < beat.new) }
        ensures later { faults_of self.old ≤ faults_of self.new }
        ensures cause { OnErr result (Rose (faults_of self.old) (faults_of self.new)) }
        ensures called { WasCalled beat.old self.old self.new }
        ensures nothing { next_fate self.old beat.old ≡ Nothing → IsErr result × (state_of self.new ≡ state_of self.old) }
        ensures under_way { next_fate self.old beat.old ≡ UnderWay → IsErr result × (is_starved self.new ≡ false → state_of self.new ≡ did (Write at bytes.now) beat.new (state_of self.old)) }
        ensures goes { next_fate self.old beat.old ≡ Done → is_starved self.new ≡ false → IsOk result }
        ensures served { OnOk result (is_starved self.new ≡ is_starved self.old) }
    {
        let fails = self.tally.begin();
        let fate = self.stop.fate(beat, fails);
        if let Fate::Nothing = fate {
            return Err(self.tally.failed());
        }
        match self.content.room(1, bytes.len()) {
            Ok(()) => {}
            Err(_) => return Err(self.tally.starve()),
        }
        self.content.write(at, bytes, beat.at());
        match fate {
            Fate::Done => Ok(()),
            _ => Err(self.tally.failed()),
        }
    }

    fn cut(&mut self, len: u64, beat: &mut Beat) -> Result<(), Failed>
        requires { last_of (state_of self.old).calls ≤ beat.old }
        ensures done { OnOk result (state_of self.new ≡ did (Cut len) beat.new (state_of self.old)) }
        ensures cut_off { OnErr result (WasCutOff (Cut len) beat.old beat.new (state_of self.old) (state_of self.new)) }
        ensures order { last_of (state_of self.new).calls ≤ beat.new }
        ensures beat { beat.new ≡ next beat.old }
        ensures forward { beat.old ≤ beat.new }
        ensures raised { OnOk result (beat.old < beat.new) }
        ensures later { faults_of self.old ≤ faults_of self.new }
        ensures cause { OnErr result (Rose (faults_of self.old) (faults_of self.new)) }
        ensures called { WasCalled beat.old self.old self.new }
        ensures nothing { next_fate self.old beat.old ≡ Nothing → IsErr result × (state_of self.new ≡ state_of self.old) }
        ensures under_way { next_fate self.old beat.old ≡ UnderWay → IsErr result × (is_starved self.new ≡ false → state_of self.new ≡ did (Cut len) beat.new (state_of self.old)) }
        ensures goes { next_fate self.old beat.old ≡ Done → is_starved self.new ≡ false → IsOk result }
        ensures served { OnOk result (is_starved self.new ≡ is_starved self.old) }
    {
        let fails = self.tally.begin();
        let fate = self.stop.fate(beat, fails);
        if let Fate::Nothing = fate {
            return Err(self.tally.failed());
        }
        let longer = (len as usize).saturating_sub(self.content.seen().len());
        match self.content.room(1, longer) {
            Ok(()) => {}
            Err(_) => return Err(self.tally.starve()),
        }
        self.content.cut(len, beat.at());
        match fate {
            Fate::Done => Ok(()),
            _ => Err(self.tally.failed()),
        }
    }

    fn sync(&mut self, beat: &mut Beat) -> Result<(), Failed>
        requires { last_of (state_of self.old).calls ≤ beat.old }
        ensures done { OnOk result (state_of self.new ≡ did Sync beat.new (state_of self.old)) }
        ensures same { OnErr result (state_of self.new ≡ state_of self.old) }
        ensures order { last_of (state_of self.new).calls ≤ beat.new }
        ensures beat { beat.new ≡ next beat.old }
        ensures forward { beat.old ≤ beat.new }
        ensures raised { OnOk result (beat.old < beat.new) }
        ensures later { faults_of self.old ≤ faults_of self.new }
        ensures cause { OnErr result (Rose (faults_of self.old) (faults_of self.new)) }
        ensures called { WasCalled beat.old self.old self.new }
        ensures nothing { next_fate self.old beat.old ≡ Nothing → IsErr result × (state_of self.new ≡ state_of self.old) }
        ensures under_way { next_fate self.old beat.old ≡ UnderWay → IsErr result × (state_of self.new ≡ state_of self.old) }
        ensures goes { next_fate self.old beat.old ≡ Done → is_starved self.new ≡ false → IsOk result }
        ensures served { OnOk result (is_starved self.new ≡ is_starved self.old) }
    {
        let fails = self.tally.begin();
        match self.stop.fate(beat, fails) {
            Fate::Done => {}
            _ => return Err(self.tally.failed()),
        }
        match self.content.room(1, 0) {
            Ok(()) => {}
            Err(_) => return Err(self.tally.starve()),
        }
        self.content.sync(beat.at());
        Ok(())
    }
}
