ghost use Rattle.std.specs.Prelude.{◌≡◌, ◌≤◌, length, map, true};
ghost use Rattle.cd_memory_state.specs.Left.{left_slot};
ghost use Rattle.cd_memory_state.specs.Names.{are_ascending, gap_from};
ghost use Rattle.cd_memory_state.specs.Sound.{AreSound, AreSound-prop};
ghost use Rattle.cd_memory_state.specs.There.{names_of};

use crate::past::{Past, Undo};
use crate::slot::Slot;
use cd_types::NoMemory;
use std::alloc::Global;

/// Files by their names, with a record of all their changing calls.
#[derive(Drop)]
pub struct Shelves {
    alloc: Global,
    slots: Vec<Slot>,
    past: Vec<Past>,
    ghost sound: { AreSound slots.items } by { AreSound-prop slots.items },
    ghost sorted: { are_ascending (names_of slots.items) ≡ true },
}

impl Shelves {
    ghost use Rattle.std.specs.Prelude.{◌≡◌, ◌<◌, Some, None, IfOk, OnOk, OnErr, IfSome, option_map, slice_get, vec_len, vec_capacity};
    ghost use Rattle.std.specs.Str.{bytes_eq};
    ghost use Rattle.std.specs.List.{position_from};
    ghost use Rattle.cd_outside.specs.Shelf.{IsShelfImage, WriteFile, CutFile, SyncFile, RemoveFile};
    ghost use Rattle.cd_outside.specs.Files.{files_at_first, files_did};
    ghost use Rattle.cd_memory_state.specs.FileImage.{shelf_left_by};
    ghost use Rattle.cd_memory_state.specs.Place.{IsPlace};
    ghost use Rattle.cd_memory_state.specs.Put.{files_put};
    ghost use Rattle.cd_memory_state.specs.Names.{AreNames};
    ghost use Rattle.cd_memory_state.specs.Shelves.{state_in, names_in};

    /// No files.
    pub fn new(alloc: Global) -> Self
        ensures { state_in result ≡ files_at_first (λ name. None) }
    {
        Shelves {
            alloc,
            slots: Vec::new(alloc),
            past: Vec::new(alloc),
        }
    }

    // The place of a name.
    fn find(&self, name: &[u8]) -> Option<usize>
        ensures place { result ≡ position_from (λ slot. bytes_eq slot.name name.now) 0 self.now.slots.items }
        ensures bound { IfSome result (λ i. i < vec_len self.now.slots) }
    {
        self.slots.iter().position(|slot| slot.name() == name)
    }

    /// The file that a read gives.
    pub fn seen(&self, name: &[u8]) -> Option<&[u8]>
        ensures { option_map (λ bytes. bytes.now) result ≡ (state_in self.now).shelf.seen name.now }
    {
        match self.find(name) {
            Some(i) => self.slots[i].seen(),
            None => None,
        }
    }

    /// The i-th name, in the order of their bytes, of the files that a read gives.
    pub fn name(&self, i: usize) -> Option<&[u8]>
        ensures name { option_map (λ bytes. bytes.now) result ≡ slice_get (names_in self.now) i }
        ensures names { AreNames (names_in self.now) (state_in self.now).shelf.seen }
    {
        let mut left = i;
        for place in 0..self.slots.len() {
            if self.slots[place].seen().is_some() {
                if left == 0 {
                    return Some(self.slots[place].name());
                }
                left -= 1;
            }
        }
        None
    }

    // The place of a name, which is made where there is none.
    fn place(&mut self, name: &[u8]) -> Result<usize, NoMemory>
        ensures place { IfOk result (λ i. IsPlace self.new.slots.items name.now i) }
        ensures bound { IfOk result (λ i. i < vec_len self.new.slots) }
        ensures state { state_in self.new ≡ state_in self.old }
        ensures past { self.new.past ≡ self.old.past }
    {
        match self.find(name) {
            Some(i) => return Ok(i),
            None => {}
        }
        let slot = Slot::new(self.alloc, Vec::from_slice(self.alloc, name)?);
        let i = gap(&self.slots, name);
        self.slots.insert(i, slot)?;
        Ok(i)
    }

    // The place of a name, with room for a call on it in the record, and the name's bytes for that.
    fn ready(&mut self, name: &[u8]) -> Result<(usize, Vec<u8>), NoMemory>
        ensures place { IfOk result (λ ready. IsPlace self.new.slots.items name.now ready.0) }
        ensures bound { IfOk result (λ ready. ready.0 < vec_len self.new.slots) }
        ensures name { IfOk result (λ ready. ready.1.items ≡ name.now) }
        ensures room { OnOk result (vec_len self.new.past < vec_capacity self.new.past) }
        ensures state { state_in self.new ≡ state_in self.old }
    {
        let kept = Vec::from_slice(self.alloc, name)?;
        self.past.reserve(1)?;
        let i = self.place(name)?;
        Ok((i, kept))
    }

    /// Writes over what is there, and past the end; a missing file is made.
    pub fn write(&mut self, name: &[u8], at: u64, bytes: &[u8], beat: u64) -> Result<(), NoMemory>
        ensures done { OnOk result (state_in self.new ≡ files_did (WriteFile name.now at bytes.now) beat (state_in self.old)) }
        ensures same { OnErr result (state_in self.new ≡ state_in self.old) }
    {
        let (i, kept) = self.ready(name)?;
        let slot = &mut self.slots[i];
        let marks = slot.marks();
        slot.write(at, bytes)?;
        self.past
            .push_reserved(Past::new(beat, kept, marks, Undo::Wrote));
        Ok(())
    }

    /// Cuts to a length, or makes longer by zeros; a missing file is made.
    pub fn cut(&mut self, name: &[u8], len: u64, beat: u64) -> Result<(), NoMemory>
        ensures done { OnOk result (state_in self.new ≡ files_did (CutFile name.now len) beat (state_in self.old)) }
        ensures same { OnErr result (state_in self.new ≡ state_in self.old) }
    {
        let (i, kept) = self.ready(name)?;
        let slot = &mut self.slots[i];
        let marks = slot.marks();
        slot.cut(len)?;
        self.past
            .push_reserved(Past::new(beat, kept, marks, Undo::Resized));
        Ok(())
    }

    /// Removes a file, where there is one.
    pub fn remove(&mut self, name: &[u8], beat: u64) -> Result<(), NoMemory>
        ensures done { OnOk result (state_in self.new ≡ files_did (RemoveFile name.now) beat (state_in self.old)) }
        ensures same { OnErr result (state_in self.new ≡ state_in self.old) }
    {
        let (i, kept) = self.ready(name)?;
        let slot = &mut self.slots[i];
        let marks = slot.marks();
        slot.remove();
        self.past
            .push_reserved(Past::new(beat, kept, marks, Undo::Resized));
        Ok(())
    }

    /// Settles what a read gives of a name.
    pub fn sync(&mut self, name: &[u8], beat: u64) -> Result<(), NoMemory>
        ensures done { OnOk result (state_in self.new ≡ files_did (SyncFile name.now) beat (state_in self.old)) }
        ensures same { OnErr result (state_in self.new ≡ state_in self.old) }
    {
        let alloc = self.alloc;
        let (i, kept) = self.ready(name)?;
        let slot = &mut self.slots[i];
        let marks = slot.marks();
        let (base, ranges) = slot.sync(alloc)?;
        self.past
            .push_reserved(Past::new(beat, kept, marks, Undo::Synced(base, ranges)));
        Ok(())
    }

    /// Settles these bytes under a name in place of what was there, and forgets the calls of the past.
    pub fn put(&mut self, name: &[u8], bytes: &[u8]) -> Result<(), NoMemory>
        ensures put { OnOk result (state_in self.new ≡ files_put name.now bytes.now (state_in self.old)) }
        ensures same { OnErr result (state_in self.new ≡ state_in self.old) }
    {
        let i = self.place(name)?;
        let slot = &mut self.slots[i];
        slot.put(bytes)?;
        self.past.clear();
        Ok(())
    }

    /// A crash leaves the image of that number of each name, all of it settled, and the calls of the past are forgotten.
    pub fn leave(&mut self, image: u64)
        ensures state { state_in self.new ≡ files_at_first (shelf_left_by image (state_in self.old).shelf) }
        ensures image { IsShelfImage (state_in self.old).shelf.doubt (state_in self.new).shelf.seen }
    {
        leave_all(&mut self.slots, image);
        self.past.clear();
    }
}

// The place where a name goes.
fn gap(slots: &[Slot], name: &[u8]) -> usize
    ensures place { result ≡ gap_from name.now 0 (names_of slots.now) }
    ensures bound { result ≤ length slots.now }
{
    for i in 0..slots.len() {
        if name < slots[i].name() {
            return i;
        }
    }
    slots.len()
}

// Leaves the image of that number of each slot.
fn leave_all(slots: &mut [Slot], image: u64)
    ensures { slots.new ≡ map (left_slot image) slots.old }
{
    for slot in slots.iter_mut() {
        slot.leave(image);
    }
}
