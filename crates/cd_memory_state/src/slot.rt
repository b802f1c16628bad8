ghost use Rattle.std.specs.Prelude.{◌≡◌, ◌≤◌, [], reverse, IfOk, OnOk, OnErr, Some, None, option_map};
ghost use Rattle.cd_outside.specs.Shelf.{WriteFile, CutFile, RemoveFile};
ghost use Rattle.cd_memory_state.specs.FileImage.{file_left_by};
ghost use Rattle.cd_memory_state.specs.Held.{held_settled, held_after};
ghost use Rattle.cd_memory_state.specs.Marks.{AreMarks};
ghost use Rattle.cd_memory_state.specs.Sound.{IsSound};

use crate::bytes::{append_within, replace_within, reserve_to, resize_within, write_within};
use crate::image::{InDoubt, leave_file};
use crate::marks::Marks;
use cd_types::NoMemory;
use std::alloc::Global;
use std::marker::Model;
use std::mem;

/// A name with its file, or none, and what is in doubt of it.
#[derive(Drop)]
pub struct Slot {
    name: Vec<u8>,
    exists: bool,
    seen: Vec<u8>,
    there: bool,
    moved: bool,
    base: Vec<u8>,
    ranges: Vec<(u64, u64)>,
    least: usize,
    greatest: usize,
}

impl Model for Slot {
    ghost use Rattle.cd_memory_state.specs.Held.{SlotHeld};

    ghost Value = { SlotHeld };

    ghost use Rattle.cd_memory_state.specs.Slot.{slot_in, IsTidy};

    ghost view = { slot_in };

    ghost invariant = { IsTidy };
}

impl Slot {
    /// A name without a file.
    pub fn new(alloc: Global, name: Vec<u8>) -> Self
        ensures name { result.name ≡ name.items }
        ensures file { result.file ≡ held_settled None }
    {
        Slot {
            name,
            exists: false,
            seen: Vec::new(alloc),
            there: false,
            moved: false,
            base: Vec::new(alloc),
            ranges: Vec::new(alloc),
            least: 0,
            greatest: 0,
        }
    }

    /// The name.
    pub fn name(&self) -> &[u8]
        ensures { result.now ≡ self.now.name }
    {
        &self.name
    }

    /// The file that a read gives.
    pub fn seen(&self) -> Option<&[u8]>
        ensures { option_map (λ bytes. bytes.now) result ≡ self.now.file.seen }
    {
        if self.exists { Some(&self.seen) } else { None }
    }

    /// What is in doubt but for the bytes.
    pub fn marks(&self) -> Marks
        ensures { AreMarks result self.now.file.doubt }
    {
        Marks {
            there: self.there,
            moved: self.moved,
            least: self.least,
            greatest: self.greatest,
        }
    }

    /// Writes over what is there, and past the end.
    pub fn write(&mut self, at: u64, bytes: &[u8]) -> Result<(), NoMemory>
        ensures name { self.new.name ≡ self.old.name }
        ensures file { OnOk result (self.new.file ≡ held_after (WriteFile self.old.name at bytes.now) self.old.file) }
        ensures same { OnErr result (self.new.file ≡ self.old.file) }
        ensures sound { IsSound self.new.file }
    {
        self.ranges.reserve(1)?;
        let Some(end) = (at as usize).checked_add(bytes.len()) else {
            return Err(NoMemory);
        };
        reserve_to(&mut self.seen, end.max(self.greatest))?;
        reserve_to(&mut self.base, end.max(self.greatest))?;
        self.ranges.push_reserved((at, bytes.len() as u64));
        write_within(&mut self.seen, at as usize, bytes);
        self.moved = self.moved || !self.exists;
        self.exists = true;
        self.greatest = self.greatest.max(end);
        Ok(())
    }

    /// Cuts to a length, or makes longer by zeros.
    pub fn cut(&mut self, len: u64) -> Result<(), NoMemory>
        ensures name { self.new.name ≡ self.old.name }
        ensures file { OnOk result (self.new.file ≡ held_after (CutFile self.old.name len) self.old.file) }
        ensures same { OnErr result (self.new.file ≡ self.old.file) }
        ensures sound { IsSound self.new.file }
    {
        let len = len as usize;
        reserve_to(&mut self.seen, len.max(self.greatest))?;
        reserve_to(&mut self.base, len.max(self.greatest))?;
        resize_within(&mut self.seen, len);
        self.moved = self.moved || !self.exists;
        self.exists = true;
        self.least = self.least.min(len);
        self.greatest = self.greatest.max(len);
        Ok(())
    }

    /// Removes the file, where there is one.
    pub fn remove(&mut self)
        ensures name { self.new.name ≡ self.old.name }
        ensures file { self.new.file ≡ held_after (RemoveFile self.old.name) self.old.file }
        ensures sound { IsSound self.new.file }
    {
        if self.exists {
            self.seen.clear();
            self.exists = false;
            self.moved = true;
            self.least = 0;
        }
    }

    /// Settles what a read gives, and hands back the bytes and the ranges that were in doubt.
    pub fn sync(&mut self, alloc: Global) -> Result<(Vec<u8>, Vec<(u64, u64)>), NoMemory>
        ensures name { self.new.name ≡ self.old.name }
        ensures file { OnOk result (self.new.file ≡ held_settled self.old.file.seen) }
        ensures base { IfOk result (λ old. old.0.items ≡ self.old.file.doubt.bytes.base) }
        ensures ranges { IfOk result (λ old. reverse old.1.items ≡ self.old.file.doubt.bytes.ranges) }
        ensures same { OnErr result (self.new.file ≡ self.old.file) }
        ensures sound { IsSound self.new.file }
    {
        let mut base = Vec::with_capacity(alloc, self.seen.len())?;
        append_within(&mut base, &self.seen);
        let base = mem::replace(&mut self.base, base);
        let ranges = mem::replace(&mut self.ranges, Vec::new(alloc));
        self.there = self.exists;
        self.moved = false;
        self.least = self.seen.len();
        self.greatest = self.seen.len();
        Ok((base, ranges))
    }

    /// A crash leaves the image of that number, which is settled.
    pub fn leave(&mut self, image: u64)
        ensures name { self.new.name ≡ self.old.name }
        ensures file { self.new.file ≡ held_settled (file_left_by image self.old.file.doubt self.old.file.seen) }
    {
        let doubt = InDoubt {
            base: &self.base,
            ranges: &self.ranges,
            least: self.least,
            greatest: self.greatest,
        };
        let marks = (self.there, self.moved, self.exists);
        self.exists = leave_file(&mut self.seen, marks, doubt, image);
        replace_within(&mut self.base, &self.seen);
        self.ranges.clear();
        self.there = self.exists;
        self.moved = false;
        self.least = self.seen.len();
        self.greatest = self.seen.len();
    }

    /// Settles these bytes in place of what was there.
    pub fn put(&mut self, bytes: &[u8]) -> Result<(), NoMemory>
        ensures name { self.new.name ≡ self.old.name }
        ensures file { OnOk result (self.new.file ≡ held_settled (Some bytes.now)) }
        ensures same { OnErr result (self.new.file ≡ self.old.file) }
        ensures sound { IsSound self.new.file }
    {
        reserve_to(&mut self.seen, bytes.len().max(self.greatest))?;
        reserve_to(&mut self.base, bytes.len().max(self.greatest))?;
        replace_within(&mut self.seen, bytes);
        replace_within(&mut self.base, bytes);
        self.ranges.clear();
        self.exists = true;
        self.there = true;
        self.moved = false;
        self.least = bytes.len();
        self.greatest = bytes.len();
        Ok(())
    }
}
