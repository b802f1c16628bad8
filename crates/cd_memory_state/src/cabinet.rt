ghost use Rattle.std.specs.Prelude.{◌≡◌, ◌≤◌, ◌<◌, ◌+◌, ◌-◌, ◌^◌, [], length, Some, None, IfSome, IsOk, OnOk, option_map, slice_get};
ghost use Rattle.std.specs.List.{position_from};
ghost use Rattle.std.specs.Str.{bytes_eq};
ghost use Rattle.cd_outside.specs.Content.{overwritten, resized};
ghost use Rattle.cd_outside.specs.Shelf.{content_of, put};
ghost use Rattle.cd_memory_state.specs.Cabinet.{file_in};
ghost use Rattle.cd_memory_state.specs.Names.{gap_from, AreNames, IsAt};

use crate::parts::Parts;
use cd_types::NoMemory;
use std::alloc::Global;
use std::marker::Model;

/// Files by their names, in the order of the names. Contracts see the names, the file of each, and for how many further
/// ones there is room, with how many bytes in all; the bytes of a name count.
#[derive(Drop)]
pub struct Cabinet {
    names: Parts,
    files: Parts,
}

impl Model for Cabinet {
    ghost use Rattle.std.specs.Prelude.{◌≡◌, length, min, true};
    ghost use Rattle.cd_memory_state.specs.Cabinet.{CabinetHeld};
    ghost use Rattle.cd_memory_state.specs.Names.{are_ascending};

    ghost Value = { CabinetHeld };

    ghost view = { λ cabinet. record { names = cabinet.names.items; files = cabinet.files.items; files_left = min cabinet.names.parts_left cabinet.files.parts_left; bytes_left = min cabinet.names.bytes_left cabinet.files.bytes_left } };

    ghost invariant = { λ cabinet. (length cabinet.files.items ≡ length cabinet.names.items) × (are_ascending cabinet.names.items ≡ true) };
}

impl Cabinet {
    /// No files, and no room.
    pub fn new(alloc: Global) -> Self
        ensures names { result.names ≡ [] }
        ensures file { file_in result ≡ (λ name. None) }
    {
        Cabinet {
            names: Parts::new(alloc),
            files: Parts::new(alloc),
        }
    }

    /// Takes room for that many further files with so many bytes in all; none where it is there.
    pub fn room(&mut self, files: usize, bytes: usize) -> Result<(), NoMemory>
        ensures names { self.new.names ≡ self.old.names }
        ensures file { file_in self.new ≡ file_in self.old }
        ensures files { OnOk result (files ≤ self.new.files_left) }
        ensures bytes { OnOk result (bytes ≤ self.new.bytes_left) }
        ensures more_files { self.old.files_left ≤ self.new.files_left }
        ensures more_bytes { self.old.bytes_left ≤ self.new.bytes_left }
        ensures there { files ≤ self.old.files_left → bytes ≤ self.old.bytes_left → IsOk result }
        ensures range { OnOk result (self.new.bytes_left < 2 ^ 63) }
    {
        self.names.room(files, bytes)?;
        self.files.room(files, bytes)
    }

    /// The names are those that have a file, in the order of their bytes.
    pub fn name(&self, i: usize) -> Option<&[u8]>
        ensures name { option_map (λ bytes. bytes.now) result ≡ slice_get self.now.names i }
        ensures names { AreNames self.now.names (file_in self.now) }
    {
        if i < self.names.count() {
            Some(self.names.part(i))
        } else {
            None
        }
    }

    /// The file of a name.
    pub fn seen(&self, name: &[u8]) -> Option<&[u8]>
        ensures { option_map (λ bytes. bytes.now) result ≡ file_in self.now name.now }
    {
        match find(&self.names, name) {
            Some(i) => Some(self.files.part(i)),
            None => None,
        }
    }

    // The place of a name, which gets a file without bytes where it has none.
    fn place(&mut self, name: &[u8]) -> usize
        requires files { 1 ≤ self.old.files_left }
        requires bytes { length name.now ≤ self.old.bytes_left }
        ensures at { IsAt self.new.names name.now result }
        ensures file { file_in self.new ≡ put name.now (Some (content_of (file_in self.old name.now))) (file_in self.old) }
        ensures files { self.old.files_left ≤ self.new.files_left + 1 }
        ensures bytes { self.old.bytes_left ≤ self.new.bytes_left + length name.now }
    {
        match find(&self.names, name) {
            Some(i) => i,
            None => {
                let i = gap(&self.names, name);
                self.names.insert(i);
                self.names.write(i, 0, name);
                self.files.insert(i);
                i
            }
        }
    }

    /// Writes over what is there, and past the end; between the old end and a later place stand zeros. A missing file is
    /// made.
    pub fn write(&mut self, name: &[u8], at: usize, bytes: &[u8])
        requires files { 1 ≤ self.old.files_left }
        requires bytes { length name.now + (at + length bytes.now - length (content_of (file_in self.old name.now))) ≤ self.old.bytes_left }
        ensures file { file_in self.new ≡ put name.now (Some (overwritten at bytes.now (content_of (file_in self.old name.now)))) (file_in self.old) }
        ensures files { self.old.files_left ≤ self.new.files_left + 1 }
        ensures bytes { self.old.bytes_left ≤ self.new.bytes_left + (length name.now + (at + length bytes.now - length (content_of (file_in self.old name.now)))) }
    {
        let i = self.place(name);
        self.files.write(i, at, bytes);
    }

    /// Cuts to a length, or makes longer by zeros. A missing file is made.
    pub fn cut(&mut self, name: &[u8], len: usize)
        requires files { 1 ≤ self.old.files_left }
        requires bytes { length name.now + (len - length (content_of (file_in self.old name.now))) ≤ self.old.bytes_left }
        ensures file { file_in self.new ≡ put name.now (Some (resized len (content_of (file_in self.old name.now)))) (file_in self.old) }
        ensures files { self.old.files_left ≤ self.new.files_left + 1 }
        ensures bytes { self.old.bytes_left ≤ self.new.bytes_left + (length name.now + (len - length (content_of (file_in self.old name.now)))) }
    {
        let i = self.place(name);
        self.files.cut(i, len);
    }

    /// Removes a file, where there is one.
    pub fn remove(&mut self, name: &[u8])
        ensures file { file_in self.new ≡ put name.now None (file_in self.old) }
        ensures files { self.old.files_left ≤ self.new.files_left }
        ensures bytes { self.old.bytes_left ≤ self.new.bytes_left }
    {
        match find(&self.names, name) {
            Some(i) => {
                self.names.remove(i);
                self.files.remove(i);
            }
            None => {}
        }
    }
}

// The place of a name.
fn find(names: &Parts, name: &[u8]) -> Option<usize>
    ensures place { result ≡ position_from (λ one. bytes_eq one name.now) 0 names.now.items }
    ensures bound { IfSome result (λ i. i < length names.now.items) }
{
    for i in 0..names.count() {
        if names.part(i) == name {
            return Some(i);
        }
    }
    None
}

// The place where a name goes.
fn gap(names: &Parts, name: &[u8]) -> usize
    ensures { result ≡ gap_from name.now 0 names.now.items }
{
    for i in 0..names.count() {
        if name < names.part(i) {
            return i;
        }
    }
    names.count()
}
