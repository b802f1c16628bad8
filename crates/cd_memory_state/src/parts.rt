ghost use Rattle.std.specs.Prelude.{◌≡◌, ◌≤◌, ◌<◌, ◌+◌, ◌-◌, ◌^◌, ◌++◌, [], ◌∷◌, length, take, drop, slice_index_or, slice_set, insert, remove, vec_len, vec_capacity, IsOk, OnOk};
ghost use Rattle.cd_outside.specs.Content.{overwritten, resized};
ghost use Rattle.cd_memory_state.specs.Parts.{extent};

use crate::bytes::{append_within, close_within, open_within, overwrite_within};
use cd_types::NoMemory;
use std::alloc::Global;
use std::marker::Model;

/// Byte strings that lie one behind the other in one buffer, so that they share its room. Contracts see the list of them,
/// and for how many more there is room, with how many bytes in all.
#[derive(Drop)]
pub struct Parts {
    sizes: Vec<usize>,
    bytes: Vec<u8>,
}

impl Model for Parts {
    ghost use Rattle.std.specs.Prelude.{◌-◌, ◌≡◌, length, vec_len, vec_capacity};
    ghost use Rattle.cd_memory_state.specs.Parts.{PartsHeld, cut_up, extent};

    ghost Value = { PartsHeld };

    ghost view = { λ parts. record { items = cut_up parts.sizes.items parts.bytes.items; parts_left = vec_capacity parts.sizes - vec_len parts.sizes; bytes_left = vec_capacity parts.bytes - vec_len parts.bytes } };

    ghost invariant = { λ parts. extent parts.sizes.items ≡ length parts.bytes.items };
}

impl Parts {
    /// None, and no room.
    pub fn new(alloc: Global) -> Self
        ensures { result.items ≡ [] }
    {
        Parts {
            sizes: Vec::new(alloc),
            bytes: Vec::new(alloc),
        }
    }

    /// Takes room for that many more with so many bytes in all; none where it is there.
    pub fn room(&mut self, parts: usize, bytes: usize) -> Result<(), NoMemory>
        ensures items { self.new.items ≡ self.old.items }
        ensures parts { OnOk result (parts ≤ self.new.parts_left) }
        ensures bytes { OnOk result (bytes ≤ self.new.bytes_left) }
        ensures more_parts { self.old.parts_left ≤ self.new.parts_left }
        ensures more_bytes { self.old.bytes_left ≤ self.new.bytes_left }
        ensures there { parts ≤ self.old.parts_left → bytes ≤ self.old.bytes_left → IsOk result }
        ensures range { self.new.bytes_left < 2 ^ 63 }
    {
        self.sizes.reserve(parts)?;
        self.bytes.reserve(bytes)?;
        Ok(())
    }

    /// How many there are.
    pub fn count(&self) -> usize
        ensures { result ≡ length self.now.items }
    {
        self.sizes.len()
    }

    /// The one at that place.
    pub fn part(&self, i: usize) -> &[u8]
        requires { i < length self.now.items }
        ensures part { result.now ≡ slice_index_or self.now.items i [] }
        ensures range { length result.now + self.now.bytes_left < 2 ^ 63 }
    {
        part_of(&self.bytes, begin(&self.sizes, i), self.sizes[i])
    }

    /// Adds one behind the last.
    pub fn push(&mut self, bytes: &[u8])
        requires parts { 1 ≤ self.old.parts_left }
        requires bytes { length bytes.now ≤ self.old.bytes_left }
        ensures items { self.new.items ≡ self.old.items ++ bytes.now ∷ [] }
        ensures parts { self.old.parts_left ≤ self.new.parts_left + 1 }
        ensures bytes { self.old.bytes_left ≤ self.new.bytes_left + length bytes.now }
    {
        self.sizes.push_reserved(bytes.len());
        append_within(&mut self.bytes, bytes);
    }

    /// Puts one without bytes at that place, before those from there on.
    pub fn insert(&mut self, i: usize)
        requires place { i ≤ length self.old.items }
        requires parts { 1 ≤ self.old.parts_left }
        ensures items { self.new.items ≡ insert self.old.items i [] }
        ensures parts { self.old.parts_left ≤ self.new.parts_left + 1 }
        ensures bytes { self.old.bytes_left ≤ self.new.bytes_left }
    {
        insert_within(&mut self.sizes, i);
    }

    /// Cuts the one at that place to a size, or makes it longer by zeros.
    pub fn cut(&mut self, i: usize, size: usize)
        requires place { i < length self.old.items }
        requires bytes { size ≤ length (slice_index_or self.old.items i []) + self.old.bytes_left }
        ensures items { self.new.items ≡ slice_set self.old.items i (resized size (slice_index_or self.old.items i [])) }
        ensures parts { self.old.parts_left ≤ self.new.parts_left }
        ensures bytes { self.old.bytes_left + length (slice_index_or self.old.items i []) ≤ self.new.bytes_left + size }
    {
        let old = self.sizes[i];
        let end = begin(&self.sizes, i) + old;
        self.sizes[i] = size;
        if size < old {
            close_within(&mut self.bytes, end - (old - size), old - size);
        } else {
            open_within(&mut self.bytes, end, size - old);
        }
    }

    // Writes over the one at that place, within its size.
    fn overwrite(&mut self, i: usize, at: usize, bytes: &[u8])
        requires place { i < length self.old.items }
        requires within { at + length bytes.now ≤ length (slice_index_or self.old.items i []) }
        ensures items { self.new.items ≡ slice_set self.old.items i (take at (slice_index_or self.old.items i []) ++ bytes.now ++ drop (at + length bytes.now) (slice_index_or self.old.items i [])) }
        ensures parts { self.old.parts_left ≤ self.new.parts_left }
        ensures bytes { self.old.bytes_left ≤ self.new.bytes_left }
    {
        let from = begin(&self.sizes, i) + at;
        overwrite_within(&mut self.bytes, from, bytes);
    }

    /// Writes over the one at that place, from a place of its own on and past its end. Between the old end and a later place
    /// stand zeros.
    pub fn write(&mut self, i: usize, at: usize, bytes: &[u8])
        requires place { i < length self.old.items }
        requires bytes { at + length bytes.now ≤ length (slice_index_or self.old.items i []) + self.old.bytes_left }
        ensures items { self.new.items ≡ slice_set self.old.items i (overwritten at bytes.now (slice_index_or self.old.items i [])) }
        ensures parts { self.old.parts_left ≤ self.new.parts_left }
        ensures bytes { self.old.bytes_left ≤ self.new.bytes_left + (at + length bytes.now - length (slice_index_or self.old.items i [])) }
    {
        let old = self.part(i).len();
        let end = at + bytes.len();
        if old < end {
            self.cut(i, end);
            self.overwrite(i, at, bytes);
        } else {
            self.overwrite(i, at, bytes);
        }
    }

    /// Adds bytes behind those of the one at that place.
    pub fn append(&mut self, i: usize, bytes: &[u8])
        requires place { i < length self.old.items }
        requires bytes { length bytes.now ≤ self.old.bytes_left }
        ensures items { self.new.items ≡ slice_set self.old.items i (slice_index_or self.old.items i [] ++ bytes.now) }
        ensures parts { self.old.parts_left ≤ self.new.parts_left }
        ensures bytes { self.old.bytes_left ≤ self.new.bytes_left + length bytes.now }
    {
        let end = self.part(i).len();
        self.write(i, end, bytes);
    }

    /// Takes out the one at that place.
    pub fn remove(&mut self, i: usize)
        requires { i < length self.old.items }
        ensures items { self.new.items ≡ remove self.old.items i }
        ensures parts { self.old.parts_left ≤ self.new.parts_left }
        ensures bytes { self.old.bytes_left ≤ self.new.bytes_left }
    {
        self.cut(i, 0);
        let _ = self.sizes.remove(i);
    }
}

// Where the one at that place begins.
fn begin(sizes: &[usize], i: usize) -> usize
    requires place { i ≤ length sizes.now }
    requires fits { extent sizes.now < 2 ^ 63 }
    ensures { result ≡ extent (take i sizes.now) }
{
    let mut at = 0;
    for place in 0..i {
        at += sizes[place];
    }
    at
}

// Puts a 0 at that place, within the room.
fn insert_within(sizes: &mut Vec<usize>, i: usize)
    requires place { i ≤ vec_len sizes.old }
    requires room { vec_len sizes.old < vec_capacity sizes.old }
    ensures items { sizes.new.items ≡ insert sizes.old.items i 0 }
    ensures room { vec_capacity sizes.old ≤ vec_capacity sizes.new }
{
    match sizes.insert(i, 0) {
        Ok(()) => {}
        Err(_) => {}
    }
}

// So many bytes from a place on.
fn part_of(bytes: &[u8], from: usize, size: usize) -> &[u8]
    requires { from + size ≤ length bytes.now }
    ensures { result.now ≡ take size (drop from bytes.now) }
{
    &bytes[from..from + size]
}
