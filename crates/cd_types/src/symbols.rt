ghost use Rattle.std.specs.Prelude.{◌≡◌, ◌<◌, ◌≤◌, ◌↔◌, [], length, map, IsTrue, IfOk, OnOk, OnErr, slice_get};
ghost use Rattle.std.specs.Option.{option_map};
ghost use Rattle.cd_types.specs.Symbols.{upper_case, with_symbol, symbol_value};

use crate::NoMemory;
use crate::label::make_upper_case;
use indexmap::IndexMap;
use std::alloc::{AllocError, Global};
use std::marker::Model;

/// The greatest length of a symbolic name, in bytes.
const LONGEST_NAME: usize = 17;

/// Symbolic names with their values, in the order in which the names were first given. Names are compared without
/// regard to ASCII case, and kept in upper case. Contracts see the list of the pairs.
/// (Process Language Reference: symbolic substitution.)
#[derive(Drop)]
pub struct Symbols {
    pairs: IndexMap<Vec<u8>, Vec<u8>>,
    alloc: Global,
}

impl Model for Symbols {
    ghost use Rattle.std.specs.Prelude.{List, ℕ, map};

    ghost Value = { List (List ℕ × List ℕ) };

    ghost view = { λ symbols. map (λ entry. (entry.0.items, entry.1.items)) symbols.pairs.entries };
}

/// A name in upper case.
fn upper_name(alloc: Global, name: &[u8]) -> Result<Vec<u8>, AllocError>
    ensures { IfOk result (λ upper. upper.items ≡ upper_case name.now) }
{
    let mut upper = Vec::from_slice(alloc, name)?;
    make_upper_case(&mut upper);
    Ok(upper)
}

impl Symbols {
    /// No names.
    pub fn new(alloc: Global) -> Self
        ensures { result ≡ [] }
    {
        Symbols {
            pairs: IndexMap::new(alloc),
            alloc,
        }
    }

    /// Gives a name a value. A name that has one keeps its place.
    pub fn set(&mut self, name: &[u8], value: &[u8]) -> Result<(), NoMemory>
        ensures ok { OnOk result (self.new ≡ with_symbol self.old (upper_case name.now) value.now) }
        ensures err { OnErr result (self.new ≡ self.old) }
    {
        let name = upper_name(self.alloc, name)?;
        let value = Vec::from_slice(self.alloc, value)?;
        self.pairs.insert(name, value)?;
        Ok(())
    }

    /// The value of a name, if it has one.
    pub fn get(&self, name: &[u8]) -> Option<&[u8]>
        requires { length name.now ≤ 17 }
        ensures { option_map (λ value. value.now) result ≡ symbol_value self.now (upper_case name.now) }
    {
        let mut room = [0; LONGEST_NAME];
        let upper = &mut room[..name.len()];
        upper.copy_from_slice(name);
        make_upper_case(upper);
        let upper: &[u8] = upper;
        match self.pairs.get(upper) {
            Some(value) => Some(value.as_slice()),
            None => None,
        }
    }

    /// How many names there are.
    pub fn len(&self) -> usize
        ensures { result ≡ length self.now }
    {
        self.pairs.len()
    }

    /// Whether there are none.
    pub fn is_empty(&self) -> bool
        ensures { IsTrue result ↔ (self.now ≡ []) }
    {
        self.pairs.len() == 0
    }

    /// The name and the value at a place, counted from 0.
    pub fn pair(&self, place: usize) -> Option<(&[u8], &[u8])>
        ensures { option_map (λ pair. (pair.0.now, pair.1.now)) result ≡ slice_get self.now place }
    {
        let (name, value) = self.pairs.get_index(place)?;
        Some((name.as_slice(), value.as_slice()))
    }
}
