#![tactic(auto, unfolding(crate::specs::Key::key_bytes, crate::specs::Key::key_in, crate::specs::Text::ranged_in))]

ghost use Rattle.std.specs.Prelude.{◌≡◌, option_map};
ghost use Rattle.cd_types.specs.Key.{is_place, IsPlace, IsKey, key_bytes, key_in};
ghost use Rattle.cd_types.specs.KeyLaw.{key_law};
ghost use Rattle.cd_types.specs.Text.{ranged_in};

use crate::{Field, NodeName, ProcNo, Small};

/// What names a step everywhere: the node that submitted its Process, that node's home, the number of the
/// Process there, and the place of the step in it, from 0 to 1,023.
#[derive(Clone, Copy, Debug, PartialEq, Eq, PartialOrd, Ord, Hash)]
pub struct Key {
    pub pnode: NodeName,
    pub home: u64,
    pub number: ProcNo,
    pub place: u16,
}

/// The place of a step at the front, and the bytes after it.
fn place_front(bytes: &[u8]) -> Option<(u16, &[u8])>
    ensures { option_map (λ found. (found.0, found.1.now)) result ≡ ranged_in 2 is_place bytes.now }
{
    let (place, rest) = u16::front(bytes)?;
    if place <= 1023 {
        Some((place, rest))
    } else {
        None
    }
}

/// The name, eight bytes, four bytes and two bytes.
impl Field for Key {
    ghost form = { IsKey };

    ghost writable = { λ key. IsPlace key.place };

    ghost longest = { 31 };

    ghost spelled = { key_bytes };

    ghost found_in = { key_in };

    ghost law = { key_law };

    fn front(bytes: &[u8]) -> Option<(Key, &[u8])> {
        let Some((pnode, rest)) = NodeName::front(bytes) else {
            return None;
        };
        let (home, rest) = u64::front(rest)?;
        let Some((number, rest)) = ProcNo::front(rest) else {
            return None;
        };
        let (place, rest) = place_front(rest)?;
        let key = Key {
            pnode,
            home,
            number,
            place,
        };
        Some((key, rest))
    }

    fn size(&self) -> usize {
        self.pnode.size() + self.home.size() + self.number.size() + self.place.size()
    }

    fn put(&self, into: &mut Vec<u8>) {
        self.pnode.put(into);
        self.home.put(into);
        self.number.put(into);
        self.place.put(into);
    }
}

impl Small for Key {
    ghost use Rattle.std.proofs.Common.{arith};

    ghost small = { Prim.omega arith };
}
