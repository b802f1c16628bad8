//! The files that are being received.
ghost use Rattle.std.specs.Prelude.{◌≡◌, ◌+◌, ◌<◌, ◌++◌, ◌&&◌, ◌==◌, not, drop, length, reverse, option_map};
ghost use Rattle.std.specs.Str.{bytes_eq};
ghost use Rattle.cd_rules.specs.Openings.{openings, open_on, is_in_use, is_receiving_for};
ghost use Rattle.cd_book.specs.Opening.{listed, closes, closed_by};

use crate::same::{same_bytes, same_key};
use cd_entries::Entry;
use cd_types::{Key, NodeName, ProcNo, Receiving};

// Whether the entry ends what is being received for the step.
fn closes(key: &Key, entry: &Entry) -> bool
    ensures { result ≡ closes key.now entry.now }
{
    match entry {
        Entry::Receiving(receiving) => same_key(&receiving.key, key),
        Entry::Result(step, ..) => same_key(step, key),
        Entry::Dropped(step, ..) => same_key(step, key),
        _ => false,
    }
}

// Whether an entry of these does.
#[tactic(auto, unfolding(crate::specs::Opening::closed_by))]
fn is_closed(key: &Key, later: &[Entry]) -> bool
    ensures { result ≡ closed_by later.now key.now }
{
    later.iter().any(|entry| closes(key, entry))
}

// The receiving that the entry at this place begins, where it is still open.
fn open_at(entries: &[Entry], at: usize) -> Option<&Receiving>
    requires { at < length entries.now }
    ensures { openings (reverse (drop at entries.now)) ≡ openings (reverse (drop (at + 1) entries.now)) ++ listed (option_map (λ r. r.now) result) }
{
    match &entries[at] {
        Entry::Receiving(receiving) => {
            if is_closed(&receiving.key, &entries[at + 1..]) {
                None
            } else {
                Some(receiving)
            }
        }
        _ => None,
    }
}

pub(crate) fn open_on<'a>(entries: &'a [Entry], name: &[u8]) -> Option<&'a Receiving>
    ensures { option_map (λ r. r.now) result ≡ open_on (reverse entries.now) name.now }
{
    for at in (0..entries.len()).rev() {
        if let Some(receiving) = open_at(entries, at) {
            if same_bytes(name, receiving.name.as_slice()) {
                return Some(receiving);
            }
        }
    }
    None
}

pub(crate) fn is_in_use(entries: &[Entry], key: &Key, name: &[u8]) -> bool
    ensures { result ≡ is_in_use (reverse entries.now) key.now name.now }
{
    for at in (0..entries.len()).rev() {
        if let Some(receiving) = open_at(entries, at) {
            if same_bytes(name, receiving.name.as_slice()) && !same_key(key, &receiving.key) {
                return true;
            }
        }
    }
    false
}

// Whether it is a receiving of this Process of another node.
fn is_of_process(receiving: &Receiving, name: &NodeName, home: u64, number: ProcNo) -> bool
    ensures { result ≡ (bytes_eq name.now receiving.now.key.pnode && home == receiving.now.key.home && number == receiving.now.key.number) }
{
    same_bytes(name.as_bytes(), receiving.key.pnode.as_bytes())
        && home == receiving.key.home
        && number.number() == receiving.key.number.number()
}

pub(crate) fn is_receiving_for(
    entries: &[Entry],
    name: &NodeName,
    home: u64,
    number: ProcNo,
) -> bool
    ensures { result ≡ is_receiving_for (reverse entries.now) name.now home number }
{
    for at in (0..entries.len()).rev() {
        if let Some(receiving) = open_at(entries, at) {
            if is_of_process(receiving, name, home, number) {
                return true;
            }
        }
    }
    false
}
