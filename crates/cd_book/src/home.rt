//! The node's name and its home.
ghost use Rattle.std.specs.Prelude.{◌≡◌, ◌∷◌, List, reverse};
ghost use Rattle.cd_entries.specs.declared.entry.Entry.{Entry};
ghost use Rattle.cd_rules.specs.Processes.{own_home, is_own};

use crate::same::same_bytes;
use cd_entries::Entry;
use cd_types::{Key, NodeName};

#[tactic(auto, unfolding(cd_rules::specs::Processes::own_home))]
fn home_after(entry: &Entry, before: Option<(NodeName, u64)>) -> Option<(NodeName, u64)>
    ensures { (journal : List Entry) → before ≡ own_home journal → result ≡ own_home (entry.now ∷ journal) }
{
    match entry {
        Entry::Home(name, home) => Some((*name, *home)),
        _ => before,
    }
}

pub(crate) fn own_home(entries: &[Entry]) -> Option<(NodeName, u64)>
    ensures { result ≡ own_home (reverse entries.now) }
{
    let mut found = None;
    for entry in entries {
        found = home_after(entry, found);
    }
    found
}

pub(crate) fn is_own(entries: &[Entry], key: &Key) -> bool
    ensures { result ≡ is_own (reverse entries.now) key.now }
{
    match own_home(entries) {
        Some((name, home)) => {
            same_bytes(key.pnode.as_bytes(), name.as_bytes()) && key.home == home
        }
        None => false,
    }
}
