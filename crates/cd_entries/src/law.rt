ghost use Rattle.std.specs.Prelude.{◌≡◌, ℕ, List, Some};
ghost use Rattle.cd_types.specs.Format.{IsBytes};
ghost use Rattle.cd_entries.specs.declared.entry.Entry.{Entry};
ghost use Rattle.cd_entries.specs.Entry.{entry_bytes, entry_of, IsEntry};

/// What is written as an entry is read as that entry, and nothing else is read as one.
#[tactic(auto, using(crate::proofs::EntryLaw::entry_again))]
pub fn law_of_entries()
    ensures again { (entry : Entry) → IsEntry entry → entry_of (entry_bytes entry) ≡ Some entry }
    ensures only { (bytes : List ℕ) (entry : Entry) → IsBytes bytes → entry_of bytes ≡ Some entry
        → (bytes ≡ entry_bytes entry) × IsEntry entry }
{}
