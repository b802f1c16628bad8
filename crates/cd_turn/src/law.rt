//! What holds of the bytes of every journal, and of its entries.
ghost use Rattle.std.specs.Prelude.{◌≡◌, ◌⊎◌, ℕ, List, [], reverse, true};
ghost use Rattle.cd_types.specs.Format.{IsBytes};
ghost use Rattle.cd_entries.specs.declared.entry.Entry.{Entry};
ghost use Rattle.cd_turn.specs.Home.{StandsFor, IsJournal, IsFit, IsUnfit};
ghost use Rattle.cd_turn.specs.Legal.{IsLegal};
ghost use Rattle.cd_rules.specs.Legal.{is_legal};
ghost use Rattle.cd_canonical.specs.Read.{canonical_reading};

use cd_automaton::law_of_ranges;
use cd_canonical::law_of_readings;

/// Bytes are a journal of a legal list or have a first wrong place, and not both. The list is one, and so is the place. No
/// bytes are a journal, and so is what a crash may leave of one.
pub fn law_of_homes()
    ensures either { (bytes : List ℕ) → IsBytes bytes → IsFit bytes ⊎ ((at : ℕ) × IsUnfit bytes at) }
    ensures apart { (bytes : List ℕ) (at : ℕ) → IsFit bytes → IsUnfit bytes at → ⊥ }
    ensures one_list { (bytes : List ℕ) (a b : List Entry) → StandsFor bytes a → IsLegal a → StandsFor bytes b → IsLegal b → a ≡ b }
    ensures one_place { (bytes : List ℕ) (a b : ℕ) → IsUnfit bytes a → IsUnfit bytes b → a ≡ b }
    ensures blank { IsFit [] }
    ensures kept { (entries : List Entry) (bytes : List ℕ) → IsJournal entries bytes → IsFit bytes }
{}

/// Entries that may follow one another here may do so by the rules of a node, which see the newest first.
pub fn law_of_legality()
    ensures { (entries : List Entry) → IsLegal entries → is_legal canonical_reading (reverse entries) ≡ true }
{
    law_of_ranges();
    law_of_readings();
}
