//! What is read of canonical texts.
ghost use Rattle.std.specs.Prelude.{◌≡◌, ℕ, List, Some};
ghost use Rattle.cd_ast.specs.Canonical.{canonical};
ghost use Rattle.cd_ast.specs.declared.process.Process.{Process};
ghost use Rattle.cd_grammar.specs.Faults.{InGrammar};
ghost use Rattle.cd_rules.specs.Promises.{HavePriorities};
ghost use Rattle.cd_walk.specs.Conditions.{AllLookBack};
ghost use Rattle.cd_canonical.specs.Read.{process_in, canonical_reading};

use cd_automaton::{law_of_jumps, law_of_machine, law_of_ranges, law_of_tokens};

/// A text is read as the Process that the grammar says, where it says one; and as a canonical text where it is the canonical text
/// of that Process, and nowhere else. The priorities of Processes that are read so are 1 to 15, and their conditions name actions
/// before them.
pub fn law_of_readings()
    ensures said { (text : List ℕ) (process : Process) → process_in text ≡ Some process → InGrammar text process }
    ensures found { (text : List ℕ) (process : Process) → InGrammar text process → process_in text ≡ Some process }
    ensures means { (text : List ℕ) (process : Process) → canonical_reading text ≡ Some process → InGrammar text process }
    ensures printed { (text : List ℕ) (process : Process) → canonical_reading text ≡ Some process → text ≡ canonical process }
    ensures again { (process : Process) → InGrammar (canonical process) process → canonical_reading (canonical process) ≡ Some process }
    ensures priorities { HavePriorities canonical_reading }
    ensures look_back { AllLookBack canonical_reading }
{
    law_of_tokens();
    law_of_machine();
    law_of_ranges();
    law_of_jumps();
}
