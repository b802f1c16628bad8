//! What may be said of the canonical print of a Process.
ghost use Rattle.std.specs.Prelude.{◌≡◌, ℕ, ◌≤◌, List, length, true, None};
ghost use Rattle.std.specs.List.{list_all};
ghost use Rattle.cd_ast.specs.declared.process.Process.{Process};
ghost use Rattle.cd_ast.specs.Canonical.{canonical};
ghost use Rattle.cd_ast.specs.Pieces.{pieces_of};
ghost use Rattle.cd_ast.specs.Tokens.{open_from};
ghost use Rattle.cd_grammar.specs.Answers.{strict};
ghost use Rattle.cd_grammar.specs.Reading.{Reading};
ghost use Rattle.cd_grammar.specs.Tokens.{tokens_of};
ghost use Rattle.cd_grammar.specs.Faults.{InGrammar, Says, IsRead, process_of, longest_text, longest_plain};
ghost use Rattle.cd_print.specs.Sizes.{has_small_symbols};
ghost use Rattle.cd_print.specs.Printable.{HaveGoodTexts, IsPrintable};

use cd_automaton::{law_of_printed_values, law_of_ranges};
use cd_lexer::law_of_tokens;

/// A Process that a text says after substitution is printed in at most 200,000 bytes, and the values that each of its SUBMITs
/// gives to names have at most 120,000. So it is of a text that is read as it stands, where that is no longer than a text after
/// substitution may be.
pub fn law_of_sizes()
    ensures short { (text : List ℕ) (overrides : List (List ℕ × List ℕ)) (process : Process) → Says text overrides process → length (canonical process) ≤ 200000 }
    ensures short_plain { (text : List ℕ) (process : Process) → length text ≤ longest_text → InGrammar text process → length (canonical process) ≤ 200000 }
    ensures symbols { (text : List ℕ) (overrides : List (List ℕ × List ℕ)) (process : Process) → Says text overrides process → list_all (λ s. has_small_symbols s.what) process.stmts ≡ true }
    ensures symbols_plain { (text : List ℕ) (process : Process) → length text ≤ longest_text → InGrammar text process → list_all (λ s. has_small_symbols s.what) process.stmts ≡ true }
{
    law_of_tokens();
    law_of_ranges();
}

/// The tokens of a print are read as the Process that it is of, and none of its pieces is a fault, where the Process has values
/// in range, texts that can be quoted, and statements that may stand one behind the other. Each Process that a text says is so,
/// and its files, commands and values are UTF-8 without a byte that no text may have: its print is a text that says it again,
/// where that isn't too long for a text. After substitution it never is.
pub fn law_of_prints()
    ensures read_back { (process : Process) → IsPrintable process → (all : Reading) × IsRead strict (tokens_of (canonical process)) all × (process ≡ process_of all) }
    ensures whole { (process : Process) → IsPrintable process → open_from 0 (pieces_of (canonical process)) ≡ None }
    ensures again { (text : List ℕ) (process : Process) → InGrammar text process → length (canonical process) ≤ longest_plain → InGrammar (canonical process) process }
    ensures again_resolved { (text : List ℕ) (overrides : List (List ℕ × List ℕ)) (process : Process) → Says text overrides process → InGrammar (canonical process) process }
    ensures printable { (text : List ℕ) (process : Process) → InGrammar text process → IsPrintable process }
    ensures good_texts { (text : List ℕ) (process : Process) → InGrammar text process → HaveGoodTexts process.stmts }
    ensures good_texts_resolved { (text : List ℕ) (overrides : List (List ℕ × List ℕ)) (process : Process) → Says text overrides process → HaveGoodTexts process.stmts }
{
    law_of_tokens();
    law_of_printed_values();
    law_of_ranges();
    law_of_sizes();
}
