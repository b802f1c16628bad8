//! What is read of the texts that a node keeps.
ghost use Rattle.std.specs.Prelude.{◌≡◌, ℕ, ◌≤◌, List, length, true, Some, None};
ghost use Rattle.cd_ast.specs.declared.process.Process.{Process};
ghost use Rattle.cd_ast.specs.Canonical.{canonical};
ghost use Rattle.cd_commands.specs.declared.command.Options.{Options};
ghost use Rattle.cd_grammar.specs.Faults.{Says};
ghost use Rattle.cd_canonical.specs.Read.{canonical_reading};
ghost use Rattle.cd_submission.specs.Filing.{AreFormed, with_options, default_interval, filed, is_push};

use cd_automaton::{law_of_printed_values, law_of_ranges};
use cd_canonical::law_of_readings;
use cd_lexer::law_of_tokens;
use cd_print::law_of_prints;

/// A push that a text says after substitution, with any options, is kept as a text that is read as just that Process, and that
/// has at most 200,000 bytes. What is kept is a push that says its interval.
pub fn law_of_filings()
    ensures read { (text : List ℕ) (overrides : List (List ℕ × List ℕ)) (options : Options) (process : Process) → Says text overrides process → AreFormed options
        → is_push None (with_options options process) ≡ true → canonical_reading (canonical (filed options process)) ≡ Some (filed options process) }
    ensures short { (text : List ℕ) (overrides : List (List ℕ × List ℕ)) (options : Options) (process : Process) → Says text overrides process → AreFormed options
        → is_push None (with_options options process) ≡ true → length (canonical (filed options process)) ≤ 200000 }
    ensures kept { (options : Options) (process : Process) → is_push None (with_options options process) ≡ true → is_push (Some default_interval) (filed options process) ≡ true }
{
    law_of_tokens();
    law_of_printed_values();
    law_of_ranges();
    law_of_prints();
    law_of_readings();
}
