//! What a file says is what its text says.
ghost use Rattle.std.specs.Prelude.{◌≡◌, ℕ, List, Some, None, Ok, Err};
ghost use Rattle.cd_ast.specs.declared.process.Process.{Process};
ghost use Rattle.cd_grammar.specs.Faults.{Says, IsFaultOf};
ghost use Rattle.cd_grammar.specs.Later.{Found};
ghost use Rattle.cd_submission.specs.declared.reading.Unread.TheVariants.{NoFile, Wrong};
ghost use Rattle.cd_submission.specs.Reading.{process_in};
ghost use Rattle.cd_submission.specs.Shown.{show};

use cd_commands::law_of_resolved_readings;

/// By what is shown of a file with a text, of whatever length, the Process is read that the text says after substitution, or its
/// first fault is told. Where there is no file, its name is.
pub fn law_of_shown()
    ensures missing { (name : List ℕ) (symbols : List (List ℕ × List ℕ)) → process_in name symbols (show None) ≡ Err (NoFile name) }
    ensures every_process { (name text : List ℕ) (symbols : List (List ℕ × List ℕ)) (process : Process) → Says text symbols process → process_in name symbols (show (Some text)) ≡ Ok process }
    ensures said { (name text : List ℕ) (symbols : List (List ℕ × List ℕ)) (process : Process) → process_in name symbols (show (Some text)) ≡ Ok process → Says text symbols process }
    ensures every_fault { (name text : List ℕ) (symbols : List (List ℕ × List ℕ)) (f : Found) → IsFaultOf text symbols f → process_in name symbols (show (Some text)) ≡ Err (Wrong f.0 f.1) }
{
    law_of_resolved_readings();
}
