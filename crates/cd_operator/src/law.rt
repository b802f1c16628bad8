//! What a command adds is a move of the rules.
ghost use Rattle.std.specs.Prelude.{◌≡◌, ◌≤◌, ℕ, List, [], true, Ok, Some, None};
ghost use Rattle.cd_ast.specs.declared.process.Process.{Process};
ghost use Rattle.cd_commands.specs.declared.command.Command.{Command};
ghost use Rattle.cd_commands.specs.declared.command.Command.TheVariants.{Init, SubmitText};
ghost use Rattle.cd_commands.specs.declared.command.Options.{Options};
ghost use Rattle.cd_entries.specs.declared.entry.Entry.{Entry};
ghost use Rattle.cd_submission.specs.Filing.{AreFormed, is_push, with_options};
ghost use Rattle.cd_grammar.specs.Faults.{Says};
ghost use Rattle.cd_protocol.specs.Rows.{may_record};
ghost use Rattle.cd_canonical.specs.Read.{canonical_reading};
ghost use Rattle.cd_rules.specs.Processes.{latest};
ghost use Rattle.cd_operator.specs.Doing.{added_by, doing};
ghost use Rattle.cd_operator.specs.Wanted.{wanted};
ghost use Rattle.cd_operator.specs.declared.wanted.Recording.{Recording};

use cd_submission::law_of_filings;

/// What a command adds may be recorded, by the rules of a node. And the rules refuse neither the name and the home of `init` at a node
/// that has no entry, nor a push that a text says, with any options: what these ask for is done.
pub fn law_of_doings()
    ensures may { (now : ℕ) (entries : List Entry) (c : Command) (e : Entry) → added_by (doing now entries c) ≡ Some e → may_record canonical_reading now entries e ≡ true }
    ensures naming { (now : ℕ) (name : List ℕ) (home : ℕ) → doing now [] (Init name home) ≡ wanted now [] (Init name home) }
    ensures pushes { (now : ℕ) (entries : List Entry) (text : List ℕ) (overrides : List (List ℕ × List ℕ)) (process : Process) (options : Options) (recording : Recording)
        → Says text overrides process → AreFormed options → is_push None (with_options options process) ≡ true → latest entries ≤ now
        → wanted now entries (SubmitText process options) ≡ Ok recording → doing now entries (SubmitText process options) ≡ Ok recording }
{
    law_of_filings();
}
