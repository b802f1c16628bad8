//! What is heard, by the grammar.
ghost use Rattle.std.specs.Prelude.{◌≡◌, ℕ, List, Ok, Err};
ghost use Rattle.cd_ast.specs.declared.fault.FaultName.{FaultName};
ghost use Rattle.cd_ast.specs.declared.process.Process.{Process};
ghost use Rattle.cd_grammar.specs.Faults.{InGrammar, IsFault, Says, IsFaultOf};
ghost use Rattle.cd_grammar.specs.Later.{Found};
ghost use Rattle.cd_commands.specs.declared.command.Command.{Command};
ghost use Rattle.cd_commands.specs.Commands.{IsCommand, IsCommandFault};
ghost use Rattle.cd_commands.specs.Commands as commands;
ghost use Rattle.cd_commands.specs.declared.heard.Heard.TheVariants as hearing;
ghost use Rattle.cd_commands.specs.Heard.{fault_of, faulty, heard};
ghost use Rattle.cd_commands.specs.Texts.{read_plain, read_as};

use crate::{law_of_commands, law_of_grammar};
use cd_automaton::{
    law_of_later_faults, law_of_machine, law_of_resolved_texts, law_of_texts, law_of_tokens,
};

/// What is read of a text is the Process that it says, and where it says none its first fault.
pub fn law_of_plain_readings()
    ensures said { (text : List ℕ) (process : Process) → read_plain text ≡ Ok process → InGrammar text process }
    ensures every_process { (text : List ℕ) (process : Process) → InGrammar text process → read_plain text ≡ Ok process }
    ensures wrong { (text : List ℕ) (f : Found) → read_plain text ≡ Err f → IsFault text f }
    ensures every_fault { (text : List ℕ) (f : Found) → IsFault text f → read_plain text ≡ Err f }
{
    law_of_tokens();
    law_of_machine();
    law_of_later_faults();
    law_of_texts();
}

/// The same of texts that are read after substitution.
pub fn law_of_resolved_readings()
    ensures said { (text : List ℕ) (overrides : List (List ℕ × List ℕ)) (process : Process) → read_as text overrides ≡ Ok process → Says text overrides process }
    ensures every_process { (text : List ℕ) (overrides : List (List ℕ × List ℕ)) (process : Process) → Says text overrides process → read_as text overrides ≡ Ok process }
    ensures wrong { (text : List ℕ) (overrides : List (List ℕ × List ℕ)) (f : Found) → read_as text overrides ≡ Err f → IsFaultOf text overrides f }
    ensures every_fault { (text : List ℕ) (overrides : List (List ℕ × List ℕ)) (f : Found) → IsFaultOf text overrides f → read_as text overrides ≡ Err f }
{
    law_of_plain_readings();
    law_of_resolved_texts();
}

/// What is heard of a text is the command that it is, and where it is none its first fault.
pub fn law_of_hearing()
    ensures command { (text : List ℕ) (c : Command) → heard text ≡ hearing.Command c → IsCommand text c }
    ensures every_command { (text : List ℕ) (c : Command) → IsCommand text c → heard text ≡ hearing.Command c }
    ensures fault { (text : List ℕ) (name : FaultName) (at : ℕ) → heard text ≡ hearing.Fault name at → (f : commands.Fault) × IsCommandFault text f × (fault_of f ≡ (name, at)) }
    ensures every_fault { (text : List ℕ) (f : commands.Fault) → IsCommandFault text f → heard text ≡ faulty (fault_of f) }
{
    law_of_grammar();
    law_of_resolved_readings();
    law_of_commands();
}
