//! Texts of the Process language.
ghost use Rattle.std.specs.Prelude.{◌≡◌, IfOk, IfErr, MatchResult};
ghost use Rattle.cd_ast.specs.declared.process.Process.{Process};
ghost use Rattle.cd_ast.specs.Defaults.{defaults, with_definitions};
ghost use Rattle.cd_grammar.specs.Later.{Found};
ghost use Rattle.cd_grammar.specs.Faults.{InGrammar, IsFault, Says, IsFaultOf};
ghost use Rattle.cd_parser.specs.Told.{IsTold, IsNoMemory, IsAs};

use crate::ParseFault;
use crate::classify::classify;
use crate::turn::read;
use cd_ast::Process;
use cd_automaton::{
    law_of_machine, law_of_resolved_texts, law_of_texts, law_of_tokens as law_of_places,
};
use cd_lexer::{defaults, law_of_tokens, substitute, tokens};
use cd_types::Symbols;
use std::alloc::Global;

/// What a text says, read as it stands, or its first fault.
fn read_plain(alloc: Global, text: &[u8]) -> Result<Process, ParseFault>
    ensures process { IfOk result (InGrammar text.now) }
    ensures fault { IfErr result (IsTold (IsFault text.now)) }
{
    law_of_tokens();
    law_of_places();
    law_of_machine();
    let tokens = tokens(alloc, text)?;
    let seen = classify(alloc, text, &tokens)?;
    let reader = read(alloc, text.len() as u32, &seen)?;
    if let Some(fault) = reader.late_fault() {
        return Err(fault.into());
    }
    Ok(reader.into_process())
}

/// The Process that a text says, read as it stands; or the first fault of the text, which it has exactly where it says none.
pub fn parse_plain(alloc: Global, text: &[u8]) -> Result<Process, ParseFault>
    ensures process { IfOk result (InGrammar text.now) }
    ensures fault { IfErr result (IsTold (IsFault text.now)) }
    ensures every_process { (p : Process) → InGrammar text.now p → MatchResult result (λ q. q ≡ p) IsNoMemory }
    ensures every_fault { (f : Found) → IsFault text.now f → MatchResult result (λ _. ⊥) (IsAs f) }
{
    law_of_texts();
    let process = read_plain(alloc, text)?;
    Ok(process)
}

/// The values that a text gives to names, in whose place and behind which go others.
#[tactic(auto, unfolding(cd_ast::specs::Defaults::with_definitions))]
fn symbols_of(alloc: Global, text: &[u8], overrides: &Symbols) -> Result<Symbols, ParseFault>
    ensures ok { IfOk result (λ symbols. symbols ≡ with_definitions (defaults text.now) overrides.now) }
    ensures err { IfErr result (λ fault. fault ≡ ParseFault.NoMemory) }
{
    let mut symbols = defaults(alloc, text)?;
    for place in 0..overrides.len() {
        let Some((name, value)) = overrides.pair(place) else {
            return Ok(symbols);
        };
        symbols.set(name, value)?;
    }
    Ok(symbols)
}

/// What a text says after substitution, or its first fault.
fn read_resolved(alloc: Global, text: &[u8], overrides: &Symbols) -> Result<Process, ParseFault>
    ensures process { IfOk result (Says text.now overrides.now) }
    ensures fault { IfErr result (IsTold (IsFaultOf text.now overrides.now)) }
{
    let symbols = symbols_of(alloc, text, overrides)?;
    let plain = substitute(alloc, text, &symbols)?;
    let process = parse_plain(alloc, &plain)?;
    Ok(process)
}

/// The Process that a text says, after its references gave way to the values that it gives itself, in whose place and behind
/// which go others; or the first fault of the text, which it has exactly where it says none.
pub fn parse(alloc: Global, text: &[u8], overrides: &Symbols) -> Result<Process, ParseFault>
    ensures process { IfOk result (Says text.now overrides.now) }
    ensures fault { IfErr result (IsTold (IsFaultOf text.now overrides.now)) }
    ensures every_process { (p : Process) → Says text.now overrides.now p → MatchResult result (λ q. q ≡ p) IsNoMemory }
    ensures every_fault { (f : Found) → IsFaultOf text.now overrides.now f → MatchResult result (λ _. ⊥) (IsAs f) }
{
    law_of_resolved_texts();
    let process = read_resolved(alloc, text, overrides)?;
    Ok(process)
}
