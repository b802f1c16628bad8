//! Texts of commands.
ghost use Rattle.std.specs.Prelude.{◌≡◌, ℕ, ◌+◌, ◌-◌, ◌<◌, ◌≤◌, ◌^◌, ◌⊎◌, List, length, take, drop, Some, IfOk, IfErr, MatchResult};
ghost use Rattle.cd_grammar.specs.declared.token.Token.{Token};
ghost use Rattle.cd_grammar.specs.Words.{or_else};
ghost use Rattle.cd_grammar.specs.Faults.{Says, IsFaultOf};
ghost use Rattle.cd_commands.specs.Given.{options_of};
ghost use Rattle.cd_commands.specs.Commands.{told, is_kept, both, is_doubly_started, text_end, left_behind, process_text, IsSubmission, IsTextFault, IsCommand, IsCommandFault, Fault, Left};
ghost use Rattle.cd_commands.specs.Seen.{lead};
ghost use Rattle.cd_commands.specs.Told.{IsTold, IsNoMemory, IsAs, IsRead, IsStop, OnProcess};

use crate::fault::Stopped;
use crate::given::{Given, options_of};
use crate::order::{Order, read_order};
use crate::seen::{lead, seen};
use crate::{Command, CommandFault};
use cd_ast::{FaultName, Process};
use cd_automaton::law_of_resolved_texts;
use cd_parser::{ParseFault, parse};
use cd_types::{Retain, Start, Symbols};
use std::alloc::Global;

fn is_kept(retain: Option<Retain>) -> bool
    ensures { result ≡ is_kept retain }
{
    match retain {
        Some(Retain::Initial) => true,
        _ => false,
    }
}

fn both(retain: Option<Retain>, start: Option<Start>) -> bool
    ensures { result ≡ both retain start }
{
    match start {
        Some(_) => is_kept(retain),
        None => false,
    }
}

fn or_else<T: Copy>(one: Option<T>, other: Option<T>) -> Option<T>
    ensures { result ≡ or_else one other }
{
    match one {
        Some(value) => Some(value),
        None => other,
    }
}

/// Whether a Process is kept for each start of its node and has a start of its own, once the options stand in place of what it
/// says itself.
fn is_doubly_started(given: &Given<'_>, process: &Process) -> bool
    ensures { result ≡ is_doubly_started given.now process.now }
{
    let retain = or_else(given.retain, Some(process.card.retain));
    let start = or_else(given.start, process.card.start);
    both(retain, start)
}

/// The bytes from a place up to another, as far as there are any.
fn part(text: &[u8], from: usize, to: usize) -> &[u8]
    ensures { result.now ≡ take (to - from) (drop from text.now) }
{
    let (_, rest) = text.split_at(from.min(text.len()));
    let (part, _) = rest.split_at(to.saturating_sub(from).min(rest.len()));
    part
}

/// That a command is left at a place of its text.
fn left(text: &[u8], at: u32) -> CommandFault
    ensures { IsTold (λ f. f ≡ Left (at - lead text.now)) result }
{
    CommandFault::Word((at as u64).saturating_sub(lead(text) as u64))
}

/// Why a text is no command, where reading its tokens stopped.
fn stop(text: &[u8], stopped: Stopped) -> CommandFault
    ensures { IsStop (lead text.now) stopped result }
{
    match stopped {
        Stopped::Left(at) => left(text, at),
        Stopped::NoMemory => CommandFault::NoMemory,
    }
}

/// What a Process text says, or its first fault.
fn read_process(alloc: Global, text: &[u8], symbols: &Symbols) -> Result<Process, CommandFault>
    ensures process { IfOk result (Says text.now symbols.now) }
    ensures fault { IfErr result (IsTold (OnProcess (IsFaultOf text.now symbols.now))) }
{
    match parse(alloc, text, symbols) {
        Ok(process) => Ok(process),
        Err(ParseFault::Text(name, at)) => Err(CommandFault::Process(name, at)),
        Err(ParseFault::NoMemory) => Err(CommandFault::NoMemory),
    }
}

/// A submission of the Process whose text stands between two places, and behind which the command is left, if it is.
fn submission(
    alloc: Global,
    text: &[u8],
    given: Given<'_>,
    places: (u32, u32),
    behind: Option<u32>,
) -> Result<Command, CommandFault>
    ensures command { IfOk result (λ c. (rest : List Token) → places.1 ≡ text_end (length text.now) rest → behind ≡ left_behind (length text.now) rest → IsSubmission text.now given.entry places.0 rest c) }
    ensures fault { IfErr result (IsTold (λ f. (rest : List Token) → places.1 ≡ text_end (length text.now) rest → behind ≡ left_behind (length text.now) rest → IsTextFault text.now given.entry places.0 rest f)) }
{
    let process_text = part(text, places.0 as usize, places.1 as usize);
    let process = read_process(alloc, process_text, &given.symbols)?;
    if let Some(at) = behind {
        return Err(left(text, at));
    }
    if is_doubly_started(&given, &process) {
        return Err(CommandFault::Process(FaultName::RetainStart, 0));
    }
    Ok(Command::SubmitText(process, options_of(given)))
}

/// The command that a text is, or its first fault.
fn read_text(alloc: Global, text: &[u8]) -> Result<Command, CommandFault>
    ensures command { IfOk result (IsCommand text.now) }
    ensures fault { IfErr result (IsTold (IsCommandFault text.now)) }
{
    if text.len() > u32::MAX as usize {
        return Err(CommandFault::NoMemory);
    }
    let tokens = seen(alloc, text)?;
    match read_order(alloc, text.len() as u32, &tokens) {
        Ok(Order::Whole(command)) => Ok(command),
        Ok(Order::Text(given, at, end, behind)) => {
            submission(alloc, text, given, (at, end), behind)
        }
        Err(stopped) => Err(stop(text, stopped)),
    }
}

/// A text has exactly one of a command and a fault.
pub fn law_of_commands()
    ensures some { (text : List ℕ) → ((c : Command) × IsCommand text c) ⊎ ((f : Fault) × IsCommandFault text f) }
    ensures not_both { (text : List ℕ) (c : Command) (f : Fault) → IsCommand text c → IsCommandFault text f → ⊥ }
    ensures one_command { (text : List ℕ) (one other : Command) → IsCommand text one → IsCommand text other → one ≡ other }
    ensures one_fault { (text : List ℕ) (one other : Fault) → IsCommandFault text one → IsCommandFault text other → one ≡ other }
{
    law_of_resolved_texts();
}

/// The command that a text is; or its first fault, which it has exactly where it is none.
pub fn read_command(alloc: Global, text: &[u8]) -> Result<Command, CommandFault>
    ensures command { IfOk result (IsCommand text.now) }
    ensures fault { IfErr result (IsTold (IsCommandFault text.now)) }
    ensures every_command { (c : Command) → IsCommand text.now c → MatchResult result (λ d. d ≡ c) IsNoMemory }
    ensures every_fault { (f : Fault) → IsCommandFault text.now f → MatchResult result (λ _. ⊥) (IsAs f) }
{
    law_of_commands();
    let command = read_text(alloc, text)?;
    Ok(command)
}
