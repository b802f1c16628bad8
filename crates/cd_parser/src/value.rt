//! What stands behind a parameter's `=`.
ghost use Rattle.std.specs.Prelude.{◌≡◌, ◌∷◌, ◌<◌, ◌≤◌, ℕ, List, [], length, IfOk, IfErr, OnOk};
ghost use Rattle.std.specs.Option.{option_map};
ghost use Rattle.cd_grammar.specs.declared.step.Begun.{Begun};
ghost use Rattle.cd_grammar.specs.declared.step.CopyGiven.{CopyGiven};
ghost use Rattle.cd_grammar.specs.declared.step.Step.{Step};
ghost use Rattle.cd_grammar.specs.declared.step.Step.TheVariants as step;
ghost use Rattle.cd_types.specs.declared.start.Day.{Day};
ghost use Rattle.cd_grammar.specs.declared.given.Given.{Given};
ghost use Rattle.cd_grammar.specs.Answers.{strict};
ghost use Rattle.cd_grammar.specs.Starts.{clock_in, half_in};
ghost use Rattle.cd_grammar.specs.Grammar.{started};
ghost use Rattle.cd_grammar.specs.Reading.{Reading, given_of};
ghost use Rattle.cd_automaton.specs.State.{At, Value, Closing, Values, Parenthesized, Symbol, Starting, Dated, Timing, Timed, Compress, Prime, Extended, Pairs, PairNamed};
ghost use Rattle.cd_automaton.specs.Machine.{kept, time_move, half_move, open_move};
ghost use Rattle.cd_parser.specs.Runs.{Tells, reads, onward, valued};
ghost use Rattle.cd_parser.specs.Peeks.{IsQuoted, IsEquals, IsExtra};

use crate::ParseFault;
use crate::cursor::Cursor;
use crate::fault::Found;
use crate::leaf::{closes, equals, opens, place_of, unexpected};
use crate::reader::Reader;
use cd_grammar::{
    Clock, Given, Key, Lent, Sign, Slot, Step, Token, clock_in, day_in, half_in, half_time,
    named_time, plain_time, takes_list, takes_parentheses, with_listed, with_parameter,
};
use cd_types::{Day, Start};

/// The parameter whose word stands at this place, with a token as value.
fn with_token<'a>(step: Step<'a>, slot: Slot, at: u32, token: &Token<'a>) -> Result<Step<'a>, Found>
    ensures { result ≡ valued step.entry slot at token.now }
{
    match with_parameter(step, slot, at, token) {
        Ok(step) => Ok(step),
        Err(name) => Err((name, place_of(token))),
    }
}

/// Behind the closing parenthesis that stands next.
#[tactic(auto, unfolding(cd_automaton::specs::Machine::run, cd_automaton::specs::Machine::next))]
fn closed<'t, 'a>(len: u32, tokens: &mut Cursor<'t, 'a>) -> Result<(), Found>
    ensures ok { IfOk result (λ _. (r : Reading) (s : Step) → reads len r (Closing s) tokens.old ≡ reads len r (At s) tokens.new) }
    ensures err { IfErr result (λ f. (r : Reading) (s : Step) → reads len r (Closing s) tokens.old ≡ Err f) }
    ensures shorter { OnOk result (length tokens.new < length tokens.old) }
{
    let token = tokens.next(len)?;
    closes(token)?;
    Ok(())
}

/// Behind a list of values.
#[tactic(auto, unfolding(cd_automaton::specs::Machine::run, cd_automaton::specs::Machine::next))]
fn listed<'t, 'a>(len: u32, tokens: &mut Cursor<'t, 'a>) -> Result<(), Found>
    ensures ok { IfOk result (λ _. (r : Reading) (s : Step) → reads len r (Values s) tokens.old ≡ reads len r (At s) tokens.new) }
    ensures err { IfErr result (λ f. (r : Reading) (s : Step) → reads len r (Values s) tokens.old ≡ Err f) }
    ensures shorter { OnOk result (length tokens.new < length tokens.old) }
{
    loop {
        let token = tokens.next(len)?;
        if let Token::Mark(_, _) = token {
            closes(token)?;
            return Ok(());
        }
    }
}

/// The PROCESS statement's parameters with a start.
fn started<'a>(given: Given<'a>, day: Day, seconds: u32) -> Given<'a>
    ensures { result ≡ started given.entry day seconds }
{
    let mut given = given;
    given.start = Some(Start { day, seconds });
    given
}

/// A time in a half of the day, which the word at this place names behind a time as it is written.
#[tactic(auto, unfolding(cd_automaton::specs::Machine::next))]
fn half_at(at: u32, clock: Option<Clock>, word: &Lent<'_>) -> Result<u32, Found>
    ensures ok { IfOk result (λ seconds. (given : Given) (day : Day) → half_move strict given day at clock (half_in word.now) ≡ Ok (Closing (step.Head (started given day seconds)))) }
    ensures err { IfErr result (λ f. (given : Given) (day : Day) → half_move strict given day at clock (half_in word.now) ≡ Err f) }
{
    let (Some(clock), Some(half)) = (clock, half_in(word.bytes())) else {
        return Err(unexpected(at));
    };
    match half_time(clock, half) {
        Ok(seconds) => Ok(seconds),
        Err(name) => Err((name, at)),
    }
}

/// Behind a time: what it is at last, and what stands behind the closing parenthesis.
#[tactic(auto, unfolding(cd_automaton::specs::Machine::run, cd_automaton::specs::Machine::next))]
fn behind_time<'t, 'a>(
    len: u32,
    clock: Option<Clock>,
    seconds: u32,
    tokens: &mut Cursor<'t, 'a>,
) -> Result<u32, Found>
    ensures ok { IfOk result (λ p. (r : Reading) (given : Given) (day : Day) → reads len r (Timed given day clock seconds) tokens.old ≡ reads len r (At (step.Head (started given day p))) tokens.new) }
    ensures err { IfErr result (λ f. (r : Reading) (given : Given) (day : Day) → reads len r (Timed given day clock seconds) tokens.old ≡ Err f) }
    ensures shorter { OnOk result (length tokens.new < length tokens.old) }
{
    let token = tokens.next(len)?;
    match token {
        Token::Word(at, _, word) => {
            let seconds = half_at(*at, clock, word)?;
            closed(len, tokens)?;
            Ok(seconds)
        }
        Token::Quoted(at, _) => Err(unexpected(*at)),
        Token::Mark(_, _) => {
            closes(token)?;
            Ok(seconds)
        }
    }
}

/// A time as it is written, where it is one of 24 hours or has its half in the same word.
fn time_at(at: u32, word: &Lent<'_>) -> Result<(Option<Clock>, u32), Found>
    ensures ok { IfOk result (λ p. (given : Given) (day : Day) → time_move strict given day at word.now (clock_in word.now) ≡ Ok (Timed given day p.0 p.1)) }
    ensures err { IfErr result (λ f. (given : Given) (day : Day) → time_move strict given day at word.now (clock_in word.now) ≡ Err f) }
{
    let clock = clock_in(word.bytes());
    let seconds = match clock {
        Some(clock) => plain_time(clock),
        None => named_time(word.bytes()),
    };
    match seconds {
        Ok(seconds) => Ok((clock, seconds)),
        Err(name) => Err((name, at)),
    }
}

/// Before a time of STARTT: the time, and what stands behind the closing parenthesis.
#[tactic(auto, unfolding(cd_automaton::specs::Machine::run, cd_automaton::specs::Machine::next))]
fn timing<'t, 'a>(len: u32, tokens: &mut Cursor<'t, 'a>) -> Result<u32, Found>
    ensures ok { IfOk result (λ p. (r : Reading) (given : Given) (day : Day) → reads len r (Timing given day) tokens.old ≡ reads len r (At (step.Head (started given day p))) tokens.new) }
    ensures err { IfErr result (λ f. (r : Reading) (given : Given) (day : Day) → reads len r (Timing given day) tokens.old ≡ Err f) }
    ensures shorter { OnOk result (length tokens.new < length tokens.old) }
{
    let token = tokens.next(len)?;
    match token {
        Token::Word(at, _, word) => {
            let (clock, seconds) = time_at(*at, word)?;
            let seconds = behind_time(len, clock, seconds, tokens)?;
            Ok(seconds)
        }
        Token::Quoted(at, _) | Token::Mark(at, _) => Err(unexpected(*at)),
    }
}

/// Behind a day of STARTT: the time, and what stands behind the closing parenthesis.
#[tactic(auto, unfolding(cd_automaton::specs::Machine::run, cd_automaton::specs::Machine::next))]
fn dated<'t, 'a>(len: u32, tokens: &mut Cursor<'t, 'a>) -> Result<u32, Found>
    ensures ok { IfOk result (λ p. (r : Reading) (given : Given) (day : Day) → reads len r (Dated given day) tokens.old ≡ reads len r (At (step.Head (started given day p))) tokens.new) }
    ensures err { IfErr result (λ f. (r : Reading) (given : Given) (day : Day) → reads len r (Dated given day) tokens.old ≡ Err f) }
    ensures shorter { OnOk result (length tokens.new < length tokens.old) }
{
    let token = tokens.next(len)?;
    match token {
        Token::Word(at, _, _) | Token::Quoted(at, _) => Err(unexpected(*at)),
        Token::Mark(at, sign) => match sign {
            Sign::Close => Ok(0),
            Sign::Comma => {
                let seconds = timing(len, tokens)?;
                Ok(seconds)
            }
            _ => Err(unexpected(*at)),
        },
    }
}

/// In the parentheses of STARTT: the day, the time, and what stands behind the closing parenthesis.
#[tactic(auto, unfolding(cd_automaton::specs::Machine::run, cd_automaton::specs::Machine::next))]
fn starting<'t, 'a>(len: u32, tokens: &mut Cursor<'t, 'a>) -> Result<(Day, u32), Found>
    ensures ok { IfOk result (λ p. (r : Reading) (given : Given) → reads len r (Starting given) tokens.old ≡ reads len r (At (step.Head (started given p.0 p.1))) tokens.new) }
    ensures err { IfErr result (λ f. (r : Reading) (given : Given) → reads len r (Starting given) tokens.old ≡ Err f) }
    ensures shorter { OnOk result (length tokens.new < length tokens.old) }
{
    let token = tokens.next(len)?;
    match token {
        Token::Word(at, _, word) => {
            let Some(day) = day_in(word.bytes()) else {
                return Err(unexpected(*at));
            };
            let seconds = dated(len, tokens)?;
            Ok((day, seconds))
        }
        Token::Quoted(at, _) => Err(unexpected(*at)),
        Token::Mark(at, sign) => match sign {
            Sign::Comma => {
                let seconds = timing(len, tokens)?;
                Ok((Day::Today, seconds))
            }
            _ => Err(unexpected(*at)),
        },
    }
}

/// A value in parentheses, behind the opening one.
#[tactic(auto, unfolding(cd_automaton::specs::Machine::run, cd_automaton::specs::Machine::next))]
fn parenthesized<'t, 'a>(
    len: u32,
    step: Step<'a>,
    slot: Slot,
    at: u32,
    tokens: &mut Cursor<'t, 'a>,
) -> Result<Step<'a>, Found>
    ensures ok { IfOk result (λ p. (r : Reading) → reads len r (Parenthesized step.entry slot at) tokens.old ≡ reads len r (At p) tokens.new) }
    ensures err { IfErr result (λ f. (r : Reading) → reads len r (Parenthesized step.entry slot at) tokens.old ≡ Err f) }
    ensures shorter { OnOk result (length tokens.new < length tokens.old) }
{
    let token = tokens.next(len)?;
    let step = with_token(step, slot, at, token)?;
    closed(len, tokens)?;
    Ok(step)
}

/// What was given where a parameter may stand.
fn given_of<'a>(step: Step<'a>) -> Given<'a>
    ensures { result ≡ given_of step.entry }
{
    match step {
        Step::Head(given)
        | Step::Group(_, _, _, given)
        | Step::Run(_, _, given)
        | Step::RunGroup(_, _, given)
        | Step::Submit(_, given) => given,
        Step::Copy(_, copy) => copy.others,
        Step::Between => Given::nothing(),
    }
}

/// Behind an opening parenthesis in the place of a value.
#[tactic(auto, unfolding(cd_automaton::specs::Machine::open_move))]
fn opened<'t, 'a>(
    len: u32,
    step: Step<'a>,
    slot: Slot,
    places: (u32, u32),
    tokens: &mut Cursor<'t, 'a>,
) -> Result<Step<'a>, Found>
    ensures ok { IfOk result (λ p. (r : Reading) → onward len tokens.old (kept r (open_move step.entry slot places.0 places.1)) ≡ reads len r (At p) tokens.new) }
    ensures err { IfErr result (λ f. (r : Reading) → onward len tokens.old (kept r (open_move step.entry slot places.0 places.1)) ≡ Err f) }
    ensures shorter { OnOk result (length tokens.new < length tokens.old) }
{
    if slot == Slot::Start {
        let (day, seconds) = starting(len, tokens)?;
        let given = started(given_of(step), day, seconds);
        return Ok(Step::Head(given));
    }
    if takes_list(slot) {
        listed(len, tokens)?;
        return Ok(with_listed(step, slot));
    }
    if !takes_parentheses(slot) {
        return Err(unexpected(places.1));
    }
    let step = parenthesized(len, step, slot, places.0, tokens)?;
    Ok(step)
}

/// The value of the parameter whose word stands at this place.
#[tactic(auto, unfolding(cd_automaton::specs::Machine::run, cd_automaton::specs::Machine::next, cd_automaton::specs::Machine::value_move))]
pub(crate) fn value<'t, 'a>(
    len: u32,
    step: Step<'a>,
    slot: Slot,
    at: u32,
    tokens: &mut Cursor<'t, 'a>,
) -> Result<Step<'a>, Found>
    ensures ok { IfOk result (λ p. (r : Reading) → reads len r (Value step.entry slot at) tokens.old ≡ reads len r (At p) tokens.new) }
    ensures err { IfErr result (λ f. (r : Reading) → reads len r (Value step.entry slot at) tokens.old ≡ Err f) }
    ensures shorter { OnOk result (length tokens.new < length tokens.old) }
{
    let token = tokens.next(len)?;
    match token {
        Token::Mark(at2, sign) => match sign {
            Sign::Open => {
                let step = opened(len, step, slot, (at, *at2), tokens)?;
                Ok(step)
            }
            _ => Err(unexpected(*at2)),
        },
        Token::Word(_, _, _) => {
            let step = with_token(step, slot, at, token)?;
            Ok(step)
        }
        Token::Quoted(_, _) => {
            let step = with_token(step, slot, at, token)?;
            Ok(step)
        }
    }
}

/// Behind a symbolic name: its `=` and its value.
#[tactic(auto, unfolding(cd_automaton::specs::Machine::run, cd_automaton::specs::Machine::next))]
pub(crate) fn symbol<'t, 'a>(
    reader: &mut Reader<'a>,
    len: u32,
    step: &Step<'a>,
    name: &Lent<'a>,
    tokens: &mut Cursor<'t, 'a>,
) -> Result<(), ParseFault>
    ensures ok { IfOk result (λ _. reads len reader.old (Symbol step.now name.now) tokens.old ≡ reads len reader.new (At step.now) tokens.new) }
    ensures err { IfErr result (λ f. Tells f (reads len reader.old (Symbol step.now name.now) tokens.old)) }
    ensures shorter { OnOk result (length tokens.new < length tokens.old) }
{
    let token = tokens.next(len)?;
    equals(token)?;
    let token = tokens.next(len)?;
    match token {
        Token::Word(_, _, text) | Token::Quoted(_, text) => {
            reader.name(step, name.bytes(), text.bytes())?;
            Ok(())
        }
        Token::Mark(at, _) => Err(unexpected(*at).into()),
    }
}

/// In a list of pairs of COMPRESS: what stands behind it.
#[tactic(auto, unfolding(cd_automaton::specs::Machine::run, cd_automaton::specs::Machine::next))]
fn pair<'t, 'a>(len: u32, tokens: &mut Cursor<'t, 'a>) -> Result<(), Found>
    ensures ok { IfOk result (λ _. (r : Reading) (s : Step) → reads len r (PairNamed s) tokens.old ≡ reads len r (Pairs s) tokens.new) }
    ensures err { IfErr result (λ f. (r : Reading) (s : Step) → reads len r (PairNamed s) tokens.old ≡ Err f) }
    ensures shorter { OnOk result (length tokens.new < length tokens.old) }
{
    let token = tokens.next(len)?;
    equals(token)?;
    let token = tokens.next(len)?;
    match token {
        Token::Word(_, _, _) => Ok(()),
        Token::Quoted(at, _) | Token::Mark(at, _) => Err(unexpected(*at)),
    }
}

/// In a list of pairs of COMPRESS: what stands behind it.
#[tactic(auto, unfolding(cd_automaton::specs::Machine::run, cd_automaton::specs::Machine::next))]
fn pairs<'t, 'a>(len: u32, tokens: &mut Cursor<'t, 'a>) -> Result<(), Found>
    ensures ok { IfOk result (λ _. (r : Reading) (s : Step) → reads len r (Pairs s) tokens.old ≡ reads len r (At s) tokens.new) }
    ensures err { IfErr result (λ f. (r : Reading) (s : Step) → reads len r (Pairs s) tokens.old ≡ Err f) }
    ensures shorter { OnOk result (length tokens.new < length tokens.old) }
{
    loop {
        let token = tokens.next(len)?;
        match token {
            Token::Word(_, _, _) => {}
            Token::Quoted(at, _) => return Err(unexpected(*at)),
            Token::Mark(_, _) => {
                closes(token)?;
                return Ok(());
            }
        }
        pair(len, tokens)?;
    }
}

/// Whether there is a quoted text.
fn is_quoted(token: Option<&Token<'_>>) -> bool
    ensures { IsQuoted (option_map (λ token. token.now) token.entry) result }
{
    match token {
        Some(Token::Quoted(_, _)) => true,
        _ => false,
    }
}

/// Whether there is a `=`.
fn is_equals(token: Option<&Token<'_>>) -> bool
    ensures { IsEquals (option_map (λ token. token.now) token.entry) result }
{
    match token {
        Some(Token::Mark(_, Sign::Equals)) => true,
        _ => false,
    }
}

/// What stands behind COMPRESS.
#[derive(Clone, Copy, Debug, PartialEq, Eq)]
pub(crate) enum Extra {
    None,
    Prime,
    Extended,
}

/// What stands behind COMPRESS, where this is the next token.
fn extra_at(token: Option<&Token<'_>>) -> Extra
    ensures { IsExtra (option_map (λ token. token.now) token.entry) result }
{
    match token {
        Some(Token::Word(_, Key::Primechar, _)) => Extra::Prime,
        Some(Token::Word(_, Key::Extended, _)) => Extra::Extended,
        _ => Extra::None,
    }
}

/// Behind COMPRESS PRIMECHAR: its `=` and its word, and what goes with them.
#[tactic(auto, unfolding(cd_automaton::specs::Machine::run, cd_automaton::specs::Machine::next))]
fn primed<'t, 'a>(len: u32, tokens: &mut Cursor<'t, 'a>) -> Result<(), Found>
    ensures ok { IfOk result (λ _. (r : Reading) (begun : Begun) (copy : CopyGiven) → reads len r (Prime begun copy) tokens.old ≡ reads len r (At (step.Copy begun copy)) tokens.new) }
    ensures err { IfErr result (λ f. (r : Reading) (begun : Begun) (copy : CopyGiven) → reads len r (Prime begun copy) tokens.old ≡ Err f) }
    ensures shorter { OnOk result (length tokens.new ≤ length tokens.old) }
{
    let token = tokens.next(len)?;
    equals(token)?;
    let token = tokens.next(len)?;
    match token {
        Token::Word(_, _, _) => {}
        Token::Quoted(at, _) | Token::Mark(at, _) => return Err(unexpected(*at)),
    }
    if is_quoted(tokens.peek()) {
        tokens.skip();
    }
    Ok(())
}

/// Behind COMPRESS EXTENDED: its pairs, if there are any.
#[tactic(auto, unfolding(cd_automaton::specs::Machine::run, cd_automaton::specs::Machine::next))]
fn extended<'t, 'a>(len: u32, tokens: &mut Cursor<'t, 'a>) -> Result<(), Found>
    ensures ok { IfOk result (λ _. (r : Reading) (begun : Begun) (copy : CopyGiven) → reads len r (Extended begun copy) tokens.old ≡ reads len r (At (step.Copy begun copy)) tokens.new) }
    ensures err { IfErr result (λ f. (r : Reading) (begun : Begun) (copy : CopyGiven) → reads len r (Extended begun copy) tokens.old ≡ Err f) }
    ensures shorter { OnOk result (length tokens.new ≤ length tokens.old) }
{
    if !is_equals(tokens.peek()) {
        return Ok(());
    }
    tokens.skip();
    let token = tokens.next(len)?;
    opens(token)?;
    pairs(len, tokens)?;
    Ok(())
}

/// Behind COMPRESS: what goes with it.
#[tactic(auto, unfolding(cd_automaton::specs::Machine::run, cd_automaton::specs::Machine::next))]
pub(crate) fn compressed<'t, 'a>(len: u32, tokens: &mut Cursor<'t, 'a>) -> Result<(), Found>
    ensures ok { IfOk result (λ _. (r : Reading) (begun : Begun) (copy : CopyGiven) → reads len r (Compress begun copy) tokens.old ≡ reads len r (At (step.Copy begun copy)) tokens.new) }
    ensures err { IfErr result (λ f. (r : Reading) (begun : Begun) (copy : CopyGiven) → reads len r (Compress begun copy) tokens.old ≡ Err f) }
    ensures shorter { OnOk result (length tokens.new ≤ length tokens.old) }
{
    match extra_at(tokens.peek()) {
        Extra::None => {}
        Extra::Prime => {
            tokens.skip();
            primed(len, tokens)?;
        }
        Extra::Extended => {
            tokens.skip();
            extended(len, tokens)?;
        }
    }
    Ok(())
}
