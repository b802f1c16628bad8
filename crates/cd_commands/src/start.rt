//! The start of a submission: what stands in the parentheses of STARTT.
ghost use Rattle.std.specs.Prelude.{◌≡◌, ◌∷◌, ◌<◌, ◌≤◌, ℕ, List, [], length, IfOk, IfErr, OnOk};
ghost use Rattle.cd_types.specs.declared.start.Day.{Day};
ghost use Rattle.cd_grammar.specs.Starts.{clock_in, half_in};
ghost use Rattle.cd_commands.specs.declared.kind.Kind.{Kind};
ghost use Rattle.cd_commands.specs.declared.given.Given.{Given};
ghost use Rattle.cd_commands.specs.Given.{started};
ghost use Rattle.cd_commands.specs.declared.given.Slot.TheVariants.{Set};
ghost use Rattle.cd_commands.specs.declared.kind.Param.TheVariants.{Startt};
ghost use Rattle.cd_commands.specs.Machine.{State, said, Leaves, At, Valued, Starting, Dated, Timing, Timed, Closing, Goes, Stops, time_move, half_move, opening_move, closing_move};

use crate::cursor::Cursor;
use cd_grammar::{
    Clock, Lent, Sign, Token, clock_in, day_in, half_in, half_time, named_time, plain_time,
};
use cd_types::Day;

/// That a token is `(`.
fn opens(token: &Token<'_>) -> Result<(), u32>
    ensures ok { OnOk result ((s : State) → opening_move s token.now ≡ Goes s) }
    ensures err { IfErr result (λ at. (s : State) → opening_move s token.now ≡ Stops at) }
{
    match token {
        Token::Word(at, _, _) | Token::Quoted(at, _) => Err(*at),
        Token::Mark(at, sign) => match sign {
            Sign::Open => Ok(()),
            _ => Err(*at),
        },
    }
}

/// That a token is `)`.
fn closes(token: &Token<'_>) -> Result<(), u32>
    ensures ok { OnOk result ((s : State) → closing_move s token.now ≡ Goes s) }
    ensures err { IfErr result (λ at. (s : State) → closing_move s token.now ≡ Stops at) }
{
    match token {
        Token::Word(at, _, _) | Token::Quoted(at, _) => Err(*at),
        Token::Mark(at, sign) => match sign {
            Sign::Close => Ok(()),
            _ => Err(*at),
        },
    }
}

/// Behind the closing parenthesis that stands next.
#[tactic(auto, unfolding(crate::specs::Machine::said, crate::specs::Machine::next, crate::specs::Machine::at_end))]
fn closed<'t, 'a>(len: u32, tokens: &mut Cursor<'t, 'a>) -> Result<(), u32>
    ensures ok { IfOk result (λ _. (k : Kind) (g : Given) → said len (Closing k g) tokens.old ≡ said len (At k g) tokens.new) }
    ensures err { IfErr result (λ at. (k : Kind) (g : Given) → said len (Closing k g) tokens.old ≡ Leaves at) }
    ensures shorter { OnOk result (length tokens.new < length tokens.old) }
{
    let token = tokens.next(len)?;
    closes(token)?;
    Ok(())
}

/// A time in a half of the day, which the word at this place names behind a time as it is written.
fn half_at(at: u32, clock: Option<Clock>, word: &Lent<'_>) -> Result<u32, u32>
    ensures ok { IfOk result (λ p. (k : Kind) (g : Given) (day : Day) → half_move k g day at clock (half_in word.now) ≡ Goes (Closing k (started g day p))) }
    ensures err { IfErr result (λ a. (k : Kind) (g : Given) (day : Day) → half_move k g day at clock (half_in word.now) ≡ Stops a) }
{
    let Some(clock) = clock else {
        return Err(at);
    };
    let Some(half) = half_in(word.bytes()) else {
        return Err(at);
    };
    match half_time(clock, half) {
        Ok(seconds) => Ok(seconds),
        Err(_) => Err(at),
    }
}

/// Behind a time: what it is at last, and what stands behind the closing parenthesis.
#[tactic(auto, unfolding(crate::specs::Machine::said, crate::specs::Machine::next, crate::specs::Machine::at_end))]
fn behind_time<'t, 'a>(
    len: u32,
    clock: Option<Clock>,
    seconds: u32,
    tokens: &mut Cursor<'t, 'a>,
) -> Result<u32, u32>
    ensures ok { IfOk result (λ p. (k : Kind) (g : Given) (day : Day) → said len (Timed k g day clock seconds) tokens.old ≡ said len (At k (started g day p)) tokens.new) }
    ensures err { IfErr result (λ at. (k : Kind) (g : Given) (day : Day) → said len (Timed k g day clock seconds) tokens.old ≡ Leaves at) }
    ensures shorter { OnOk result (length tokens.new < length tokens.old) }
{
    let token = tokens.next(len)?;
    match token {
        Token::Word(at, _, word) => {
            let seconds = half_at(*at, clock, word)?;
            closed(len, tokens)?;
            Ok(seconds)
        }
        Token::Quoted(at, _) => Err(*at),
        Token::Mark(at, sign) => match sign {
            Sign::Close => Ok(seconds),
            _ => Err(*at),
        },
    }
}

/// A time as it is written, where it is one of 24 hours or has its half in the same word.
fn time_at(at: u32, word: &Lent<'_>) -> Result<(Option<Clock>, u32), u32>
    ensures ok { IfOk result (λ p. (k : Kind) (g : Given) (day : Day) → time_move k g day at word.now (clock_in word.now) ≡ Goes (Timed k g day p.0 p.1)) }
    ensures err { IfErr result (λ a. (k : Kind) (g : Given) (day : Day) → time_move k g day at word.now (clock_in word.now) ≡ Stops a) }
{
    let clock = clock_in(word.bytes());
    let seconds = match clock {
        Some(clock) => plain_time(clock),
        None => named_time(word.bytes()),
    };
    match seconds {
        Ok(seconds) => Ok((clock, seconds)),
        Err(_) => Err(at),
    }
}

/// Before a time: the time, and what stands behind the closing parenthesis.
#[tactic(auto, unfolding(crate::specs::Machine::said, crate::specs::Machine::next, crate::specs::Machine::at_end))]
fn timing<'t, 'a>(len: u32, tokens: &mut Cursor<'t, 'a>) -> Result<u32, u32>
    ensures ok { IfOk result (λ p. (k : Kind) (g : Given) (day : Day) → said len (Timing k g day) tokens.old ≡ said len (At k (started g day p)) tokens.new) }
    ensures err { IfErr result (λ at. (k : Kind) (g : Given) (day : Day) → said len (Timing k g day) tokens.old ≡ Leaves at) }
    ensures shorter { OnOk result (length tokens.new < length tokens.old) }
{
    let token = tokens.next(len)?;
    match token {
        Token::Word(at, _, word) => {
            let (clock, seconds) = time_at(*at, word)?;
            let seconds = behind_time(len, clock, seconds, tokens)?;
            Ok(seconds)
        }
        Token::Quoted(at, _) | Token::Mark(at, _) => Err(*at),
    }
}

/// Behind a day: the time, and what stands behind the closing parenthesis.
#[tactic(auto, unfolding(crate::specs::Machine::said, crate::specs::Machine::next, crate::specs::Machine::at_end))]
fn dated<'t, 'a>(len: u32, tokens: &mut Cursor<'t, 'a>) -> Result<u32, u32>
    ensures ok { IfOk result (λ p. (k : Kind) (g : Given) (day : Day) → said len (Dated k g day) tokens.old ≡ said len (At k (started g day p)) tokens.new) }
    ensures err { IfErr result (λ at. (k : Kind) (g : Given) (day : Day) → said len (Dated k g day) tokens.old ≡ Leaves at) }
    ensures shorter { OnOk result (length tokens.new < length tokens.old) }
{
    let token = tokens.next(len)?;
    match token {
        Token::Word(at, _, _) | Token::Quoted(at, _) => Err(*at),
        Token::Mark(at, sign) => match sign {
            Sign::Close => Ok(0),
            Sign::Comma => {
                let seconds = timing(len, tokens)?;
                Ok(seconds)
            }
            _ => Err(*at),
        },
    }
}

/// In the parentheses: the day, the time, and what stands behind the closing one.
#[tactic(auto, unfolding(crate::specs::Machine::said, crate::specs::Machine::next, crate::specs::Machine::at_end))]
fn starting<'t, 'a>(len: u32, tokens: &mut Cursor<'t, 'a>) -> Result<(Day, u32), u32>
    ensures ok { IfOk result (λ p. (k : Kind) (g : Given) → said len (Starting k g) tokens.old ≡ said len (At k (started g p.0 p.1)) tokens.new) }
    ensures err { IfErr result (λ at. (k : Kind) (g : Given) → said len (Starting k g) tokens.old ≡ Leaves at) }
    ensures shorter { OnOk result (length tokens.new < length tokens.old) }
{
    let token = tokens.next(len)?;
    match token {
        Token::Word(at, _, word) => {
            let Some(day) = day_in(word.bytes()) else {
                return Err(*at);
            };
            let seconds = dated(len, tokens)?;
            Ok((day, seconds))
        }
        Token::Quoted(at, _) => Err(*at),
        Token::Mark(at, sign) => match sign {
            Sign::Comma => {
                let seconds = timing(len, tokens)?;
                Ok((Day::Today, seconds))
            }
            _ => Err(*at),
        },
    }
}

/// A whole start, with its parentheses.
#[tactic(auto, unfolding(crate::specs::Machine::said, crate::specs::Machine::next, crate::specs::Machine::at_end, crate::specs::Machine::set_move))]
pub(crate) fn start<'t, 'a>(len: u32, tokens: &mut Cursor<'t, 'a>) -> Result<(Day, u32), u32>
    ensures ok { IfOk result (λ p. (k : Kind) (g : Given) → said len (Valued k g (Set Startt)) tokens.old ≡ said len (At k (started g p.0 p.1)) tokens.new) }
    ensures err { IfErr result (λ at. (k : Kind) (g : Given) → said len (Valued k g (Set Startt)) tokens.old ≡ Leaves at) }
    ensures shorter { OnOk result (length tokens.new < length tokens.old) }
{
    let token = tokens.next(len)?;
    opens(token)?;
    let (day, seconds) = starting(len, tokens)?;
    Ok((day, seconds))
}
