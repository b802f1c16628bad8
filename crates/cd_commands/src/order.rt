//! Reads the tokens of a command.
ghost use Rattle.std.specs.Prelude.{◌≡◌, ◌≢◌, ◌∷◌, ◌<◌, ◌≤◌, ℕ, List, [], drop, length, Option, Some, None, IfOk, IfErr, OnOk, IfSome, IfNone};
ghost use Rattle.cd_commands.specs.Given.{nothing, slot_of, finished};
ghost use Rattle.cd_commands.specs.Peeks.{equals};
ghost use Rattle.cd_commands.specs.declared.given.Slot.TheVariants.{Set, Symbol};
ghost use Rattle.cd_commands.specs.Words.{looks_ahead};
ghost use Rattle.cd_commands.specs.Machine.{said, Leaves, Begin, Led, At, Named, Valued, Ended, moved, goes_if, without, symbol_move, word_move, lead_state, Goes, Stops};
ghost use Rattle.cd_commands.specs.Commands.{ends, first_of, text_end, left_behind};
ghost use Rattle.cd_commands.specs.Told.{Tells, Leads, IsRead};
ghost use Rattle.cd_grammar.specs.declared.token.Token.{Token};

use crate::Command;
use crate::cursor::{Cursor, place_of};
use crate::fault::Stopped;
use crate::finish::finished;
use crate::given::{Given, Slot, started, with_name, with_value};
use crate::kind::{Kind, Lead, Param, Verb, kind_in, lead_in, looks_ahead};
use crate::start::start;
use cd_grammar::{Lent, Sign, Token};
use std::alloc::Global;
use std::marker::Model;

/// What comes of a word or a sign where a parameter may stand: parameters go on, the `;` at this place ends them, or the word at
/// this place begins a Process text.
#[derive(Clone, Copy, Debug, PartialEq, Eq)]
pub(crate) enum Turn {
    Goes,
    Ends(u32),
    Text(u32),
}

/// What the tokens of a command say: a whole command; or options, the place of a Process text behind them and the place of its
/// end, and where the command is left behind it, if it is.
#[derive(Drop)]
pub(crate) enum Order<'a> {
    Whole(Command),
    Text(Given<'a>, u32, u32, Option<u32>),
}

/// Behind the first of two words: which command it is.
#[tactic(auto, unfolding(crate::specs::Machine::said, crate::specs::Machine::next, crate::specs::Machine::at_end))]
fn second<'t, 'a>(len: u32, verb: Verb, tokens: &mut Cursor<'t, 'a>) -> Result<Kind, u32>
    ensures ok { IfOk result (λ k. said len (Led verb) tokens.old ≡ said len (At k nothing) tokens.new) }
    ensures err { IfErr result (λ at. said len (Led verb) tokens.old ≡ Leaves at) }
{
    let token = tokens.next(len)?;
    match token {
        Token::Word(at, _, word) => match kind_in(verb, word.bytes()) {
            Some(kind) => Ok(kind),
            None => Err(*at),
        },
        Token::Quoted(at, _) | Token::Mark(at, _) => Err(*at),
    }
}

/// What a command's first word says.
#[tactic(auto, unfolding(crate::specs::Machine::said, crate::specs::Machine::next, crate::specs::Machine::at_end))]
fn first<'t, 'a>(len: u32, tokens: &mut Cursor<'t, 'a>) -> Result<Lead, u32>
    ensures ok { IfOk result (λ l. said len Begin tokens.old ≡ said len (lead_state l) tokens.new) }
    ensures err { IfErr result (λ at. said len Begin tokens.old ≡ Leaves at) }
{
    let token = tokens.next(len)?;
    match token {
        Token::Word(at, _, word) => match lead_in(word.bytes()) {
            Some(lead) => Ok(lead),
            None => Err(*at),
        },
        Token::Quoted(at, _) | Token::Mark(at, _) => Err(*at),
    }
}

/// Which command it is.
fn read_kind<'t, 'a>(len: u32, tokens: &mut Cursor<'t, 'a>) -> Result<Kind, u32>
    ensures ok { IfOk result (λ k. said len Begin tokens.old ≡ said len (At k nothing) tokens.new) }
    ensures err { IfErr result (λ at. said len Begin tokens.old ≡ Leaves at) }
{
    match first(len, tokens)? {
        Lead::Alone(kind) => Ok(kind),
        Lead::Two(verb) => {
            let kind = second(len, verb, tokens)?;
            Ok(kind)
        }
    }
}

/// The value of a parameter other than a start.
#[tactic(auto, unfolding(crate::specs::Machine::said, crate::specs::Machine::next, crate::specs::Machine::at_end, crate::specs::Machine::set_move))]
fn plain_value<'t, 'a>(
    len: u32,
    kind: Kind,
    given: Given<'a>,
    param: Param,
    tokens: &mut Cursor<'t, 'a>,
) -> Result<Given<'a>, u32>
    requires { param ≢ Param.Startt }
    ensures ok { IfOk result (λ g. said len (Valued kind given.entry (Set param)) tokens.old ≡ said len (At kind g) tokens.new) }
    ensures err { IfErr result (λ at. said len (Valued kind given.entry (Set param)) tokens.old ≡ Leaves at) }
    ensures shorter { OnOk result (length tokens.new < length tokens.old) }
{
    let token = tokens.next(len)?;
    match with_value(kind, given, param, token) {
        Some(given) => Ok(given),
        None => Err(place_of(token)),
    }
}

/// The value of a parameter.
fn set_value<'t, 'a>(
    len: u32,
    kind: Kind,
    given: Given<'a>,
    param: Param,
    tokens: &mut Cursor<'t, 'a>,
) -> Result<Given<'a>, u32>
    ensures ok { IfOk result (λ g. said len (Valued kind given.entry (Set param)) tokens.old ≡ said len (At kind g) tokens.new) }
    ensures err { IfErr result (λ at. said len (Valued kind given.entry (Set param)) tokens.old ≡ Leaves at) }
    ensures shorter { OnOk result (length tokens.new < length tokens.old) }
{
    if param == Param::Startt {
        let (day, seconds) = start(len, tokens)?;
        return Ok(started(given, day, seconds));
    }
    let given = plain_value(len, kind, given, param, tokens)?;
    Ok(given)
}

/// The value of a symbolic name.
#[tactic(auto, unfolding(crate::specs::Machine::said, crate::specs::Machine::next, crate::specs::Machine::at_end))]
fn symbol_value<'t, 'a>(
    len: u32,
    kind: Kind,
    given: Given<'a>,
    name: &Lent<'a>,
    tokens: &mut Cursor<'t, 'a>,
) -> Result<Given<'a>, Stopped>
    ensures ok { IfOk result (λ g. said len (Valued kind given.entry (Symbol name.now)) tokens.old ≡ said len (At kind g) tokens.new) }
    ensures err { IfErr result (λ f. Tells f (said len (Valued kind given.entry (Symbol name.now)) tokens.old)) }
    ensures shorter { OnOk result (length tokens.new < length tokens.old) }
{
    let token = tokens.next(len)?;
    match token {
        Token::Word(_, _, text) | Token::Quoted(_, text) => {
            let given = with_name(given, name, text)?;
            Ok(given)
        }
        Token::Mark(at, _) => Err(Stopped::Left(*at)),
    }
}

/// What stands behind the `=` of a word.
fn value<'t, 'a>(
    len: u32,
    kind: Kind,
    given: Given<'a>,
    slot: Slot<'a>,
    tokens: &mut Cursor<'t, 'a>,
) -> Result<Given<'a>, Stopped>
    ensures ok { IfOk result (λ g. said len (Valued kind given.entry slot.entry) tokens.old ≡ said len (At kind g) tokens.new) }
    ensures err { IfErr result (λ f. Tells f (said len (Valued kind given.entry slot.entry) tokens.old)) }
    ensures shorter { OnOk result (length tokens.new < length tokens.old) }
{
    match slot {
        Slot::Set(param) => {
            let given = set_value(len, kind, given, param, tokens)?;
            Ok(given)
        }
        Slot::Symbol(name) => {
            let given = symbol_value(len, kind, given, &name, tokens)?;
            Ok(given)
        }
    }
}

/// Whether a token is `=`.
fn is_equals(token: &Token<'_>) -> bool
    ensures { result ≡ equals token.now }
{
    match token {
        Token::Word(_, _, _) | Token::Quoted(_, _) => false,
        Token::Mark(_, sign) => match sign {
            Sign::Equals => true,
            _ => false,
        },
    }
}

/// The place of what stands behind a word, where that isn't `=`.
fn other_place<'t, 'a>(len: u32, tokens: &Cursor<'t, 'a>) -> Option<u32>
    ensures some { IfSome result (λ place. (k : Kind) (g : Given) (at : ℕ) (set : Option Slot) → said len (Named k g at set) tokens.now ≡ moved (without (looks_ahead k) g at place) tokens.now (λ s. Leaves len)) }
    ensures none { IfNone result ((k : Kind) (g : Given) (at : ℕ) (set : Option Slot) → said len (Named k g at set) tokens.now ≡ moved (goes_if at set (λ s. Valued k g s)) tokens.now (λ s. said len s (drop 1 tokens.now))) }
    ensures more { IfNone result (0 < length tokens.now) }
{
    let Some(token) = tokens.peek() else {
        return Some(len);
    };
    if is_equals(token) {
        return None;
    }
    Some(place_of(token))
}

/// Behind a word at this place, which sets this, if anything.
fn named<'t, 'a>(
    len: u32,
    kind: Kind,
    given: Given<'a>,
    at: u32,
    slot: Option<Slot<'a>>,
    tokens: &mut Cursor<'t, 'a>,
) -> Result<(Given<'a>, Turn), Stopped>
    ensures ok { IfOk result (λ p. Leads (said len (Named kind given.entry at slot.entry) tokens.old) len kind p.0 p.1 tokens.new) }
    ensures err { IfErr result (λ f. Tells f (said len (Named kind given.entry at slot.entry) tokens.old)) }
    ensures shorter { OnOk result (length tokens.new ≤ length tokens.old) }
{
    if let Some(place) = other_place(len, tokens) {
        if !looks_ahead(kind) {
            return Err(Stopped::Left(place));
        }
        if given.file.is_some() {
            return Err(Stopped::Left(at));
        }
        return Ok((given, Turn::Text(at)));
    }
    let Some(slot) = slot else {
        return Err(Stopped::Left(at));
    };
    tokens.skip();
    let given = value(len, kind, given, slot, tokens)?;
    Ok((given, Turn::Goes))
}

/// A word where a parameter may stand.
fn worded<'t, 'a>(
    len: u32,
    kind: Kind,
    given: Given<'a>,
    at: u32,
    word: &Lent<'a>,
    tokens: &mut Cursor<'t, 'a>,
) -> Result<(Given<'a>, Turn), Stopped>
    ensures ok { IfOk result (λ p. Leads (moved (word_move kind given.entry at (looks_ahead kind) (slot_of kind given.entry word.now)) [] (λ s. said len s tokens.old)) len kind p.0 p.1 tokens.new) }
    ensures err { IfErr result (λ f. Tells f (moved (word_move kind given.entry at (looks_ahead kind) (slot_of kind given.entry word.now)) [] (λ s. said len s tokens.old))) }
    ensures shorter { OnOk result (length tokens.new ≤ length tokens.old) }
{
    let slot = given.slot_of(kind, word);
    if !looks_ahead(kind) && slot.is_none() {
        return Err(Stopped::Left(at));
    }
    let (given, turn) = named(len, kind, given, at, slot, tokens)?;
    Ok((given, turn))
}

/// The first token where a parameter may stand.
#[tactic(auto, unfolding(crate::specs::Machine::said, crate::specs::Machine::next, crate::specs::Machine::at_end))]
fn next_turn<'t, 'a>(
    len: u32,
    kind: Kind,
    given: Given<'a>,
    tokens: &mut Cursor<'t, 'a>,
) -> Result<(Given<'a>, Turn), Stopped>
    ensures ok { IfOk result (λ p. Leads (said len (At kind given.entry) tokens.old) len kind p.0 p.1 tokens.new) }
    ensures err { IfErr result (λ f. Tells f (said len (At kind given.entry) tokens.old)) }
    ensures shorter { OnOk result (length tokens.new < length tokens.old) }
{
    let token = tokens.next(len)?;
    match token {
        Token::Word(at, _, word) => {
            let (given, turn) = worded(len, kind, given, *at, word, tokens)?;
            Ok((given, turn))
        }
        Token::Quoted(at, _) => Err(Stopped::Left(*at)),
        Token::Mark(at, sign) => match sign {
            Sign::Semicolon => Ok((given, Turn::Ends(*at))),
            _ => Err(Stopped::Left(*at)),
        },
    }
}

/// Behind the parameters and the `;` at this place: the command that they make up, behind which nothing stands.
#[tactic(auto, unfolding(crate::specs::Machine::said, crate::specs::Machine::next, crate::specs::Machine::at_end))]
fn whole<'a>(
    alloc: Global,
    kind: Kind,
    given: Given<'_>,
    at: u32,
    tokens: &Cursor<'_, '_>,
) -> Result<Order<'a>, Stopped>
    ensures ok { IfOk result (λ order. (len : ℕ) → IsRead (moved (goes_if at (finished kind given.entry) Ended) [] (λ s. said len s tokens.now)) len order) }
    ensures err { IfErr result (λ f. (len : ℕ) → Tells f (moved (goes_if at (finished kind given.entry) Ended) [] (λ s. said len s tokens.now))) }
{
    let Some(command) = finished(alloc, kind, given)? else {
        return Err(Stopped::Left(at));
    };
    match tokens.peek() {
        Some(token) => Err(Stopped::Left(place_of(token))),
        None => Ok(Order::Whole(command)),
    }
}

fn ends(token: &Token<'_>) -> bool
    ensures { result ≡ ends token.now }
{
    match token {
        Token::Word(_, _, _) | Token::Quoted(_, _) => false,
        Token::Mark(_, sign) => match sign {
            Sign::Semicolon => true,
            _ => false,
        },
    }
}

/// The place of the next token.
fn next_place(tokens: &Cursor<'_, '_>) -> Option<u32>
    ensures { result ≡ first_of tokens.now }
{
    match tokens.peek() {
        Some(token) => Some(place_of(token)),
        None => None,
    }
}

/// Where a Process text ends that begins before these tokens, and where the command is left behind it, if it is.
#[tactic(auto, unfolding(crate::specs::Commands::text_end, crate::specs::Commands::left_behind))]
fn text_end<'t, 'a>(len: u32, tokens: &mut Cursor<'t, 'a>) -> (u32, Option<u32>)
    ensures end { result.0 ≡ text_end len tokens.old }
    ensures left { result.1 ≡ left_behind len tokens.old }
{
    while let Ok(token) = tokens.next(len) {
        if ends(token) {
            return (place_of(token), next_place(tokens));
        }
    }
    (len, Some(len))
}

/// What was given so far. Contracts see it as one value.
#[derive(Drop)]
struct Held<'a> {
    given: Given<'a>,
}

impl<'a> Model for Held<'a> {
    ghost use Rattle.cd_commands.specs.declared.given.Given.{Given};

    ghost Value = { Given };

    ghost view = { λ held. held.given };
}

impl<'a> Held<'a> {
    fn new(given: Given<'a>) -> Self
        ensures { result ≡ given.entry }
    {
        Held { given }
    }

    fn take(self) -> Given<'a>
        ensures { result ≡ self.entry }
    {
        self.given
    }
}

/// The parameters, and what stands behind them.
fn params<'t, 'a>(
    alloc: Global,
    len: u32,
    kind: Kind,
    tokens: &mut Cursor<'t, 'a>,
) -> Result<(Given<'a>, Turn), Stopped>
    ensures ok { IfOk result (λ p. Leads (said len (At kind nothing) tokens.old) len kind p.0 p.1 tokens.new) }
    ensures last { IfOk result (λ p. p.1 ≢ Turn.Goes) }
    ensures err { IfErr result (λ f. Tells f (said len (At kind nothing) tokens.old)) }
{
    let mut held = Held::new(Given::nothing(alloc));
    let mut turn = Turn::Goes;
    while turn == Turn::Goes {
        let (next, then) = next_turn(len, kind, held.take(), tokens)?;
        held = Held::new(next);
        turn = then;
    }
    Ok((held.take(), turn))
}

/// Behind the first words: the parameters, and the end or the Process text.
fn order_of<'t, 'a>(
    alloc: Global,
    len: u32,
    kind: Kind,
    tokens: &mut Cursor<'t, 'a>,
) -> Result<Order<'a>, Stopped>
    ensures ok { IfOk result (λ order. IsRead (said len (At kind nothing) tokens.old) len order) }
    ensures err { IfErr result (λ f. Tells f (said len (At kind nothing) tokens.old)) }
{
    let (given, turn) = params(alloc, len, kind, tokens)?;
    match turn {
        Turn::Ends(at) => {
            let order = whole(alloc, kind, given, at, tokens)?;
            Ok(order)
        }
        Turn::Text(at) => {
            let (end, left) = text_end(len, tokens);
            Ok(Order::Text(given, at, end, left))
        }
        Turn::Goes => unreachable!(),
    }
}

/// What the tokens of a text of this length say.
pub(crate) fn read_order<'t, 'a>(
    alloc: Global,
    len: u32,
    tokens: &'t [Token<'a>],
) -> Result<Order<'a>, Stopped>
    ensures ok { IfOk result (λ order. IsRead (said len Begin tokens.now) len order) }
    ensures err { IfErr result (λ f. Tells f (said len Begin tokens.now)) }
{
    let mut tokens = Cursor::new(tokens);
    let kind = read_kind(len, &mut tokens)?;
    let order = order_of(alloc, len, kind, &mut tokens)?;
    Ok(order)
}
