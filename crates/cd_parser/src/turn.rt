//! Where a parameter may stand, and the next statement.
ghost use Rattle.std.specs.Prelude.{◌≡◌, ◌∷◌, ◌<◌, ◌≤◌, ℕ, List, [], length, true, is_some, Ok, Err, IfOk, IfErr, OnOk};
ghost use Rattle.std.specs.Option.{option_map};
ghost use Rattle.cd_grammar.specs.Tokens.{place_of};
ghost use Rattle.cd_grammar.specs.Values.{symbol_in};
ghost use Rattle.cd_grammar.specs.declared.token.Token.{Token};
ghost use Rattle.cd_grammar.specs.declared.step.Step.TheVariants as step;
ghost use Rattle.cd_grammar.specs.Answers.{strict, taken};
ghost use Rattle.cd_grammar.specs.Given.{side_of, nothing};
ghost use Rattle.cd_grammar.specs.Grammar.{end_in};
ghost use Rattle.cd_grammar.specs.Reading.{Reading, named, ended, slot_of, given_of, takes_symbols, end_of, with_end};
ghost use Rattle.cd_automaton.specs.State.{At, Named, Ended, Closed};
ghost use Rattle.cd_automaton.specs.Machine.{free, sided, bare_state, copy_state, is_opener, is_symbolic, ended_turn, statement_turn, bare_turn, slot_turn, mark_move, ended_move, with_place, titled, whole};
ghost use Rattle.cd_parser.specs.Runs.{Tells, Leads, reads, onward};
ghost use Rattle.cd_parser.specs.Bare.{IsBare, IsSided};

use crate::ParseFault;
use crate::cursor::Cursor;
use crate::fault::Found;
use crate::leaf::{label_at, opens, place_of, unexpected};
use crate::reader::Reader;
use crate::statement::{Turn, statement, verb};
use crate::value::{compressed, symbol, value};
use cd_grammar::{
    Begun, CopyGiven, End, Given, Key, Lent, Sign, Slot, Step, Token, front_label_in, has, side_of,
    slot_of, symbol_in,
};
use cd_types::Label;
use std::alloc::Global;

/// The end of a copy that a word names.
#[tactic(auto, unfolding(cd_grammar::specs::Grammar::end_in))]
fn end_in(key: Key) -> Option<End>
    ensures { result ≡ end_in key }
{
    match key {
        Key::From => Some(End::From),
        Key::To => Some(End::To),
        _ => None,
    }
}

/// Whether an end of a copy was given.
fn has_end(copy: &CopyGiven<'_>, end: End) -> bool
    ensures { result ≡ is_some (end_of copy.now end) }
{
    match end {
        End::From => copy.from.is_some(),
        End::To => copy.to.is_some(),
    }
}

/// What was given of a copy, with an end.
fn with_end<'a>(copy: CopyGiven<'a>, end: End, given: Given<'a>) -> CopyGiven<'a>
    ensures { result ≡ with_end copy.entry end given.entry }
{
    let mut copy = copy;
    match end {
        End::From => copy.from = Some(given),
        End::To => copy.to = Some(given),
    }
    copy
}

/// Whether a word begins a statement or ends the Process.
#[tactic(auto, unfolding(cd_automaton::specs::Machine::is_opener))]
fn is_opener(key: Key) -> bool
    ensures { result ≡ is_opener key }
{
    match key {
        Key::Copy
        | Key::Run
        | Key::Submit
        | Key::If
        | Key::Else
        | Key::Eif
        | Key::Goto
        | Key::Exit
        | Key::Pend => true,
        _ => false,
    }
}

/// What a word sets that isn't set yet.
fn free_slot(step: &Step<'_>, key: Key) -> Option<Slot>
    ensures { result ≡ free (given_of step.now) (slot_of step.now key) }
{
    let slot = slot_of(step, key)?;
    if has(step, slot) { None } else { Some(slot) }
}

/// Whether symbols may be given.
fn takes_symbols(step: &Step<'_>) -> bool
    ensures { result ≡ takes_symbols step.now }
{
    match step {
        Step::Head(_) | Step::Submit(_, _) => true,
        _ => false,
    }
}

/// Whether a word begins as a symbolic name does.
fn is_symbolic(word: &[u8]) -> bool
    ensures { result ≡ is_symbolic word.now }
{
    match word {
        [] => false,
        [byte, ..] => *byte == b'&',
    }
}

/// What becomes of a word that stands alone where a parameter may stand.
#[derive(Drop)]
pub(crate) enum Bare<'a> {
    /// It leads to a place where a parameter may stand.
    Taken(Step<'a>),
    /// It is no such word.
    Left(Step<'a>),
}

/// What was given, and whether the side that a word names was new in it.
#[derive(Drop)]
pub(crate) enum Sided<'a> {
    Taken(Given<'a>),
    Left(Given<'a>),
}

/// What was given, with the side that a word names where none was given.
fn with_side<'a>(given: Given<'a>, key: Key) -> Sided<'a>
    ensures { IsSided given.entry (sided given.entry (side_of key) given.entry.side) result }
{
    let mut given = given;
    match (side_of(key), given.side) {
        (Some(side), None) => {
            given.side = Some(side);
            Sided::Taken(given)
        }
        _ => Sided::Left(given),
    }
}

/// A word that stands alone in a COPY, before these tokens: FROM, TO or COMPRESS.
#[tactic(auto, unfolding(cd_automaton::specs::Machine::run, cd_automaton::specs::Machine::next, cd_automaton::specs::Machine::compress_by))]
fn bare_in_copy<'t, 'a>(
    len: u32,
    begun: Begun,
    copy: CopyGiven<'a>,
    key: Key,
    tokens: &mut Cursor<'t, 'a>,
) -> Result<Bare<'a>, Found>
    ensures ok { IfOk result (λ bare. (r : Reading) → IsBare len r tokens.old tokens.new (step.Copy begun copy.entry) (copy_state begun copy.entry key (end_in key)) bare) }
    ensures err { IfErr result (λ f. (r : Reading) → option_map (λ s. reads len r s tokens.old) (copy_state begun copy.entry key (end_in key)) ≡ Some (Err f)) }
    ensures shorter { OnOk result (length tokens.new ≤ length tokens.old) }
{
    if let Some(end) = end_in(key) {
        if has_end(&copy, end) {
            return Ok(Bare::Left(Step::Copy(begun, copy)));
        }
        let token = tokens.next(len)?;
        opens(token)?;
        return Ok(Bare::Taken(Step::Group(begun, copy, end, Given::nothing())));
    }
    if key != Key::Compress || copy.compress {
        return Ok(Bare::Left(Step::Copy(begun, copy)));
    }
    let mut copy = copy;
    copy.compress = true;
    compressed(len, tokens)?;
    Ok(Bare::Taken(Step::Copy(begun, copy)))
}

/// A word that stands alone where a parameter may stand, before these tokens.
#[tactic(auto, unfolding(cd_automaton::specs::Machine::bare_state))]
fn lone_word<'t, 'a>(
    len: u32,
    step: Step<'a>,
    key: Key,
    tokens: &mut Cursor<'t, 'a>,
) -> Result<Bare<'a>, Found>
    ensures ok { IfOk result (λ bare. (r : Reading) → IsBare len r tokens.old tokens.new step.entry (bare_state step.entry key) bare) }
    ensures err { IfErr result (λ f. (r : Reading) → option_map (λ s. reads len r s tokens.old) (bare_state step.entry key) ≡ Some (Err f)) }
    ensures shorter { OnOk result (length tokens.new ≤ length tokens.old) }
{
    match step {
        Step::Copy(begun, copy) => {
            let bare = bare_in_copy(len, begun, copy, key, tokens)?;
            Ok(bare)
        }
        Step::Group(begun, copy, end, given) => match with_side(given, key) {
            Sided::Taken(given) => Ok(Bare::Taken(Step::Group(begun, copy, end, given))),
            Sided::Left(given) => Ok(Bare::Left(Step::Group(begun, copy, end, given))),
        },
        Step::Run(begun, work, given) => match with_side(given, key) {
            Sided::Taken(given) => Ok(Bare::Taken(Step::Run(begun, work, given))),
            Sided::Left(given) => Ok(Bare::Left(Step::Run(begun, work, given))),
        },
        Step::RunGroup(begun, work, given) => match with_side(given, key) {
            Sided::Taken(given) => Ok(Bare::Taken(Step::RunGroup(begun, work, given))),
            Sided::Left(given) => Ok(Bare::Left(Step::RunGroup(begun, work, given))),
        },
        Step::Head(_) | Step::Between | Step::Submit(_, _) => Ok(Bare::Left(step)),
    }
}

/// What is being read ends, and the word at this place begins the next statement or ends the Process.
fn behind<'t, 'a>(
    reader: &mut Reader<'a>,
    len: u32,
    step: Step<'a>,
    word: (u32, Key, &Lent<'a>),
    tokens: &mut Cursor<'t, 'a>,
) -> Result<Turn<'a>, ParseFault>
    ensures ok { IfOk result (λ turn. Leads (onward len tokens.old (ended_turn (ended reader.old step.entry) (λ before. statement_turn strict before word.entry.0 word.entry.1 word.entry.2.now) word.entry.0)) len reader.new turn tokens.new) }
    ensures err { IfErr result (λ f. Tells f (onward len tokens.old (ended_turn (ended reader.old step.entry) (λ before. statement_turn strict before word.entry.0 word.entry.1 word.entry.2.now) word.entry.0))) }
    ensures shorter { OnOk result (length tokens.new ≤ length tokens.old) }
{
    if !reader.end(step)? {
        return Err(unexpected(word.0).into());
    }
    let turn = statement(reader, len, word.0, word.1, word.2, tokens)?;
    Ok(turn)
}

/// Behind a word that names a parameter: its `=` and its value, or the keyword whose label it is.
#[tactic(auto, unfolding(cd_automaton::specs::Machine::run, cd_automaton::specs::Machine::next))]
fn named<'t, 'a>(
    reader: &mut Reader<'a>,
    len: u32,
    step: Step<'a>,
    slot: Slot,
    word: (u32, Key, &Lent<'a>),
    tokens: &mut Cursor<'t, 'a>,
) -> Result<Step<'a>, ParseFault>
    ensures ok { IfOk result (λ p. reads len reader.old (Named step.entry slot word.entry.0 word.entry.1 word.entry.2.now) tokens.old ≡ reads len reader.new (At p) tokens.new) }
    ensures err { IfErr result (λ f. Tells f (reads len reader.old (Named step.entry slot word.entry.0 word.entry.1 word.entry.2.now) tokens.old)) }
    ensures shorter { OnOk result (length tokens.new < length tokens.old) }
{
    let token = tokens.next(len)?;
    match token {
        Token::Word(at, key, _) => {
            if !reader.end(step)? {
                return Err(unexpected(*at).into());
            }
            let Ok(label) = front_label_in(word.1, word.2.bytes()) else {
                return Err(unexpected(*at).into());
            };
            let step = verb(reader, len, Some((word.0, label)), *at, *key, tokens)?;
            Ok(step)
        }
        Token::Quoted(at, _) => Err(unexpected(*at).into()),
        Token::Mark(at, sign) => match sign {
            Sign::Equals => {
                let step = value(len, step, slot, word.0, tokens)?;
                Ok(step)
            }
            _ => Err(unexpected(*at).into()),
        },
    }
}

/// A word that names no parameter and is no symbolic name.
fn other_word<'t, 'a>(
    reader: &mut Reader<'a>,
    len: u32,
    step: Step<'a>,
    word: (u32, Key, &Lent<'a>),
    tokens: &mut Cursor<'t, 'a>,
) -> Result<Turn<'a>, ParseFault>
    ensures ok { IfOk result (λ turn. Leads (onward len tokens.old (bare_turn strict reader.old step.entry word.entry.0 word.entry.1 word.entry.2.now (bare_state step.entry word.entry.1))) len reader.new turn tokens.new) }
    ensures err { IfErr result (λ f. Tells f (onward len tokens.old (bare_turn strict reader.old step.entry word.entry.0 word.entry.1 word.entry.2.now (bare_state step.entry word.entry.1)))) }
    ensures shorter { OnOk result (length tokens.new ≤ length tokens.old) }
{
    match lone_word(len, step, word.1, tokens)? {
        Bare::Taken(step) => Ok(Turn::Goes(step)),
        Bare::Left(step) => {
            let turn = behind(reader, len, step, word, tokens)?;
            Ok(turn)
        }
    }
}

/// The symbolic name that a word is.
fn symbol_at<'a>(at: u32, word: &Lent<'a>) -> Result<Lent<'a>, Found>
    ensures { result ≡ with_place at (taken true (symbol_in word.now)) (λ name. name) }
{
    match symbol_in(word) {
        Ok(name) => Ok(name),
        Err(name) => Err((name, at)),
    }
}

/// A word where a parameter may stand that is no keyword.
fn parameter<'t, 'a>(
    reader: &mut Reader<'a>,
    len: u32,
    step: Step<'a>,
    word: (u32, Key, &Lent<'a>),
    tokens: &mut Cursor<'t, 'a>,
) -> Result<Turn<'a>, ParseFault>
    ensures ok { IfOk result (λ turn. Leads (onward len tokens.old (slot_turn strict reader.old step.entry word.entry.0 word.entry.1 word.entry.2.now (free (given_of step.entry) (slot_of step.entry word.entry.1)))) len reader.new turn tokens.new) }
    ensures err { IfErr result (λ f. Tells f (onward len tokens.old (slot_turn strict reader.old step.entry word.entry.0 word.entry.1 word.entry.2.now (free (given_of step.entry) (slot_of step.entry word.entry.1))))) }
    ensures shorter { OnOk result (length tokens.new ≤ length tokens.old) }
{
    if let Some(slot) = free_slot(&step, word.1) {
        let step = named(reader, len, step, slot, word, tokens)?;
        return Ok(Turn::Goes(step));
    }
    if takes_symbols(&step) && is_symbolic(word.2.bytes()) {
        let name = symbol_at(word.0, word.2)?;
        symbol(reader, len, &step, &name, tokens)?;
        return Ok(Turn::Goes(step));
    }
    let turn = other_word(reader, len, step, word, tokens)?;
    Ok(turn)
}

/// A sign where a parameter may stand.
#[tactic(auto, unfolding(cd_automaton::specs::Machine::mark_move))]
fn marked<'a>(step: Step<'a>, at: u32, sign: Sign) -> Result<Step<'a>, Found>
    ensures ok { IfOk result (λ s. mark_move step.entry at sign ≡ Ok (At s)) }
    ensures err { IfErr result (λ f. mark_move step.entry at sign ≡ Err f) }
{
    match (step, sign) {
        (Step::Group(begun, copy, end, given), Sign::Close) => {
            if given.file.is_none() {
                return Err(unexpected(at));
            }
            Ok(Step::Copy(begun, with_end(copy, end, given)))
        }
        (Step::Run(begun, work, given), Sign::Open) => Ok(Step::RunGroup(begun, work, given)),
        (Step::RunGroup(begun, work, given), Sign::Close) => Ok(Step::Run(begun, work, given)),
        _ => Err(unexpected(at)),
    }
}

/// The first token where a parameter may stand.
#[tactic(auto, unfolding(cd_automaton::specs::Machine::run, cd_automaton::specs::Machine::next, cd_automaton::specs::Machine::word_turn))]
fn token_turn<'t, 'a>(
    reader: &mut Reader<'a>,
    len: u32,
    step: Step<'a>,
    tokens: &mut Cursor<'t, 'a>,
) -> Result<Turn<'a>, ParseFault>
    ensures ok { IfOk result (λ turn. Leads (reads len reader.old (At step.entry) tokens.old) len reader.new turn tokens.new) }
    ensures err { IfErr result (λ f. Tells f (reads len reader.old (At step.entry) tokens.old)) }
    ensures shorter { OnOk result (length tokens.new < length tokens.old) }
{
    let token = tokens.next(len)?;
    match token {
        Token::Word(at, key, word) => {
            if is_opener(*key) {
                let turn = behind(reader, len, step, (*at, *key, word), tokens)?;
                return Ok(turn);
            }
            let turn = parameter(reader, len, step, (*at, *key, word), tokens)?;
            Ok(turn)
        }
        Token::Quoted(at, _) => Err(unexpected(*at).into()),
        Token::Mark(at, sign) => {
            let step = marked(step, *at, *sign)?;
            Ok(Turn::Goes(step))
        }
    }
}

/// Behind PEND: nothing, or a `;` and then nothing.
#[tactic(auto, unfolding(cd_automaton::specs::Machine::run, cd_automaton::specs::Machine::next))]
fn ending(tokens: &mut Cursor<'_, '_>) -> Result<(), Found>
    ensures ok { OnOk result ((len : ℕ) (r : Reading) → reads len r Ended tokens.old ≡ Ok r) }
    ensures err { IfErr result (λ f. (len : ℕ) (r : Reading) → reads len r Ended tokens.old ≡ Err f) }
{
    let Some(token) = tokens.peek() else {
        return Ok(());
    };
    tokens.skip();
    semicolon(token)?;
    match tokens.peek() {
        Some(token) => Err(unexpected(place_of(token))),
        None => Ok(()),
    }
}

/// That a token is `;`.
fn semicolon(token: &Token<'_>) -> Result<(), Found>
    ensures ok { OnOk result (ended_move token.now ≡ Ok Closed) }
    ensures err { IfErr result (λ f. ended_move token.now ≡ Err f) }
{
    match token {
        Token::Word(at, _, _) | Token::Quoted(at, _) => Err(unexpected(*at)),
        Token::Mark(at, sign) => match sign {
            Sign::Semicolon => Ok(()),
            _ => Err(unexpected(*at)),
        },
    }
}

/// Behind the word PROCESS: its parameters, and the statements up to PEND.
fn statements<'t, 'a>(
    reader: &mut Reader<'a>,
    len: u32,
    tokens: &mut Cursor<'t, 'a>,
) -> Result<(), ParseFault>
    ensures ok { OnOk result (reads len reader.old (At (step.Head nothing)) tokens.old ≡ reads len reader.new Ended tokens.new) }
    ensures err { IfErr result (λ f. Tells f (reads len reader.old (At (step.Head nothing)) tokens.old)) }
{
    let mut step = Step::Head(Given::nothing());
    loop {
        match token_turn(reader, len, step, tokens)? {
            Turn::Goes(next) => step = next,
            Turn::Ended => return Ok(()),
        }
    }
}

/// Behind the Process's name: the word PROCESS.
fn behind_name<'t, 'a>(len: u32, tokens: &mut Cursor<'t, 'a>) -> Result<(), Found>
    ensures ok { OnOk result ((name : List ℕ) (at : ℕ) → titled strict len (Ok name) at tokens.old ≡ reads len (named name) (At (step.Head nothing)) tokens.new) }
    ensures err { IfErr result (λ f. (name : List ℕ) (at : ℕ) → titled strict len (Ok name) at tokens.old ≡ Err f) }
{
    let token = tokens.next(len)?;
    match token {
        Token::Word(at, key, _) => match key {
            Key::Process => Ok(()),
            _ => Err(unexpected(*at)),
        },
        Token::Quoted(at, _) | Token::Mark(at, _) => Err(unexpected(*at)),
    }
}

/// The Process's name.
#[tactic(auto, unfolding(cd_automaton::specs::Machine::whole))]
fn name_at(token: &Token<'_>) -> Result<Label, Found>
    ensures ok { IfOk result (λ name. (len : ℕ) (rest : List Token) → whole strict len (token.now ∷ rest) ≡ titled strict len (Ok name) (place_of token.now) rest) }
    ensures err { IfErr result (λ f. (len : ℕ) (rest : List Token) → whole strict len (token.now ∷ rest) ≡ Err f) }
{
    match token {
        Token::Word(at, key, word) => label_at(*at, *key, word),
        Token::Quoted(at, _) | Token::Mark(at, _) => Err(unexpected(*at)),
    }
}

/// What the tokens of a text of this length say.
#[tactic(auto, unfolding(cd_automaton::specs::Machine::whole))]
pub(crate) fn read<'t, 'a>(
    alloc: Global,
    len: u32,
    tokens: &'t [Token<'a>],
) -> Result<Reader<'a>, ParseFault>
    ensures ok { IfOk result (λ reader. whole strict len tokens.now ≡ Ok reader) }
    ensures err { IfErr result (λ f. Tells f (whole strict len tokens.now)) }
{
    let mut tokens = Cursor::new(tokens);
    let token = tokens.next(len)?;
    let name = name_at(token)?;
    behind_name(len, &mut tokens)?;
    let mut reader = Reader::new(alloc, name);
    statements(&mut reader, len, &mut tokens)?;
    ending(&mut tokens)?;
    Ok(reader)
}
