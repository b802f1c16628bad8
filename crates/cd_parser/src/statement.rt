//! Statements: a keyword and what follows it, up to where parameters may stand.
ghost use Rattle.std.specs.Prelude.{◌≡◌, ◌∷◌, ◌<◌, ◌≤◌, ℕ, List, [], length, true, IfOk, IfErr, OnOk};
ghost use Rattle.cd_grammar.specs.declared.step.Begun.{Begun};
ghost use Rattle.cd_grammar.specs.Answers.{strict, taken};
ghost use Rattle.cd_grammar.specs.Values.{front_label_in};
ghost use Rattle.cd_grammar.specs.Grammar.{begun_at, relation_of, work_of};
ghost use Rattle.cd_grammar.specs.Reading.{Reading, stored, has_room, bare_copy};
ghost use Rattle.cd_grammar.specs.declared.mark.Sketch.TheVariants as sketch;
ghost use Rattle.cd_grammar.specs.declared.step.Step.TheVariants as step;
ghost use Rattle.cd_ast.specs.declared.process.What.TheVariants as what;
ghost use Rattle.cd_types.specs.declared.choices.Relation.{Relation};
ghost use Rattle.cd_automaton.specs.State.{At, Labelled, Running, IfOpen, IfLabel, IfRelation, IfClose, GotoLabel};
ghost use Rattle.cd_automaton.specs.Machine.{verb_turn, statement_turn, label_move, if_label_move, goto_turn, roomy};
ghost use Rattle.cd_parser.specs.Runs.{Tells, Leads, reads, onward, opened_if};

use crate::ParseFault;
use crate::cursor::Cursor;
use crate::fault::Found;
use crate::leaf::{closes, front_label_at, opens, place_of, too_many, unexpected};
use crate::reader::Reader;
use cd_ast::{FaultName, What};
use cd_grammar::{
    Begun, CopyGiven, Given, Key, Lent, Sign, Sketch, Step, Token, Work, label_in, number_in,
    relation_in,
};
use cd_types::{Label, Relation};

/// What a token where a parameter may stand leads to.
#[derive(Drop)]
pub(crate) enum Turn<'a> {
    /// To a place where a parameter may stand.
    Goes(Step<'a>),
    /// Behind PEND.
    Ended,
}

/// What a RUN runs.
#[tactic(auto, unfolding(cd_grammar::specs::Grammar::work_of))]
fn work_of(key: Key) -> Option<Work>
    ensures { result ≡ work_of key }
{
    match key {
        Key::Task => Some(Work::Task),
        Key::Job => Some(Work::Job),
        _ => None,
    }
}

/// The relation that a token names.
#[tactic(auto, unfolding(cd_grammar::specs::Grammar::relation_of))]
fn relation_of(token: &Token<'_>) -> Option<Relation>
    ensures { result ≡ relation_of token.now }
{
    match token {
        Token::Word(_, _, word) => relation_in(word.bytes()),
        Token::Quoted(_, _) => None,
        Token::Mark(_, sign) => match sign {
            Sign::Equals | Sign::Same => Some(Relation::Eq),
            Sign::Unequal => Some(Relation::Ne),
            Sign::AtLeast => Some(Relation::Ge),
            Sign::Greater => Some(Relation::Gt),
            Sign::AtMost => Some(Relation::Le),
            Sign::Less => Some(Relation::Lt),
            Sign::Open | Sign::Close | Sign::Comma | Sign::Semicolon => None,
        },
    }
}

/// A statement's label and the place of its keyword.
fn begun_at(label: Option<(u32, Label)>, at: u32) -> Begun
    ensures { result ≡ begun_at label at }
{
    Begun { label, at }
}

/// A copy of which nothing was given.
fn bare_copy<'a>() -> CopyGiven<'a>
    ensures { result ≡ bare_copy }
{
    CopyGiven {
        from: None,
        to: None,
        compress: false,
        others: Given::nothing(),
    }
}

/// Behind RUN: TASK or JOB.
#[tactic(auto, unfolding(cd_automaton::specs::Machine::run, cd_automaton::specs::Machine::next))]
fn running<'t, 'a>(len: u32, begun: Begun, tokens: &mut Cursor<'t, 'a>) -> Result<Step<'a>, Found>
    ensures ok { IfOk result (λ p. (r : Reading) → reads len r (Running begun) tokens.old ≡ reads len r (At p) tokens.new) }
    ensures err { IfErr result (λ f. (r : Reading) → reads len r (Running begun) tokens.old ≡ Err f) }
    ensures shorter { OnOk result (length tokens.new < length tokens.old) }
{
    let token = tokens.next(len)?;
    match token {
        Token::Word(at, key, _) => match work_of(*key) {
            Some(work) => Ok(Step::Run(begun, work, Given::nothing())),
            None => Err(unexpected(*at)),
        },
        Token::Quoted(at, _) | Token::Mark(at, _) => Err(unexpected(*at)),
    }
}

/// Behind IF: an opening parenthesis.
#[tactic(auto, unfolding(cd_automaton::specs::Machine::run, cd_automaton::specs::Machine::next))]
fn if_open<'t, 'a>(len: u32, tokens: &mut Cursor<'t, 'a>) -> Result<(), Found>
    ensures ok { IfOk result (λ _. (r : Reading) (begun : Begun) → reads len r (IfOpen begun) tokens.old ≡ reads len r (IfLabel begun) tokens.new) }
    ensures err { IfErr result (λ f. (r : Reading) (begun : Begun) → reads len r (IfOpen begun) tokens.old ≡ Err f) }
    ensures shorter { OnOk result (length tokens.new < length tokens.old) }
{
    let open = tokens.next(len)?;
    opens(open)?;
    Ok(())
}

/// The label that an IF or a GOTO names, and its place.
fn target(token: &Token<'_>) -> Result<(u32, Label), Found>
    ensures condition { IfOk result (λ p. (begun : Begun) → if_label_move strict begun token.now ≡ Ok (IfRelation begun p.0 p.1)) }
    ensures jump { IfOk result (λ p. (r : Reading) (begun : Begun) → goto_turn strict r begun token.now ≡ Ok (stored r begun (sketch.Goto p.0 p.1) (what.Goto p.1), At step.Between)) }
    ensures no_condition { IfErr result (λ f. (begun : Begun) → if_label_move strict begun token.now ≡ Err f) }
    ensures no_jump { IfErr result (λ f. (r : Reading) (begun : Begun) → goto_turn strict r begun token.now ≡ Err f) }
{
    match token {
        Token::Word(at, key, word) => match label_in(*key, word.bytes()) {
            Ok(label) => Ok((*at, label)),
            Err(name) => Err((name, *at)),
        },
        Token::Quoted(at, _) | Token::Mark(at, _) => Err(unexpected(*at)),
    }
}

/// Behind an IF's label: a relation and a number.
#[tactic(auto, unfolding(cd_automaton::specs::Machine::run, cd_automaton::specs::Machine::next))]
fn if_number<'t, 'a>(len: u32, tokens: &mut Cursor<'t, 'a>) -> Result<(Relation, u8), Found>
    ensures ok { IfOk result (λ p. (r : Reading) (begun : Begun) (at : ℕ) (name : List ℕ) → reads len r (IfRelation begun at name) tokens.old ≡ reads len r (IfClose begun at name p.0 p.1) tokens.new) }
    ensures err { IfErr result (λ f. (r : Reading) (begun : Begun) (at : ℕ) (name : List ℕ) → reads len r (IfRelation begun at name) tokens.old ≡ Err f) }
    ensures shorter { OnOk result (length tokens.new < length tokens.old) }
{
    let sign = tokens.next(len)?;
    let Some(relation) = relation_of(sign) else {
        return Err(unexpected(place_of(sign)));
    };
    let token = tokens.next(len)?;
    match token {
        Token::Word(at, _, word) => match number_in(0, 255, word.bytes()) {
            Ok(number) => Ok((relation, number)),
            Err(name) => Err((name, *at)),
        },
        Token::Quoted(at, _) | Token::Mark(at, _) => Err(unexpected(*at)),
    }
}

/// Behind an IF's number: a closing parenthesis and THEN.
#[tactic(auto, unfolding(cd_automaton::specs::Machine::run, cd_automaton::specs::Machine::next))]
fn if_then<'t, 'a>(len: u32, tokens: &mut Cursor<'t, 'a>) -> Result<(), Found>
    ensures ok { IfOk result (λ _. (r : Reading) (begun : Begun) (at : ℕ) (name : List ℕ) (rel : Relation) (n : ℕ) → reads len r (IfClose begun at name rel n) tokens.old ≡ reads len (opened_if r begun at name rel n) (At step.Between) tokens.new) }
    ensures err { IfErr result (λ f. (r : Reading) (begun : Begun) (at : ℕ) (name : List ℕ) (rel : Relation) (n : ℕ) → reads len r (IfClose begun at name rel n) tokens.old ≡ Err f) }
    ensures shorter { OnOk result (length tokens.new < length tokens.old) }
{
    let close = tokens.next(len)?;
    closes(close)?;
    let token = tokens.next(len)?;
    match token {
        Token::Word(at, key, _) => match key {
            Key::Then => Ok(()),
            _ => Err(unexpected(*at)),
        },
        Token::Quoted(at, _) | Token::Mark(at, _) => Err(unexpected(*at)),
    }
}

/// Behind the word IF.
#[tactic(auto, unfolding(cd_automaton::specs::Machine::run, cd_automaton::specs::Machine::next))]
fn condition<'t, 'a>(
    reader: &mut Reader<'a>,
    len: u32,
    begun: Begun,
    tokens: &mut Cursor<'t, 'a>,
) -> Result<(), ParseFault>
    ensures ok { IfOk result (λ _. reads len reader.old (IfOpen begun) tokens.old ≡ reads len reader.new (At step.Between) tokens.new) }
    ensures err { IfErr result (λ f. Tells f (reads len reader.old (IfOpen begun) tokens.old)) }
    ensures shorter { OnOk result (length tokens.new < length tokens.old) }
{
    if_open(len, tokens)?;
    let token = tokens.next(len)?;
    let (at, label) = target(token)?;
    let (relation, number) = if_number(len, tokens)?;
    if_then(len, tokens)?;
    reader.open_if(begun, at, label, relation, number)?;
    Ok(())
}

/// Behind the word GOTO.
#[tactic(auto, unfolding(cd_automaton::specs::Machine::run, cd_automaton::specs::Machine::next))]
fn jump<'t, 'a>(
    reader: &mut Reader<'a>,
    len: u32,
    begun: Begun,
    tokens: &mut Cursor<'t, 'a>,
) -> Result<(), ParseFault>
    ensures ok { IfOk result (λ _. reads len reader.old (GotoLabel begun) tokens.old ≡ reads len reader.new (At step.Between) tokens.new) }
    ensures err { IfErr result (λ f. Tells f (reads len reader.old (GotoLabel begun) tokens.old)) }
    ensures shorter { OnOk result (length tokens.new < length tokens.old) }
{
    let token = tokens.next(len)?;
    let (at, label) = target(token)?;
    reader.store(begun, Sketch::Goto(at, label), What::Goto(label))?;
    Ok(())
}

/// That no statement too many begins.
fn roomy(reader: &Reader<'_>) -> Result<(), Found>
    ensures { result ≡ roomy (has_room strict reader.now) (Ok tt) }
{
    if reader.has_room() {
        Ok(())
    } else {
        Err(too_many())
    }
}

/// Behind a keyword that may stand behind a label; the label is told, if there is one, and the keyword's place.
#[tactic(auto, unfolding(cd_automaton::specs::Machine::verb_turn))]
pub(crate) fn verb<'t, 'a>(
    reader: &mut Reader<'a>,
    len: u32,
    label: Option<(u32, Label)>,
    at: u32,
    key: Key,
    tokens: &mut Cursor<'t, 'a>,
) -> Result<Step<'a>, ParseFault>
    ensures ok { IfOk result (λ p. onward len tokens.old (verb_turn strict reader.old label at key) ≡ reads len reader.new (At p) tokens.new) }
    ensures err { IfErr result (λ f. Tells f (onward len tokens.old (verb_turn strict reader.old label at key))) }
    ensures shorter { OnOk result (length tokens.new ≤ length tokens.old) }
{
    let begun = begun_at(label, at);
    match key {
        Key::Copy => {
            roomy(reader)?;
            Ok(Step::Copy(begun, bare_copy()))
        }
        Key::Run => {
            roomy(reader)?;
            let step = running(len, begun, tokens)?;
            Ok(step)
        }
        Key::Submit => {
            roomy(reader)?;
            Ok(Step::Submit(begun, Given::nothing()))
        }
        Key::If => {
            if !reader.has_depth(at) {
                return Err((FaultName::Range, at).into());
            }
            roomy(reader)?;
            condition(reader, len, begun, tokens)?;
            Ok(Step::Between)
        }
        Key::Goto => {
            roomy(reader)?;
            jump(reader, len, begun, tokens)?;
            Ok(Step::Between)
        }
        Key::Exit => {
            roomy(reader)?;
            reader.store(begun, Sketch::Exit, What::Exit)?;
            Ok(Step::Between)
        }
        _ => Err(unexpected(at).into()),
    }
}

/// Behind a statement's label: its keyword.
#[tactic(auto, unfolding(cd_automaton::specs::Machine::run, cd_automaton::specs::Machine::next))]
fn labelled<'t, 'a>(
    reader: &mut Reader<'a>,
    len: u32,
    label: (u32, Label),
    tokens: &mut Cursor<'t, 'a>,
) -> Result<Step<'a>, ParseFault>
    ensures ok { IfOk result (λ p. reads len reader.old (Labelled label.0 label.1) tokens.old ≡ reads len reader.new (At p) tokens.new) }
    ensures err { IfErr result (λ f. Tells f (reads len reader.old (Labelled label.0 label.1) tokens.old)) }
    ensures shorter { OnOk result (length tokens.new < length tokens.old) }
{
    let token = tokens.next(len)?;
    match token {
        Token::Word(at, key, _) => {
            let step = verb(reader, len, Some(label), *at, *key, tokens)?;
            Ok(step)
        }
        Token::Quoted(at, _) | Token::Mark(at, _) => Err(unexpected(*at).into()),
    }
}

/// At a word that is no keyword, where a statement may begin: its label.
fn labelled_at<'t, 'a>(
    reader: &mut Reader<'a>,
    len: u32,
    at: u32,
    key: Key,
    word: &Lent<'a>,
    tokens: &mut Cursor<'t, 'a>,
) -> Result<Step<'a>, ParseFault>
    ensures ok { IfOk result (λ p. onward len tokens.old (label_move strict reader.old at (taken true (front_label_in key word.now))) ≡ reads len reader.new (At p) tokens.new) }
    ensures err { IfErr result (λ f. Tells f (onward len tokens.old (label_move strict reader.old at (taken true (front_label_in key word.now))))) }
    ensures shorter { OnOk result (length tokens.new ≤ length tokens.old) }
{
    let label = front_label_at(at, key, word)?;
    roomy(reader)?;
    let step = labelled(reader, len, (at, label), tokens)?;
    Ok(step)
}

/// At a word at which a statement may begin, and behind it these tokens.
#[tactic(auto, unfolding(cd_automaton::specs::Machine::statement_turn))]
pub(crate) fn statement<'t, 'a>(
    reader: &mut Reader<'a>,
    len: u32,
    at: u32,
    key: Key,
    word: &Lent<'a>,
    tokens: &mut Cursor<'t, 'a>,
) -> Result<Turn<'a>, ParseFault>
    ensures ok { IfOk result (λ turn. Leads (onward len tokens.old (statement_turn strict reader.old at key word.now)) len reader.new turn tokens.new) }
    ensures err { IfErr result (λ f. Tells f (onward len tokens.old (statement_turn strict reader.old at key word.now))) }
    ensures shorter { IfOk result (λ _. length tokens.new ≤ length tokens.old) }
{
    match key {
        Key::Else => {
            reader.begin_else(at)?;
            Ok(Turn::Goes(Step::Between))
        }
        Key::Eif => {
            reader.close_if(at)?;
            Ok(Turn::Goes(Step::Between))
        }
        Key::Pend => Ok(Turn::Ended),
        Key::Copy | Key::Run | Key::Submit | Key::If | Key::Goto | Key::Exit => {
            let step = verb(reader, len, None, at, key, tokens)?;
            Ok(Turn::Goes(step))
        }
        _ => {
            let step = labelled_at(reader, len, at, key, word, tokens)?;
            Ok(Turn::Goes(step))
        }
    }
}
