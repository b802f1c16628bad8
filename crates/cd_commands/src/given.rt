//! What the parameters of a command have given.
ghost use Rattle.std.specs.Prelude.{◌≡◌, ◌∷◌, [], IfOk};
ghost use Rattle.std.specs.Option.{option_map};
ghost use Rattle.cd_types.specs.Symbols.{upper_case};
ghost use Rattle.cd_grammar.specs.Words.{said_in};
ghost use Rattle.cd_commands.specs.Given.{nothing, has, is_barred, may_stand, param_slot, symbol_slot, slot_of, most_sessions, released, with_word, with_quoted, with_value, with_name, started, options_of};
ghost use Rattle.cd_commands.specs.Words.{param_in};
ghost use Rattle.cd_commands.specs.Values.{short_number, file_of, queue_in, yes_in};

use crate::Options;
use crate::kind::{Kind, Param, param_in, takes, takes_symbols};
use crate::number::{short_number, wide_number};
use cd_grammar::{Lent, Token, hold_in, is_word, retain_in, symbol_in};
use cd_types::{
    Day, Hold, NoMemory, NodeName, ProcNo, Queue, Retain, Start, Symbols, is_file_name,
};
use std::alloc::Global;

/// What a word sets: a parameter, or the value of a symbolic name.
#[derive(Drop)]
pub enum Slot<'a> {
    Set(Param),
    Symbol(Lent<'a>),
}

/// The parameters that a command has given so far. `None` and false stand for those that it hasn't.
#[derive(Drop)]
pub struct Given<'a> {
    pub name: Option<NodeName>,
    pub home: Option<u64>,
    pub file: Option<Lent<'a>>,
    pub pnumber: Option<ProcNo>,
    pub queue: Option<Queue>,
    pub snode: Option<NodeName>,
    pub prty: Option<u8>,
    pub class: Option<u8>,
    pub hold: Option<Hold>,
    pub retain: Option<Retain>,
    pub start: Option<Start>,
    pub release: bool,
    pub sessions: Option<u32>,
    pub together: Option<u32>,
    pub turns: Option<u32>,
    pub generate: Option<u64>,
    pub count: Option<u32>,
    pub symbols: Symbols,
}

impl<'a> Given<'a> {
    /// Nothing.
    pub(crate) fn nothing(alloc: Global) -> Self
        ensures { result ≡ nothing }
    {
        Given {
            name: None,
            home: None,
            file: None,
            pnumber: None,
            queue: None,
            snode: None,
            prty: None,
            class: None,
            hold: None,
            retain: None,
            start: None,
            release: false,
            sessions: None,
            together: None,
            turns: None,
            generate: None,
            count: None,
            symbols: Symbols::new(alloc),
        }
    }

    /// Whether a parameter was given.
    #[tactic(auto, unfolding(crate::specs::Given::has))]
    fn has(&self, param: Param) -> bool
        ensures { result ≡ has self.now param }
    {
        match param {
            Param::Name => self.name.is_some(),
            Param::Home => self.home.is_some(),
            Param::File => self.file.is_some(),
            Param::Pnumber => self.pnumber.is_some(),
            Param::Queue => self.queue.is_some(),
            Param::Snode => self.snode.is_some(),
            Param::Prty => self.prty.is_some(),
            Param::Class => self.class.is_some(),
            Param::Hold => self.hold.is_some(),
            Param::Retain => self.retain.is_some(),
            Param::Startt => self.start.is_some(),
            Param::Release => self.release,
            Param::Sessions => self.sessions.is_some(),
            Param::Together => self.together.is_some(),
            Param::Turns => self.turns.is_some(),
            Param::Generate => self.generate.is_some(),
            Param::Count => self.count.is_some(),
        }
    }

    /// Whether one was given beside which a parameter doesn't stand.
    #[tactic(auto, unfolding(crate::specs::Given::is_barred))]
    fn is_barred(&self, param: Param) -> bool
        ensures { result ≡ is_barred self.now param }
    {
        match param {
            Param::Hold => self.release,
            Param::Release => self.hold.is_some(),
            Param::File => self.generate.is_some() || self.count.is_some(),
            Param::Generate | Param::Count => self.file.is_some(),
            _ => false,
        }
    }

    /// Whether a parameter of a command may still be given.
    #[tactic(auto, unfolding(crate::specs::Given::may_stand))]
    fn may_stand(&self, kind: Kind, param: Param) -> bool
        ensures { result ≡ may_stand kind self.now param }
    {
        takes(kind, param) && !self.has(param) && !self.is_barred(param)
    }

    /// The parameter that a word names, where it may still be given.
    fn param_slot(&self, kind: Kind, word: &[u8]) -> Option<Param>
        ensures { option_map (λ p. Slot.Set p) result ≡ param_slot kind self.now (param_in word.now) }
    {
        match param_in(word) {
            Some(param) => {
                if self.may_stand(kind, param) {
                    Some(param)
                } else {
                    None
                }
            }
            None => None,
        }
    }

    /// What a word sets, where it may.
    #[tactic(auto, unfolding(crate::specs::Given::slot_of))]
    pub(crate) fn slot_of(&self, kind: Kind, word: &Lent<'a>) -> Option<Slot<'a>>
        ensures { result ≡ slot_of kind self.now word.now }
    {
        if let Some(param) = self.param_slot(kind, word.bytes()) {
            return Some(Slot::Set(param));
        }
        match symbol_in(word) {
            Ok(name) => {
                if takes_symbols(kind) {
                    Some(Slot::Symbol(name))
                } else {
                    None
                }
            }
            Err(_) => None,
        }
    }
}

#[tactic(auto, unfolding(crate::specs::Values::queue_in, cd_grammar::specs::Words::said_in))]
fn queue_in(word: &[u8]) -> Option<Queue>
    ensures { result ≡ queue_in word.now }
{
    if is_word(word, b"exec") {
        Some(Queue::Execution)
    } else if is_word(word, b"wait") {
        Some(Queue::Wait)
    } else if is_word(word, b"timer") {
        Some(Queue::Timer)
    } else if is_word(word, b"hold") {
        Some(Queue::Hold)
    } else {
        None
    }
}

/// A file's name.
#[tactic(auto, unfolding(crate::specs::Values::file_of))]
fn file_of<'a>(name: &Lent<'a>) -> Option<Lent<'a>>
    ensures { result ≡ file_of name.now }
{
    if is_file_name(name.bytes()) {
        Some(name.again())
    } else {
        None
    }
}

/// The number of a Process.
fn proc_no(word: &[u8]) -> Option<ProcNo>
    ensures { result ≡ short_number 1 99999 word.now }
{
    let number = short_number(1, 99_999, word)?;
    ProcNo::new(number)
}

/// A number of one byte from 1 on.
fn small_number(high: u8, word: &[u8]) -> Option<u8>
    ensures { result ≡ short_number 1 high word.now }
{
    let number = short_number(1, high as u32, word)?;
    Some(number as u8)
}

/// The most sessions that a command may name.
#[tactic(auto, unfolding(crate::specs::Given::most_sessions))]
fn most_sessions(kind: Kind) -> u32
    ensures { result ≡ most_sessions kind }
{
    match kind {
        Kind::Serve => 1_000_000,
        _ => 64,
    }
}

/// What was given, with a word as the value of a parameter.
#[tactic(auto, unfolding(crate::specs::Given::with_word, crate::specs::Values::yes_in))]
fn with_word<'a>(kind: Kind, given: Given<'a>, param: Param, word: &Lent<'a>) -> Option<Given<'a>>
    ensures { result ≡ with_word kind given.entry param word.now }
{
    let mut given = given;
    match param {
        Param::Name => given.name = Some(NodeName::new(word.bytes())?),
        Param::Home => given.home = Some(wide_number(word.bytes())?),
        Param::File => given.file = Some(file_of(word)?),
        Param::Pnumber => given.pnumber = Some(proc_no(word.bytes())?),
        Param::Queue => given.queue = Some(queue_in(word.bytes())?),
        Param::Snode => given.snode = Some(NodeName::new(word.bytes())?),
        Param::Prty => given.prty = Some(small_number(15, word.bytes())?),
        Param::Class => given.class = Some(small_number(255, word.bytes())?),
        Param::Hold => given.hold = Some(hold_in(word.bytes())?),
        Param::Retain => given.retain = Some(retain_in(word.bytes())?),
        Param::Startt => return None,
        Param::Release => {
            if !is_word(word.bytes(), b"yes") {
                return None;
            }
            given.release = true;
        }
        Param::Sessions => {
            given.sessions = Some(short_number(1, most_sessions(kind), word.bytes())?);
        }
        Param::Together => given.together = Some(short_number(1, 64, word.bytes())?),
        Param::Turns => given.turns = Some(short_number(1, 1_000_000_000, word.bytes())?),
        Param::Generate => given.generate = Some(wide_number(word.bytes())?),
        Param::Count => given.count = Some(short_number(1, 1000, word.bytes())?),
    }
    Some(given)
}

/// What was given, with a quoted text as the value of a parameter.
#[tactic(auto, unfolding(crate::specs::Given::with_quoted))]
fn with_quoted<'a>(given: Given<'a>, param: Param, text: &Lent<'a>) -> Option<Given<'a>>
    ensures { result ≡ with_quoted given.entry param text.now }
{
    let mut given = given;
    match param {
        Param::File => given.file = Some(file_of(text)?),
        _ => return None,
    }
    Some(given)
}

/// What was given, with a token as the value of a parameter.
pub(crate) fn with_value<'a>(
    kind: Kind,
    given: Given<'a>,
    param: Param,
    token: &Token<'a>,
) -> Option<Given<'a>>
    ensures { result ≡ with_value kind given.entry param token.now }
{
    match token {
        Token::Word(_, _, word) => with_word(kind, given, param, word),
        Token::Quoted(_, text) => with_quoted(given, param, text),
        Token::Mark(_, _) => None,
    }
}

/// What was given, with a value of a symbolic name.
pub(crate) fn with_name<'a>(
    given: Given<'a>,
    name: &Lent<'a>,
    text: &Lent<'a>,
) -> Result<Given<'a>, NoMemory>
    ensures { IfOk result (λ next. next ≡ with_name given.entry name.now text.now) }
{
    let mut given = given;
    given.symbols.set(name.bytes(), text.bytes())?;
    Ok(given)
}

/// What was given, with a start.
pub(crate) fn started<'a>(given: Given<'a>, day: Day, seconds: u32) -> Given<'a>
    ensures { result ≡ started given.entry day seconds }
{
    let mut given = given;
    given.start = Some(Start { day, seconds });
    given
}

/// The options of a submission.
pub(crate) fn options_of(given: Given<'_>) -> Options
    ensures { result ≡ options_of given.entry }
{
    Options {
        snode: given.snode,
        prty: given.prty,
        class: given.class,
        hold: given.hold,
        retain: given.retain,
        start: given.start,
        symbols: given.symbols,
    }
}
