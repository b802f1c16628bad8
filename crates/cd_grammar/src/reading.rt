//! Parameters: which word sets what, and what was given so far.
ghost use Rattle.std.specs.Prelude.{◌≡◌, ◌∷◌, [], true};
ghost use Rattle.cd_grammar.specs.Answers.{taken};
ghost use Rattle.cd_grammar.specs.Given.{nothing, head_slot, copy_slot, from_slot, to_slot, task_slot, job_slot, submit_slot, has, side_of, shared, with_word, with_quoted, with_value, takes_list, takes_parentheses, with_list};
ghost use Rattle.cd_grammar.specs.Reading.{slot_of, end_slot, work_slot, given_of, with_given, stepped};

use crate::values::{
    are_items, disp_in, file_in, hold_in, interval_in, is_command, is_share, node_in, number_in,
    restart_in, retain_in,
};
use crate::{CopyGiven, End, Given, Key, Lent, Slot, Step, Token, Work};
use cd_ast::FaultName;
use cd_types::Side;

impl<'a> Given<'a> {
    /// Nothing.
    pub fn nothing() -> Self
        ensures { result ≡ nothing }
    {
        Given {
            snode: None,
            prty: None,
            class: None,
            hold: None,
            retain: None,
            retain_at: 0,
            start: None,
            pacct: false,
            sacct: false,
            notify: false,
            pnodeid: false,
            snodeid: false,
            file: None,
            side: None,
            items: false,
            command: None,
            share: false,
            disp: None,
            ckpt: None,
            restart: None,
            pgm: false,
            library: false,
        }
    }

    /// Whether it was given.
    #[tactic(auto, unfolding(crate::specs::Given::has))]
    pub fn has(&self, slot: Slot) -> bool
        ensures { result ≡ has self.now slot }
    {
        match slot {
            Slot::Snode => self.snode.is_some(),
            Slot::Prty => self.prty.is_some(),
            Slot::Class => self.class.is_some(),
            Slot::Hold => self.hold.is_some(),
            Slot::Retain => self.retain.is_some(),
            Slot::Start => self.start.is_some(),
            Slot::Pacct => self.pacct,
            Slot::Sacct => self.sacct,
            Slot::Notify => self.notify,
            Slot::Pnodeid => self.pnodeid,
            Slot::Snodeid => self.snodeid,
            Slot::File => self.file.is_some(),
            Slot::Side => self.side.is_some(),
            Slot::Items => self.items,
            Slot::Command => self.command.is_some(),
            Slot::Share => self.share,
            Slot::Disp => self.disp.is_some(),
            Slot::Ckpt => self.ckpt.is_some(),
            Slot::Restart => self.restart.is_some(),
            Slot::Pgm => self.pgm,
            Slot::Library => self.library,
        }
    }
}

/// What a word sets in the PROCESS statement.
#[tactic(auto, unfolding(crate::specs::Given::head_slot))]
fn head_slot(key: Key) -> Option<Slot>
    ensures { result ≡ head_slot key }
{
    match key {
        Key::Snode => Some(Slot::Snode),
        Key::Prty => Some(Slot::Prty),
        Key::Class => Some(Slot::Class),
        Key::Hold => Some(Slot::Hold),
        Key::Retain => Some(Slot::Retain),
        Key::Startt => Some(Slot::Start),
        Key::Pacct => Some(Slot::Pacct),
        Key::Sacct => Some(Slot::Sacct),
        Key::Notify => Some(Slot::Notify),
        Key::Pnodeid => Some(Slot::Pnodeid),
        Key::Snodeid => Some(Slot::Snodeid),
        _ => None,
    }
}

#[tactic(auto, unfolding(crate::specs::Given::copy_slot))]
fn copy_slot(key: Key) -> Option<Slot>
    ensures { result ≡ copy_slot key }
{
    match key {
        Key::Ckpt => Some(Slot::Ckpt),
        _ => None,
    }
}

#[tactic(auto, unfolding(crate::specs::Given::from_slot, crate::specs::Given::to_slot))]
fn end_slot(end: End, key: Key) -> Option<Slot>
    ensures { result ≡ end_slot end key }
{
    match (end, key) {
        (_, Key::File | Key::Dsn) => Some(Slot::File),
        (_, Key::Sysopts) => Some(Slot::Items),
        (End::From, Key::Disp) => Some(Slot::Share),
        (End::To, Key::Disp) => Some(Slot::Disp),
        _ => None,
    }
}

#[tactic(auto, unfolding(crate::specs::Given::task_slot, crate::specs::Given::job_slot))]
fn work_slot(work: Work, key: Key) -> Option<Slot>
    ensures { result ≡ work_slot work key }
{
    match (work, key) {
        (_, Key::Sysopts) => Some(Slot::Command),
        (Work::Task, Key::Restart) => Some(Slot::Restart),
        (_, Key::Pgm) => Some(Slot::Pgm),
        (_, Key::Dsn) => Some(Slot::Library),
        _ => None,
    }
}

#[tactic(auto, unfolding(crate::specs::Given::submit_slot))]
fn submit_slot(key: Key) -> Option<Slot>
    ensures { result ≡ submit_slot key }
{
    match key {
        Key::File | Key::Dsn => Some(Slot::File),
        Key::Subnode => Some(Slot::Side),
        Key::Snode => Some(Slot::Snode),
        Key::Prty => Some(Slot::Prty),
        _ => None,
    }
}

/// What a word sets where a parameter may stand.
#[tactic(auto, unfolding(crate::specs::Reading::slot_of))]
pub fn slot_of(step: &Step<'_>, key: Key) -> Option<Slot>
    ensures { result ≡ slot_of step.now key }
{
    match step {
        Step::Head(_) => head_slot(key),
        Step::Between => None,
        Step::Copy(_, _) => copy_slot(key),
        Step::Group(_, _, end, _) => end_slot(*end, key),
        Step::Run(_, work, _) | Step::RunGroup(_, work, _) => work_slot(*work, key),
        Step::Submit(_, _) => submit_slot(key),
    }
}

/// The side that a word names.
#[tactic(auto, unfolding(crate::specs::Given::side_of))]
pub fn side_of(key: Key) -> Option<Side>
    ensures { result ≡ side_of key }
{
    match key {
        Key::Pnode => Some(Side::Pnode),
        Key::Snode => Some(Side::Snode),
        _ => None,
    }
}

/// What was given, with a word as value. The place is that of the parameter's own word.
#[tactic(auto, unfolding(crate::specs::Given::with_word))]
fn with_word<'a>(
    given: Given<'a>,
    slot: Slot,
    at: u32,
    key: Key,
    word: &Lent<'a>,
) -> Result<Given<'a>, FaultName>
    ensures { result ≡ taken true (with_word given.entry slot at key word.now) }
{
    let mut given = given;
    match slot {
        Slot::Snode => given.snode = Some(node_in(word.bytes())?),
        Slot::Prty => given.prty = Some(number_in(1, 15, word.bytes())?),
        Slot::Class => given.class = Some(number_in(1, 255, word.bytes())?),
        Slot::Hold => given.hold = Some(hold_in(word.bytes()).ok_or(FaultName::Unexpected)?),
        Slot::Retain => {
            given.retain = Some(retain_in(word.bytes()).ok_or(FaultName::Unexpected)?);
            given.retain_at = at;
        }
        Slot::Pacct => given.pacct = true,
        Slot::Sacct => given.sacct = true,
        Slot::Notify => given.notify = true,
        Slot::Pnodeid => given.pnodeid = true,
        Slot::Snodeid => given.snodeid = true,
        Slot::File => given.file = Some(file_in(word)?),
        Slot::Side => given.side = Some(side_of(key).ok_or(FaultName::Unexpected)?),
        Slot::Share => {
            if !is_share(word.bytes()) {
                return Err(FaultName::Unexpected);
            }
            given.share = true;
        }
        Slot::Disp => given.disp = Some(disp_in(word.bytes()).ok_or(FaultName::Unexpected)?),
        Slot::Ckpt => given.ckpt = Some(interval_in(word.bytes())?),
        Slot::Restart => given.restart = Some(restart_in(word.bytes()).ok_or(
            FaultName::Unexpected,
        )?),
        Slot::Pgm => given.pgm = true,
        Slot::Library => given.library = true,
        Slot::Start | Slot::Items | Slot::Command => return Err(FaultName::Unexpected),
    }
    Ok(given)
}

/// What was given, with a quoted text as value.
#[tactic(auto, unfolding(crate::specs::Given::with_quoted))]
fn with_quoted<'a>(given: Given<'a>, slot: Slot, text: &Lent<'a>) -> Result<Given<'a>, FaultName>
    ensures { result ≡ taken true (with_quoted given.entry slot text.now) }
{
    let mut given = given;
    match slot {
        Slot::File => given.file = Some(file_in(text)?),
        Slot::Items => {
            if !are_items(text.bytes()) {
                return Err(FaultName::Range);
            }
            given.items = true;
        }
        Slot::Command => {
            if !is_command(text.bytes()) {
                return Err(FaultName::Range);
            }
            given.command = Some(text.again());
        }
        Slot::Pacct => given.pacct = true,
        Slot::Sacct => given.sacct = true,
        Slot::Notify => given.notify = true,
        Slot::Pnodeid => given.pnodeid = true,
        Slot::Snodeid => given.snodeid = true,
        _ => return Err(FaultName::Unexpected),
    }
    Ok(given)
}

/// What was given, with a token as value of the parameter whose word stands at this place.
fn with_value<'a>(
    given: Given<'a>,
    slot: Slot,
    at: u32,
    value: &Token<'a>,
) -> Result<Given<'a>, FaultName>
    ensures { result ≡ taken true (with_value given.entry slot at value.now) }
{
    match value {
        Token::Word(_, key, word) => with_word(given, slot, at, *key, word),
        Token::Quoted(_, text) => with_quoted(given, slot, text),
        Token::Mark(_, _) => Err(FaultName::Unexpected),
    }
}

/// Whether a parameter's value may be a list in parentheses.
#[tactic(auto, unfolding(crate::specs::Given::takes_list))]
pub fn takes_list(slot: Slot) -> bool
    ensures { result ≡ takes_list slot }
{
    match slot {
        Slot::Pacct | Slot::Sacct | Slot::Notify | Slot::Pnodeid | Slot::Snodeid => true,
        _ => false,
    }
}

/// Whether a parameter's value may stand in parentheses.
#[tactic(auto, unfolding(crate::specs::Given::takes_parentheses))]
pub fn takes_parentheses(slot: Slot) -> bool
    ensures { result ≡ takes_parentheses slot }
{
    match slot {
        Slot::Share | Slot::Disp => true,
        _ => false,
    }
}

/// What was given, with a list as value.
#[tactic(auto, unfolding(crate::specs::Given::with_list))]
fn with_list<'a>(given: Given<'a>, slot: Slot) -> Given<'a>
    ensures { result ≡ with_list given.entry slot }
{
    let mut given = given;
    match slot {
        Slot::Pacct => given.pacct = true,
        Slot::Sacct => given.sacct = true,
        Slot::Notify => given.notify = true,
        Slot::Pnodeid => given.pnodeid = true,
        Slot::Snodeid => given.snodeid = true,
        _ => {}
    }
    given
}

/// Whether it was given where a parameter may stand.
pub fn has(step: &Step<'_>, slot: Slot) -> bool
    ensures { result ≡ has (given_of step.now) slot }
{
    match step {
        Step::Head(given)
        | Step::Group(_, _, _, given)
        | Step::Run(_, _, given)
        | Step::RunGroup(_, _, given)
        | Step::Submit(_, given) => given.has(slot),
        Step::Copy(_, copy) => copy.others.has(slot),
        Step::Between => Given::nothing().has(slot),
    }
}

/// What was given where a parameter may stand, with a token as value of the parameter whose word stands at this place.
pub fn with_parameter<'a>(
    step: Step<'a>,
    slot: Slot,
    at: u32,
    value: &Token<'a>,
) -> Result<Step<'a>, FaultName>
    ensures { result ≡ stepped step.entry (taken true (with_value (given_of step.entry) slot at value.now)) }
{
    match step {
        Step::Head(given) => Ok(Step::Head(with_value(given, slot, at, value)?)),
        Step::Between => {
            with_value(Given::nothing(), slot, at, value)?;
            Ok(Step::Between)
        }
        Step::Copy(begun, copy) => {
            let CopyGiven {
                from,
                to,
                compress,
                others,
            } = copy;
            let others = with_value(others, slot, at, value)?;
            Ok(Step::Copy(
                begun,
                CopyGiven {
                    from,
                    to,
                    compress,
                    others,
                },
            ))
        }
        Step::Group(begun, copy, end, given) => {
            Ok(Step::Group(begun, copy, end, with_value(given, slot, at, value)?))
        }
        Step::Run(begun, work, given) => {
            Ok(Step::Run(begun, work, with_value(given, slot, at, value)?))
        }
        Step::RunGroup(begun, work, given) => {
            Ok(Step::RunGroup(begun, work, with_value(given, slot, at, value)?))
        }
        Step::Submit(begun, given) => Ok(Step::Submit(begun, with_value(given, slot, at, value)?)),
    }
}

/// What was given where a parameter may stand, with a list as value.
pub fn with_listed<'a>(step: Step<'a>, slot: Slot) -> Step<'a>
    ensures { result ≡ with_given step.entry (with_list (given_of step.entry) slot) }
{
    match step {
        Step::Head(given) => Step::Head(with_list(given, slot)),
        Step::Between => Step::Between,
        Step::Copy(begun, copy) => {
            let CopyGiven {
                from,
                to,
                compress,
                others,
            } = copy;
            let others = with_list(others, slot);
            Step::Copy(
                begun,
                CopyGiven {
                    from,
                    to,
                    compress,
                    others,
                },
            )
        }
        Step::Group(begun, copy, end, given) => Step::Group(
            begun,
            copy,
            end,
            with_list(given, slot),
        ),
        Step::Run(begun, work, given) => Step::Run(begun, work, with_list(given, slot)),
        Step::RunGroup(begun, work, given) => Step::RunGroup(begun, work, with_list(given, slot)),
        Step::Submit(begun, given) => Step::Submit(begun, with_list(given, slot)),
    }
}
