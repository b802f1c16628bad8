//! Submissions.
ghost use Rattle.std.specs.Prelude.{◌≡◌, ◌&&◌, option_map};
ghost use Rattle.std.specs.List.{list_all};
ghost use Rattle.std.specs.Str.{bytes_eq};
ghost use Rattle.cd_types.specs.Choices.{hold_code, retain_code};
ghost use Rattle.cd_rules.specs.Legal.{is_snode_of, is_card_of, says_interval, has_small_symbols, is_filed, is_new_origin, may_submit};

use crate::symbols::are_few;
use cd_ast::{Process, Stmt, What};
use cd_book::{Book, Texts, same_bytes};
use cd_types::{
    Filed, GREATEST_NUMBER, Hold, Key, LONGEST_KEPT_TEXT, MOST_LIVE, NodeName, ProcNo, Retain,
};

fn hold_code(hold: Hold) -> u8
    ensures { result ≡ hold_code hold }
{
    hold as u8
}

fn retain_code(retain: Retain) -> u8
    ensures { result ≡ retain_code retain }
{
    retain as u8
}

fn is_snode_of(name: &NodeName, own: &Option<NodeName>) -> bool
    ensures { result ≡ is_snode_of name.now own.now }
{
    match own {
        Some(own) => same_bytes(name.as_bytes(), own.as_bytes()),
        None => false,
    }
}

// Whether the card is that of the Process, which names a partner.
fn is_card_of(card: &Filed, process: &Process) -> bool
    ensures { result ≡ is_card_of card.now process.now }
{
    same_bytes(card.name.as_bytes(), process.name.as_bytes())
        && is_snode_of(&card.snode, &process.card.snode)
        && card.prty == process.card.prty
        && card.class == process.card.class
        && hold_code(card.hold) == hold_code(process.card.hold)
        && retain_code(card.retain) == retain_code(process.card.retain)
}

// A COPY says its interval.
fn says_interval(what: &What) -> bool
    ensures { result ≡ says_interval what.now }
{
    match what {
        What::Copy(step) => match step.ckpt {
            Some(_) => true,
            None => false,
        },
        _ => true,
    }
}

// A SUBMIT gives few enough values.
fn has_small_symbols(what: &What) -> bool
    ensures { result ≡ has_small_symbols what.now }
{
    match what {
        What::Submit(step) => are_few(&step.symbols),
        _ => true,
    }
}

fn is_sent(stmt: &Stmt) -> bool
    ensures { result ≡ (says_interval stmt.now.what && has_small_symbols stmt.now.what) }
{
    says_interval(&stmt.what) && has_small_symbols(&stmt.what)
}

fn are_sent(stmts: &[Stmt]) -> bool
    ensures { result ≡ list_all (λ s. says_interval s.what && has_small_symbols s.what) stmts.now }
{
    stmts.iter().all(|stmt| is_sent(stmt))
}

// Whether the card goes with the Process, and the Process with what is sent of it.
fn is_filed(card: &Filed, process: Option<&Process>) -> bool
    ensures { result ≡ is_filed card.now (option_map (λ p. p.now) process.entry) }
{
    match process {
        Some(process) => is_card_of(card, process) && are_sent(process.stmts.as_slice()),
        None => false,
    }
}

// No step submits twice.
fn is_new_origin<T: Texts>(book: &Book<T>, origin: &Option<Key>) -> bool
    ensures { result ≡ is_new_origin book.now.entries origin.now }
{
    match origin {
        Some(key) => book.made_for(key).is_none(),
        None => true,
    }
}

pub(crate) fn may_submit<T: Texts>(
    book: &Book<T>,
    number: ProcNo,
    origin: &Option<Key>,
    card: &Filed,
    text: &[u8],
    process: Option<&Process>,
) -> bool
    requires { option_map (λ p. p.now) process ≡ T.read text.now }
    ensures { result ≡ may_submit T.read book.now.entries number origin.now card.now text.now }
{
    number.number() as u64 == book.submitted() as u64 + 1
        && number.number() <= GREATEST_NUMBER
        && book.live() < MOST_LIVE
        && text.len() <= LONGEST_KEPT_TEXT
        && is_filed(card, process)
        && is_new_origin(book, origin)
}
