//! What a node keeps of a Process, and which Processes it takes.
ghost use Rattle.std.specs.Prelude.{◌≡◌, map, Some};
ghost use Rattle.cd_grammar.specs.Reading.{or_default};
ghost use Rattle.cd_grammar.specs.Words.{or_else};
ghost use Rattle.cd_submission.specs.Filing.{AreFormed, card_with, with_options, default_interval, filled_stmt, filled, is_not_held, is_not_kept, replaces, is_plain_card, says_interval, is_push_step, is_push};

use cd_ast::{CopyStep, Process, Stmt, Stmts, What};
use cd_commands::Options;
use cd_types::{Card, Disp, Hold, Retain};

/// The bytes between two checkpoints of a COPY that doesn't say them, where the node's configuration doesn't either.
pub const DEFAULT_INTERVAL: u64 = 65_536;

/// What is there, or else what is given.
fn or_else<T: Copy>(one: Option<T>, other: Option<T>) -> Option<T>
    ensures { result ≡ or_else one other }
{
    match one {
        Some(value) => Some(value),
        None => other,
    }
}

/// What is there, or else this value.
fn or_default<T: Copy>(one: Option<T>, other: T) -> T
    ensures { result ≡ or_default one other }
{
    match one {
        Some(value) => value,
        None => other,
    }
}

/// What the PROCESS statement says, with the options in place of what they name.
fn card_with(options: &Options, card: Card) -> Card
    ensures value { result ≡ card_with options.now card }
    ensures formed { AreFormed options.now }
{
    Card {
        name: card.name,
        snode: or_else(options.snode, card.snode),
        prty: or_default(options.prty, card.prty),
        class: or_default(options.class, card.class),
        hold: or_default(options.hold, card.hold),
        retain: or_default(options.retain, card.retain),
        start: or_else(options.start, card.start),
    }
}

/// The Process with the options of its submission in place of what its PROCESS statement says.
pub fn with_options(process: Process, options: &Options) -> Process
    ensures value { result ≡ with_options options.now process }
    ensures formed { AreFormed options.now }
{
    Process {
        name: process.name,
        card: card_with(options, process.card),
        stmts: process.stmts,
    }
}

/// Says the interval of a COPY that doesn't say it.
fn fill_copy(copy: &mut CopyStep)
    ensures { copy.new ≡ record copy.old { ckpt = Some (or_default copy.old.ckpt default_interval) } }
{
    copy.ckpt = Some(or_default(copy.ckpt, DEFAULT_INTERVAL));
}

/// Says the interval where the statement is a COPY that doesn't say it.
fn fill_stmt(stmt: &mut Stmt)
    ensures { stmt.new ≡ filled_stmt stmt.old }
{
    if let What::Copy(copy) = &mut stmt.what {
        fill_copy(copy);
    }
}

/// Says the interval in each COPY that doesn't say it.
fn fill_stmts(stmts: &mut Vec<Stmt>)
    ensures { stmts.new.items ≡ map filled_stmt stmts.old.items }
{
    for i in 0..stmts.len() {
        fill_stmt(&mut stmts[i]);
    }
}

/// The Process with the interval in each COPY. It takes no memory.
pub fn filled(process: Process) -> Process
    ensures { result ≡ filled process }
{
    let mut stmts = process.stmts.into_vec();
    fill_stmts(&mut stmts);
    Process {
        name: process.name,
        card: process.card,
        stmts: Stmts::new(stmts),
    }
}

/// Whether a hold lets a Process run.
fn is_not_held(hold: Hold) -> bool
    ensures { result ≡ is_not_held hold }
{
    matches!(hold, Hold::No)
}

/// Whether nothing is kept of a Process behind its end.
fn is_not_kept(retain: Retain) -> bool
    ensures { result ≡ is_not_kept retain }
{
    matches!(retain, Retain::No)
}

/// Whether a COPY replaces what stands at its destination.
fn replaces(disp: Disp) -> bool
    ensures { result ≡ replaces disp }
{
    matches!(disp, Disp::Rpl)
}

/// Whether a COPY says this interval, or says none.
fn says_interval(interval: Option<u64>, said: Option<u64>) -> bool
    ensures { result ≡ says_interval interval said }
{
    match (interval, said) {
        (None, None) => true,
        (Some(interval), Some(said)) => said == interval,
        (None, Some(_)) | (Some(_), None) => false,
    }
}

/// Whether a PROCESS statement says priority 10, a class, no hold, nothing kept, and no start.
fn is_plain_card(card: &Card) -> bool
    ensures { result ≡ is_plain_card card.now }
{
    card.prty == 10
        && card.class >= 1
        && is_not_held(card.hold)
        && is_not_kept(card.retain)
        && card.start.is_none()
}

/// Whether a statement is a COPY to the partner that replaces what stands there, and says this interval, or says none.
fn is_push_step(interval: Option<u64>, what: &What) -> bool
    ensures { result ≡ is_push_step interval what.now }
{
    match what {
        What::Copy(copy) => {
            copy.push && replaces(copy.disp) && says_interval(interval, copy.ckpt)
        }
        _ => false,
    }
}

/// Whether a Process is one COPY to the partner that replaces what stands there, and says this interval, or says none. Its
/// PROCESS statement says priority 10 and a class, no hold, that nothing is kept, and no start.
#[tactic(auto, unfolding(crate::specs::Filing::is_push))]
pub fn is_push(process: &Process, interval: Option<u64>) -> bool
    ensures { result ≡ is_push interval process.now }
{
    match process.stmts.as_slice() {
        [stmt] => is_plain_card(&process.card) && is_push_step(interval, &stmt.what),
        _ => false,
    }
}
