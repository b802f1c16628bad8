//! What a command asks of a node.
ghost use Rattle.std.specs.Prelude.{◌≡◌, IfOk};
ghost use Rattle.cd_effects.specs.Stands.{HasFormedOrigin};
ghost use Rattle.cd_rules.specs.Legal.{is_empty};
ghost use Rattle.cd_operator.specs.Wanted.{next_number, numbered_so, at_home, submission_of, naming_of, wanted};

use crate::filing::{are_built, filed_as, may_wait};
use crate::reply::{Refused, Reply};
use cd_ast::{Process, print};
use cd_book::Book;
use cd_canonical::Canonical;
use cd_commands::{Command, Options};
use cd_entries::Entry;
use cd_submission::{filled, with_options};
use cd_types::{Bytes, Filed, MOST_LIVE, Moment, NoMemory, NodeName, ProcNo};
use std::alloc::Global;

/// An entry that is to be recorded, and what is answered then.
#[derive(Drop)]
pub struct Recording {
    pub answer: Reply,
    pub adds: Entry,
}

/// Whether nothing was recorded yet.
fn is_empty(book: &Book<Canonical>) -> bool
    ensures { result ≡ is_empty book.now.entries }
{
    book.len() == 0
}

/// The number of the next Process of a node, or why there is none.
fn next_number(book: &Book<Canonical>) -> Result<ProcNo, Refused>
    ensures { result ≡ next_number book.now.entries }
{
    if book.live() >= MOST_LIVE {
        return Err(Refused::Full);
    }
    match ProcNo::new(book.submitted().saturating_add(1)) {
        Some(number) => Ok(number),
        None => Err(Refused::NumbersSpent),
    }
}

/// The entry of a Process that is filed with this card.
fn numbered(
    alloc: Global,
    book: &Book<Canonical>,
    now: Moment,
    process: &Process,
    card: Filed,
) -> Result<Result<Recording, Refused>, NoMemory>
    ensures wanted { IfOk result (λ it. it ≡ numbered_so now card process.now (next_number book.now.entries)) }
    ensures formed { IfOk result (λ it. IfOk it (λ recording. HasFormedOrigin recording.adds)) }
{
    let number = match next_number(book) {
        Ok(number) => number,
        Err(refused) => return Ok(Err(refused)),
    };
    let Ok(text) = print(alloc, process) else {
        return Err(NoMemory);
    };
    Ok(Ok(Recording {
        answer: Reply::Submitted(number),
        adds: Entry::Submitted(number, now, None, card, Bytes::new(text)),
    }))
}

/// A submission to a node that may have its home.
fn at_home(
    alloc: Global,
    book: &Book<Canonical>,
    now: Moment,
    process: &Process,
) -> Result<Result<Recording, Refused>, NoMemory>
    ensures wanted { IfOk result (λ it. it ≡ at_home now book.now.entries process.now) }
    ensures formed { IfOk result (λ it. IfOk it (λ recording. HasFormedOrigin recording.adds)) }
{
    if is_empty(book) {
        return Ok(Err(Refused::NotHome));
    }
    match filed_as(process.name, &process.card) {
        Ok(card) => match numbered(alloc, book, now, process, card) {
            Ok(it) => Ok(it),
            Err(fault) => Err(fault),
        },
        Err(refused) => Ok(Err(refused)),
    }
}

/// A submission, with the options in place of what the Process says.
fn submission(
    alloc: Global,
    book: &Book<Canonical>,
    now: Moment,
    process: Process,
    options: &Options,
) -> Result<Result<Recording, Refused>, NoMemory>
    ensures wanted { IfOk result (λ it. it ≡ submission_of now book.now.entries process options.now) }
    ensures formed { IfOk result (λ it. IfOk it (λ recording. HasFormedOrigin recording.adds)) }
{
    if !are_built(process.stmts.as_slice()) {
        return Ok(Err(Refused::NotYet));
    }
    let process = filled(with_options(process, options));
    if !may_wait(&process.card) {
        return Ok(Err(Refused::NotYet));
    }
    match at_home(alloc, book, now, &process) {
        Ok(it) => Ok(it),
        Err(fault) => Err(fault),
    }
}

/// The entry by which a node gets its name and its home, where it has none.
fn naming(book: &Book<Canonical>, name: NodeName, home: u64) -> Result<Recording, Refused>
    ensures wanted { result ≡ naming_of book.now.entries name home }
    ensures formed { IfOk result (λ recording. HasFormedOrigin recording.adds) }
{
    if !is_empty(book) {
        return Err(Refused::AlreadyHome);
    }
    Ok(Recording {
        answer: Reply::Home(name, home),
        adds: Entry::Home(name, home),
    })
}

/// What a command asks of a node with these entries, or why it is refused. Nothing is changed.
pub(crate) fn wanted(
    alloc: Global,
    book: &Book<Canonical>,
    now: Moment,
    command: Command,
) -> Result<Result<Recording, Refused>, NoMemory>
    ensures wanted { IfOk result (λ it. it ≡ wanted now book.now.entries command) }
    ensures formed { IfOk result (λ it. IfOk it (λ recording. HasFormedOrigin recording.adds)) }
{
    match command {
        Command::Init(name, home) => Ok(naming(book, name, home)),
        Command::SubmitText(process, options) => {
            match submission(alloc, book, now, process, &options) {
                Ok(it) => Ok(it),
                Err(fault) => Err(fault),
            }
        }
        Command::SubmitFile(..) => Ok(Err(Refused::NotYet)),
        Command::View(..) => Ok(Err(Refused::NotYet)),
        Command::SelectProcess(..) => Ok(Err(Refused::NotYet)),
        Command::Change(..) => Ok(Err(Refused::NotYet)),
        Command::Delete(_) => Ok(Err(Refused::NotYet)),
        Command::Flush(_) => Ok(Err(Refused::NotYet)),
        Command::SelectStatistics(_) => Ok(Err(Refused::NotYet)),
        Command::ReleaseReceive(_) => Ok(Err(Refused::NotYet)),
        Command::Work(..) => Ok(Err(Refused::NotYet)),
        Command::Serve(..) => Ok(Err(Refused::NotYet)),
        Command::Drill(_) => Ok(Err(Refused::NotYet)),
        Command::Generate(..) => Ok(Err(Refused::NotYet)),
        Command::Stop => Ok(Err(Refused::NotYet)),
    }
}
