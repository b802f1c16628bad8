//! The step that comes next.
ghost use Rattle.std.specs.Prelude.{◌≡◌, IfOk};
ghost use Rattle.cd_rules.specs.Steps.{what_at};
ghost use Rattle.cd_protocol.specs.Seen.{seen_reaction};
ghost use Rattle.cd_protocol.specs.Sending.{key_at, begin, source_known, next};
ghost use Rattle.cd_session_rules.specs.NodeView.{view_of};

use cd_ast::What;
use cd_book::Texts;
use cd_protocol::{Phase, Reaction, SessionTerms};
use cd_session_rules::{NodeView, close, copy, ended, finish, push};
use cd_types::{Key, Moment, NoMemory, NodeName, ProcNo};
use std::alloc::Global;

/// The key of a step at a place, where the node has a home.
fn key_at(number: ProcNo, place: usize, own: Option<(NodeName, u64)>) -> Option<Key>
    ensures { result ≡ key_at number place own }
{
    match own {
        None => None,
        Some((name, home)) => {
            if place <= 1024 {
                Some(Key {
                    pnode: name,
                    home,
                    number,
                    place: place as u16,
                })
            } else {
                None
            }
        }
    }
}

/// A step is begun by its statement; the end has none.
fn begin<'a, T: Texts>(
    alloc: Global,
    view: &NodeView<T>,
    now: Moment,
    phase: &Phase,
    terms: &SessionTerms,
    key: &Key,
) -> Result<Reaction<'a>, NoMemory>
    ensures { IfOk result (λ reaction. seen_reaction reaction ≡ begin (view_of T.read view.now.config.now view.now.book.now.entries) now phase.now terms.now key.now (what_at T.read view.now.book.now.entries key.now.number key.now.place)) }
{
    match view.book.what_at(key.number, key.place as usize) {
        None => {
            let reaction = finish(alloc, now, key.home, key.number)?;
            Ok(reaction)
        }
        Some(what) => match what {
            What::Copy(step) => {
                let reaction = copy(alloc, terms, key, step)?;
                Ok(reaction)
            }
            _ => {
                let reaction = close(alloc, view, now, phase)?;
                Ok(reaction)
            }
        },
    }
}

/// The step that comes next is taken.
pub fn next<'a, T: Texts>(
    alloc: Global,
    view: &NodeView<T>,
    now: Moment,
    phase: &Phase,
    terms: &SessionTerms,
    number: ProcNo,
) -> Result<Reaction<'a>, NoMemory>
    ensures { IfOk result (λ reaction. seen_reaction reaction ≡ next (view_of T.read view.now.config.now view.now.book.now.entries) now phase.now terms.now number) }
{
    match key_at(number, view.book.next_place(number), view.book.own_home()) {
        None => {
            let reaction = close(alloc, view, now, phase)?;
            Ok(reaction)
        }
        Some(key) => match view.book.outcome(&key) {
            None => {
                let reaction = begin(alloc, view, now, phase, terms, &key)?;
                Ok(reaction)
            }
            Some(outcomes) => {
                let reaction = ended(alloc, terms, &key, &outcomes, now)?;
                Ok(reaction)
            }
        },
    }
}

/// The source of a push was asked for its length.
pub fn source_known<'a, T: Texts>(
    alloc: Global,
    view: &NodeView<T>,
    now: Moment,
    phase: &Phase,
    terms: &SessionTerms,
    key: &Key,
    size: Option<u64>,
) -> Result<Reaction<'a>, NoMemory>
    ensures { IfOk result (λ reaction. seen_reaction reaction ≡ source_known (view_of T.read view.now.config.now view.now.book.now.entries) now phase.now terms.now key.now size) }
{
    match view.book.what_at(key.number, key.place as usize) {
        None => {
            let reaction = close(alloc, view, now, phase)?;
            Ok(reaction)
        }
        Some(what) => match what {
            What::Copy(step) => {
                let reaction = push(alloc, terms, key, step, size)?;
                Ok(reaction)
            }
            _ => {
                let reaction = close(alloc, view, now, phase)?;
                Ok(reaction)
            }
        },
    }
}
