//! What comes behind a reaction.
ghost use Rattle.std.specs.Prelude.{◌≡◌, IfOk};
ghost use Rattle.cd_protocol.specs.Rows.{reaction_behind, checked};
ghost use Rattle.cd_protocol.specs.Seen.{seen_reaction};
ghost use Rattle.cd_session_rules.specs.NodeView.{view_of};

use crate::answers::Answers;
use cd_book::Texts;
use cd_pnode::{next, source_known};
use cd_protocol::{Continuation, Phase, Reaction};
use cd_session_rules::{NodeView, checked, only, piece_read, target_known, undone};
use cd_snode::offered;
use cd_types::{Moment, NoMemory};
use std::alloc::Global;

/// What comes behind a reaction, before it is checked.
fn unchecked<'a, T: Texts>(
    alloc: Global,
    view: &NodeView<T>,
    now: Moment,
    phase: &Phase,
    answers: &Answers<'a>,
    then: &Continuation,
) -> Result<Reaction<'a>, NoMemory>
    ensures { IfOk result (λ reaction. seen_reaction reaction ≡ reaction_behind (view_of T.read view.now.config.now view.now.book.now.entries) now phase.now (record { now = now; there = answers.now.there; source = answers.now.source; bytes = answers.now.bytes.now }) then.now) }
{
    match then {
        Continuation::Done => Ok(only(Vec::new(alloc))),
        Continuation::Next(terms, number) => {
            let reaction = next(alloc, view, now, phase, terms, *number)?;
            Ok(reaction)
        }
        Continuation::Undo(role, terms, key, why) => {
            let reaction = undone(alloc, view, now, phase, *role, terms, key, *why)?;
            Ok(reaction)
        }
        Continuation::Push(terms, key) => {
            let reaction = source_known(alloc, view, now, phase, terms, key, answers.source)?;
            Ok(reaction)
        }
        Continuation::Offered(terms, key, name, interval) => {
            let reaction = offered(alloc, terms, key, name, *interval, answers.source)?;
            Ok(reaction)
        }
        Continuation::Onto(role, terms, key, announced) => {
            let reaction = target_known(alloc, *role, terms, key, announced, now, answers.there)?;
            Ok(reaction)
        }
        Continuation::Piece(role, terms, key, source, offset) => {
            let reaction = piece_read(alloc, *role, terms, key, source, *offset, answers.bytes)?;
            Ok(reaction)
        }
    }
}

/// The reaction that comes behind another one, in the phase that the session has then; where its entry may not be recorded, the
/// session closes.
pub fn reaction_behind<'a, T: Texts>(
    alloc: Global,
    view: &NodeView<T>,
    now: Moment,
    phase: &Phase,
    answers: &Answers<'a>,
    then: &Continuation,
) -> Result<Reaction<'a>, NoMemory>
    ensures { IfOk result (λ reaction. seen_reaction reaction ≡ checked (view_of T.read view.now.config.now view.now.book.now.entries) now phase.now (reaction_behind (view_of T.read view.now.config.now view.now.book.now.entries) now phase.now (record { now = now; there = answers.now.there; source = answers.now.source; bytes = answers.now.bytes.now }) then.now)) }
{
    let reaction = unchecked(alloc, view, now, phase, answers, then)?;
    let made = checked(alloc, view, now, phase, reaction)?;
    Ok(made)
}
