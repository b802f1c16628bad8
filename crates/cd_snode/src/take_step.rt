//! A step is taken.
ghost use Rattle.std.specs.Prelude.{◌≡◌, true, IfOk};
ghost use Rattle.cd_protocol.specs.Rows.{answered, unless_done, take_step};
ghost use Rattle.cd_protocol.specs.Seen.{seen_reaction};
ghost use Rattle.cd_session_rules.specs.NodeView.{view_of};
ghost use Rattle.cd_session_rules.specs.Single.{keeps_one};
ghost use Rattle.cd_rules.specs.Status.{outcome};

use crate::terms::{is_of_terms, with_number};
use cd_book::Texts;
use cd_protocol::{Effect, Outgoing, Phase, Reaction, SessionTerms};
use cd_session_rules::{NodeView, Sessions, behind, checked, close, go, only_one};
use cd_types::{Key, Moment, NoMemory, Outcomes};
use std::alloc::Global;

/// A step that is done is answered as it was done.
fn answered<'a>(
    alloc: Global,
    terms: &SessionTerms,
    key: &Key,
    outcomes: &Outcomes,
) -> Result<Reaction<'a>, NoMemory>
    ensures { IfOk result (λ reaction. seen_reaction reaction ≡ answered terms.now key.now outcomes.now) }
{
    let phase = Phase::Ready(*terms, Some(*key));
    let done = go(alloc, phase, Outgoing::Result(*key, *outcomes))?;
    let reaction = only_one(alloc, done)?;
    Ok(reaction)
}

/// A step that is done is answered; another one does its row.
fn unless_done<'a, T: Texts>(
    alloc: Global,
    view: &NodeView<T>,
    now: Moment,
    terms: &SessionTerms,
    key: &Key,
    reaction: Reaction<'a>,
) -> Result<Reaction<'a>, NoMemory>
    requires { keeps_one (seen_reaction reaction).effects ≡ true }
    ensures { IfOk result (λ made. seen_reaction made ≡ unless_done (view_of T.read view.now.config.now view.now.book.now.entries) now terms.now key.now (outcome view.now.book.now.entries key.now) (seen_reaction reaction.entry)) }
{
    match view.book.outcome(key) {
        None => {
            let phase = Phase::Ready(*terms, Some(*key));
            let made = checked(alloc, view, now, &phase, reaction)?;
            Ok(made)
        }
        Some(outcomes) => {
            let made = answered(alloc, terms, key, &outcomes)?;
            Ok(made)
        }
    }
}

/// A step is taken where its key is of the session and isn't forgotten, and no newer session holds the key; `reaction` is
/// its row.
pub(crate) fn take_step<'a, T: Texts, S: Sessions>(
    alloc: Global,
    view: &NodeView<T>,
    sessions: &S,
    now: Moment,
    sid: u64,
    phase: &Phase,
    terms: &SessionTerms,
    key: &Key,
    reaction: Reaction<'a>,
) -> Result<Reaction<'a>, NoMemory>
    requires { keeps_one (seen_reaction reaction).effects ≡ true }
    ensures { IfOk result (λ made. seen_reaction made ≡ take_step (view_of T.read view.now.config.now view.now.book.now.entries) (S.seen sessions.now) now sid phase.now terms.now key.now (seen_reaction reaction.entry)) }
{
    if is_of_terms(terms, key) && !view.book.is_over(key) && !sessions.is_newer(sid, key) {
        let terms = with_number(key.number, terms);
        let rest = unless_done(alloc, view, now, &terms, key, reaction)?;
        let begun = Effect::Begin(*key, Phase::Ready(terms, Some(*key)));
        let made = behind(begun, rest)?;
        Ok(made)
    } else {
        let made = close(alloc, view, now, phase)?;
        Ok(made)
    }
}
