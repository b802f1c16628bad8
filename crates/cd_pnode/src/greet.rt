//! The partner answers Hello.
ghost use Rattle.std.specs.Prelude.{◌≡◌, ◌∷◌, [], IfOk};
ghost use Rattle.cd_frames.specs.Message.{message_of};
ghost use Rattle.cd_types.specs.declared.choices.Queue.TheVariants as queue;
ghost use Rattle.cd_types.specs.declared.choices.Reason.TheVariants as reason;
ghost use Rattle.cd_protocol.specs.declared.session.Continuation.TheVariants.{Next};
ghost use Rattle.cd_protocol.specs.Node.{Keep};
ghost use Rattle.cd_protocol.specs.Rows.{place_in, own_terms, held, rejected, is_called, run, row_greet};
ghost use Rattle.cd_protocol.specs.Seen.{seen_reaction};
ghost use Rattle.cd_rules.specs.Processes.{submission, own_home};
ghost use Rattle.cd_rules.specs.Queue.{placing};
ghost use Rattle.cd_session_rules.specs.NodeView.{view_of, kept};

use cd_book::{Texts, same_bytes};
use cd_entries::Entry;
use cd_frames::{Frame, RejectCause, Welcome};
use cd_protocol::{Continuation, Effect, Phase, Reaction, SessionTerms};
use cd_session_rules::{
    NodeView, behind, behind_kept, close, is_running, later, only_one, quietly,
};
use cd_types::{Moment, NoMemory, NodeName, Placing, ProcNo, Queue, Reason};
use std::alloc::Global;

/// The Process stands in another queue from now on, with its priority.
pub(crate) fn place_in(
    number: ProcNo,
    now: Moment,
    queue: Queue,
    reason: Reason,
    before: &Placing,
) -> Entry
    ensures { result ≡ place_in number now queue reason before.now }
{
    let placing = Placing {
        queue,
        reason,
        due: 0,
        attempts: 0,
        prty: before.prty,
    };
    Entry::Placed(number, placing, now)
}

/// The session of the PNODE.
fn own_terms(
    name: &NodeName,
    home: u64,
    number: ProcNo,
    block: u32,
    welcome: &Welcome,
) -> SessionTerms
    ensures { result ≡ own_terms (name.now, home) number block welcome.now }
{
    SessionTerms {
        pnode: *name,
        home,
        number: Some(number),
        block: welcome.block.min(block),
    }
}

/// What is recorded where the partner isn't the one that was called, or doesn't take the session.
fn held<T: Texts>(view: &NodeView<T>, now: Moment, number: ProcNo) -> Option<Entry>
    ensures { kept result ≡ held (view_of T.read view.now.config.now view.now.book.now.entries) now number (placing view.now.book.now.entries number) }
{
    match view.book.placing(number) {
        None => None,
        Some(placed) => {
            if view.book.is_live(number) {
                Some(place_in(number, now, Queue::Hold, Reason::Rejected, &placed))
            } else {
                None
            }
        }
    }
}

fn rejected<'a, T: Texts>(
    alloc: Global,
    view: &NodeView<T>,
    now: Moment,
    number: ProcNo,
) -> Result<Reaction<'a>, NoMemory>
    ensures { IfOk result (λ reaction. seen_reaction reaction ≡ rejected (view_of T.read view.now.config.now view.now.book.now.entries) now number) }
{
    let entry = held(view, now, number);
    let rest = only_one(alloc, quietly(alloc, Phase::Gone))?;
    let reaction = behind_kept(entry, rest)?;
    Ok(reaction)
}

/// Whether it is the partner that was called.
fn is_called<T: Texts>(view: &NodeView<T>, number: ProcNo, name: &NodeName) -> bool
    ensures { result ≡ is_called (submission view.now.book.now.entries number) name.now }
{
    match view.book.submission(number) {
        None => false,
        Some(submission) => same_bytes(name.as_bytes(), submission.card.snode.as_bytes()),
    }
}

/// The Process runs, and its next step is taken.
fn run_placed<'a>(
    alloc: Global,
    now: Moment,
    number: ProcNo,
    terms: &SessionTerms,
    placed: &Placing,
) -> Result<Reaction<'a>, NoMemory>
    ensures { IfOk result (λ reaction. seen_reaction reaction ≡ record { effects = Keep (place_in number now queue.Execution reason.Running placed.now) ∷ []; later = Next terms.now number }) }
{
    let entry = place_in(number, now, Queue::Execution, Reason::Running, placed);
    let reaction = behind(
        Effect::Keep(entry),
        later(alloc, Continuation::Next(*terms, number)),
    )?;
    Ok(reaction)
}

/// The Process runs, where it may.
fn run<'a, T: Texts>(
    alloc: Global,
    view: &NodeView<T>,
    now: Moment,
    number: ProcNo,
    welcome: &Welcome,
) -> Result<Reaction<'a>, NoMemory>
    ensures { IfOk result (λ reaction. seen_reaction reaction ≡ run (view_of T.read view.now.config.now view.now.book.now.entries) now number welcome.now (placing view.now.book.now.entries number) (own_home view.now.book.now.entries)) }
{
    let phase = Phase::Greet(number);
    match view.book.placing(number) {
        None => {
            let reaction = close(alloc, view, now, &phase)?;
            Ok(reaction)
        }
        Some(placed) => match view.book.own_home() {
            None => {
                let reaction = close(alloc, view, now, &phase)?;
                Ok(reaction)
            }
            Some((name, home)) => {
                if is_running(now, &placed) {
                    let terms = own_terms(&name, home, number, view.config.block, welcome);
                    let reaction = run_placed(alloc, now, number, &terms, &placed)?;
                    Ok(reaction)
                } else {
                    let reaction = close(alloc, view, now, &phase)?;
                    Ok(reaction)
                }
            }
        },
    }
}

/// The partner takes the session, or it doesn't.
pub fn row_greet<'a, T: Texts>(
    alloc: Global,
    view: &NodeView<T>,
    now: Moment,
    number: ProcNo,
    frame: &Frame<'_>,
) -> Result<Reaction<'a>, NoMemory>
    ensures { IfOk result (λ reaction. seen_reaction reaction ≡ row_greet (view_of T.read view.now.config.now view.now.book.now.entries) now number (message_of frame.now)) }
{
    match frame {
        Frame::Welcome(welcome) => {
            if is_called(view, number, &welcome.name) {
                let reaction = run(alloc, view, now, number, welcome)?;
                Ok(reaction)
            } else {
                let reaction = rejected(alloc, view, now, number)?;
                Ok(reaction)
            }
        }
        Frame::Reject(RejectCause::Busy(_)) => {
            let reaction = close(alloc, view, now, &Phase::Greet(number))?;
            Ok(reaction)
        }
        Frame::Reject(_) => {
            let reaction = rejected(alloc, view, now, number)?;
            Ok(reaction)
        }
        _ => {
            let reaction = close(alloc, view, now, &Phase::Greet(number))?;
            Ok(reaction)
        }
    }
}
