//! The choice of the next Process.
ghost use Rattle.std.specs.Prelude.{◌≡◌, map, option_map, IfOk};
ghost use Rattle.cd_protocol.specs.Node.{only};
ghost use Rattle.cd_protocol.specs.Rows.{hello, connect, call, row_chosen};
ghost use Rattle.cd_protocol.specs.Seen.{seen_frame, seen_reaction};
ghost use Rattle.cd_session_rules.specs.NodeView.{seen_waits, view_of};

use crate::greet::place_in;
use cd_book::Texts;
use cd_entries::Entry;
use cd_frames::Hello;
use cd_protocol::{Effect, Outgoing, Phase, Reaction};
use cd_session_rules::{NodeView, Waits, only, only_one, retried, waits_of};
use cd_types::{Moment, NoMemory, NodeName, Queue, Reason, Row};
use std::alloc::Global;

/// The first frame of a session, where the node has a home.
fn hello<'a>(
    alloc: Global,
    own: Option<(NodeName, u64)>,
    block: u32,
) -> Result<Vec<Outgoing<'a>>, NoMemory>
    ensures { IfOk result (λ frames. map seen_frame frames.items ≡ hello own block) }
{
    match own {
        None => Ok(Vec::new(alloc)),
        Some((name, home)) => {
            let greeting = Hello {
                name,
                home,
                version: 1,
                block,
            };
            let frames = vec![in alloc; Outgoing::Hello(greeting)]?;
            Ok(frames)
        }
    }
}

/// The partner was connected, or it wasn't.
fn connect<'a, T: Texts>(
    alloc: Global,
    view: &NodeView<T>,
    now: Moment,
    chosen: &Row,
    waits: &Waits,
    connected: bool,
) -> Result<Reaction<'a>, NoMemory>
    ensures { IfOk result (λ reaction. seen_reaction reaction ≡ only (connect (view_of T.read view.now.config.now view.now.book.now.entries) now chosen.now (seen_waits waits.now) connected)) }
{
    if connected {
        let frames = hello(alloc, view.book.own_home(), view.config.block)?;
        let reaction = only_one(alloc, Effect::Go(Phase::Greet(chosen.number), frames))?;
        Ok(reaction)
    } else {
        let placed = retried(waits, now, &chosen.placing);
        let entry = Entry::Placed(chosen.number, placed, now);
        let reaction = only_one(alloc, Effect::Keep(entry))?;
        Ok(reaction)
    }
}

/// A partner is called; where the node can't call it, the Process is held.
fn call<'a, T: Texts>(
    alloc: Global,
    view: &NodeView<T>,
    now: Moment,
    connected: bool,
    chosen: &Row,
) -> Result<Reaction<'a>, NoMemory>
    ensures { IfOk result (λ reaction. seen_reaction reaction ≡ only (call (view_of T.read view.now.config.now view.now.book.now.entries) now connected chosen.now ((view_of T.read view.now.config.now view.now.book.now.entries).config.partner chosen.now.snode))) }
{
    match waits_of(view.config, &chosen.snode) {
        None => {
            let entry = place_in(
                chosen.number,
                now,
                Queue::Hold,
                Reason::UnknownNode,
                &chosen.placing,
            );
            let reaction = only_one(alloc, Effect::Keep(entry))?;
            Ok(reaction)
        }
        Some(waits) => {
            let reaction = connect(alloc, view, now, chosen, &waits, connected)?;
            Ok(reaction)
        }
    }
}

/// A Process was chosen, and its partner was connected or not; nothing is done where none was.
pub fn row_chosen<'a, T: Texts>(
    alloc: Global,
    view: &NodeView<T>,
    now: Moment,
    connected: bool,
    chosen: &Option<Row>,
) -> Result<Reaction<'a>, NoMemory>
    ensures { IfOk result (λ reaction. seen_reaction reaction ≡ only (row_chosen (view_of T.read view.now.config.now view.now.book.now.entries) now connected chosen.now)) }
{
    match chosen {
        None => Ok(only(Vec::new(alloc))),
        Some(chosen) => {
            let reaction = call(alloc, view, now, connected, chosen)?;
            Ok(reaction)
        }
    }
}
