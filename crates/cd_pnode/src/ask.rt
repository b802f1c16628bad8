//! The partner was asked for a file.
ghost use Rattle.std.specs.Prelude.{◌≡◌, true, Some, IfOk};
ghost use Rattle.cd_ast.specs.declared.process.What.TheVariants as what;
ghost use Rattle.cd_frames.specs.Message.{message_of};
ghost use Rattle.cd_rules.specs.Legal.{is_legal};
ghost use Rattle.cd_rules.specs.Steps.{what_at};
ghost use Rattle.cd_protocol.specs.Rows.{announced_by, receive_announced, row_ask};
ghost use Rattle.cd_protocol.specs.Seen.{seen_reaction};
ghost use Rattle.cd_session_rules.specs.NodeView.{view_of};

use cd_ast::{CopyStep, What};
use cd_book::{Texts, same_key};
use cd_frames::Frame;
use cd_protocol::{Announced, Phase, Reaction, SessionTerms};
use cd_session_rules::{NodeView, close, copy_name, given_up, gives_up, interval_of, receive};
use cd_types::{Key, Moment, NoMemory, Side};
use std::alloc::Global;

/// What a pull is to become, by its statement.
fn announced_by(alloc: Global, step: &CopyStep, length: u64) -> Result<Announced, NoMemory>
    ensures { IfOk result (λ announced. Some announced ≡ announced_by (Some (what.Copy step.now)) length) }
{
    let name = copy_name(alloc, &step.to)?;
    Ok(Announced {
        name,
        disp: step.disp,
        interval: interval_of(step.ckpt),
        length,
    })
}

/// The length of what is to be received is known.
fn receive_announced<'a, T: Texts>(
    alloc: Global,
    view: &NodeView<T>,
    now: Moment,
    phase: &Phase,
    terms: &SessionTerms,
    key: &Key,
    length: u64,
) -> Result<Reaction<'a>, NoMemory>
    requires { is_legal T.read view.now.book.now.entries ≡ true }
    ensures { IfOk result (λ reaction. seen_reaction reaction ≡ receive_announced (view_of T.read view.now.config.now view.now.book.now.entries) now phase.now terms.now key.now (announced_by (what_at T.read view.now.book.now.entries key.now.number key.now.place) length)) }
{
    match view.book.what_at(key.number, key.place as usize) {
        None => {
            let reaction = close(alloc, view, now, phase)?;
            Ok(reaction)
        }
        Some(what) => match what {
            What::Copy(step) => {
                let announced = announced_by(alloc, step, length)?;
                let reaction = receive(
                    alloc,
                    view,
                    now,
                    phase,
                    Side::Pnode,
                    terms,
                    key,
                    &announced,
                )?;
                Ok(reaction)
            }
            _ => {
                let reaction = close(alloc, view, now, phase)?;
                Ok(reaction)
            }
        },
    }
}

/// The partner tells the length of the file, or gives up. The journal is legal.
pub fn row_ask<'a, T: Texts>(
    alloc: Global,
    view: &NodeView<T>,
    now: Moment,
    phase: &Phase,
    terms: &SessionTerms,
    key: &Key,
    frame: &Frame<'_>,
) -> Result<Reaction<'a>, NoMemory>
    requires { is_legal T.read view.now.book.now.entries ≡ true }
    ensures { IfOk result (λ reaction. seen_reaction reaction ≡ row_ask (view_of T.read view.now.config.now view.now.book.now.entries) now phase.now terms.now key.now (message_of frame.now)) }
{
    match frame {
        Frame::Length(step, length) => {
            if same_key(step, key) {
                let reaction = receive_announced(alloc, view, now, phase, terms, key, *length)?;
                Ok(reaction)
            } else {
                let reaction = close(alloc, view, now, phase)?;
                Ok(reaction)
            }
        }
        Frame::Abort(step, why) => {
            if same_key(step, key) && gives_up(*why) {
                let reaction = given_up(alloc, view, now, Side::Pnode, terms, key, *why)?;
                Ok(reaction)
            } else {
                let reaction = close(alloc, view, now, phase)?;
                Ok(reaction)
            }
        }
        _ => {
            let reaction = close(alloc, view, now, phase)?;
            Ok(reaction)
        }
    }
}
