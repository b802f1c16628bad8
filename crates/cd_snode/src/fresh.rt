//! Hello comes.
ghost use Rattle.std.specs.Prelude.{◌≡◌, min, None, IfOk};
ghost use Rattle.cd_frames.specs.Message.{message_of};
ghost use Rattle.cd_protocol.specs.Rows.{welcome, row_fresh};
ghost use Rattle.cd_protocol.specs.Seen.{seen_reaction};
ghost use Rattle.cd_session_rules.specs.NodeView.{view_of};

use cd_book::Texts;
use cd_frames::{Frame, Hello, Welcome};
use cd_protocol::{Outgoing, Phase, Reaction, SessionTerms};
use cd_session_rules::{NodeView, close, go, only_one, quietly};
use cd_types::{Moment, NoMemory, NodeName};
use std::alloc::Global;

/// What holds for a session with the node that says this Hello.
fn terms_with(block: u32, hello: &Hello) -> SessionTerms
    ensures { result ≡ record { pnode = hello.now.name; home = hello.now.home; number = None; block = min hello.now.block block } }
{
    SessionTerms {
        pnode: hello.name,
        home: hello.home,
        number: None,
        block: hello.block.min(block),
    }
}

/// Hello is welcomed with the node's own block, where it has a home.
fn welcome<'a>(
    alloc: Global,
    own: Option<(NodeName, u64)>,
    block: u32,
    hello: &Hello,
) -> Result<Reaction<'a>, NoMemory>
    ensures { IfOk result (λ reaction. seen_reaction reaction ≡ welcome own block hello.now) }
{
    match own {
        None => {
            let reaction = only_one(alloc, quietly(alloc, Phase::Gone))?;
            Ok(reaction)
        }
        Some((name, home)) => {
            let answer = Welcome { name, home, block };
            let phase = Phase::Ready(terms_with(block, hello), None);
            let done = go(alloc, phase, Outgoing::Welcome(answer))?;
            let reaction = only_one(alloc, done)?;
            Ok(reaction)
        }
    }
}

/// The first frame of an accepted session.
pub fn row_fresh<'a, T: Texts>(
    alloc: Global,
    view: &NodeView<T>,
    now: Moment,
    frame: &Frame<'_>,
) -> Result<Reaction<'a>, NoMemory>
    ensures { IfOk result (λ reaction. seen_reaction reaction ≡ row_fresh (view_of T.read view.now.config.now view.now.book.now.entries) now (message_of frame.now)) }
{
    match frame {
        Frame::Hello(hello) => {
            let reaction = welcome(alloc, view.book.own_home(), view.config.block, hello)?;
            Ok(reaction)
        }
        _ => {
            let reaction = close(alloc, view, now, &Phase::Fresh)?;
            Ok(reaction)
        }
    }
}
