//! Which Processes a node files, and with which card.
ghost use Rattle.std.specs.Prelude.{◌≡◌};
ghost use Rattle.std.specs.List.{list_all};
ghost use Rattle.cd_operator.specs.Filing.{is_built, filed_as, may_wait, card_of};

use crate::reply::Refused;
use cd_ast::{Stmt, What};
use cd_types::{Card, Filed, Hold, Label, NodeName, Retain};

/// Whether a node runs such a statement: all but those that run commands or submit.
fn is_built(what: &What) -> bool
    ensures { result ≡ is_built what.now }
{
    match what {
        What::Copy(_) => true,
        What::Task(_) => false,
        What::Submit(_) => false,
        What::If(..) => true,
        What::Else => true,
        What::Eif => true,
        What::Goto(_) => true,
        What::Exit => true,
    }
}

/// Whether a node runs all these statements.
pub(crate) fn are_built(stmts: &[Stmt]) -> bool
    ensures { result ≡ list_all (λ s. is_built s.what) stmts.now }
{
    stmts.iter().all(|stmt| is_built(&stmt.what))
}

/// Whether it is one that waits for nothing but its turn, or for the operator.
pub(crate) fn may_wait(card: &Card) -> bool
    ensures { result ≡ may_wait card.now }
{
    match (card.start, card.retain, card.hold) {
        (None, Retain::No, Hold::No) => true,
        (None, Retain::No, Hold::Yes) => true,
        _ => false,
    }
}

fn card_of(name: Label, snode: NodeName, card: &Card) -> Filed
    ensures { result ≡ card_of name snode card.now }
{
    Filed {
        name,
        snode,
        prty: card.prty,
        class: card.class,
        hold: card.hold,
        retain: card.retain,
        start: None,
    }
}

/// The card with which a Process is filed, or why it isn't.
pub(crate) fn filed_as(name: Label, card: &Card) -> Result<Filed, Refused>
    ensures { result ≡ filed_as name card.now }
{
    match card.snode {
        Some(snode) => Ok(card_of(name, snode, card)),
        None => Err(Refused::NoNode),
    }
}
