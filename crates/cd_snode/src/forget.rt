//! The partner's Process is over.
ghost use Rattle.std.specs.Prelude.{◌≡◌, IfOk};
ghost use Rattle.cd_protocol.specs.Rows.{forget};
ghost use Rattle.cd_protocol.specs.Seen.{seen_reaction};
ghost use Rattle.cd_session_rules.specs.NodeView.{view_of};

use crate::terms::with_number;
use cd_book::Texts;
use cd_entries::Entry;
use cd_protocol::{Effect, Phase, Reaction, SessionTerms};
use cd_session_rules::{NodeView, behind, only_one, quietly};
use cd_types::{Key, NoMemory, ProcNo};
use std::alloc::Global;

/// Nothing more is asked of the steps of a Process, which is recorded once.
pub(crate) fn forget<'a, T: Texts>(
    alloc: Global,
    view: &NodeView<T>,
    terms: &SessionTerms,
    last: &Option<Key>,
    number: ProcNo,
) -> Result<Reaction<'a>, NoMemory>
    ensures { IfOk result (λ reaction. seen_reaction reaction ≡ forget (view_of T.read view.now.config.now view.now.book.now.entries) terms.now last.now number) }
{
    let phase = Phase::Ready(with_number(number, terms), *last);
    let rest = only_one(alloc, quietly(alloc, phase))?;
    if view.book.is_forgotten(&terms.pnode, terms.home, number) {
        Ok(rest)
    } else {
        let entry = Entry::Forgot(terms.pnode, terms.home, number);
        let reaction = behind(Effect::Keep(entry), rest)?;
        Ok(reaction)
    }
}
