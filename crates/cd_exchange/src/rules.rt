//! The rules of a session, as a node's turn asks for them.
ghost use Rattle.std.specs.Prelude.{◌≡◌};
ghost use Rattle.cd_rules.specs.Steps.{what_at};
ghost use Rattle.cd_protocol.specs.Rows.{source_in};
ghost use Rattle.cd_protocol.specs.Sending.{piece_len};
ghost use Rattle.cd_exchange.specs.Setting.{setting_of};

use crate::at_hand::AtHand;
use crate::{Given, Question, Rules, Session};
use cd_ast::What;
use cd_book::{Book, Texts};
use cd_dispatch::Answers;
use cd_effects::KeyOwners;
use cd_frames::Frame;
use cd_outside::Sid;
use cd_protocol::{Continuation, Effect, Phase, Reaction, SessionTerms, Source};
use cd_session_rules::{Config, NodeView, law_of_reactions, piece_len};
use cd_types::{Key, Moment, NoMemory};
use std::alloc::Global;

/// The rules of a node that is set up so, computed as they are defined.
#[derive(Clone, Copy)]
pub struct PlainRules<'a> {
    pub config: &'a Config,
}

/// The source of a push, by its statement.
fn source_of<'a, T: Texts>(book: &'a Book<T>, key: &Key) -> &'a [u8]
    ensures { result.now ≡ source_in (what_at T.read (book.now).entries key.now.number key.now.place) }
{
    match book.what_at(key.number, key.place as usize) {
        Some(What::Copy(step)) => step.from.as_slice(),
        _ => &[],
    }
}

/// How many bytes the piece has that begins at an offset.
fn piece_bytes(terms: &SessionTerms, source: &Source, offset: u64) -> u32
    ensures { result ≡ piece_len terms.now source.now offset }
{
    let block = terms.block;
    let len = piece_len(terms, source, offset);
    if len <= block as u64 {
        len as u32
    } else {
        block
    }
}

impl<T: Texts> Rules<T> for PlainRules<'_> {
    ghost setting = { λ rules. setting_of rules.config.now };

    fn first_reaction<'a>(
        &self,
        alloc: Global,
        book: &Book<T>,
        others: &[Session],
        owners: &KeyOwners,
        now: Moment,
        sid: Sid,
        phase: &Phase,
        frame: &Frame<'a>,
    ) -> Result<Reaction<'a>, NoMemory> {
        law_of_reactions();
        let view = NodeView {
            book,
            config: self.config,
        };
        let at_hand = AtHand {
            sid,
            phase,
            others,
            owners,
        };
        let reaction = cd_dispatch::first_reaction(
            alloc, &view, &at_hand, now, sid.number, frame, phase,
        )?;
        Ok(reaction)
    }

    fn close<'a>(
        &self,
        alloc: Global,
        book: &Book<T>,
        now: Moment,
        phase: &Phase,
    ) -> Result<Vec<Effect<'a>>, NoMemory> {
        let view = NodeView {
            book,
            config: self.config,
        };
        let reaction = cd_session_rules::close(alloc, &view, now, phase)?;
        Ok(reaction.effects)
    }

    fn trouble<'a>(
        &self,
        alloc: Global,
        book: &Book<T>,
        now: Moment,
        phase: &Phase,
    ) -> Result<Vec<Effect<'a>>, NoMemory> {
        let view = NodeView {
            book,
            config: self.config,
        };
        let reaction = cd_session_rules::trouble(alloc, &view, now, phase)?;
        Ok(reaction.effects)
    }

    fn asked<'a>(&self, book: &'a Book<T>, then: &'a Continuation) -> Question<'a> {
        match then {
            Continuation::Done => Question::Nothing,
            Continuation::Next(_, _) => Question::Nothing,
            Continuation::Undo(_, _, _, _) => Question::Nothing,
            Continuation::Push(_, key) => Question::Source(source_of(book, key)),
            Continuation::Offered(_, _, name, _) => Question::Source(name.as_slice()),
            Continuation::Onto(_, _, _, announced) => Question::Destination(
                announced.name.as_slice(),
            ),
            Continuation::Piece(_, terms, _, source, offset) => Question::Bytes(
                source.name.as_slice(),
                *offset,
                piece_bytes(terms, source, *offset),
            ),
        }
    }

    fn reaction_behind<'a>(
        &self,
        alloc: Global,
        book: &Book<T>,
        now: Moment,
        phase: &Phase,
        given: &Given,
        bytes: &'a [u8],
        then: &Continuation,
    ) -> Result<Reaction<'a>, NoMemory> {
        law_of_reactions();
        let view = NodeView {
            book,
            config: self.config,
        };
        let answers = Answers {
            there: given.there,
            source: given.source,
            bytes,
        };
        let reaction = cd_dispatch::reaction_behind(alloc, &view, now, phase, &answers, then)?;
        Ok(reaction)
    }
}
