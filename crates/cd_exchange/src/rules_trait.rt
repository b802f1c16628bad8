//! What the rules say, as a program computes it.
ghost use Rattle.std.specs.Prelude.{◌≡◌, ℕ, List, true, map, IfOk};
ghost use Rattle.cd_frames.specs.Message.{message_of};
ghost use Rattle.cd_rules.specs.Legal.{is_legal};
ghost use Rattle.cd_protocol.specs.Closing.{close, trouble};
ghost use Rattle.cd_protocol.specs.Rows.{first_reaction};
ghost use Rattle.cd_protocol.specs.Seen.{seen_effect, seen_reaction};
ghost use Rattle.cd_effects.specs.Stands.{HaveFormedOrigins};
ghost use Rattle.cd_exchange.specs.Question.{Setting, view_with, seen_question, question_of, answers_of, reaction_at};
ghost use Rattle.cd_exchange.specs.Sessions.{sessions_with};

use crate::given::Given;
use crate::session::Session;
use cd_book::{Book, Texts};
use cd_effects::KeyOwners;
use cd_frames::Frame;
use cd_outside::Sid;
use cd_protocol::{Continuation, Effect, Phase, Reaction};
use cd_types::{Moment, NoMemory};
use std::alloc::Global;

/// What is asked of the files.
#[derive(Clone, Copy, Debug)]
pub enum Question<'a> {
    /// Nothing.
    Nothing,
    /// The length of a destination.
    Destination(&'a [u8]),
    /// The length of a source.
    Source(&'a [u8]),
    /// Bytes of a source: from a place on, so many.
    Bytes(&'a [u8], u64, u32),
}

/// What the rules say of a node, over the book of its journal. Nothing here calls a device.
pub trait Rules<T: Texts> {
    /// What the node is set up with.
    ghost setting: { Self → Setting };

    /// The first reaction of what is done about a frame of a session, which is at hand in this phase. It submits nothing of
    /// another Process. The journal is legal.
    fn first_reaction<'a>(
        &self,
        alloc: Global,
        book: &Book<T>,
        others: &[Session],
        owners: &KeyOwners,
        now: Moment,
        sid: Sid,
        phase: &Phase,
        frame: &Frame<'a>,
    ) -> Result<Reaction<'a>, NoMemory>
        requires { is_legal T.read (book.now).entries ≡ true }
        ensures reaction { (sids : List ℕ) → IfOk result (λ reaction. seen_reaction reaction ≡ first_reaction (view_with (setting self.now) T.read (book.now).entries) (sessions_with sids sid.number phase.now others.now owners.now) now sid.number (message_of frame.now)) }
        ensures origins { IfOk result (λ reaction. HaveFormedOrigins (map seen_effect reaction.effects.items)) };

    /// What is done where a session ends, or a frame comes that is none.
    fn close<'a>(
        &self,
        alloc: Global,
        book: &Book<T>,
        now: Moment,
        phase: &Phase,
    ) -> Result<Vec<Effect<'a>>, NoMemory>
        ensures effects { IfOk result (λ effects. map seen_effect effects.items ≡ close (view_with (setting self.now) T.read (book.now).entries) now phase.now) }
        ensures origins { IfOk result (λ effects. HaveFormedOrigins (map seen_effect effects.items)) };

    /// What is done where the files failed.
    fn trouble<'a>(
        &self,
        alloc: Global,
        book: &Book<T>,
        now: Moment,
        phase: &Phase,
    ) -> Result<Vec<Effect<'a>>, NoMemory>
        ensures effects { IfOk result (λ effects. map seen_effect effects.items ≡ trouble (view_with (setting self.now) T.read (book.now).entries) now phase.now) }
        ensures origins { IfOk result (λ effects. HaveFormedOrigins (map seen_effect effects.items)) };

    /// What is asked before the reaction that comes behind.
    fn asked<'a>(&self, book: &'a Book<T>, then: &'a Continuation) -> Question<'a>
        ensures { seen_question result ≡ question_of (view_with (setting self.now) T.read (book.now).entries) then.now };

    /// The reaction that comes behind another one, by what the files told. It submits nothing of another Process.
    fn reaction_behind<'a>(
        &self,
        alloc: Global,
        book: &Book<T>,
        now: Moment,
        phase: &Phase,
        given: &Given,
        bytes: &'a [u8],
        then: &Continuation,
    ) -> Result<Reaction<'a>, NoMemory>
        ensures reaction { IfOk result (λ reaction. seen_reaction reaction ≡ reaction_at (view_with (setting self.now) T.read (book.now).entries) phase.now (answers_of now given.now bytes.now) then.now) }
        ensures origins { IfOk result (λ reaction. HaveFormedOrigins (map seen_effect reaction.effects.items)) };
}
