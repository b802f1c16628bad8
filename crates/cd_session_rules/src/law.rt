//! The law of reactions.
ghost use Rattle.std.specs.Prelude.{◌≡◌, ℕ, true};
ghost use Rattle.cd_frames.specs.Message.{Message};
ghost use Rattle.cd_protocol.specs.declared.session.Phase.{Phase};
ghost use Rattle.cd_protocol.specs.declared.session.Continuation.{Continuation};
ghost use Rattle.cd_protocol.specs.Node.{NodeView, Sessions, Answers};
ghost use Rattle.cd_protocol.specs.Closing.{close, trouble};
ghost use Rattle.cd_protocol.specs.Rows.{reaction_in, reaction_behind, checked, first_reaction};
ghost use Rattle.cd_session_rules.specs.Single.{keeps_one};

/// Whatever frame comes in whatever phase, and whatever comes behind a reaction: a reaction records one entry at most, and none
/// that submits a Process; also once it was tested whether that may be done, and at the end of a session or of its files.
pub fn law_of_reactions()
    ensures first { (view : NodeView) (sessions : Sessions) (now sid : ℕ) (m : Message) (phase : Phase) → keeps_one (reaction_in view sessions now sid m phase).effects ≡ true }
    ensures tested { (view : NodeView) (sessions : Sessions) (now sid : ℕ) (m : Message) → keeps_one (first_reaction view sessions now sid m).effects ≡ true }
    ensures behind { (view : NodeView) (now : ℕ) (phase : Phase) (answers : Answers) (then : Continuation) → keeps_one (reaction_behind view now phase answers then).effects ≡ true }
    ensures tested_behind { (view : NodeView) (now : ℕ) (phase : Phase) (answers : Answers) (then : Continuation) → keeps_one (checked view now phase (reaction_behind view now phase answers then)).effects ≡ true }
    ensures ended { (view : NodeView) (now : ℕ) (phase : Phase) → keeps_one (close view now phase) ≡ true }
    ensures troubled { (view : NodeView) (now : ℕ) (phase : Phase) → keeps_one (trouble view now phase) ≡ true }
{}
