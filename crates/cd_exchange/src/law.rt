//! What is left of a row.
ghost use Rattle.std.specs.Prelude.{◌≡◌, ℕ, ◌≤◌, ◌++◌};
ghost use Rattle.cd_protocol.specs.declared.session.Continuation.{Continuation};
ghost use Rattle.cd_protocol.specs.Node.{Node, Reaction, does, Answers};
ghost use Rattle.cd_protocol.specs.Rows.{all_reactions};
ghost use Rattle.cd_exchange.specs.Rest.{reaction_after, rest, rank, rank_behind};

/// A row is its first reaction and what comes behind it; and of the questions to the files, that for a destination comes once
/// at most, and so does one for a source or its bytes.
pub fn law_of_rests()
    ensures reactions { (more : ℕ) (node : Node) (sid : ℕ) (answers : Answers) (reaction : Reaction)
        → all_reactions more node sid answers reaction ≡ reaction.effects ++ rest more (does sid reaction.effects node) sid answers reaction.later }
    ensures questions { (node : Node) (sid : ℕ) (answers : Answers) (last : Continuation) → rank (reaction_after node sid answers last).later ≤ rank_behind last }
{}
