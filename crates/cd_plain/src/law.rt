//! What is chosen, and what is made of a session that was taken, is what the rules' rows say.
ghost use Rattle.std.specs.Prelude.{◌≡◌, ◌≤◌, ◌++◌, ◌∷◌, [], ℕ, Bool, true, Some};
ghost use Rattle.cd_types.specs.declared.rows.Row.{Row};
ghost use Rattle.cd_entries.specs.declared.entry.Entry.{Entry};
ghost use Rattle.cd_rules.specs.Processes.{latest};
ghost use Rattle.cd_rules.specs.Queue.{next_due};
ghost use Rattle.cd_rules.specs.Legal.{is_legal};
ghost use Rattle.cd_rules.specs.Promises.{HavePriorities};
ghost use Rattle.cd_rules.specs.Steps.{Reading};
ghost use Rattle.cd_protocol.specs.Node.{Node, does};
ghost use Rattle.cd_protocol.specs.Rows.{may_record, opened, row_accept, row_choose, row_chosen};
ghost use Rattle.cd_protocol.specs.declared.session.Phase.TheVariants.{Fresh};
ghost use Rattle.cd_outside.specs.declared.sid.Sid.{Sid};
ghost use Rattle.cd_session_rules.specs.NodeView.{view_of};
ghost use Rattle.cd_plain.specs.Choice.{placing_of};
ghost use Rattle.cd_plain.specs.Chosen.{busy_in};
ghost use Rattle.cd_plain.specs.Law.{IsNodeOf};
ghost use Rattle.cd_plain.specs.NodeState.{NodeState, AreMade, IsNewest};

use cd_protocol::law_of_rows;

/// What a node does with a Process that is due is the row of its choice; a session that it takes is a new one, with which the row of
/// taking a session was done; and a placing that the rules say may be recorded, so it is.
pub fn law_of_choice()
    ensures choice { (read : Reading) (state : NodeState) (node : Node) (last now : ℕ) (connected : Bool) → AreMade last state.sessions → IsNodeOf read state node
        → row_choose node now connected ≡ row_chosen (view_of read state.config state.registry.entries) now connected (next_due state.registry.entries now (busy_in state.sessions)) }
    ensures taking { (read : Reading) (state after : NodeState) (node : Node) (sid : Sid) → IsNewest sid.number state.sessions → IsNodeOf read state node
        → after.registry ≡ state.registry → after.config ≡ state.config → after.holdings ≡ state.holdings → after.sessions ≡ state.sessions ++ (record { sid = sid; phase = Fresh }) ∷ []
        → IsNodeOf read after (does sid.number row_accept (opened sid.number node)) }
    ensures placing { (read : Reading) (state : NodeState) (node : Node) (last now : ℕ) (row : Row) (e : Entry) → HavePriorities read → is_legal read state.registry.entries ≡ true → latest state.registry.entries ≤ now
        → AreMade last state.sessions → IsNodeOf read state node
        → next_due state.registry.entries now (busy_in state.sessions) ≡ Some row → placing_of (view_of read state.config state.registry.entries) now row ≡ Some e → may_record read now state.registry.entries e ≡ true }
{
    law_of_rows();
}
