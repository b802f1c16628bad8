ghost use Rattle.std.specs.Prelude.{◌≡◌, ℕ, ◌≤◌, List, ◌++◌, Bool, true};
ghost use Rattle.cd_frames.specs.Message.{Message};
ghost use Rattle.cd_rules.specs.Legal.{is_legal};
ghost use Rattle.cd_rules.specs.Promises.{HavePriorities};
ghost use Rattle.cd_rules.specs.Processes.{latest};
ghost use Rattle.cd_protocol.specs.Node.{Sessions, Node, Effect, does, Answers};
ghost use Rattle.cd_protocol.specs.Promises.{StaysLegal};
ghost use Rattle.cd_protocol.specs.Rows.{row, row_accept, row_choose, row_end, row_trouble};

/// Whatever frame comes in whatever phase of a session, whatever the files answer, and wherever the node stops in
/// what it does about it: the journal is legal, and has the earlier one behind its new entries. The same holds where a
/// session ends, where a session was accepted, where a Process is chosen (whatever sessions the node has by then), and
/// where a file can't be asked or changed, also behind a first part of another row. The clock's moment isn't earlier
/// than the journal's.
pub fn law_of_rows()
    ensures frame { (node : Node) → HavePriorities node.view.config.read → (sid : ℕ) (answers : Answers) (m : Message)
        → is_legal node.view.config.read node.view.journal ≡ true → latest node.view.journal ≤ answers.now → StaysLegal sid answers.now node (row node sid answers m) }
    ensures end { (node : Node) → HavePriorities node.view.config.read → (sid now : ℕ)
        → is_legal node.view.config.read node.view.journal ≡ true → latest node.view.journal ≤ now → StaysLegal sid now node (row_end node sid now) }
    ensures accept { (node : Node) → (sid now : ℕ)
        → is_legal node.view.config.read node.view.journal ≡ true → latest node.view.journal ≤ now → StaysLegal sid now node row_accept }
    ensures fault { (node : Node) → HavePriorities node.view.config.read → (sid now : ℕ) (effects : List Effect) → StaysLegal sid now node effects
        → (done more : List Effect) → effects ≡ done ++ more → StaysLegal sid now (does sid done node) (row_trouble (does sid done node) sid now) }
    ensures trouble { (node : Node) → HavePriorities node.view.config.read → (sid now : ℕ)
        → is_legal node.view.config.read node.view.journal ≡ true → latest node.view.journal ≤ now → StaysLegal sid now node (row_trouble node sid now) }
    ensures choose { (node : Node) → HavePriorities node.view.config.read → (sid now : ℕ) (sessions : Sessions) (connected : Bool)
        → is_legal node.view.config.read node.view.journal ≡ true → latest node.view.journal ≤ now → StaysLegal sid now (record node { sessions = sessions }) (row_choose node now connected) }
{}
