ghost use Rattle.std.specs.Prelude.{◌≡◌, ℕ, List, [], ◌∷◌, true};
ghost use Rattle.cd_entries.specs.declared.entry.Entry.{Entry};
ghost use Rattle.cd_ast.specs.Walk.{path, pending};
ghost use Rattle.cd_ast.specs.declared.process.Stmt.{Stmt};
ghost use Rattle.cd_rules.specs.Processes.{ended};
ghost use Rattle.cd_rules.specs.Legal.{is_legal};
ghost use Rattle.cd_rules.specs.Steps.{Reading, stmts_of};
ghost use Rattle.cd_walk.specs.Conditions.{AllLookBack};
ghost use Rattle.cd_walk.specs.SingleSteps.{LeadDown, Walks};
ghost use Rattle.cd_walk.specs.Worked.{worked};

/// In a legal journal the steps of each Process that ended, with their codes and in their order, are the path that
/// its statements take for these codes. The conditions of a Process name actions that stand before them.
pub fn law_of_steps()
    ensures { (read : Reading) → AllLookBack read → (journal : List Entry) (n : ℕ) → is_legal read journal ≡ true
        → ended journal n ≡ path (stmts_of read journal n) (ended journal n) }
{}

/// Where every jump leads further down, the path and the place that comes next are those of the walk by single steps:
/// from place to place, as the statements say, until an action without a code or the end.
pub fn law_of_walks()
    ensures { (stmts : List Stmt) (codes : List (ℕ × ℕ)) → LeadDown stmts codes
        → Walks stmts codes 0 (path stmts codes) (pending stmts codes) }
{}

/// The walk of one Process with conditions and jumps, worked by hand. Where S1 ends with 0, S3 and S4 follow; where
/// it ends with 4, S3 alone; and where it ends with 8, S2 and S4.
pub fn worked_walk()
    ensures none { pending worked [] ≡ 0 }
    ensures zero { pending worked ((0, 0) ∷ []) ≡ 5 }
    ensures zero_then { pending worked ((0, 0) ∷ (5, 0) ∷ []) ≡ 13 }
    ensures zero_path { path worked ((0, 0) ∷ (5, 0) ∷ (13, 0) ∷ []) ≡ (0, 0) ∷ (5, 0) ∷ (13, 0) ∷ [] }
    ensures zero_end { pending worked ((0, 0) ∷ (5, 0) ∷ (13, 0) ∷ []) ≡ 14 }
    ensures four { pending worked ((0, 4) ∷ []) ≡ 5 }
    ensures four_path { path worked ((0, 4) ∷ (5, 0) ∷ []) ≡ (0, 4) ∷ (5, 0) ∷ [] }
    ensures four_end { pending worked ((0, 4) ∷ (5, 0) ∷ []) ≡ 14 }
    ensures eight { pending worked ((0, 8) ∷ []) ≡ 2 }
    ensures eight_then { pending worked ((0, 8) ∷ (2, 0) ∷ []) ≡ 13 }
    ensures eight_path { path worked ((0, 8) ∷ (2, 0) ∷ (13, 0) ∷ []) ≡ (0, 8) ∷ (2, 0) ∷ (13, 0) ∷ [] }
    ensures eight_end { pending worked ((0, 8) ∷ (2, 0) ∷ (13, 0) ∷ []) ≡ 14 }
{}
