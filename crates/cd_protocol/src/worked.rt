//! Worked examples: one Process whose one step is a push, between two nodes, by the rows alone.
ghost use Rattle.std.specs.Prelude.{◌≡◌, [], ◌∷◌, length, codes, Some, None};
ghost use Rattle.cd_rules.specs.Processes.{ended};
ghost use Rattle.cd_rules.specs.Status.{mark};
ghost use Rattle.cd_protocol.specs.Worked.{after_turns, entries_a, entries_b, worked_key, AllDone};

/// A file of three bytes goes in one piece: its step ends at the ninth turn, and all is done at the eleventh.
pub fn worked_push()
    ensures file_b { (after_turns 11 8 0 (Some (1 ∷ 2 ∷ 3 ∷ []))).b.shelf.seen (codes "b") ≡ Some (1 ∷ 2 ∷ 3 ∷ []) }
    ensures journal_a { (after_turns 11 8 0 (Some (1 ∷ 2 ∷ 3 ∷ []))).a.view.journal ≡ entries_a }
    ensures journal_b { (after_turns 11 8 0 (Some (1 ∷ 2 ∷ 3 ∷ []))).b.view.journal ≡ entries_b }
    ensures all_done { AllDone (after_turns 11 8 0 (Some (1 ∷ 2 ∷ 3 ∷ []))) }
    ensures not_yet { ended (after_turns 8 8 0 (Some (1 ∷ 2 ∷ 3 ∷ []))).a.view.journal 1 ≡ [] }
    ensures at_nine { ended (after_turns 9 8 0 (Some (1 ∷ 2 ∷ 3 ∷ []))).a.view.journal 1 ≡ (0, 0) ∷ [] }
{}

/// A file of five bytes goes in pieces of two, two and one, with a mark behind the second: its step ends at the
/// thirteenth turn, and all is done at the fifteenth.
pub fn worked_pieces()
    ensures file_b { (after_turns 15 2 4 (Some (1 ∷ 2 ∷ 3 ∷ 4 ∷ 5 ∷ []))).b.shelf.seen (codes "b") ≡ Some (1 ∷ 2 ∷ 3 ∷ 4 ∷ 5 ∷ []) }
    ensures marked { mark (after_turns 9 2 4 (Some (1 ∷ 2 ∷ 3 ∷ 4 ∷ 5 ∷ []))).b.view.journal worked_key ≡ 4 }
    ensures not_yet { ended (after_turns 12 2 4 (Some (1 ∷ 2 ∷ 3 ∷ 4 ∷ 5 ∷ []))).a.view.journal 1 ≡ [] }
    ensures at_thirteen { ended (after_turns 13 2 4 (Some (1 ∷ 2 ∷ 3 ∷ 4 ∷ 5 ∷ []))).a.view.journal 1 ≡ (0, 0) ∷ [] }
    ensures counts { (length (after_turns 15 2 4 (Some (1 ∷ 2 ∷ 3 ∷ 4 ∷ 5 ∷ []))).a.view.journal ≡ 5) × (length (after_turns 15 2 4 (Some (1 ∷ 2 ∷ 3 ∷ 4 ∷ 5 ∷ []))).b.view.journal ≡ 5) }
    ensures all_done { AllDone (after_turns 15 2 4 (Some (1 ∷ 2 ∷ 3 ∷ 4 ∷ 5 ∷ []))) }
{}

/// An empty file goes by its end alone: its step ends at the seventh turn, and all is done at the ninth. Where there is
/// no source, the step ends with 8 at the fifth turn, and the partner gets no file.
pub fn worked_ends()
    ensures empty_not_yet { ended (after_turns 6 8 0 (Some [])).a.view.journal 1 ≡ [] }
    ensures empty_at_seven { ended (after_turns 7 8 0 (Some [])).a.view.journal 1 ≡ (0, 0) ∷ [] }
    ensures empty_done { AllDone (after_turns 9 8 0 (Some [])) }
    ensures empty_file { (after_turns 9 8 0 (Some [])).b.shelf.seen (codes "b") ≡ Some [] }
    ensures missing { ended (after_turns 5 8 0 None).a.view.journal 1 ≡ (0, 8) ∷ [] }
    ensures missing_done { AllDone (after_turns 7 8 0 None) }
    ensures missing_file { (after_turns 7 8 0 None).b.shelf.seen (codes "b") ≡ None }
{}
