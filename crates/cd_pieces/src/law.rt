ghost use Rattle.std.specs.Prelude.{◌≡◌, ℕ, ◌<◌, ◌≤◌, List, [], ◌++◌, Option, Some, None};
ghost use Rattle.cd_types.specs.declared.choices.Disp.TheVariants.{New, Rpl, Mod};
ghost use Rattle.cd_outside.specs.Cuts.{cuts_to, pieces};
ghost use Rattle.cd_outside.specs.Disposition.{landed, dropped};
ghost use Rattle.cd_pieces.specs.Piece.{piece_end, IsReached, IsNextCut};
ghost use Rattle.cd_pieces.specs.Sending.{Sent};

/// From each place that was reached and isn't the end, the next piece ends at the next cut. So the places where pieces
/// end are the cuts behind the start, all of them and in their order.
pub fn law_of_pieces()
    ensures { (len block interval start offset : ℕ) → 1 ≤ block → start ≤ offset → offset < len
        → IsReached len block interval start offset → IsNextCut len block interval start offset (piece_end len block interval offset) }
{}

/// However many pieces were sent, there are as many cuts behind the start, up to the place where the next piece begins.
/// So a whole file that is sent from its front has as many pieces as it has cuts: none where it has no bytes, and else one
/// at least.
pub fn law_of_counts()
    ensures sent { (len block interval start offset count : ℕ) → 1 ≤ block → Sent len block interval start offset count
        → cuts_to len block interval start offset ≡ count }
    ensures whole { (len block interval count : ℕ) → 1 ≤ block → Sent len block interval 0 len count → pieces len block interval ≡ count }
    ensures none { (block interval : ℕ) → pieces 0 block interval ≡ 0 }
    ensures some { (len block interval : ℕ) → 1 ≤ len → 1 ≤ pieces len block interval }
{}

/// What a copy leaves of its destination. Where there was no file, it is the source. RPL leaves the source whatever there
/// was, and MOD sets it behind the bytes that there were. A copy that is dropped leaves no file with NEW, one without bytes
/// with RPL, and what there was with MOD.
pub fn law_of_dispositions()
    ensures new { (source : List ℕ) → landed New None source ≡ source }
    ensures replaced { (old : Option (List ℕ)) (source : List ℕ) → landed Rpl old source ≡ source }
    ensures behind { (old source : List ℕ) → landed Mod (Some old) source ≡ old ++ source }
    ensures made { (source : List ℕ) → landed Mod None source ≡ source }
    ensures dropped_new { (old : Option (List ℕ)) → dropped New old ≡ None }
    ensures dropped_replaced { (old : Option (List ℕ)) → dropped Rpl old ≡ Some [] }
    ensures dropped_behind { (old : Option (List ℕ)) → dropped Mod old ≡ old }
{}
