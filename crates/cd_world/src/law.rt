ghost use Rattle.std.specs.Prelude.{◌≡◌, ℕ, ◌+◌, ◌≤◌, List, ◌++◌, length, take, Option};
ghost use Rattle.cd_outside.specs.Content.{resized, overwritten};
ghost use Rattle.cd_outside.specs.Shelf.{FileDoubt, FileChange, IsFileImage, settled_file, file_after, file_doubt_within};
ghost use Rattle.cd_world.specs.Fronts.{BeginsWith, IsGuarded, KeepsFront};
ghost use Rattle.cd_world.specs.Holds.{AreLegal, Extend, HaveResults, HaveLanded, HaveStatements, HaveCopied, AreSources, HaveFiles, AreLeft};
ghost use Rattle.cd_world.specs.World.{World, Event, IsFirst, ArePossible, after};

/// Two nodes with different names and homes, whose journals have their Home alone and between which there is no
/// session; and any list of events: whatever is delivered or lost between them, whatever their files answer, wherever
/// either node stops within what it does or a call of its files fails, and whatever others write into its files.
///
/// Then both journals are legal, and have behind their new entries what they held after each shorter list. Each step
/// whose outcome the other node keeps ended with the code, the cause and the length that the other node recorded. And
/// each COPY that ended with 0 landed exactly once at the node that received it. What landed is the source, whole: every
/// list of bytes of the announced length that has at each offset what was read there since the receiving began.
///
/// A node receives only what a COPY of a Process of the two nodes says, with the name, the disposition and the interval of that
/// statement: a pull of its own, or a push of the other node. So the one landing of a COPY that ended with 0 has them, too.
///
/// What is settled of each file is what these landings leave of it, and the droppings, and whoever else wrote it: a landing
/// leaves exactly what its disposition makes of the file before and of what came. And the files hold it, in whatever a
/// crash may leave, too: a file is the settled one where nothing is received onto it, and else it begins with what stays of
/// that and with all of what came that is marked. Only of a file that someone else wrote while it was received nothing is
/// said.
pub fn law_of_events()
    ensures legal { (w : World) (events : List Event) → IsFirst w → ArePossible w events → AreLegal (after w events) }
    ensures extends { (w : World) (events more : List Event) → IsFirst w → ArePossible w (events ++ more) → Extend (after w events) (after w (events ++ more)) }
    ensures results { (w : World) (events : List Event) → IsFirst w → ArePossible w events → HaveResults (after w events) }
    ensures landings { (w : World) (events : List Event) → IsFirst w → ArePossible w events → HaveLanded (after w events) }
    ensures statements { (w : World) (events : List Event) → IsFirst w → ArePossible w events → HaveStatements (after w events) }
    ensures copies { (w : World) (events : List Event) → IsFirst w → ArePossible w events → HaveCopied (after w events) }
    ensures sources { (w : World) (events : List Event) → IsFirst w → ArePossible w events → AreSources (after w events).notes }
    ensures files { (w : World) (events : List Event) → IsFirst w → ArePossible w events → HaveFiles (after w events) }
    ensures left { (w : World) (events : List Event) → IsFirst w → ArePossible w events → AreLeft w (after w events) }
{}

/// A front of a file that was synced is guarded: every file that a crash may leave begins with it, within and behind
/// every change that begins behind the front, and so does the file itself. Where a file begins with what is kept of the
/// old one and with what came, a piece that is written behind them is there and what came is longer by it; and cut to
/// its length the file is exactly what is kept and all that came.
pub fn law_of_fronts()
    ensures image { (front : List ℕ) (doubt : FileDoubt) (image : Option (List ℕ)) → IsGuarded front doubt → IsFileImage doubt image → BeginsWith front image }
    ensures synced { (front : List ℕ) (file : Option (List ℕ)) → BeginsWith front file → IsGuarded front (settled_file file) }
    ensures file { (front : List ℕ) (file : Option (List ℕ)) → BeginsWith front file → (change : FileChange) → KeepsFront (length front) change → BeginsWith front (file_after change file) }
    ensures within { (front : List ℕ) (file : Option (List ℕ)) → BeginsWith front file → (change : FileChange) (doubt : FileDoubt)
        → KeepsFront (length front) change → IsGuarded front doubt → IsGuarded front (file_doubt_within change file doubt) }
    ensures written { (kept got piece bytes : List ℕ) (came : ℕ) → came ≤ length got → take (length (kept ++ take came got)) bytes ≡ kept ++ take came got
        → take (length (kept ++ take (came + length piece) (overwritten came piece got))) (overwritten (length kept + came) piece bytes) ≡ kept ++ take (came + length piece) (overwritten came piece got) }
    ensures landed { (kept got bytes : List ℕ) → take (length (kept ++ got)) bytes ≡ kept ++ got → resized (length kept + length got) bytes ≡ kept ++ got }
{}
