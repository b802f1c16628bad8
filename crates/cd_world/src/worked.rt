//! Worked lists of events, so that the law speaks of something.
ghost use Rattle.std.specs.Prelude.{◌≡◌, [], ◌∷◌, codes, Some};
ghost use Rattle.cd_rules.specs.Processes.{ended};
ghost use Rattle.cd_protocol.specs.Worked.{worked_key};
ghost use Rattle.cd_world.specs.Holds.{landings, noted_landings, left_of};
ghost use Rattle.cd_world.specs.Worked.{bytes, five, worked_receiving, worked_world, worked_events, lossy_world, lossy_events};
ghost use Rattle.cd_world.specs.World.{A, B, Landed, IsFirst, ArePossible, after};

/// In a first world a Process is submitted that pushes a file of three bytes, and then all that waits is handled. These
/// events are possible; the step ends with 0, its landing is noted once, of a receiving as the statement says, and the
/// destination has the bytes, which the notes leave there.
pub fn worked_push()
    ensures first { IsFirst worked_world }
    ensures possible { ArePossible worked_world worked_events }
    ensures ended_is { ended (after worked_world worked_events).a.node.view.journal 1 ≡ (0, 0) ∷ [] }
    ensures landed { landings B worked_key (after worked_world worked_events).notes ≡ bytes ∷ [] }
    ensures noted { noted_landings B worked_key (after worked_world worked_events).notes ≡ Landed B (worked_receiving 3 0) bytes ∷ [] }
    ensures file { (after worked_world worked_events).b.node.shelf.seen (codes "b") ≡ Some bytes }
    ensures left { left_of B worked_world.b.settled (after worked_world worked_events).notes (codes "b") ≡ Some bytes }
{}

/// A file of five bytes, a mark behind four of them, and a loss behind that mark. Half a minute later the Process is
/// chosen again, only the last byte is sent, and the whole lands once.
pub fn worked_loss()
    ensures first { IsFirst lossy_world }
    ensures possible { ArePossible lossy_world lossy_events }
    ensures ended_is { ended (after lossy_world lossy_events).a.node.view.journal 1 ≡ (0, 0) ∷ [] }
    ensures landed { landings B worked_key (after lossy_world lossy_events).notes ≡ five ∷ [] }
    ensures noted { noted_landings B worked_key (after lossy_world lossy_events).notes ≡ Landed B (worked_receiving 5 4) five ∷ [] }
    ensures file { (after lossy_world lossy_events).b.node.shelf.seen (codes "b") ≡ Some five }
    ensures left { left_of B lossy_world.b.settled (after lossy_world lossy_events).notes (codes "b") ≡ Some five }
{}
