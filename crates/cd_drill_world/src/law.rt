//! What a drill shows is a world of the rules.
ghost use Rattle.std.specs.Prelude.{ℕ, List};
ghost use Rattle.cd_drill_script.specs.Script.{Order};
ghost use Rattle.cd_drill.specs.Course.{Ran};
ghost use Rattle.cd_drill.specs.Drilled.{WasDrilled};
ghost use Rattle.cd_drill.specs.declared.bench.Bench.{Bench};
ghost use Rattle.cd_drill.specs.declared.course.Course.{Course};
ghost use Rattle.cd_drill_world.specs.Rehearsed.{IsRehearsed};

use cd_canonical::law_of_readings;
use cd_plain::law_of_choice;

/// The orders of a script were done, one after another, by two nodes. Then there are a world at its beginning and events that lead to
/// one with the same two journals and the same files. So all that is promised of worlds holds of it: both journals are legal, each step
/// whose outcome the other node keeps ended as that one recorded it, each COPY that ended with 0 landed once, as its statement says,
/// and whole, and the files hold what their dispositions make of that.
pub fn law_of_drills()
    ensures world { (orders : List Order) (course : Course) → Ran orders course → IsRehearsed course.pair }
    ensures drilled { (script report : List ℕ) (bench : Bench) (was : WasDrilled script report bench) → IsRehearsed was.course.pair }
{
    law_of_choice();
    law_of_readings();
}
