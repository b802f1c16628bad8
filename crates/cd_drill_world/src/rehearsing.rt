//! A drill that is reported.
ghost use Rattle.std.specs.Prelude.{IfOk, IfErr};
ghost use Rattle.cd_drill_script.specs.Script.{orders_of};
ghost use Rattle.cd_drill.specs.Drilled.{IsFaultOf};
ghost use Rattle.cd_drill.specs.Kept.{is_reserved};
ghost use Rattle.cd_drill_world.specs.Reported.{WasRehearsed};

use crate::law::law_of_drills;
use cd_drill::DrillFault;
use std::alloc::Global;

/// Runs a script over two nodes, ALPHA and BETA, and reports what they recorded. The two nodes that it tells of are those of a world of the
/// rules, so all that is promised of worlds holds of what is reported. `ScriptText` comes exactly where a line of the script asks for
/// nothing that a line may ask for.
pub fn rehearse(alloc: Global, script: &[u8]) -> Result<Vec<u8>, DrillFault>
    ensures report { IfOk result (λ report. WasRehearsed script.now report.items) }
    ensures fault { IfErr result (IsFaultOf (orders_of is_reserved script.now)) }
{
    law_of_drills();
    match cd_drill::rehearse(alloc, script) {
        Ok(report) => Ok(report),
        Err(fault) => Err(fault),
    }
}
