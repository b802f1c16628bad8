//! A drill.
ghost use Rattle.std.specs.Prelude.{◌≡◌, map, reverse, Ok, IfOk, IfErr};
ghost use Rattle.cd_drill_script.specs.Script.{orders_of};
ghost use Rattle.cd_drill_script.specs.Seen.{seen_line, seen_order};
ghost use Rattle.cd_drill.specs.Course.{Ran};
ghost use Rattle.cd_drill.specs.Pairs.{AreAtRest};
ghost use Rattle.cd_drill.specs.Kept.{is_reserved};
ghost use Rattle.cd_drill.specs.Report.{report_of, AreNamed};
ghost use Rattle.cd_drill.specs.Drilled.{WasRun, WasDrilled, WasReported, IsFaultOf};

use crate::bench::Bench;
use crate::course::Course;
use crate::fault::DrillFault;
use crate::kept::Kept;
use cd_drill_script::{Numbered, ScriptFault, read_script};
use cd_types::NoMemory;
use std::alloc::Global;

/// What was done of a script, and its report.
#[derive(Drop)]
struct Told {
    course: Course,
    report: Vec<u8>,
}

impl Told {
    /// The report. The life of the nodes ends.
    fn into_report(self) -> Vec<u8>
        ensures { result ≡ self.report }
    {
        let Told { course, report } = self;
        course.close();
        report
    }
}

/// The lines of a script.
fn lines_of(alloc: Global, script: &[u8]) -> Result<Vec<Numbered<'_>>, DrillFault>
    ensures read { IfOk result (λ lines. orders_of is_reserved script.now ≡ Ok (map seen_line lines.items)) }
    ensures fault { IfErr result (IsFaultOf (orders_of is_reserved script.now)) }
{
    match read_script(alloc, &Kept { alloc }, script) {
        Ok(lines) => Ok(lines),
        Err(ScriptFault::ScriptText(at)) => Err(DrillFault::ScriptText(at)),
        Err(ScriptFault::NoMemory) => Err(DrillFault::NoMemory),
    }
}

/// What was done of these lines.
fn run(alloc: Global, lines: &[Numbered<'_>]) -> Result<Course, NoMemory>
    ensures rest { IfOk result (λ course. AreAtRest course.pair) }
    ensures ran { IfOk result (λ course. Ran (reverse (map (λ line. seen_order line.order) lines.now)) course) }
{
    let Ok(mut course) = Course::begin(alloc) else {
        return Err(NoMemory);
    };
    match course.run(alloc, lines) {
        Ok(()) => Ok(course),
        Err(_) => {
            course.close();
            Err(NoMemory)
        }
    }
}

/// What was done of these lines, and its report.
fn tell(alloc: Global, lines: &[Numbered<'_>]) -> Result<Told, NoMemory>
    ensures rest { IfOk result (λ told. AreAtRest told.course.pair) }
    ensures ran { IfOk result (λ told. Ran (reverse (map (λ line. seen_order line.order) lines.now)) told.course) }
    ensures reported { IfOk result (λ told. told.report.items ≡ report_of told.course) }
    ensures named { IfOk result (λ told. AreNamed told.course.pair) }
{
    let course = match run(alloc, lines) {
        Ok(course) => course,
        Err(fault) => return Err(fault),
    };
    let Ok(report) = course.report(alloc) else {
        course.close();
        return Err(NoMemory);
    };
    Ok(Told { course, report })
}

/// What was done of a script, and its report.
#[tactic(none)]
fn run_script(alloc: Global, script: &[u8]) -> Result<Told, DrillFault>
    ensures run { IfOk result (λ told. WasRun script.now told.report.items told.course) }
    ensures fault { IfErr result (IsFaultOf (orders_of is_reserved script.now)) }
{
    let lines = match lines_of(alloc, script) {
        Ok(lines) => lines,
        Err(fault) => return Err(fault),
    };
    let Ok(told) = tell(alloc, &lines) else {
        return Err(DrillFault::NoMemory);
    };
    Ok(told)
}

/// Runs a script over two nodes, ALPHA and BETA, which are then in the bench, and reports what they recorded. `ScriptText` comes
/// exactly where a line of the script asks for nothing that a line may ask for.
///
/// What each turn does is said by the rules of a node, of one node with what the other one gave it. That the two nodes together are a
/// world of `cd_world` is said by `cd_drill_world`.
#[tactic(none)]
pub fn drill(alloc: Global, script: &[u8], bench: &mut Bench) -> Result<Vec<u8>, DrillFault>
    ensures report { IfOk result (λ report. WasDrilled script.now report.items bench.new) }
    ensures fault { IfErr result (IsFaultOf (orders_of is_reserved script.now)) }
{
    bench.clear();
    let told = match run_script(alloc, script) {
        Ok(told) => told,
        Err(fault) => return Err(fault),
    };
    bench.keep(told.course);
    Ok(told.report)
}

/// Runs a script over two nodes, as `drill` does, and reports what they recorded. The nodes aren't kept.
#[tactic(none)]
pub fn rehearse(alloc: Global, script: &[u8]) -> Result<Vec<u8>, DrillFault>
    ensures report { IfOk result (λ report. WasReported script.now report.items) }
    ensures fault { IfErr result (IsFaultOf (orders_of is_reserved script.now)) }
{
    match run_script(alloc, script) {
        Ok(told) => Ok(told.into_report()),
        Err(fault) => Err(fault),
    }
}
