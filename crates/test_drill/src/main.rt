//! Runs drills, and no part of the node: its input is scripts, each but the last with a line `%%` behind it, and its output has of
//! each the report or the refusal, with such a line between them.
#![tactic(auto)]

use anyhow::Result;
use cd_drill::{DrillFault, rehearse};
use std::alloc::Global;
use std::io;

/// What stands between two scripts.
const BETWEEN: &str = "\n%%\n";

// The report of a script, or why there is none.
fn told(alloc: Global, script: &[u8]) -> Result<String> {
    match rehearse(alloc, script) {
        Ok(report) => Ok(String::from_utf8_lossy(alloc, &report)?),
        Err(DrillFault::ScriptText(at)) => Ok(format!(in alloc; "REFUSED TEXT ScriptText {at}\n")?),
        Err(DrillFault::NoMemory) => Ok(String::from_str(alloc, "NO MEMORY\n")?),
    }
}

fn main(rt: HostRuntime) -> Result<()> {
    let input = io::read_to_string(rt.alloc(), rt.reader())?;
    let mut rest: &str = &input;
    for _ in 0..input.len() {
        let (script, more) = rest.split_once(BETWEEN).unwrap_or((rest, ""));
        let report = told(rt.alloc(), script.as_bytes())?;
        print!(rt; "{report}")?;
        if more.is_empty() {
            return Ok(());
        }
        println!(rt; "%%")?;
        rest = more;
    }
    Ok(())
}
