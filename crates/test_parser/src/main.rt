//! Says what Process texts say, and no part of the node: its input is texts, each but the last with a line `%%` behind it,
//! and its output has of each the canonical text, or its first fault with its place, and a line `%%`.
#![tactic(auto)]

use anyhow::Result;
use cd_ast::print;
use cd_parser::{ParseFault, parse};
use cd_types::Symbols;
use std::alloc::Global;
use std::io;

/// What stands between two texts.
const BETWEEN: &str = "\n%%\n";

// The canonical text, or the fault with its place and a line's end.
fn said(alloc: Global, text: &[u8]) -> Result<String> {
    match parse(alloc, text, &Symbols::new(alloc)) {
        Ok(process) => match print(alloc, &process) {
            Ok(text) => Ok(String::from_utf8_lossy(alloc, &text)?),
            Err(_) => Ok(String::from_str(alloc, "NoMemory\n")?),
        },
        Err(ParseFault::Text(name, at)) => Ok(format!(in alloc; "{name:?} {at}\n")?),
        Err(ParseFault::NoMemory) => Ok(String::from_str(alloc, "NoMemory\n")?),
    }
}

fn main(rt: HostRuntime) -> Result<()> {
    let input = io::read_to_string(rt.alloc(), rt.reader())?;
    let mut rest: &str = &input;
    for _ in 0..input.len() {
        let (text, more) = rest.split_once(BETWEEN).unwrap_or((rest, ""));
        if !text.is_empty() {
            let said = said(rt.alloc(), text.as_bytes())?;
            println!(rt; "{said}%%")?;
        }
        rest = more;
    }
    Ok(())
}
