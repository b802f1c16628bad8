//! A driver for measurements, and no part of the node: cuts the text that it reads into tokens, as often as its one word
//! says, and writes how many that makes in all.
#![tactic(auto)]

use anyhow::{Context, Result};
use cd_lexer::{LexFault, tokens};
use std::alloc::Global;
use std::{env, io};

// How many tokens the text has, counted so many times over.
fn count(alloc: Global, text: &[u8], times: u32) -> Result<u64, LexFault> {
    let mut sum = 0u64;
    for _ in 0..times {
        sum = sum.saturating_add(tokens(alloc, text)?.len() as u64);
    }
    Ok(sum)
}

fn main(rt: HostRuntime) -> Result<()> {
    let word = env::args(&rt)?.nth(1).context("say how many times")?;
    let times: u32 = word.as_str().parse()?;
    let text = io::read_to_string(rt.alloc(), rt.reader())?;
    let sum = count(rt.alloc(), text.as_bytes(), times)?;
    println!(rt; "{sum}")?;
    Ok(())
}
