//! A whole script.
ghost use Rattle.std.specs.Prelude.{◌≡◌, ◌≤◌, ◌+◌, ◌∷◌, ◌==◌, ℕ, List, length, map, position, option_map, option_to_list, Ok, IfOk, OnOk, IfErr, IfSome};
ghost use Rattle.std.specs.List.{position_or_len};
ghost use Rattle.cd_drill_script.specs.Script.{lines_of, orders_from, orders_of};
ghost use Rattle.cd_drill_script.specs.Seen.{seen_order, seen_line};
ghost use Rattle.cd_drill_script.specs.Fault.{IsFaultOf, lines_left, left_size, with_orders};
ghost use Rattle.cd_drill_script.specs.declared.script.ScriptFault.TheVariants.{NoMemory};

use crate::line::{Reserved, is_skipped, order_of};
use crate::order::{Numbered, Order};
use cd_types::LONGEST_COMMAND;
use std::alloc::{AllocFailed, Global};
use thiserror::Error;

/// Why a script isn't read.
#[derive(Debug, Drop, PartialEq, Eq, Error)]
pub enum ScriptFault {
    /// The line that begins at this place asks for nothing that a line may ask for, or is too long.
    #[error("no line of a script at {0}")]
    ScriptText(u64),
    /// Memory ran out.
    #[error("no memory")]
    NoMemory,
}

impl<T: Drop> From<AllocFailed<T>> for ScriptFault {
    ghost from_gives = { λ _ e. e ≡ NoMemory };

    fn from(_: AllocFailed<T>) -> Self {
        ScriptFault::NoMemory
    }
}

fn feed_at(bytes: &[u8]) -> Option<usize>
    ensures { result ≡ position (λ b. b == 10) bytes.now }
{
    bytes.iter().position(|byte| *byte == b'\n')
}

#[tactic(auto, using(crate::proofs::Places::place_is, crate::proofs::Places::place_within))]
fn first_feed(bytes: &[u8]) -> usize
    ensures place { result ≡ position_or_len (λ b. b == 10) bytes.now }
    ensures within { result ≤ length bytes.now }
{
    feed_at(bytes).unwrap_or(bytes.len())
}

// The first line of a text, and what stands behind its line feed, where it has one.
fn next_line(text: &[u8]) -> (&[u8], Option<&[u8]>)
    ensures line { lines_of text.now ≡ result.0.now ∷ lines_left (option_map (λ more. more.now) result.1) }
    ensures size { length result.0.now + 1 + left_size (option_map (λ more. more.now) result.1) ≡ length text.now + 1 }
{
    let len = first_feed(text);
    if len < text.len() {
        (&text[..len], Some(&text[len + 1..]))
    } else {
        (text, None)
    }
}

// Reads a line that begins at a place: its order, or none where it is skipped.
fn read_line<'a, R: Reserved>(
    reserved: &R,
    at: u64,
    line: &'a [u8],
) -> Result<Option<Order<'a>>, ScriptFault>
    ensures read { IfOk result (λ order. (n : ℕ) (more : List (List ℕ)) → orders_from R.reserved at n (line.now ∷ more)
        ≡ with_orders (option_to_list (option_map (λ o. (n, seen_order o)) order)) (orders_from R.reserved (at + length line.now + 1) (n + 1) more)) }
    ensures fault { IfErr result (λ fault. (n : ℕ) (more : List (List ℕ)) → IsFaultOf (orders_from R.reserved at n (line.now ∷ more)) fault) }
{
    if line.len() > LONGEST_COMMAND {
        return Err(ScriptFault::ScriptText(at));
    }
    if is_skipped(line) {
        return Ok(None);
    }
    match order_of(reserved, line) {
        Ok(Some(order)) => Ok(Some(order)),
        Ok(None) => Err(ScriptFault::ScriptText(at)),
        Err(_) => Err(ScriptFault::NoMemory),
    }
}

// Adds the order of a line that begins at a place, if it has one.
fn add_line<'a, R: Reserved>(
    lines: &mut Vec<Numbered<'a>>,
    reserved: &R,
    at: u64,
    number: u64,
    line: &'a [u8],
) -> Result<(), ScriptFault>
    ensures added { OnOk result ((more : List (List ℕ)) → with_orders (map seen_line lines.old.items) (orders_from R.reserved at number (line.now ∷ more))
        ≡ with_orders (map seen_line lines.new.items) (orders_from R.reserved (at + length line.now + 1) (number + 1) more)) }
    ensures fault { IfErr result (λ fault. (more : List (List ℕ)) → IsFaultOf (with_orders (map seen_line lines.old.items) (orders_from R.reserved at number (line.now ∷ more))) fault) }
{
    match read_line(reserved, at, line) {
        Ok(Some(order)) => {
            lines.push(Numbered {
                line: number,
                order,
            })?;
            Ok(())
        }
        Ok(None) => Ok(()),
        Err(fault) => Err(fault),
    }
}

/// Reads a script: its orders, each with the number of its line. `ScriptText` tells the place of the first line that
/// asks for nothing that a line may ask for, exactly where there is one.
pub fn read_script<'a, R: Reserved>(
    alloc: Global,
    reserved: &R,
    script: &'a [u8],
) -> Result<Vec<Numbered<'a>>, ScriptFault>
    ensures read { IfOk result (λ lines. orders_of R.reserved script.now ≡ Ok (map seen_line lines.items)) }
    ensures fault { IfErr result (IsFaultOf (orders_of R.reserved script.now)) }
{
    let mut lines = Vec::new(alloc);
    let mut rest = Some(script);
    let mut at = 0;
    let mut number = 1;
    while let Some(text) = rest {
        let (line, more) = next_line(text);
        match add_line(&mut lines, reserved, at, number, line) {
            Ok(()) => {}
            Err(fault) => return Err(fault),
        }
        at += line.len() as u64 + 1;
        number += 1;
        rest = more;
    }
    Ok(lines)
}
