//! What a drill reports of a node.
ghost use Rattle.std.specs.Prelude.{◌≡◌, ◌++◌, slice_get, OnOk, IfOk};
ghost use Rattle.cd_memory_state.specs.Names.{AreNames};
ghost use Rattle.cd_drill.specs.AtRest.{seen_of, names_in};
ghost use Rattle.cd_drill.specs.Report.{sum_of, file_line, WroteOne, file_lines, head_line, half_report};

use crate::test_node::TestNode;
use cd_stats::write_statistics;
use cd_types::NoMemory;
use std::alloc::Global;

/// The sum of bytes, modulo 2^32.
fn sum_of(bytes: &[u8]) -> u32
    ensures { result ≡ sum_of bytes.now }
{
    let mut sum = 0u32;
    for byte in bytes {
        sum = sum.wrapping_add(*byte as u32);
    }
    sum
}

/// Writes the line of a file.
fn write_file(alloc: Global, name: &[u8], bytes: &[u8], into: &mut Vec<u8>) -> Result<(), NoMemory>
    ensures { OnOk result (into.new.items ≡ into.old.items ++ file_line name.now bytes.now) }
{
    into.extend_from_slice(b"FILE ")?;
    into.extend_from_slice(name)?;
    let rest = format!(in alloc; " {} {}\n", bytes.len(), sum_of(bytes))?;
    into.extend_from_slice(rest.as_bytes())?;
    Ok(())
}

/// Writes the line of the file at a place, in the order of names. Answers whether there is one.
fn write_file_at(
    alloc: Global,
    half: &TestNode,
    at: usize,
    into: &mut Vec<u8>,
) -> Result<bool, NoMemory>
    ensures { IfOk result (λ there. WroteOne there (slice_get (names_in half.now) at) (seen_of half.now) into.old.items into.new.items) }
{
    match half.file_name(at) {
        Some(name) => match half.file(name) {
            Some(bytes) => match write_file(alloc, name, bytes, into) {
                Ok(()) => Ok(true),
                Err(fault) => Err(fault),
            },
            None => Ok(true),
        },
        None => Ok(false),
    }
}

/// Writes the lines of a node's files, in the order of their names.
fn write_files(alloc: Global, half: &TestNode, into: &mut Vec<u8>) -> Result<(), NoMemory>
    ensures { OnOk result (into.new.items ≡ into.old.items ++ file_lines (seen_of half.now) (names_in half.now)) }
{
    for at in 0..usize::MAX {
        let there = write_file_at(alloc, half, at, into)?;
        if !there {
            return Ok(());
        }
    }
    Err(NoMemory)
}

/// Writes the line of a node: its name, and how many entries its journal has.
fn write_head(alloc: Global, name: &[u8], entries: u32, into: &mut Vec<u8>) -> Result<(), NoMemory>
    ensures { OnOk result (into.new.items ≡ into.old.items ++ head_line name.now entries) }
{
    into.extend_from_slice(b"NODE ")?;
    into.extend_from_slice(name)?;
    let rest = format!(in alloc; " UP ENTRIES {entries}\n")?;
    into.extend_from_slice(rest.as_bytes())?;
    Ok(())
}

/// Writes what a node recorded, and its files.
pub(crate) fn write_half(
    alloc: Global,
    half: &TestNode,
    name: &[u8],
    into: &mut Vec<u8>,
) -> Result<(), NoMemory>
    ensures { OnOk result (into.new.items ≡ into.old.items ++ half_report name.now half.now) }
{
    let book = half.book();
    write_head(alloc, name, book.len(), into)?;
    write_statistics(alloc, book, &None, into)?;
    write_files(alloc, half, into)?;
    Ok(())
}

/// The names of a node's files are those that have a file, each once, in the order of their bytes.
pub(crate) fn law_of_names(half: &TestNode)
    ensures { AreNames (names_in half.now) (seen_of half.now) }
{
    let _ = half.file_name(0);
}
