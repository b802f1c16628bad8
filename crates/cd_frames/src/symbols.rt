//! The symbols of a submission.
ghost use Rattle.std.specs.Prelude.{◌≡◌, ◌+◌, ◌<◌, ◌≤◌, ◌++◌, [], length, option_map, vec_len, vec_capacity, IsOk, IsTrue, IfOk, IfSome, OnOk, OnErr};
ghost use Rattle.cd_types.specs.FileName.{is_text};
ghost use Rattle.cd_types.specs.Text.{text_bytes};
ghost use Rattle.cd_frames.specs.Symbols.{after_pairs, is_symbol_name, is_symbols, pairs_bytes, pairs_in, pairs_of, symbol, symbol_name, symbols_bytes, with_pairs, ArePairs};

use cd_types::{Field, NoMemory, Symbols, put_text, text_front, text_size};
use std::alloc::Global;

/// The greatest length of a symbol's name, in bytes.
const LONGEST_NAME: usize = 17;

/// The name at the front, behind a length of one byte, and the bytes after it.
#[tactic(auto, unfolding(cd_types::specs::Text::text_in))]
fn name_front(bytes: &[u8]) -> Option<(&[u8], &[u8])>
    ensures { option_map (λ found. (found.0.now, found.1.now)) result ≡ symbol_name.found_in bytes.now }
{
    let (len, rest) = u8::front(bytes)?;
    if rest.len() < len as usize {
        return None;
    }
    let (name, rest) = rest.split_at(len as usize);
    if name.is_empty() || name.len() > LONGEST_NAME {
        return None;
    }
    Some((name, rest))
}

/// The symbol at the front, its name and its value, and the bytes after it.
fn symbol_front(bytes: &[u8]) -> Option<((&[u8], &[u8]), &[u8])>
    ensures { option_map (λ found. ((found.0.0.now, found.0.1.now), found.1.now)) result ≡ symbol.found_in bytes.now }
{
    let (name, rest) = name_front(bytes)?;
    let (value, rest) = text_front(rest)?;
    Some(((name, value), rest))
}

/// The bytes after so many symbols; `None` exactly where the bytes don't begin with so many.
fn after_pairs(count: u16, bytes: &[u8]) -> Option<&[u8]>
    ensures { option_map (λ rest. rest.now) result ≡ after_pairs count bytes.now }
{
    let mut rest = bytes;
    for _place in 0..count {
        let (_, more) = symbol_front(rest)?;
        rest = more;
    }
    Some(rest)
}

/// Whether the bytes are a number of symbols and so many symbols, and nothing else.
#[tactic(auto, unfolding(crate::specs::Symbols::is_symbols))]
pub(crate) fn is_symbols(bytes: &[u8]) -> bool
    ensures { result ≡ is_symbols bytes.now }
{
    let Some((count, rest)) = u16::front(bytes) else {
        return false;
    };
    match after_pairs(count, rest) {
        Some(rest) => rest.is_empty(),
        None => false,
    }
}

/// Appends the number of symbols and the symbols, as a StepSubmit has them. Where the spare room of `into` holds them it takes no memory.
#[tactic(auto, unfolding(crate::specs::Symbols::symbols_bytes))]
pub fn write_symbols(symbols: &Symbols, into: &mut Vec<u8>) -> Result<(), NoMemory>
    requires count { length symbols.now < 65536 }
    requires pairs { ArePairs symbols.now }
    ensures ok { OnOk result (into.new.items ≡ into.old.items ++ symbols_bytes symbols.now) }
    ensures err { OnErr result (into.new.items ≡ into.old.items) }
    ensures room { vec_len into.old + length (symbols_bytes symbols.now) ≤ vec_capacity into.old → IsOk result }
{
    let count = symbols.len() as u16;
    into.reserve(count.size() + pairs_size(symbols))?;
    count.put(into);
    put_pairs(symbols, into);
    Ok(())
}

/// How many bytes a name has behind its length.
#[tactic(auto, unfolding(cd_types::specs::Text::text_bytes))]
fn name_size(name: &[u8]) -> usize
    requires { IsTrue (is_symbol_name name.now) }
    ensures size { result ≡ length (text_bytes 1 name.now) }
    ensures short { result ≤ 18 }
{
    (name.len() as u8).size() + name.len()
}

/// Appends a name behind its length. It takes no memory.
#[tactic(auto, unfolding(cd_types::specs::Text::text_bytes, cd_types::specs::Number::number_bytes))]
fn put_name(name: &[u8], into: &mut Vec<u8>)
    requires name { IsTrue (is_symbol_name name.now) }
    requires room { vec_len into.old + length (text_bytes 1 name.now) ≤ vec_capacity into.old }
    ensures bytes { into.new.items ≡ into.old.items ++ text_bytes 1 name.now }
    ensures capacity { vec_capacity into.old ≤ vec_capacity into.new }
{
    (name.len() as u8).put(into);
    into.extend_from_slice(name).unwrap();
}

/// How many bytes a symbol has.
fn symbol_size(name: &[u8], value: &[u8]) -> usize
    requires name { IsTrue (is_symbol_name name.now) }
    requires value { IsTrue (is_text value.now) }
    ensures size { result ≡ length (symbol.spelled (name.now, value.now)) }
    ensures short { result ≤ 4294967317 }
{
    name_size(name) + text_size(value)
}

/// Appends a symbol. It takes no memory.
fn put_symbol(name: &[u8], value: &[u8], into: &mut Vec<u8>)
    requires name { IsTrue (is_symbol_name name.now) }
    requires value { IsTrue (is_text value.now) }
    requires room { vec_len into.old + length (symbol.spelled (name.now, value.now)) ≤ vec_capacity into.old }
    ensures bytes { into.new.items ≡ into.old.items ++ symbol.spelled (name.now, value.now) }
    ensures capacity { vec_capacity into.old ≤ vec_capacity into.new }
{
    put_name(name, into);
    put_text(value, into);
}

/// How many bytes the symbols have behind their number.
fn pairs_size(symbols: &Symbols) -> usize
    requires count { length symbols.now < 65536 }
    requires pairs { ArePairs symbols.now }
    ensures size { result ≡ length (pairs_bytes symbols.now) }
    ensures short { result < 281479272661020 }
{
    let mut size = 0;
    for place in 0..symbols.len() {
        match symbols.pair(place) {
            Some((name, value)) => size += symbol_size(name, value),
            None => unreachable!(),
        }
    }
    size
}

/// Appends the symbols. It takes no memory.
fn put_pairs(symbols: &Symbols, into: &mut Vec<u8>)
    requires pairs { ArePairs symbols.now }
    requires room { vec_len into.old + length (pairs_bytes symbols.now) ≤ vec_capacity into.old }
    ensures { into.new.items ≡ into.old.items ++ pairs_bytes symbols.now }
{
    for place in 0..symbols.len() {
        match symbols.pair(place) {
            Some((name, value)) => put_symbol(name, value, into),
            None => unreachable!(),
        }
    }
}

/// The symbols that the bytes are, as a StepSubmit lends them. Names that differ in case alone are one name, which has the last value.
pub fn symbols_of(alloc: Global, bytes: &[u8]) -> Result<Symbols, NoMemory>
    requires { IsTrue (is_symbols bytes.now) }
    ensures symbols { IfOk result (λ symbols. IfSome (pairs_of bytes.now) (λ pairs. symbols ≡ with_pairs [] pairs)) }
    ensures writable { IfOk result (λ symbols. ArePairs symbols × (length symbols < 65536)) }
{
    match pairs_of(alloc, bytes) {
        Ok(symbols) => Ok(symbols),
        Err(NoMemory) => Err(NoMemory),
    }
}

/// The symbols of the pairs that the bytes are.
fn pairs_of(alloc: Global, bytes: &[u8]) -> Result<Symbols, NoMemory>
    ensures { IfOk result (λ symbols. IfSome (pairs_of bytes.now) (λ pairs. symbols ≡ with_pairs [] pairs)) }
{
    let mut symbols = Symbols::new(alloc);
    let Some((count, rest)) = u16::front(bytes) else {
        return Ok(symbols);
    };
    set_pairs(&mut symbols, count, rest)?;
    Ok(symbols)
}

/// Gives so many names at the front of the bytes their values.
fn set_pairs(symbols: &mut Symbols, count: u16, bytes: &[u8]) -> Result<(), NoMemory>
    ensures { OnOk result (IfSome (pairs_in count bytes.now) (λ found. symbols.new ≡ with_pairs symbols.old found.0)) }
{
    let mut rest = bytes;
    for _place in 0..count {
        let Some(((name, value), more)) = symbol_front(rest) else {
            return Ok(());
        };
        symbols.set(name, value)?;
        rest = more;
    }
    Ok(())
}
