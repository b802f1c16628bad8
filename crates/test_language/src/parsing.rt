//! The limits, and values from outside. Rows of texts stand as the input and output of the program `test_parser`.
use crate::closing::{close_symbols, print_and_close};
use cd_ast::Process;
use cd_parser::{ParseFault, parse, parse_plain};
use cd_types::Symbols;
use std::alloc::Global;
use std::process::Abort;
use std::test::Fail;

/// The canonical text of what was read, or the name of a text's first fault and the fault's place.
fn told(alloc: Global, read: Result<Process, ParseFault>) -> Result<Vec<u8>, Fail> {
    match read {
        Ok(process) => Ok(print_and_close(alloc, process)?),
        Err(ParseFault::Text(name, at)) => Ok(format!(in alloc; "{name:?} {at}")?.into_bytes()),
        Err(ParseFault::NoMemory) => Ok(Vec::new(alloc)),
    }
}

/// What a text says.
fn said(alloc: Global, text: &[u8]) -> Result<Vec<u8>, Fail> {
    let symbols = Symbols::new(alloc);
    let read = parse(alloc, text, &symbols);
    close_symbols(symbols);
    told(alloc, read)
}

/// A text so many times over.
fn repeated(alloc: Global, text: &str, count: usize) -> Result<String, Fail> {
    let mut all = String::new(alloc);
    for _ in 0..count {
        all.push_str(text)?;
    }
    Ok(all)
}

/// That a text of so many statements EXIT says this.
fn exits_say(rt: &impl Abort, alloc: Global, count: usize, fault: &[u8]) -> Result<(), Fail> {
    let exits = repeated(alloc, "EXIT ", count)?;
    let text = format!(in alloc; "P PROCESS {exits}PEND")?;
    let said = said(alloc, text.as_bytes())?;
    assert!(rt; said.starts_with(fault), "{count}");
    Ok(())
}

/// Bytes as they stand are too many.
fn plain_is_too_long(rt: &impl Abort, alloc: Global) -> Result<(), Fail> {
    let longer = repeated(alloc, " ", 262_144)?;
    let plain = told(alloc, parse_plain(alloc, longer.as_bytes()))?;
    assert!(rt; plain.as_slice() == b"TooLong 262144".as_slice());
    Ok(())
}

/// Bytes after substitution are too many.
fn values_are_too_long(rt: &impl Abort, alloc: Global) -> Result<(), Fail> {
    let value = repeated(alloc, "x", 1000)?;
    let names = repeated(alloc, "&a ", 70)?;
    let grows = format!(in alloc; "&a='{value}' {names}")?;
    assert!(rt; said(alloc, grows.as_bytes())?.as_slice() == b"TooLong 71076".as_slice());
    Ok(())
}

/// The limits: 1,024 statements, 65,536 bytes before and after substitution, 262,143 bytes as they stand.
#[test]
fn limits_are_kept(rt: HostRuntime) -> Result<(), Fail> {
    let alloc = rt.alloc();
    exits_say(&rt, alloc, 1024, b"P PROCESS ")?;
    exits_say(&rt, alloc, 1025, b"TooMany 1024")?;
    let long = repeated(alloc, " ", 65_537)?;
    assert!(rt; said(alloc, long.as_bytes())?.as_slice() == b"TooLong 65537".as_slice());
    plain_is_too_long(&rt, alloc)?;
    values_are_too_long(&rt, alloc)?;
    Ok(())
}

/// A value from outside goes before that of the text.
fn value_is_put_in(rt: &impl Abort, alloc: Global, symbols: &mut Symbols) -> Result<(), Fail> {
    symbols.set(b"A", b"9")?;
    let text = b"P PROCESS &a=1 PRTY=&a PEND".as_slice();
    let line = b"P PROCESS PRTY=9 CLASS=1 HOLD=NO RETAIN=NO\nPEND\n".as_slice();
    assert!(rt; told(alloc, parse(alloc, text, symbols))?.as_slice() == line);
    Ok(())
}

/// Values from outside go before those of the text, and a text that is read as it stands gets none.
#[test]
fn symbols_are_put_in(rt: HostRuntime) -> Result<(), Fail> {
    let alloc = rt.alloc();
    let mut symbols = Symbols::new(alloc);
    let put_in = value_is_put_in(&rt, alloc, &mut symbols);
    close_symbols(symbols);
    put_in?;
    let plain = b"P PROCESS &a = 5 PEND".as_slice();
    let line = b"P PROCESS PRTY=10 CLASS=1 HOLD=NO RETAIN=NO\nPEND\n".as_slice();
    assert!(rt; told(alloc, parse_plain(alloc, plain))?.as_slice() == line);
    Ok(())
}
