use crate::closing::close_symbols;
use cd_lexer::{LexFault, SymFault, TokenKind, defaults, substitute, tokens};
use cd_types::Symbols;
use std::alloc::{AllocError, Global};
use std::process::Abort;
use std::test::Fail;

/// The tokens of a text, each as its kind's letter and its places, or its fault.
fn told(alloc: Global, text: &[u8]) -> Result<String, AllocError> {
    let tokens = match tokens(alloc, text) {
        Ok(tokens) => tokens,
        Err(LexFault::BadByte(at)) => return format!(in alloc; "BadByte {at}"),
        Err(LexFault::OpenQuote(at)) => return format!(in alloc; "OpenQuote {at}"),
        Err(LexFault::OpenComment(at)) => return format!(in alloc; "OpenComment {at}"),
        Err(LexFault::TooLong(len)) => return format!(in alloc; "TooLong {len}"),
        Err(LexFault::NoMemory) => return format!(in alloc; "NoMemory"),
    };
    let mut line = String::new(alloc);
    for token in &tokens {
        let kind = match token.kind {
            TokenKind::Word => "w",
            TokenKind::Quoted => "q",
            TokenKind::Sign => "s",
        };
        let from = token.from;
        let to = token.to;
        line.push_str(format!(in alloc; "{kind}{from}-{to} ")?.as_str())?;
    }
    Ok(line)
}

/// Texts with their tokens, or their first fault and its place.
const TEXTS: [(&[u8], &str); 90] = [
    (b"", ""),
    (b"P PROCESS", "w0-1 w2-9 "),
    (b"a\tb\r\nc", "w0-1 w2-3 w5-6 "),
    (
        b"P PROCESS SNODE=B -\nEXIT PEND",
        "w0-1 w2-9 w10-15 s15-16 w16-17 w20-24 w25-29 ",
    ),
    // Comments at each edge, and within a word.
    (b"/* c */a", "w7-8 "),
    (b"a/* c */", "w0-1 "),
    (b"a/*c*/b", "w0-1 w6-7 "),
    (b"/**/", ""),
    (b"/*/", "OpenComment 0"),
    (b"/*/*/a", "w5-6 "),
    (b"/***/a", "w5-6 "),
    (b"a /*", "OpenComment 2"),
    (b"a /* b *", "OpenComment 2"),
    (b"a/b */ /", "w0-3 w4-6 w7-8 "),
    // A star at a line's start, and elsewhere.
    (b"*c d\na", "w5-6 "),
    (b"*", ""),
    (b"a *b", "w0-1 w2-4 "),
    (b" *x", "w1-3 "),
    (b"\r*x", "w1-3 "),
    (b"a\n*x 'q\nb", "w0-1 w8-9 "),
    (b"a\n*/* x\nb", "w0-1 w8-9 "),
    (b"/*\n*/*x", "w5-7 "),
    (b"'\n'*x", "q0-3 w3-5 "),
    // Quotes.
    (b"''", "q0-2 "),
    (b"'a\n*b'", "q0-6 "),
    (b"\"a'b\"", "q0-5 "),
    (b"a'b'c", "w0-1 q1-4 w4-5 "),
    (b"'/*'", "q0-4 "),
    (b"/*'*/", ""),
    (b"'a", "OpenQuote 0"),
    (b"'a\"", "OpenQuote 0"),
    (b"a \"b\" 'c", "OpenQuote 6"),
    // Signs: the longest is taken.
    (b"a==b", "w0-1 s1-3 w3-4 "),
    (b"===", "s0-2 s2-3 "),
    (b"<=>=<>!=", "s0-2 s2-4 s4-6 s6-8 "),
    (b"<<==", "s0-1 s1-3 s3-4 "),
    (b"><", "s0-1 s1-2 "),
    (b"=!=", "s0-1 s1-3 "),
    (b"= =", "s0-1 s2-3 "),
    (b"=>", "s0-1 s1-2 "),
    (b"(A,B);", "s0-1 w1-2 s2-3 w3-4 s4-5 s5-6 "),
    (b"a!b", "BadByte 1"),
    (b"!", "BadByte 0"),
    (b"! =", "BadByte 0"),
    // A lone hyphen.
    (b"-", ""),
    (b"a -", "w0-1 "),
    (b"-\na", "w2-3 "),
    (b"a -\nb", "w0-1 w4-5 "),
    (b"a - \t\r\nb", "w0-1 w7-8 "),
    (b"a - b", "w0-1 w2-3 w4-5 "),
    (b"a -b", "w0-1 w2-4 "),
    (b"a- \n", "w0-2 "),
    (b"a --\n", "w0-1 w2-4 "),
    (b",-\n", "s0-1 w1-2 "),
    (b", -\n", "s0-1 "),
    (b"'a'-\n", "q0-3 w3-4 "),
    (b"- -\n", "w0-1 "),
    (b"a -,\n", "w0-1 w2-3 s3-4 "),
    (b"/*c*/-/*d*/\nx", "w12-13 "),
    (b"- /*\n*/ x", "w0-1 w8-9 "),
    (b"- /*\n*/\nx", "w8-9 "),
    (b"-/*", "OpenComment 1"),
    (b"- 'a", "OpenQuote 2"),
    // Bytes that are refused everywhere, and the order of faults.
    (b"a\x01b", "BadByte 1"),
    (b"\x00", "BadByte 0"),
    (b"a\x0bb", "BadByte 1"),
    (b"'a\x01'", "BadByte 2"),
    (b"/*\x7f\x1f*/", "BadByte 3"),
    (b"*\x02\n", "BadByte 1"),
    (b"P PROCESS 'abc \x01", "OpenQuote 10"),
    (b"\x01 '", "BadByte 0"),
    (b"! \x01", "BadByte 0"),
    (b"\x01 !", "BadByte 0"),
    (b"/* \x01", "OpenComment 0"),
    (b"a ! '", "BadByte 2"),
    // UTF-8, cut at every byte.
    (b"\xc3\xa9", "w0-2 "),
    (b"a\xe2\x82\xacb", "w0-5 "),
    (b"'\xf0\x9f\x98\x80'", "q0-6 "),
    (b"\xc3", "BadByte 0"),
    (b"a\xe2", "BadByte 1"),
    (b"a\xe2\x82", "BadByte 1"),
    (b"\xf0", "BadByte 0"),
    (b"\xf0\x9f", "BadByte 0"),
    (b"\xf0\x9f\x98", "BadByte 0"),
    (b"'\xf0\x9f\x98", "OpenQuote 0"),
    (b"a \x80", "BadByte 2"),
    (b"\xe2'\x80", "BadByte 0"),
    (b"\xc0\x80", "BadByte 0"),
    (b"\xed\xa0\x80", "BadByte 0"),
    (b"a \xc3( \x01", "BadByte 2"),
];

#[test]
fn texts_have_these_tokens(rt: HostRuntime) -> Result<(), Fail> {
    for (text, want) in &TEXTS {
        assert_eq!(rt; told(rt.alloc(), text)?.as_str(), *want, "{text:?}");
    }
    Ok(())
}

#[test]
fn a_text_has_a_greatest_length(rt: HostRuntime) -> Result<(), Fail> {
    let mut text = vec![in rt.alloc(); b'a'; 262_143]?;
    assert_eq!(rt; told(rt.alloc(), &text)?.as_str(), "w0-262143 ");
    text.push(b'a')?;
    assert_eq!(rt; told(rt.alloc(), &text)?.as_str(), "TooLong 262144");
    Ok(())
}

/// What a text becomes, or its fault.
fn replaced(alloc: Global, text: &[u8], symbols: &Symbols) -> Result<Vec<u8>, AllocError> {
    let fault = match substitute(alloc, text, symbols) {
        Ok(out) => return Ok(out),
        Err(SymFault::Unresolved(at)) => format!(in alloc; "Unresolved {at}")?,
        Err(SymFault::TooLong(len)) => format!(in alloc; "TooLong {len}")?,
        Err(SymFault::NoMemory) => format!(in alloc; "NoMemory")?,
    };
    Vec::from_slice(alloc, fault.as_bytes())
}

/// Texts and what they become with a=1, ab=2 and v=&a.
const REFERENCES: [(&[u8], &[u8]); 36] = [
    (b"X&a.b &ab &a..c & d", b"X1b 2 1.c & d"),
    (b"Q &abc", b"Unresolved 2"),
    (b"", b""),
    (b"no reference", b"no reference"),
    (b"&A &aB", b"1 2"),
    (b"&a&ab", b"12"),
    (b"&a-&a_", b"1-1_"),
    (b"&a.&a.", b"11"),
    // Values aren't read again.
    (b"&v &v.b", b"&a &ab"),
    // Definitions stand for themselves, and only outside quotes.
    (b"&a=&a", b"&a=1"),
    (b"&zz=5 &a", b"&zz=5 1"),
    (b"x&a=5", b"x&a=5"),
    (b"&a.=5", b"1=5"),
    (b"&a =5", b"1 =5"),
    (b"&a/*c*/=5", b"1/*c*/=5"),
    (b"\"&a=\"", b"\"1=\""),
    (b"\"&a\"=5", b"\"1\"=5"),
    // Comments and text between ' are copied.
    (b"'&a'", b"'&a'"),
    (b"\"&a.'&ab'\"", b"\"1'2'\""),
    (b"/*&zz*/&a/*&zz*/", b"/*&zz*/1/*&zz*/"),
    (b"*&zz\n&a", b"*&zz\n1"),
    (b" *&a", b" *1"),
    // Also where they aren't closed.
    (b"'&zz", b"'&zz"),
    (b"/*&zz", b"/*&zz"),
    (b"\"&a", b"\"1"),
    (b"\"&zz", b"Unresolved 1"),
    // No references.
    (b"&", b"&"),
    (b"& a &. &=", b"& a &. &="),
    (b"&&a", b"&1"),
    (b"\x01&a\xff", b"\x011\xff"),
    // A name of more than 17 bytes has no value.
    (b"&abcdefghijklmnopqr", b"Unresolved 0"),
    (b"&abcdefghijklmnopqr=1", b"&abcdefghijklmnopqr=1"),
    (b"&abcdefghijklmnopq", b"Unresolved 0"),
    // The first one is told.
    (b"&a &b &c", b"Unresolved 3"),
    (b"&a. '&b' \"&c", b"Unresolved 10"),
    (b"ab&ab.ab&", b"ab2ab&"),
];

fn references(rt: &impl Abort, alloc: Global, symbols: &mut Symbols) -> Result<(), Fail> {
    symbols.set(b"a", b"1")?;
    symbols.set(b"ab", b"2")?;
    symbols.set(b"v", b"&a")?;
    for (text, want) in &REFERENCES {
        let out = replaced(alloc, text, symbols)?;
        assert_eq!(rt; out.as_slice(), *want, "{text:?}");
    }
    Ok(())
}

#[test]
fn references_become_these(rt: HostRuntime) -> Result<(), Fail> {
    let mut symbols = Symbols::new(rt.alloc());
    let outcome = references(&rt, rt.alloc(), &mut symbols);
    close_symbols(symbols);
    outcome
}

fn a_value_twice(rt: &impl Abort, alloc: Global, symbols: &mut Symbols) -> Result<(), Fail> {
    let long = vec![in alloc; b'a'; 40_000]?;
    symbols.set(b"a", &long)?;
    let twice = replaced(alloc, b"&a&a", symbols)?;
    assert_eq!(rt; twice.as_slice(), b"TooLong 80000".as_slice());
    Ok(())
}

fn one_byte_more(rt: &impl Abort, alloc: Global, symbols: &Symbols) -> Result<(), Fail> {
    let mut text = vec![in alloc; b'a'; 65_536]?;
    assert_eq!(rt; replaced(alloc, &text, symbols)?.len(), 65_536);
    text.push(b'&')?;
    let longer = replaced(alloc, &text, symbols)?;
    assert_eq!(rt; longer.as_slice(), b"TooLong 65537".as_slice());
    Ok(())
}

fn greatest_lengths(rt: &impl Abort, alloc: Global, symbols: &mut Symbols) -> Result<(), Fail> {
    a_value_twice(rt, alloc, symbols)?;
    one_byte_more(rt, alloc, symbols)?;
    Ok(())
}

#[test]
fn replaced_texts_have_a_greatest_length(rt: HostRuntime) -> Result<(), Fail> {
    let mut symbols = Symbols::new(rt.alloc());
    let outcome = greatest_lengths(&rt, rt.alloc(), &mut symbols);
    close_symbols(symbols);
    outcome
}

/// These values, each as its name, `=` and the value.
fn line_of(alloc: Global, symbols: &Symbols) -> Result<Vec<u8>, Fail> {
    let mut line = Vec::new(alloc);
    for place in 0..symbols.len() {
        let (name, value) = symbols.pair(place).ok_or("a pair")?;
        line.extend_from_slice(name)?;
        line.extend_from_slice(b"=")?;
        line.extend_from_slice(value)?;
        line.extend_from_slice(b" ")?;
    }
    Ok(line)
}

/// The line of the values that a text gives.
fn given(alloc: Global, text: &[u8]) -> Result<Vec<u8>, Fail> {
    match defaults(alloc, text) {
        Ok(symbols) => {
            let line = line_of(alloc, &symbols);
            close_symbols(symbols);
            line
        }
        Err(fault) => Err(Fail::from(fault)),
    }
}

/// Texts with the values that they give.
const DEFINITIONS: [(&[u8], &[u8]); 26] = [
    (b"", b""),
    (b"P PROCESS &a=1 SNODE=B", b"A=1 "),
    (b"&a=1 &b=2", b"A=1 B=2 "),
    (b"x&a=1", b"A=1 "),
    (b"&a= -\n5", b"A=5 "),
    (b"&a=,,/*c*/ 7", b"A=7 "),
    (b"&a=1&b=2", b"A=1&b B=2 "),
    (b"&a='x y' &b=\"\"", b"A=x y B= "),
    // The later value, at the first place.
    (b"&b=1 &a=2 &B=3", b"B=3 A=2 "),
    // No values.
    (b"&a==1", b""),
    (b"&a = 5", b""),
    (b"&a", b""),
    (b"&a=", b""),
    (b"&a=;5", b""),
    (b"&a=\"abc", b""),
    (b"&a=! 5", b""),
    (b"&=1 &.=2 &a.=3", b""),
    (b"'&a=1' /*&a=1*/ \"&a\"=1", b""),
    (b"*&a=1\n&b=2", b"B=2 "),
    // The statements begin.
    (b"&a=1 copy &b=2", b"A=1 "),
    (b"&a=COPY &b=1", b""),
    (b"&a=1 SNODE=Exit &b=2", b"A=1 "),
    (b"&a=1 'RUN' &b=EXITS &c=3", b"A=1 B=EXITS C=3 "),
    // Texts with faults.
    (b"! &a=1 ! &b=2", b"A=1 B=2 "),
    (b"\x01&a=1 'x", b"A=1 "),
    (b"&a=1 /* &b=2", b"A=1 "),
];

#[test]
fn texts_give_these_values(rt: HostRuntime) -> Result<(), Fail> {
    for (text, want) in &DEFINITIONS {
        assert_eq!(rt; given(rt.alloc(), text)?.as_slice(), *want, "{text:?}");
    }
    Ok(())
}

fn value_is_overridden(rt: &impl Abort, alloc: Global, symbols: &mut Symbols) -> Result<(), Fail> {
    symbols.set(b"A", b"9")?;
    let out = replaced(alloc, b"&a &b", symbols)?;
    assert_eq!(rt; out.as_slice(), b"9 2".as_slice());
    Ok(())
}

#[test]
fn an_override_takes_the_place_of_a_value(rt: HostRuntime) -> Result<(), Fail> {
    let text = b"P PROCESS &a=1 &b=2";
    match defaults(rt.alloc(), text) {
        Ok(mut symbols) => {
            let outcome = value_is_overridden(&rt, rt.alloc(), &mut symbols);
            close_symbols(symbols);
            outcome
        }
        Err(fault) => Err(Fail::from(fault)),
    }
}
