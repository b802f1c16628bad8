//! Fields against bytes that were written by hand from the formats.
ghost use Rattle.std.specs.Prelude.{◌≡◌, IfSome};

use crate::{
    Bytes, Field, Filed, Hold, Key, Label, Moment, NodeName, Numbers, ProcNo, Retain, file_front,
    file_size, is_file_name, put_file, put_text, text_front, text_size,
};
use std::test::Fail;

const KEY: &[u8] = b"\x05ALPHA\0\0\0\0\0\0\0\x11\0\0\0\x01\0\0";

const CARD: &[u8] = b"\x02P1\x04BETA\x0a\x01\0\0\0";

/// The same card, held for a call and kept, with a start at 1,709,287,200.
const LATER: &[u8] = b"\x02P1\x04BETA\x0a\x01\x02\x01\x01\0\0\0\0\x65\xe1\xa7\x20";

fn key() -> Option<Key>
    ensures { IfSome result (λ key. key.place ≡ 0) }
{
    Some(Key {
        pnode: NodeName::new(b"ALPHA")?,
        home: 17,
        number: ProcNo::new(1)?,
        place: 0,
    })
}

fn card(hold: Hold, retain: Retain, start: Option<Moment>) -> Option<Filed> {
    Some(Filed {
        name: Label::new(b"p1")?,
        snode: NodeName::new(b"BETA")?,
        prty: 10,
        class: 1,
        hold,
        retain,
        start,
    })
}

#[test]
fn keys(rt: HostRuntime) -> Result<(), Fail> {
    let key = key().ok_or("no key")?;
    let mut bytes = Vec::new(rt.alloc());
    key.write(&mut bytes)?;
    assert_eq!(rt; bytes.as_slice(), KEY);
    assert_eq!(rt; Key::read(KEY), Some((key, 20)));
    bytes.push(255)?;
    assert_eq!(rt; Key::read(&bytes), Some((key, 20)));
    for broken in [
        b"\x05ALPHA\0\0\0\0\0\0\0\x11\0\0\0\x01\0".as_slice(),
        b"\x05ALPHA\0\0\0\0\0\0\0\x11\0\0\0\x01\x04\0",
        b"\x05ALPHA\0\0\0\0\0\0\0\x11\0\0\0\0\0\0",
        b"\x05ALPHA\0\0\0\0\0\0\0\x11\0\x01\x86\xa0\0\0",
        b"\x05AL HA\0\0\0\0\0\0\0\x11\0\0\0\x01\0\0",
        b"\0\0\0\0\0\0\0\0\x11\0\0\0\x01\0\0",
    ] {
        assert!(rt; Key::read(broken).is_none());
    }
    Ok(())
}

#[test]
fn cards(rt: HostRuntime) -> Result<(), Fail> {
    let start = Moment::new(1_709_287_200);
    for (card, want) in [
        (card(Hold::No, Retain::No, None), CARD),
        (card(Hold::Call, Retain::Yes, start), LATER),
    ] {
        let card = card.ok_or("no card")?;
        let mut bytes = Vec::new(rt.alloc());
        card.write(&mut bytes)?;
        assert_eq!(rt; bytes.as_slice(), want);
        assert_eq!(rt; Filed::read(want), Some((card, want.len())));
    }
    for broken in [
        b"\x02p1\x04BETA\x0a\x01\0\0\0".as_slice(),
        b"\x02P1\x04BETA\x0a\x01\x03\0\0",
        b"\x02P1\x04BETA\x0a\x01\0\0\x02",
        b"\x02P1\x04BETA\x0a\x01\0\0",
    ] {
        assert!(rt; Filed::read(broken).is_none());
    }
    Ok(())
}

#[test]
fn small_fields(rt: HostRuntime) -> Result<(), Fail> {
    let name = NodeName::new(b"ALPHA").ok_or("no name")?;
    let label = Label::new(b"p1").ok_or("no label")?;
    let number = ProcNo::new(99_999).ok_or("no number")?;
    let moment = Moment::new(1_709_287_200).ok_or("no moment")?;
    let mut bytes = Vec::new(rt.alloc());
    name.write(&mut bytes)?;
    label.write(&mut bytes)?;
    number.write(&mut bytes)?;
    moment.write(&mut bytes)?;
    assert_eq!(rt;
        bytes.as_slice(),
        b"\x05ALPHA\x02P1\0\x01\x86\x9f\0\0\0\0\x65\xe1\xa7\x20".as_slice()
    );
    assert_eq!(rt; NodeName::read(&bytes), Some((name, 6)));
    assert_eq!(rt; Label::read(b"\x02P1"), Some((label, 3)));
    assert_eq!(rt; ProcNo::read(b"\0\x01\x86\x9f"), Some((number, 4)));
    assert_eq!(rt;
        Moment::read(b"\0\0\0\0\x65\xe1\xa7\x20"),
        Some((moment, 8))
    );
    Ok(())
}

#[test]
fn names(rt: HostRuntime) {
    for (text, want) in [
        (b"s1".as_slice(), Some(b"S1".as_slice())),
        (b"Extende", Some(b"EXTENDE")),
        (b"Extended", None),
        (b"copy", None),
        (b"1S", None),
        (b"A-B", None),
        (b"ABCDEFGHI", None),
        (b"", None),
    ] {
        let label = Label::new(text);
        assert_eq!(rt; label.is_some(), want.is_some());
        if let (Some(label), Some(want)) = (label, want) {
            assert_eq!(rt; label.as_bytes(), want);
        }
    }
    for (name, want) in [
        (b"a.txt".as_slice(), true),
        (b"cfg", true),
        (b"journal2", true),
        (b"\xc3\xa9", true),
        (b"\xc3", false),
        (b"journal", false),
        (b"cfg/netmap.cfg", false),
        (b"a\0", false),
        (b"", false),
    ] {
        assert_eq!(rt; is_file_name(name), want);
    }
}

#[test]
fn lists(rt: HostRuntime) -> Result<(), Fail> {
    let owned = Bytes::copy_of(rt.alloc(), b"ab")?;
    assert_eq!(rt; owned.as_slice(), b"ab".as_slice());
    let mut bytes = owned.into_vec();
    bytes.push(b'c')?;
    assert!(rt; Bytes::new(bytes) == Bytes::copy_of(rt.alloc(), b"abc")?);
    let mut numbers = Vec::new(rt.alloc());
    numbers.push(ProcNo::new(7).ok_or("no number")?)?;
    let numbers = Numbers::new(numbers);
    assert_eq!(rt; numbers.as_slice().len(), 1);
    assert_eq!(rt; numbers.into_vec().len(), 1);
    Ok(())
}

#[test]
fn texts(rt: HostRuntime) -> Result<(), Fail> {
    let name = b"a.txt".as_slice();
    assert!(rt; is_file_name(name));
    let text = b"abc".as_slice();
    let mut bytes = Vec::new(rt.alloc());
    bytes.reserve(file_size(name) + text_size(text))?;
    put_file(name, &mut bytes);
    put_text(text, &mut bytes);
    assert_eq!(rt; bytes.as_slice(), b"\0\x05a.txt\0\0\0\x03abc".as_slice());
    let (file, rest) = file_front(&bytes).ok_or("no file")?;
    assert_eq!(rt; file, name);
    let (found, rest) = text_front(rest).ok_or("no text")?;
    assert_eq!(rt; found, text);
    assert!(rt; rest.is_empty());
    Ok(())
}
