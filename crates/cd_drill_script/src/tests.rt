use crate::{Order, Party, Reserved, ScriptFault, read_script};
use cd_types::NoMemory;
use std::alloc::{AllocError, Global};
use std::test::Fail;

/// Commands that a script may not have: for these tests, `stop;` alone.
struct StopAlone;

impl Reserved for StopAlone {
    ghost use Rattle.std.specs.Str.{bytes_eq};
    ghost use Rattle.std.specs.Prelude.{codes};

    ghost reserved = { λ text. bytes_eq text (codes "stop;") };

    fn is_reserved(&self, text: &[u8]) -> Result<bool, NoMemory> {
        Ok(text == b"stop;".as_slice())
    }
}

fn name_of(party: Party) -> &'static str {
    match party {
        Party::A => "A",
        Party::B => "B",
    }
}

fn shown(alloc: Global, line: u64, order: Order<'_>) -> Result<String, AllocError> {
    match order {
        Order::Text(party, name, bytes) => {
            let party = name_of(party);
            let name = name.len();
            let bytes = bytes.len();
            format!(in alloc; "{line} text {party} {name} {bytes};")
        }
        Order::Fill(party, name, count) => {
            let party = name_of(party);
            let name = name.len();
            format!(in alloc; "{line} fill {party} {name} {count};")
        }
        Order::Do(party, command) => {
            let party = name_of(party);
            let command = command.len();
            format!(in alloc; "{line} do {party} {command};")
        }
        Order::Turn(count) => format!(in alloc; "{line} turn {count};"),
    }
}

/// The lines of a script, each as its number, its word, and the lengths or numbers in it; or its fault.
fn told(alloc: Global, script: &[u8]) -> Result<String, AllocError> {
    let lines = match read_script(alloc, &StopAlone, script) {
        Ok(lines) => lines,
        Err(ScriptFault::ScriptText(at)) => return format!(in alloc; "ScriptText {at}"),
        Err(ScriptFault::NoMemory) => return format!(in alloc; "NoMemory"),
    };
    let mut text = String::new(alloc);
    for numbered in &lines {
        text.push_str(shown(alloc, numbered.line, numbered.order)?.as_str())?;
    }
    Ok(text)
}

/// Scripts with their lines, or the place of the first line that is none.
const SCRIPTS: [(&[u8], &str); 30] = [
    (b"", ""),
    (b"\n\n", ""),
    (b"# all\n#\n", ""),
    (b"turn 1", "1 turn 1;"),
    (b"turn 1\n", "1 turn 1;"),
    (b"\n# x\nturn 7\n", "3 turn 7;"),
    (b"turn 1\nfoo\n", "ScriptText 7"),
    (b"turn\n", "ScriptText 0"),
    (b"turn 1 2", "ScriptText 0"),
    (b" \tturn  5 \t", "1 turn 5;"),
    (b"turn 18446744073709551615", "1 turn 18446744073709551615;"),
    (b"turn 18446744073709551616", "ScriptText 0"),
    (b"turn 000000000000000000001", "ScriptText 0"),
    (b"turn 1\r", "ScriptText 0"),
    (b" ", "ScriptText 0"),
    (b" # x", "ScriptText 0"),
    (b"Turn 1", "ScriptText 0"),
    (b"fill A a.txt 300\n", "1 fill A 5 300;"),
    (b"fill B x 65535", "1 fill B 1 65535;"),
    (b"fill B x 65536", "ScriptText 0"),
    (b"fill C x 1", "ScriptText 0"),
    (b"fill A journal 1", "ScriptText 0"),
    (b"text A x ", "1 text A 1 0;"),
    (b"text A x", "ScriptText 0"),
    (b"text A x  two words ", "1 text A 1 11;"),
    (b"text B cfg/netmap.cfg a", "ScriptText 0"),
    (b"do A  submit P1; ", "1 do A 11;"),
    (b"do B", "1 do B 0;"),
    (b"turn 3\n\ndo A stop;", "ScriptText 8"),
    (b"do A stop; x", "1 do A 7;"),
];

#[test]
fn scripts(rt: HostRuntime) -> Result<(), Fail> {
    for (script, wanted) in &SCRIPTS {
        let found = told(rt.alloc(), script)?;
        assert_eq!(rt; found.as_str(), *wanted, "{script:?}");
    }
    Ok(())
}

/// A line of 70,000 bytes is one, and a longer one is none, also where it would be skipped.
#[test]
fn long_lines(rt: HostRuntime) -> Result<(), Fail> {
    let mut script = Vec::new(rt.alloc());
    script.push(b'#')?;
    for _ in 1..70_000 {
        script.push(b'x')?;
    }
    let found = told(rt.alloc(), &script)?;
    assert_eq!(rt; found.as_str(), "");
    script.push(b'x')?;
    let found = told(rt.alloc(), &script)?;
    assert_eq!(rt; found.as_str(), "ScriptText 0");
    Ok(())
}
