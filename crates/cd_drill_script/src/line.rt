//! What a line asks for.
ghost use Rattle.std.specs.Prelude.{◌≡◌, option_map, Bool, List, ℕ, IfOk};
ghost use Rattle.cd_drill_script.specs.Script.{party_of, party_in, file_in, behind_gap, text_in, fill_in, do_in, turn_in, by_word, order_of, is_skipped};
ghost use Rattle.cd_drill_script.specs.Seen.{seen_order};

use crate::order::{Order, Party};
use crate::words::{is_end, number_of, ungapped, word_in};
use cd_types::{NoMemory, is_file_name};

/// The most bytes of a file that a line makes.
const MOST_BYTES: u64 = 65_535;

/// Which commands a script may not have.
pub trait Reserved {
    /// The test.
    ghost reserved: { List ℕ → Bool };

    /// Whether the text is such a command.
    fn is_reserved(&self, text: &[u8]) -> Result<bool, NoMemory>
        ensures { IfOk result (λ told. told ≡ reserved text.now) };
}

fn party_of(word: &[u8]) -> Option<Party>
    ensures { result ≡ party_of word.now }
{
    if word == b"A".as_slice() {
        Some(Party::A)
    } else if word == b"B".as_slice() {
        Some(Party::B)
    } else {
        None
    }
}

fn party_in(bytes: &[u8]) -> Option<(Party, &[u8])>
    ensures { option_map (λ found. (found.0, found.1.now)) result ≡ party_in bytes.now }
{
    let (word, rest) = word_in(bytes)?;
    let party = party_of(word)?;
    Some((party, rest))
}

fn file_in(bytes: &[u8]) -> Option<(Party, &[u8], &[u8])>
    ensures { option_map (λ found. (found.0, (found.1.now, found.2.now))) result ≡ file_in bytes.now }
{
    let (party, rest) = party_in(bytes)?;
    let (name, rest) = word_in(rest)?;
    if is_file_name(name) {
        Some((party, name, rest))
    } else {
        None
    }
}

fn behind_gap(bytes: &[u8]) -> Option<&[u8]>
    ensures { option_map (λ rest. rest.now) result ≡ behind_gap bytes.now }
{
    match bytes {
        [] => None,
        [_, rest @ ..] => {
            if rest.len() as u64 <= MOST_BYTES {
                Some(rest)
            } else {
                None
            }
        }
    }
}

fn text_in(bytes: &[u8]) -> Option<Order<'_>>
    ensures { option_map seen_order result ≡ text_in bytes.now }
{
    let (party, name, rest) = file_in(bytes)?;
    let text = behind_gap(rest)?;
    Some(Order::Text(party, name, text))
}

fn fill_in(bytes: &[u8]) -> Option<Order<'_>>
    ensures { option_map seen_order result ≡ fill_in bytes.now }
{
    let (party, name, rest) = file_in(bytes)?;
    let (word, rest) = word_in(rest)?;
    let count = number_of(word)?;
    if count <= MOST_BYTES && is_end(rest) {
        Some(Order::Fill(party, name, count as u32))
    } else {
        None
    }
}

fn do_in<'a, R: Reserved>(reserved: &R, bytes: &'a [u8]) -> Result<Option<Order<'a>>, NoMemory>
    ensures { IfOk result (λ order. option_map seen_order order ≡ do_in R.reserved bytes.now) }
{
    let Some((party, rest)) = party_in(bytes) else {
        return Ok(None);
    };
    let command = ungapped(rest);
    match reserved.is_reserved(command) {
        Ok(true) => Ok(None),
        Ok(false) => Ok(Some(Order::Do(party, command))),
        Err(fault) => Err(fault),
    }
}

fn turn_in(bytes: &[u8]) -> Option<Order<'_>>
    ensures { option_map seen_order result ≡ turn_in bytes.now }
{
    let (word, rest) = word_in(bytes)?;
    let count = number_of(word)?;
    if is_end(rest) {
        Some(Order::Turn(count))
    } else {
        None
    }
}

/// What a line asks for; `None` where it asks for nothing that a line may ask for.
pub fn order_of<'a, R: Reserved>(
    reserved: &R,
    line: &'a [u8],
) -> Result<Option<Order<'a>>, NoMemory>
    ensures { IfOk result (λ order. option_map seen_order order ≡ order_of R.reserved line.now) }
{
    let Some((word, rest)) = word_in(line) else {
        return Ok(None);
    };
    if word == b"text".as_slice() {
        Ok(text_in(rest))
    } else if word == b"fill".as_slice() {
        Ok(fill_in(rest))
    } else if word == b"do".as_slice() {
        match do_in(reserved, rest) {
            Ok(order) => Ok(order),
            Err(fault) => Err(fault),
        }
    } else if word == b"turn".as_slice() {
        Ok(turn_in(rest))
    } else {
        Ok(None)
    }
}

/// A line without bytes, or one that begins with `#`.
pub fn is_skipped(line: &[u8]) -> bool
    ensures { result ≡ is_skipped line.now }
{
    match line {
        [] => true,
        [first, ..] => *first == b'#',
    }
}
