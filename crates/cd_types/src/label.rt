#![tactic(auto, unfolding(crate::specs::Text::text_bytes, crate::specs::Text::text_in, crate::specs::Number::number_bytes))]

ghost use Rattle.std.specs.Prelude.{◌≡◌, ⊤, map, if◌then◌else◌, Some, None};
ghost use Rattle.std.specs.Char.{to_ascii_uppercase};
ghost use Rattle.std.specs.List.{list_all, list_any};
ghost use Rattle.cd_types.specs.Label.{is_label_byte, begins_with_letter, is_reserved, is_label, IsLabel, label_of};
ghost use Rattle.cd_types.specs.LabelLaw.{label_law};
ghost use Rattle.cd_types.specs.Text.{text_bytes, text_in};

use crate::Field;
use crate::short::Short;
use std::marker::Model;

/// A label of the Process language: 1 to 8 letters and digits, the first a letter, and none of the
/// grammar's own words. Case doesn't matter, and a label is kept in upper case. Contracts see it as its bytes.
/// (Process Language Reference: labels of statements.)
#[derive(Clone, Copy, Debug, PartialEq, Eq, PartialOrd, Ord, Hash)]
pub struct Label {
    text: Short<8>,
}

impl Model for Label {
    ghost use Rattle.std.specs.Prelude.{List, ℕ};
    ghost use Rattle.cd_types.specs.Label.{IsLabel};

    ghost Value = { List ℕ };

    ghost view = { λ label. label.text };

    ghost invariant = { λ label. IsLabel label.text };

    ghost inverse = { λ bytes. record { text = bytes } };
}

/// The grammar's own words.
const RESERVED: [&[u8]; 19] = [
    b"PROCESS",
    b"COPY",
    b"RUN",
    b"TASK",
    b"JOB",
    b"SUBMIT",
    b"IF",
    b"THEN",
    b"ELSE",
    b"EIF",
    b"GOTO",
    b"EXIT",
    b"PEND",
    b"PNODE",
    b"SNODE",
    b"FROM",
    b"TO",
    b"COMPRESS",
    b"EXTENDED",
];

fn is_reserved(text: &[u8]) -> bool
    ensures { result ≡ is_reserved text.now }
{
    RESERVED.contains(&text)
}

fn is_label_byte(byte: u8) -> bool
    ensures { result ≡ is_label_byte byte }
{
    byte.is_ascii_uppercase() || byte.is_ascii_digit()
}

fn are_label_bytes(text: &[u8]) -> bool
    ensures { result ≡ list_all is_label_byte text.now }
{
    text.iter().all(|byte| is_label_byte(*byte))
}

fn begins_with_letter(text: &[u8]) -> bool
    ensures { result ≡ begins_with_letter text.now }
{
    match text.first() {
        Some(byte) => byte.is_ascii_uppercase(),
        None => false,
    }
}

fn is_label(text: &[u8]) -> bool
    ensures { result ≡ is_label text.now }
{
    if !begins_with_letter(text) || text.len() > 8 {
        return false;
    }
    are_label_bytes(text) && !is_reserved(text)
}

/// Puts the letters into upper case.
pub(crate) fn make_upper_case(text: &mut [u8])
    ensures { text.new ≡ map to_ascii_uppercase text.old }
{
    for byte in text.iter_mut() {
        *byte = byte.to_ascii_uppercase();
    }
}

impl Label {
    /// The label of these bytes, in upper case; `None` exactly where they aren't a label's in any case.
    pub fn new(bytes: &[u8]) -> Option<Self>
        ensures { result ≡ label_of bytes.now }
    {
        if bytes.len() > 8 {
            return None;
        }
        let mut room = [0; 8];
        let text = &mut room[..bytes.len()];
        text.copy_from_slice(bytes);
        make_upper_case(text);
        if is_label(text) {
            Some(Label {
                text: Short::new(text),
            })
        } else {
            None
        }
    }

    /// The label that these bytes are in upper case; `None` exactly where they aren't one.
    pub fn exact(bytes: &[u8]) -> Option<Self>
        ensures { result ≡ (if is_label bytes.now then Some bytes.now else None) }
    {
        if !is_label(bytes) {
            return None;
        }
        Some(Label {
            text: Short::new(bytes),
        })
    }

    /// Its bytes.
    pub fn as_bytes(&self) -> &[u8]
        ensures value { result.now ≡ self.now }
        ensures form { IsLabel self.now }
    {
        self.text.as_bytes()
    }
}

/// A length of one byte, and the label in upper case.
impl Field for Label {
    ghost form = { IsLabel };

    ghost writable = { λ _. ⊤ };

    ghost longest = { 9 };

    ghost spelled = { text_bytes 1 };

    ghost found_in = { text_in 1 is_label };

    ghost law = { label_law };

    fn front(bytes: &[u8]) -> Option<(Label, &[u8])> {
        let (len, rest) = u8::front(bytes)?;
        if rest.len() < len as usize {
            return None;
        }
        let (text, rest) = rest.split_at(len as usize);
        if !is_label(text) {
            return None;
        }
        Some((
            Label {
                text: Short::new(text),
            },
            rest,
        ))
    }

    #[tactic(auto, using(crate::specs::LabelLaw::label_is_short), unfolding(crate::specs::Text::text_bytes, crate::specs::Number::number_bytes))]
    fn size(&self) -> usize {
        1 + self.as_bytes().len()
    }

    fn put(&self, into: &mut Vec<u8>) {
        let text = self.as_bytes();
        (text.len() as u8).put(into);
        into.extend_from_slice(text).unwrap();
    }
}
