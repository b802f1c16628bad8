//! Names of files and texts: fields that are lent and not kept.
#![tactic(auto, unfolding(crate::specs::Text::text_bytes, crate::specs::Text::text_in, crate::specs::Number::number_bytes))]

ghost use Rattle.std.specs.Prelude.{◌≡◌, ◌+◌, ◌≤◌, ◌++◌, length, option_map, vec_len, vec_capacity, IsTrue};
ghost use Rattle.cd_types.specs.FileName.{is_own_file, is_file_name, is_text};
ghost use Rattle.cd_types.specs.Text.{text_bytes, text_in};
ghost use Rattle.std.specs.Str.{is_utf8};
ghost use Rattle.std.specs.List.{starts_with};

use crate::Field;

const JOURNAL: &[u8] = b"journal";

const CONFIGURATION: &[u8] = b"cfg/";

/// Whether it names the journal or a file of the configuration.
fn is_own_file(name: &[u8]) -> bool
    ensures { result ≡ is_own_file name.now }
{
    name == JOURNAL || name.starts_with(CONFIGURATION)
}

fn is_utf8(text: &[u8]) -> bool
    ensures { result ≡ is_utf8 text.now }
{
    match str::from_utf8(text) {
        Ok(_) => true,
        Err(_) => false,
    }
}

/// Whether a file that Processes may name is named so: 1 to 1,024 bytes of UTF-8 with no zero byte, not
/// `journal`, and not beginning with `cfg/`.
pub fn is_file_name(name: &[u8]) -> bool
    ensures { result ≡ is_file_name name.now }
{
    if name.is_empty() || name.len() > 1024 || name.contains(&0) {
        return false;
    }
    !is_own_file(name) && is_utf8(name)
}

/// The file's name at the front, behind a length of two bytes, and the bytes after it; `None` exactly where
/// the bytes begin with no such field.
pub fn file_front(bytes: &[u8]) -> Option<(&[u8], &[u8])>
    ensures { option_map (λ found. (found.0.now, found.1.now)) result ≡ text_in 2 is_file_name bytes.now }
{
    let (len, rest) = u16::front(bytes)?;
    if rest.len() < len as usize {
        return None;
    }
    let (name, rest) = rest.split_at(len as usize);
    if is_file_name(name) {
        Some((name, rest))
    } else {
        None
    }
}

/// How many bytes a file's name has behind its length.
pub fn file_size(name: &[u8]) -> usize
    requires { IsTrue (is_file_name name.now) }
    ensures size { result ≡ length (text_bytes 2 name.now) }
    ensures short { result ≤ 1026 }
{
    2 + name.len()
}

/// Appends a file's name behind its length. It takes no memory.
pub fn put_file(name: &[u8], into: &mut Vec<u8>)
    requires name { IsTrue (is_file_name name.now) }
    requires room { vec_len into.old + length (text_bytes 2 name.now) ≤ vec_capacity into.old }
    ensures bytes { into.new.items ≡ into.old.items ++ text_bytes 2 name.now }
    ensures capacity { vec_capacity into.old ≤ vec_capacity into.new }
{
    (name.len() as u16).put(into);
    into.extend_from_slice(name).unwrap();
}

/// The text at the front, behind a length of four bytes, and the bytes after it; `None` exactly where the
/// bytes begin with no such field.
pub fn text_front(bytes: &[u8]) -> Option<(&[u8], &[u8])>
    ensures { option_map (λ found. (found.0.now, found.1.now)) result ≡ text_in 4 is_text bytes.now }
{
    let (len, rest) = u32::front(bytes)?;
    if rest.len() < len as usize {
        return None;
    }
    Some(rest.split_at(len as usize))
}

/// How many bytes a text has behind its length.
pub fn text_size(text: &[u8]) -> usize
    requires { IsTrue (is_text text.now) }
    ensures size { result ≡ length (text_bytes 4 text.now) }
    ensures short { result ≤ 4294967299 }
{
    4 + text.len()
}

/// Appends a text behind its length. It takes no memory.
pub fn put_text(text: &[u8], into: &mut Vec<u8>)
    requires text { IsTrue (is_text text.now) }
    requires room { vec_len into.old + length (text_bytes 4 text.now) ≤ vec_capacity into.old }
    ensures bytes { into.new.items ≡ into.old.items ++ text_bytes 4 text.now }
    ensures capacity { vec_capacity into.old ≤ vec_capacity into.new }
{
    (text.len() as u32).put(into);
    into.extend_from_slice(text).unwrap();
}
