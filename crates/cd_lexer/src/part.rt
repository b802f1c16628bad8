//! A run of text is cut into references and what stands between them.
ghost use Rattle.std.specs.Prelude.{◌≡◌, ◌+◌, ◌<◌, ◌≤◌, ◌^◌, [], ◌∷◌, ◌++◌, length, IfSome, IfNone, IsTrue};
ghost use Rattle.std.specs.Option.{option_map};
ghost use Rattle.cd_ast.specs.Subst.{begins_with, part_at, parts_after, reference_at};

use crate::run::{NameEnd, PlainEnd, run_len};

/// Whether the first byte is this one.
#[tactic(auto, unfolding(cd_ast::specs::Subst::begins_with))]
pub(crate) fn begins_with(byte: u8, bytes: &[u8]) -> bool
    ensures exact { result ≡ begins_with byte bytes.now }
    ensures room { IsTrue result → 0 < length bytes.now }
{
    match bytes.split_first() {
        Some((first, _)) => *first == byte,
        None => false,
    }
}

/// A part of a text: its bytes, the name where it is a reference, and what follows it.
#[derive(Clone, Copy)]
pub(crate) struct Part<'a> {
    pub(crate) bytes: &'a [u8],
    pub(crate) name: Option<&'a [u8]>,
    pub(crate) rest: &'a [u8],
}

/// The length of the reference with a name of `len` bytes behind its `&`, and its name unless it is a definition.
#[tactic(auto, unfolding(cd_ast::specs::Subst::reference_at))]
fn reference_at(defines: bool, len: usize, after: &[u8]) -> (usize, Option<&[u8]>)
    requires { (len ≤ length after.now) × (length after.now + 1 < 2 ^ 64) }
    ensures exact { (result.0, option_map (λ name. name.now) result.1) ≡ reference_at defines len after.now }
    ensures within { (0 < result.0) × (result.0 ≤ length after.now + 1) }
{
    let (name, behind) = after.split_at(len);
    if defines && len == after.len() {
        (len + 1, None)
    } else if begins_with(b'.', behind) {
        (len + 2, Some(name))
    } else {
        (len + 1, Some(name))
    }
}

/// The length of the part that begins with the byte before the others, and the name of a reference.
#[tactic(auto, unfolding(cd_ast::specs::Subst::part_at))]
fn part_at(defines: bool, byte: u8, after: &[u8]) -> (usize, Option<&[u8]>)
    requires { length after.now + 1 < 2 ^ 64 }
    ensures exact { (result.0, option_map (λ name. name.now) result.1) ≡ part_at defines byte after.now }
    ensures within { (0 < result.0) × (result.0 ≤ length after.now + 1) }
{
    let len = run_len(&NameEnd, after);
    if byte == b'&' && len > 0 {
        reference_at(defines, len, after)
    } else {
        (run_len(&PlainEnd, after) + 1, None)
    }
}

/// The first part, if there is one. A reference at the end is a definition where `defines` says so.
pub(crate) fn first_part(defines: bool, bytes: &[u8]) -> Option<Part<'_>>
    ensures none { IfNone result (bytes.now ≡ []) }
    ensures some { IfSome result (λ part. parts_after defines 0 bytes.now
        ≡ record { bytes = part.bytes.now; name = option_map (λ name. name.now) part.name } ∷ parts_after defines 0 part.rest.now) }
    ensures whole { IfSome result (λ part. bytes.now ≡ part.bytes.now ++ part.rest.now) }
    ensures shorter { IfSome result (λ part. length part.rest.now < length bytes.now) }
{
    let (byte, after) = bytes.split_first()?;
    let (len, name) = part_at(defines, *byte, after);
    let (bytes, rest) = bytes.split_at(len);
    Some(Part { bytes, name, rest })
}
