//! Symbolic substitution.
ghost use Rattle.std.specs.Prelude.{◌≡◌, ◌+◌, ◌<◌, ◌≤◌, ◌^◌, List, ℕ, Ok, Err, [], ◌&&◌, length, IfOk, IfErr, OnOk};
ghost use Rattle.std.specs.Option.{option_map};
ghost use Rattle.cd_ast.specs.Subst.{value_of, given_for, parts_after, piece_parts, substituted, subst, begins_with, is_read, is_word};
ghost use Rattle.cd_lexer.specs.Output.{PutsOut, IsStopped, longest_text};
ghost use Rattle.cd_lexer.specs.Faults.{IsSymFault};

use crate::fault::SymFault;
use crate::output::Output;
use crate::part::{begins_with, first_part};
use crate::piece::{Cut, first_piece};
use cd_ast::PieceKind;
use cd_types::{LONGEST_TEXT, Symbols};
use std::alloc::Global;

/// The value of a name. One of more than 17 bytes has none.
#[tactic(auto, unfolding(cd_ast::specs::Subst::value_of))]
fn value_of<'a>(symbols: &'a Symbols, name: &[u8]) -> Option<&'a [u8]>
    ensures { option_map (λ value. value.now) result ≡ value_of symbols.now name.now }
{
    if name.len() > 17 {
        return None;
    }
    symbols.get(name)
}

/// What a part gives way to: a name to its value, and other text to itself.
fn given_for<'a>(symbols: &'a Symbols, bytes: &'a [u8], name: Option<&[u8]>) -> Option<&'a [u8]>
    ensures { option_map (λ given. given.now) result ≡ given_for symbols.now bytes.now (option_map (λ name. name.now) name.entry) }
{
    match name {
        Some(name) => value_of(symbols, name),
        None => Some(bytes),
    }
}

/// Puts out what the parts of these bytes give way to, the first of which is at this place of the text.
fn put_parts(
    out: &mut Output,
    symbols: &Symbols,
    defines: bool,
    bytes: &[u8],
    at: usize,
) -> Result<(), SymFault>
    requires { at + length bytes.now < 2 ^ 64 }
    ensures ok { OnOk result (PutsOut out.old out.new (substituted symbols.now at (parts_after defines 0 bytes.now)) (Ok [])) }
    ensures err { IfErr result (IsStopped (substituted symbols.now at (parts_after defines 0 bytes.now))) }
{
    let mut rest = bytes;
    let mut place = at;
    while let Some(part) = first_part(defines, rest) {
        let Some(given) = given_for(symbols, part.bytes, part.name) else {
            return Err(SymFault::Unresolved(place as u64));
        };
        out.put(given)?;
        place += part.bytes.len();
        rest = part.rest;
    }
    Ok(())
}

/// Whether the references of a piece give way to values.
fn is_read(kind: PieceKind, bytes: &[u8]) -> bool
    ensures { result ≡ is_read kind bytes.now }
{
    match kind {
        PieceKind::Word => true,
        PieceKind::Quoted | PieceKind::CutQuote => begins_with(b'"', bytes),
        _ => false,
    }
}

/// Whether a definition may stand at the end of a piece of this kind, before these bytes.
fn defines(kind: PieceKind, behind: &[u8]) -> bool
    ensures { result ≡ (is_word kind && begins_with 61 behind.now) }
{
    matches!(kind, PieceKind::Word) && begins_with(b'=', behind)
}

/// Puts out what a piece at this place of the text becomes.
fn put_piece(out: &mut Output, symbols: &Symbols, piece: Cut<'_>, at: usize) -> Result<(), SymFault>
    requires { at + length piece.bytes.now < 2 ^ 64 }
    ensures ok { OnOk result (PutsOut out.old out.new (substituted symbols.now at (piece_parts piece.entry.kind piece.entry.bytes.now piece.entry.rest.now)) (Ok [])) }
    ensures err { IfErr result (IsStopped (substituted symbols.now at (piece_parts piece.entry.kind piece.entry.bytes.now piece.entry.rest.now))) }
{
    if is_read(piece.kind, piece.bytes) {
        let defines = defines(piece.kind, piece.rest);
        put_parts(out, symbols, defines, piece.bytes, at)
    } else {
        out.put(piece.bytes)
    }
}

/// The text with the value of each name in the place of its references. One pass is made: values aren't read again.
pub fn substitute(alloc: Global, text: &[u8], symbols: &Symbols) -> Result<Vec<u8>, SymFault>
    ensures substituted { IfOk result (λ out. subst text.now symbols.now ≡ Ok out.items) }
    ensures fits { IfOk result (λ out. (length text.now ≤ longest_text) × (length out.items ≤ longest_text)) }
    ensures fault { IfErr result (IsSymFault text.now symbols.now) }
{
    if text.len() > LONGEST_TEXT {
        return Err(SymFault::TooLong(text.len() as u64));
    }
    let mut out = Output {
        bytes: Vec::new(alloc),
        len: 0,
    };
    let mut before = PieceKind::LineEnd;
    let mut rest = text;
    let mut at = 0;
    while let Some(piece) = first_piece(before, rest) {
        if let Err(fault) = put_piece(&mut out, symbols, piece, at) {
            return Err(fault);
        }
        before = piece.kind;
        rest = piece.rest;
        at += piece.bytes.len();
    }
    if out.len > LONGEST_TEXT as u64 {
        return Err(SymFault::TooLong(out.len));
    }
    Ok(out.bytes)
}
