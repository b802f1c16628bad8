//! The values that a text gives to names before its first statement.
ghost use Rattle.std.specs.Prelude.{◌≡◌, ◌+◌, ◌-◌, ◌<◌, ◌≤◌, ◌&&◌, ◌||◌, ◌==◌, nat_lt, List, ℕ, [], ◌∷◌, length, take, drop, IfOk, OnOk};
ghost use Rattle.std.specs.Option.{option_map};
ghost use Rattle.std.specs.Str.{str_eq_ignore_ascii_case};
ghost use Rattle.cd_ast.specs.Pieces.{pieces_after, is_gap, run_len};
ghost use Rattle.cd_ast.specs.Subst.{ends_name, is_word};
ghost use Rattle.cd_ast.specs.Defaults.{defaults, is_statement_word, is_statement, last_name, is_sign, piece_value, first_value, given_value, piece_name, defined, with_definitions, definitions};

use crate::piece::{Cut, first_piece, is_gap};
use crate::run::{NameEnd, run_len};
use cd_ast::PieceKind;
use cd_types::{NoMemory, Symbols};
use std::alloc::Global;

/// Whether two words are one but for the case of their letters.
fn is_keyword(word: &[u8], other: &[u8]) -> bool
    ensures { result ≡ str_eq_ignore_ascii_case word.now other.now }
{
    word.eq_ignore_ascii_case(other)
}

/// Whether a word is one with which statements begin.
#[tactic(auto, unfolding(cd_ast::specs::Defaults::is_statement_word))]
fn is_statement_word(word: &[u8]) -> bool
    ensures { result ≡ is_statement_word word.now }
{
    is_keyword(word, b"COPY")
        || is_keyword(word, b"RUN")
        || is_keyword(word, b"SUBMIT")
        || is_keyword(word, b"IF")
        || is_keyword(word, b"ELSE")
        || is_keyword(word, b"EIF")
        || is_keyword(word, b"GOTO")
        || is_keyword(word, b"EXIT")
}

/// Whether the statements begin with a piece.
#[tactic(auto, unfolding(cd_ast::specs::Defaults::is_statement))]
fn is_statement(kind: PieceKind, bytes: &[u8]) -> bool
    ensures { result ≡ is_statement kind bytes.now }
{
    matches!(kind, PieceKind::Word) && is_statement_word(bytes)
}

/// Whether a last name stands behind the byte before the others.
fn is_before_name(byte: u8, after: &[u8]) -> bool
    ensures { result ≡ (byte == 38 && nat_lt 0 (length after.now) && run_len ends_name after.now == length after.now) }
{
    byte == b'&' && !after.is_empty() && run_len(&NameEnd, after) == after.len()
}

/// The name that a word ends with, behind an `&`.
fn last_name(word: &[u8]) -> Option<&[u8]>
    ensures { option_map (λ name. name.now) result ≡ last_name word.now }
{
    let mut rest = word;
    while let Some((byte, after)) = rest.split_first() {
        if is_before_name(*byte, after) {
            return Some(after);
        }
        rest = after;
    }
    None
}

/// The name that a piece may define.
#[tactic(auto, unfolding(cd_ast::specs::Defaults::piece_name))]
fn piece_name(kind: PieceKind, bytes: &[u8]) -> Option<&[u8]>
    ensures { option_map (λ name. name.now) result ≡ piece_name kind bytes.now }
{
    if matches!(kind, PieceKind::Word) {
        last_name(bytes)
    } else {
        None
    }
}

/// Whether a piece is the sign that is this one byte.
#[tactic(auto, unfolding(cd_ast::specs::Defaults::is_sign))]
fn is_sign(kind: PieceKind, bytes: &[u8], sign: u8) -> bool
    ensures { result ≡ is_sign kind bytes.now sign }
{
    match kind {
        PieceKind::Sign => bytes == [sign].as_slice(),
        _ => false,
    }
}

/// What a piece is as a value.
#[tactic(auto, unfolding(cd_ast::specs::Defaults::piece_value))]
fn piece_value(kind: PieceKind, bytes: &[u8]) -> Option<&[u8]>
    ensures { option_map (λ value. value.now) result ≡ piece_value kind bytes.now }
{
    match kind {
        PieceKind::Word => {
            if is_statement_word(bytes) {
                None
            } else {
                Some(bytes)
            }
        }
        PieceKind::Quoted => Some(inside(bytes)),
        _ => None,
    }
}

/// What stands between the quotes of a quoted text.
fn inside(bytes: &[u8]) -> &[u8]
    ensures { result.now ≡ take (length bytes.now - 2) (drop 1 bytes.now) }
{
    if bytes.len() < 2 {
        return &[];
    }
    let (_, rest) = bytes.split_at(1);
    let (inside, _) = rest.split_at(bytes.len() - 2);
    inside
}

/// Whether a piece may stand between the sign `=` and the value.
fn is_passed(kind: PieceKind, bytes: &[u8]) -> bool
    ensures { result ≡ (is_gap kind || is_sign kind bytes.now 44) }
{
    is_gap(kind) || is_sign(kind, bytes, b',')
}

/// The value that the text behind a piece begins with, behind gaps and commas.
fn first_value(before: PieceKind, text: &[u8]) -> Option<&[u8]>
    ensures { option_map (λ value. value.now) result ≡ first_value (pieces_after 0 before text.now) }
{
    let mut before = before;
    let mut rest = text;
    while let Some(piece) = first_piece(before, rest) {
        if !is_passed(piece.kind, piece.bytes) {
            return piece_value(piece.kind, piece.bytes);
        }
        before = piece.kind;
        rest = piece.rest;
    }
    None
}

/// The value behind the sign `=` that the text behind a piece begins with.
fn given_value(before: PieceKind, text: &[u8]) -> Option<&[u8]>
    ensures { option_map (λ value. value.now) result ≡ given_value (pieces_after 0 before text.now) }
{
    let Some(piece) = first_piece(before, text) else {
        return None;
    };
    if is_sign(piece.kind, piece.bytes, b'=') {
        first_value(piece.kind, piece.rest)
    } else {
        None
    }
}

/// Makes the definition that a piece begins, if it begins one.
fn define(symbols: &mut Symbols, piece: Cut<'_>) -> Result<(), NoMemory>
    ensures { OnOk result ((others : List (List ℕ × List ℕ)) → with_definitions symbols.new others
        ≡ with_definitions symbols.old (defined (piece_name piece.entry.kind piece.entry.bytes.now) (given_value (pieces_after 0 piece.entry.kind piece.entry.rest.now)) others)) }
{
    let Some(name) = piece_name(piece.kind, piece.bytes) else {
        return Ok(());
    };
    let Some(value) = given_value(piece.kind, piece.rest) else {
        return Ok(());
    };
    symbols.set(name, value)?;
    Ok(())
}

/// The values that a text gives to names before its first statement. A name that is defined twice has the later value.
/// A text with faults has them too: a quote or a comment that isn't closed goes to its end.
pub fn defaults(alloc: Global, text: &[u8]) -> Result<Symbols, NoMemory>
    ensures { IfOk result (λ symbols. symbols ≡ defaults text.now) }
{
    let mut symbols = Symbols::new(alloc);
    let mut before = PieceKind::LineEnd;
    let mut rest = text;
    while let Some(piece) = first_piece(before, rest) {
        if is_statement(piece.kind, piece.bytes) {
            return Ok(symbols);
        }
        define(&mut symbols, piece)?;
        before = piece.kind;
        rest = piece.rest;
    }
    Ok(symbols)
}
