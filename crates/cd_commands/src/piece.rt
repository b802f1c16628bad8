//! A text is cut into pieces, one after the other.
ghost use Rattle.std.specs.Prelude.{[], ◌^◌, ◌≡◌, ◌+◌, ◌<◌, ◌≤◌, length, take, drop, ◌∷◌, ◌++◌, IfSome, IfNone, IsTrue};
ghost use Rattle.cd_ast.specs.Bytes.{closes_comment, opens_comment};
ghost use Rattle.cd_ast.specs.Pieces.{run_len, is_rest_blank, sign_at, word_at, comment_at, quote_at, piece_at, pieces_after, Piece, is_gap, is_line_end};

use crate::bytes::{is_blank, is_double_sign, is_quote, is_sign_byte, opens_comment};
use crate::run::{CommentEnd, LineEnd, QuoteEnd, WordEnd, run_len};
use cd_ast::PieceKind;

#[tactic(auto, using(crate::proofs::Runs::closes_rules))]
/// What follows the comment that opens with the byte before the others, if one does and is closed.
fn behind_comment(byte: u8, after: &[u8]) -> Option<&[u8]>
    ensures some { IfSome result (λ behind. IsTrue (opens_comment byte after.now) × (run_len closes_comment (drop 1 after.now) < length (drop 1 after.now)) × (behind.now ≡ drop (run_len closes_comment (drop 1 after.now) + 3) after.now)) }
    ensures none { IfNone result (IsTrue (opens_comment byte after.now) → length (drop 1 after.now) ≤ run_len closes_comment (drop 1 after.now)) }
    ensures shorter { IfSome result (λ behind. length behind.now < length after.now) }
{
    if !opens_comment(byte, after) {
        return None;
    }
    let (_, inside) = after.split_at(1);
    let len = run_len(&CommentEnd, inside);
    if len == inside.len() {
        return None;
    }
    let (_, behind) = after.split_at(len + 3);
    Some(behind)
}

/// Whether there are only blanks and whole comments up to the line's end.
fn is_rest_blank(bytes: &[u8]) -> bool
    ensures { result ≡ is_rest_blank 0 bytes.now }
{
    let mut rest = bytes;
    while let Some((byte, after)) = rest.split_first() {
        if *byte == b'\n' {
            return true;
        }
        if is_blank(*byte) {
            rest = after;
        } else if let Some(behind) = behind_comment(*byte, after) {
            rest = behind;
        } else {
            return false;
        }
    }
    true
}

/// Whether what follows a piece touches no token.
pub(crate) fn is_gap(kind: PieceKind) -> bool
    ensures { result ≡ is_gap kind }
{
    matches!(
        kind,
        PieceKind::LineEnd | PieceKind::Blank | PieceKind::Comment | PieceKind::Dash
    )
}

/// A comment's kind and length, from what follows its `/*` on.
#[tactic(auto, unfolding(cd_ast::specs::Pieces::comment_at), using(crate::proofs::Runs::closes_rules))]
fn comment_at(inside: &[u8]) -> (PieceKind, usize)
    requires { length inside.now + 2 < 2 ^ 64 }
    ensures exact { result ≡ comment_at inside.now }
    ensures within { (0 < result.1) × (result.1 ≤ length inside.now + 2) }
{
    let len = run_len(&CommentEnd, inside);
    if len < inside.len() {
        (PieceKind::Comment, len + 4)
    } else {
        (PieceKind::CutComment, inside.len() + 2)
    }
}

/// A quoted text's kind and length, from what follows its first quote on.
#[tactic(auto, unfolding(cd_ast::specs::Pieces::quote_at))]
fn quote_at(quote: u8, inside: &[u8]) -> (PieceKind, usize)
    requires { length inside.now + 1 < 2 ^ 64 }
    ensures exact { result ≡ quote_at quote inside.now }
    ensures within { (0 < result.1) × (result.1 ≤ length inside.now + 1) }
{
    let len = run_len(&QuoteEnd(quote), inside);
    if len < inside.len() {
        (PieceKind::Quoted, len + 2)
    } else {
        (PieceKind::CutQuote, inside.len() + 1)
    }
}

/// A sign's kind and length: the longest is taken, and a `!` is none alone.
#[tactic(auto, unfolding(cd_ast::specs::Pieces::sign_at))]
fn sign_at(byte: u8, after: &[u8]) -> (PieceKind, usize)
    ensures exact { result ≡ sign_at byte after.now }
    ensures within { (0 < result.1) × (result.1 ≤ length after.now + 1) }
{
    if let Some((next, _)) = after.split_first()
        && is_double_sign(byte, *next)
    {
        return (PieceKind::Sign, 2);
    }
    if byte == b'!' {
        (PieceKind::Stray, 1)
    } else {
        (PieceKind::Sign, 1)
    }
}

/// A word's kind and length; a `-` alone at a line's end is skipped.
#[tactic(auto, unfolding(cd_ast::specs::Pieces::word_at))]
fn word_at(before: PieceKind, byte: u8, after: &[u8]) -> (PieceKind, usize)
    requires { length after.now + 1 < 2 ^ 64 }
    ensures exact { result ≡ word_at before byte after.now }
    ensures within { (0 < result.1) × (result.1 ≤ length after.now + 1) }
{
    let len = run_len(&WordEnd, after);
    if byte == b'-' && len == 0 && is_gap(before) && is_rest_blank(after) {
        (PieceKind::Dash, 1)
    } else {
        (PieceKind::Word, len + 1)
    }
}

/// The kind and length of the piece that begins with the byte before the others.
#[tactic(auto, unfolding(cd_ast::specs::Pieces::piece_at))]
fn piece_at(before: PieceKind, byte: u8, after: &[u8]) -> (PieceKind, usize)
    requires { length after.now + 1 < 2 ^ 64 }
    ensures exact { result ≡ piece_at before byte after.now }
    ensures within { (0 < result.1) × (result.1 ≤ length after.now + 1) }
{
    if byte == b'\n' {
        (PieceKind::LineEnd, 1)
    } else if is_blank(byte) {
        (PieceKind::Blank, 1)
    } else if byte == b'*' && before == PieceKind::LineEnd {
        (PieceKind::Comment, run_len(&LineEnd, after) + 1)
    } else if opens_comment(byte, after) {
        let (_, inside) = after.split_at(1);
        comment_at(inside)
    } else if is_quote(byte) {
        quote_at(byte, after)
    } else if is_sign_byte(byte) {
        sign_at(byte, after)
    } else {
        word_at(before, byte, after)
    }
}

/// A text's first piece, and what follows it.
#[derive(Clone, Copy)]
pub(crate) struct Cut<'a> {
    pub(crate) kind: PieceKind,
    pub(crate) bytes: &'a [u8],
    pub(crate) rest: &'a [u8],
}

/// The first piece behind one of the kind before, if there is one.
pub(crate) fn first_piece(before: PieceKind, text: &[u8]) -> Option<Cut<'_>>
    ensures none { IfNone result (text.now ≡ []) }
    ensures some { IfSome result (λ cut. pieces_after 0 before text.now ≡ record { kind = cut.kind; bytes = cut.bytes.now } ∷ pieces_after 0 cut.kind cut.rest.now) }
    ensures whole { IfSome result (λ cut. text.now ≡ cut.bytes.now ++ cut.rest.now) }
    ensures shorter { IfSome result (λ cut. length cut.rest.now < length text.now) }
{
    let (byte, after) = text.split_first()?;
    let (kind, len) = piece_at(before, *byte, after);
    let (bytes, rest) = text.split_at(len);
    Some(Cut { kind, bytes, rest })
}
