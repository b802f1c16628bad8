//! The tokens of a text.
ghost use Rattle.std.specs.Prelude.{false, Some, ◌≡◌, ◌+◌, ◌<◌, ◌≤◌, ◌^◌, length, map, min, IfOk, IfErr, IfSome, IfNone, IsSomeAnd, IsTrue, None};
ghost use Rattle.std.specs.Str.Lossy.{utf8_valid_len};
ghost use Rattle.cd_ast.specs.Tokens.{spans_of, flaw_in, flaw_of, is_token, bad_place, earlier, ends_good};
ghost use Rattle.cd_lexer.specs.Faults.{IsLexFault, IsNamed, longest_plain};
ghost use Rattle.cd_lexer.specs.Spans.{span_of, piece_kind};

use crate::fault::LexFault;
use crate::piece::first_piece;
use crate::run::{GoodEnd, run_len};
use cd_ast::PieceKind;
use std::alloc::Global;

/// What a token is.
#[derive(Clone, Copy, Debug, PartialEq, Eq)]
pub enum TokenKind {
    /// A longest run of bytes that are no blanks, signs or quotes.
    Word,
    /// A text in quotes. Its span has the quotes, its text hasn't.
    Quoted,
    /// One of `(`, `)`, `=`, `==`, `,`, `;`, `<`, `>`, `<=`, `>=`, `<>` and `!=`.
    Sign,
}

/// A token, and the places of its first byte and of the byte behind it.
#[derive(Clone, Copy, Debug, PartialEq, Eq)]
pub struct Token {
    pub kind: TokenKind,
    pub from: u32,
    pub to: u32,
}

/// The greatest length of a text that is cut into tokens, in bytes.
const LONGEST_PLAIN: usize = 262_143;

/// The length of the longest front that is UTF-8.
#[tactic(auto, using(crate::proofs::Runs::utf8_rules))]
fn utf8_len(text: &[u8]) -> usize
    ensures { result ≡ utf8_valid_len text.now }
{
    match str::from_utf8(text) {
        Ok(_) => text.len(),
        Err(error) => error.valid_up_to(),
    }
}

/// The place of the first byte that is refused, or with which the text isn't UTF-8; its length where there is none.
#[tactic(auto, unfolding(cd_ast::specs::Tokens::bad_place))]
fn bad_place(text: &[u8]) -> usize
    ensures exact { result ≡ bad_place text.now }
    ensures within { result ≤ length text.now }
{
    run_len(&GoodEnd, text).min(utf8_len(text))
}

/// The kind of token that a piece is, if it is one.
fn token_kind(kind: PieceKind) -> Option<TokenKind>
    ensures some { IfSome result (λ token. IsTrue (is_token kind) × (piece_kind token ≡ kind)) }
    ensures none { IfNone result (is_token kind ≡ false) }
{
    match kind {
        PieceKind::Word => Some(TokenKind::Word),
        PieceKind::Quoted => Some(TokenKind::Quoted),
        PieceKind::Sign => Some(TokenKind::Sign),
        _ => None,
    }
}

/// What is wrong with the piece at this place, where a byte is bad at another, or at the text's end where none is.
fn flaw_at(kind: PieceKind, at: usize, bad: usize) -> Option<LexFault>
    ensures some { IfSome result (λ fault. IsSomeAnd (flaw_in kind) (λ name. IsNamed fault (earlier bad (at + 1) (Some (name, at))))) }
    ensures none { IfNone result (flaw_in kind ≡ None) }
{
    let fault = match kind {
        PieceKind::Stray => LexFault::BadByte(at as u64),
        PieceKind::CutQuote => LexFault::OpenQuote(at as u64),
        PieceKind::CutComment => LexFault::OpenComment(at as u64),
        _ => return None,
    };
    if bad < at {
        Some(LexFault::BadByte(bad as u64))
    } else {
        Some(fault)
    }
}

/// The tokens of a text of at most 262,143 bytes. The first fault in reading order is answered.
pub fn tokens(alloc: Global, text: &[u8]) -> Result<Vec<Token>, LexFault>
    ensures tokens { IfOk result (λ tokens. map span_of tokens.items ≡ spans_of text.now) }
    ensures good { IfOk result (λ _. (length text.now ≤ longest_plain) × (flaw_of text.now ≡ None)) }
    ensures fault { IfErr result (IsLexFault text.now) }
{
    if text.len() > LONGEST_PLAIN {
        return Err(LexFault::TooLong(text.len() as u64));
    }
    let bad = bad_place(text);
    let mut tokens = Vec::new(alloc);
    let mut before = PieceKind::LineEnd;
    let mut rest = text;
    let mut at = 0;
    while let Some(piece) = first_piece(before, rest) {
        if let Some(fault) = flaw_at(piece.kind, at, bad) {
            return Err(fault);
        }
        let to = at + piece.bytes.len();
        if let Some(kind) = token_kind(piece.kind) {
            tokens.push(Token {
                kind,
                from: at as u32,
                to: to as u32,
            })?;
        }
        before = piece.kind;
        rest = piece.rest;
        at = to;
    }
    if bad < text.len() {
        return Err(LexFault::BadByte(bad as u64));
    }
    Ok(tokens)
}
