//! The tokens of a command.
ghost use Rattle.std.specs.Prelude.{◌≡◌, ◌+◌, ◌<◌, ◌≤◌, ◌^◌, ◌++◌, List, Bool, length, Some, None, IfOk, if◌then◌else◌};
ghost use Rattle.std.specs.Option.{option_map};
ghost use Rattle.cd_ast.specs.Pieces.{pieces_after};
ghost use Rattle.cd_ast.specs.Tokens.{bad_place, is_token};
ghost use Rattle.cd_grammar.specs.declared.token.Token.{Token};
ghost use Rattle.cd_grammar.specs.Tokens.{inside, seen_token};
ghost use Rattle.cd_commands.specs.Seen.{no_token, is_flawed, piece_token, behind, is_blank_comma, with_token, seen_from, seen, is_lead, lead_from, lead};

use crate::bad::bad_place;
use crate::piece::first_piece;
use cd_ast::PieceKind;
use cd_grammar::{Lent, Sign, Token, key_of, sign_of};
use cd_types::NoMemory;
use std::alloc::Global;

/// What stands between the quotes.
fn inside(bytes: &[u8]) -> &[u8]
    ensures { result.now ≡ inside bytes.now }
{
    match bytes {
        [_, inside @ .., _] => inside,
        _ => &[],
    }
}

/// A piece that is a `!` alone, or a quote or a comment that isn't closed.
#[tactic(auto, unfolding(crate::specs::Seen::is_flawed))]
fn is_flawed(kind: PieceKind) -> bool
    ensures { result ≡ is_flawed kind }
{
    match kind {
        PieceKind::Stray | PieceKind::CutQuote | PieceKind::CutComment => true,
        _ => false,
    }
}

/// What makes no token, at this place.
fn no_token<'a>(at: u32) -> Token<'a>
    ensures { result ≡ no_token at }
{
    Token::Mark(at, Sign::Unequal)
}

/// A piece without a bad byte as a token, if it is one.
fn good_token<'a>(at: u32, kind: PieceKind, bytes: &'a [u8]) -> Option<Token<'a>>
    ensures { result ≡ (if is_token kind then Some (seen_token kind at bytes.now) else None) }
{
    match kind {
        PieceKind::Word => Some(Token::Word(at, key_of(bytes), Lent::new(bytes))),
        PieceKind::Quoted => Some(Token::Quoted(at, Lent::new(inside(bytes)))),
        PieceKind::Sign => Some(Token::Mark(at, sign_of(bytes))),
        _ => None,
    }
}

/// A piece at this place as a token, if it is one.
#[tactic(auto, unfolding(crate::specs::Seen::piece_token))]
fn piece_token<'a>(at: u32, kind: PieceKind, bytes: &'a [u8]) -> Option<Token<'a>>
    requires { at + length bytes.now < 2 ^ 32 }
    ensures { result ≡ piece_token at kind bytes.now }
{
    if is_flawed(kind) {
        return Some(no_token(at));
    }
    let bad = bad_place(bytes);
    if bad < bytes.len() {
        return Some(no_token(at + bad as u32));
    }
    good_token(at, kind, bytes)
}

/// Whether what stands behind a token stands in parentheses.
#[tactic(auto, unfolding(crate::specs::Seen::behind))]
fn behind(inside: bool, token: &Token<'_>) -> bool
    ensures { result ≡ behind inside token.now }
{
    match token {
        Token::Word(_, _, _) | Token::Quoted(_, _) => inside,
        Token::Mark(_, sign) => match sign {
            Sign::Open => true,
            Sign::Close => false,
            _ => inside,
        },
    }
}

/// Whether a token is a comma that reads as a blank.
#[tactic(auto, unfolding(crate::specs::Seen::is_blank_comma))]
fn is_blank_comma(inside: bool, token: &Token<'_>) -> bool
    ensures { result ≡ is_blank_comma inside token.now }
{
    if inside {
        return false;
    }
    match token {
        Token::Word(_, _, _) | Token::Quoted(_, _) => false,
        Token::Mark(_, sign) => match sign {
            Sign::Comma => true,
            _ => false,
        },
    }
}

/// Puts a token behind others, if it is one that is read, and says whether what follows it stands in parentheses.
fn put<'a>(
    tokens: &mut Vec<Token<'a>>,
    inside: bool,
    token: Option<Token<'a>>,
) -> Result<bool, NoMemory>
    ensures { IfOk result (λ next. (more : Bool → List Token) → tokens.new.items ++ more next ≡ tokens.old.items ++ with_token inside token.entry more) }
{
    let Some(token) = token else {
        return Ok(inside);
    };
    let next = behind(inside, &token);
    if is_blank_comma(inside, &token) {
        return Ok(next);
    }
    tokens.push(token)?;
    Ok(next)
}

/// The tokens of a command.
#[tactic(auto, unfolding(crate::specs::Seen::seen_from))]
pub(crate) fn seen<'a>(alloc: Global, text: &'a [u8]) -> Result<Vec<Token<'a>>, NoMemory>
    requires { length text.now < 2 ^ 32 }
    ensures { IfOk result (λ tokens. tokens.items ≡ seen text.now) }
{
    let mut tokens = Vec::new(alloc);
    let mut inside = false;
    let mut before = PieceKind::LineEnd;
    let mut rest = text;
    let mut at: usize = 0;
    while let Some(piece) = first_piece(before, rest) {
        let token = piece_token(at as u32, piece.kind, piece.bytes);
        inside = put(&mut tokens, inside, token)?;
        at += piece.bytes.len();
        before = piece.kind;
        rest = piece.rest;
    }
    Ok(tokens)
}

#[tactic(auto, unfolding(crate::specs::Seen::is_lead))]
fn is_lead(kind: PieceKind) -> bool
    ensures { result ≡ is_lead kind }
{
    match kind {
        PieceKind::LineEnd | PieceKind::Blank | PieceKind::Comment => true,
        _ => false,
    }
}

/// How many bytes stand before the first that is neither a blank nor in a comment.
#[tactic(auto, unfolding(crate::specs::Seen::lead_from))]
pub(crate) fn lead(text: &[u8]) -> usize
    ensures { result ≡ lead text.now }
{
    let mut before = PieceKind::LineEnd;
    let mut rest = text;
    let mut len = 0;
    while let Some(piece) = first_piece(before, rest) {
        if !is_lead(piece.kind) {
            return len;
        }
        len += piece.bytes.len();
        before = piece.kind;
        rest = piece.rest;
    }
    len
}
