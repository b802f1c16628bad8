//! The tokens of a text as the grammar sees them.
ghost use Rattle.std.specs.Prelude.{◌≡◌, ◌≤◌, ℕ, List, length, map, IfOk, IfErr};
ghost use Rattle.cd_lexer.specs.Spans.{span_of};
ghost use Rattle.cd_grammar.specs.Tokens.{inside, token_of, Out, behind, is_blank_comma, is_comma, without_commas};
ghost use Rattle.cd_parser.specs.Region.{side_of, IsWithin, AreWithin};

use crate::ParseFault;
use cd_grammar::{Key, Lent, Sign, Token, key_of, sign_of};
use cd_lexer::TokenKind;
use std::alloc::Global;

/// Whether a token stands in the parentheses of STARTT.
#[derive(Clone, Copy, Debug, PartialEq, Eq)]
pub(crate) enum Region {
    Out,
    /// Behind the word STARTT.
    Named,
    /// Behind its `=`.
    Opening,
    In,
}

/// What stands between the quotes.
fn inside(bytes: &[u8]) -> &[u8]
    ensures { result.now ≡ inside bytes.now }
{
    match bytes {
        [_, inside @ .., _] => inside,
        _ => &[],
    }
}

/// A token of the text.
fn token_of<'a>(text: &'a [u8], token: &cd_lexer::Token) -> Token<'a>
    requires { IsWithin (length text.now) token.now }
    ensures { result ≡ token_of text.now (span_of token.now) }
{
    let bytes = &text[token.from as usize..token.to as usize];
    match token.kind {
        TokenKind::Word => Token::Word(token.from, key_of(bytes), Lent::new(bytes)),
        TokenKind::Quoted => Token::Quoted(token.from, Lent::new(inside(bytes))),
        TokenKind::Sign => Token::Mark(token.from, sign_of(bytes)),
    }
}

fn is_comma(sign: Sign) -> bool
    ensures { result ≡ is_comma sign }
{
    match sign {
        Sign::Comma => true,
        _ => false,
    }
}

/// Where the token behind a word stands.
fn behind_word(region: Region, key: Key) -> Region
    ensures { (at : ℕ) (word : List ℕ) → side_of result ≡ behind (side_of region) (Token.Word at key word) }
{
    match (region, key) {
        (Region::In, _) => Region::In,
        (_, Key::Startt) => Region::Named,
        _ => Region::Out,
    }
}

/// Where the token behind a sign stands.
fn behind_sign(region: Region, sign: Sign) -> Region
    ensures { (at : ℕ) → side_of result ≡ behind (side_of region) (Token.Mark at sign) }
{
    match (region, sign) {
        (Region::Named, Sign::Equals) => Region::Opening,
        (Region::Named, Sign::Comma) => Region::Named,
        (Region::Opening, Sign::Open) => Region::In,
        (Region::Opening, Sign::Comma) => Region::Opening,
        (Region::In, Sign::Close) => Region::Out,
        (Region::In, _) => Region::In,
        _ => Region::Out,
    }
}

/// Where the token behind this one stands.
fn behind(region: Region, token: &Token<'_>) -> Region
    ensures { side_of result ≡ behind (side_of region) token.now }
{
    match token {
        Token::Word(_, key, _) => behind_word(region, *key),
        Token::Quoted(_, _) => match region {
            Region::In => Region::In,
            _ => Region::Out,
        },
        Token::Mark(_, sign) => behind_sign(region, *sign),
    }
}

/// Whether a token is a comma that reads as a blank.
fn is_blank_comma(region: Region, token: &Token<'_>) -> bool
    ensures { result ≡ is_blank_comma (side_of region) token.now }
{
    match (region, token) {
        (Region::In, _) | (_, Token::Word(_, _, _)) | (_, Token::Quoted(_, _)) => false,
        (_, Token::Mark(_, sign)) => is_comma(*sign),
    }
}

/// The tokens of a text as the grammar sees them, without the commas that read as blanks.
pub(crate) fn classify<'a>(
    alloc: Global,
    text: &'a [u8],
    tokens: &[cd_lexer::Token],
) -> Result<Vec<Token<'a>>, ParseFault>
    requires { AreWithin (length text.now) tokens.now }
    ensures tokens { IfOk result (λ seen. seen.items ≡ without_commas Out (map (token_of text.now) (map span_of tokens.now))) }
    ensures err { IfErr result (λ fault. fault ≡ ParseFault.NoMemory) }
{
    let mut seen = Vec::new(alloc);
    let mut region = Region::Out;
    let mut rest = tokens;
    while let Some((token, behind_it)) = rest.split_first() {
        let token = token_of(text, token);
        let next = behind(region, &token);
        if !is_blank_comma(region, &token) {
            seen.push(token)?;
        }
        region = next;
        rest = behind_it;
    }
    Ok(seen)
}
