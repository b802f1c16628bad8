//! One token.
ghost use Rattle.std.specs.Prelude.{◌≡◌, true};
ghost use Rattle.cd_grammar.specs.Answers.{taken};
ghost use Rattle.cd_grammar.specs.Tokens.{place_of};
ghost use Rattle.cd_grammar.specs.Values.{label_in, front_label_in};
ghost use Rattle.cd_automaton.specs.Machine.{behind_open, behind_close, behind_equals, with_place};

use crate::fault::Found;
use cd_ast::FaultName;
use cd_grammar::{Key, Lent, Sign, Token, front_label_in, label_in};
use cd_types::Label;

/// The place of a token's first byte.
pub(crate) fn place_of(token: &Token<'_>) -> u32
    ensures { result ≡ place_of token.now }
{
    match token {
        Token::Word(at, _, _) | Token::Quoted(at, _) | Token::Mark(at, _) => *at,
    }
}

/// The fault of a token that isn't allowed.
pub(crate) fn unexpected(at: u32) -> Found
    ensures { result ≡ (FaultName.Unexpected, at) }
{
    (FaultName::Unexpected, at)
}

/// The fault of a statement more than there may be.
pub(crate) fn too_many() -> Found
    ensures { result ≡ (FaultName.TooMany, 1024) }
{
    (FaultName::TooMany, 1024)
}

/// That a token is `(`.
pub(crate) fn opens(token: &Token<'_>) -> Result<(), Found>
    ensures { result ≡ behind_open token.now tt }
{
    match token {
        Token::Word(at, _, _) | Token::Quoted(at, _) => Err(unexpected(*at)),
        Token::Mark(at, sign) => match sign {
            Sign::Open => Ok(()),
            _ => Err(unexpected(*at)),
        },
    }
}

/// That a token is `)`.
pub(crate) fn closes(token: &Token<'_>) -> Result<(), Found>
    ensures { result ≡ behind_close token.now tt }
{
    match token {
        Token::Word(at, _, _) | Token::Quoted(at, _) => Err(unexpected(*at)),
        Token::Mark(at, sign) => match sign {
            Sign::Close => Ok(()),
            _ => Err(unexpected(*at)),
        },
    }
}

/// That a token is `=`.
pub(crate) fn equals(token: &Token<'_>) -> Result<(), Found>
    ensures { result ≡ behind_equals token.now tt }
{
    match token {
        Token::Word(at, _, _) | Token::Quoted(at, _) => Err(unexpected(*at)),
        Token::Mark(at, sign) => match sign {
            Sign::Equals => Ok(()),
            _ => Err(unexpected(*at)),
        },
    }
}

/// A label at a place.
pub(crate) fn label_at(at: u32, key: Key, word: &Lent<'_>) -> Result<Label, Found>
    ensures { result ≡ with_place at (taken true (label_in key word.now)) (λ name. name) }
{
    match label_in(key, word.bytes()) {
        Ok(label) => Ok(label),
        Err(name) => Err((name, at)),
    }
}

/// A label in front of a statement, at a place.
pub(crate) fn front_label_at(at: u32, key: Key, word: &Lent<'_>) -> Result<Label, Found>
    ensures { result ≡ with_place at (taken true (front_label_in key word.now)) (λ name. name) }
{
    match front_label_in(key, word.bytes()) {
        Ok(label) => Ok(label),
        Err(name) => Err((name, at)),
    }
}
