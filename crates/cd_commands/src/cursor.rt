//! Tokens that are read one after the other.
ghost use Rattle.std.specs.Prelude.{◌≡◌, ◌∷◌, ◌<◌, [], length, drop, IfOk, IfErr, OnOk, IfSome, IfNone};
ghost use Rattle.cd_grammar.specs.Tokens.{place_of};

use cd_grammar::Token;
use std::marker::Model;

/// The place of a token's first byte.
pub(crate) fn place_of(token: &Token<'_>) -> u32
    ensures { result ≡ place_of token.now }
{
    match token {
        Token::Word(at, _, _) | Token::Quoted(at, _) | Token::Mark(at, _) => *at,
    }
}

/// Tokens, of which those up to a place were read. Contracts see the list of those that weren't.
#[derive(Drop)]
pub(crate) struct Cursor<'t, 'a> {
    tokens: &'t [Token<'a>],
    place: usize,
}

impl<'t, 'a> Model for Cursor<'t, 'a> {
    ghost use Rattle.std.specs.Prelude.{List, drop};
    ghost use Rattle.cd_grammar.specs.declared.token.Token.{Token};

    ghost Value = { List Token };

    ghost view = { λ cursor. drop cursor.place cursor.tokens.now };
}

impl<'t, 'a> Cursor<'t, 'a> {
    /// Before the first of these tokens.
    pub(crate) fn new(tokens: &'t [Token<'a>]) -> Self
        ensures { result ≡ tokens.now }
    {
        Cursor { tokens, place: 0 }
    }

    /// The next token, which then is read. Where there is none, the command is left at the end of its text.
    pub(crate) fn next(&mut self, len: u32) -> Result<&'t Token<'a>, u32>
        ensures ok { IfOk result (λ token. self.old ≡ token.now ∷ self.new) }
        ensures shorter { OnOk result (length self.new < length self.old) }
        ensures none { IfErr result (λ _. self.old ≡ []) }
        ensures end { IfErr result (λ at. at ≡ len) }
    {
        match self.tokens.get(self.place) {
            Some(token) => {
                self.place += 1;
                Ok(token)
            }
            None => Err(len),
        }
    }

    /// The next token, which isn't read yet.
    pub(crate) fn peek(&self) -> Option<&'t Token<'a>>
        ensures some { IfSome result (λ token. self.now ≡ token.now ∷ drop 1 self.now) }
        ensures none { IfNone result (self.now ≡ []) }
    {
        self.tokens.get(self.place)
    }

    /// Reads the next token, which there is.
    pub(crate) fn skip(&mut self)
        requires { 0 < length self.old }
        ensures rest { self.new ≡ drop 1 self.old }
        ensures shorter { length self.new < length self.old }
    {
        self.place += 1;
    }
}
