//! How far lines, comments, quoted texts and words go.
ghost use Rattle.std.specs.Prelude.{◌≡◌, ℕ, List, Bool, ◌≤◌, length};
ghost use Rattle.cd_ast.specs.Bytes.{closes_comment};
ghost use Rattle.cd_ast.specs.Pieces.{run_len, ends_line, ends_quote, ends_word};
ghost use Rattle.cd_ast.specs.Tokens.{ends_good};

use crate::bytes::{closes_comment, is_refused, is_word_byte, opens_comment};

/// Where a run of bytes ends.
pub(crate) trait End {
    ghost stops: { Self → ℕ → List ℕ → Bool };

    /// Whether the run ends before this byte, which the others follow.
    fn stops(&self, byte: u8, after: &[u8]) -> bool
        ensures { result ≡ stops self.now byte after.now };
}

/// A line ends before its line feed.
#[derive(Clone, Copy)]
pub(crate) struct LineEnd;

/// A comment ends before its `*/`.
#[derive(Clone, Copy)]
pub(crate) struct CommentEnd;

/// A quoted text ends before its quote.
#[derive(Clone, Copy)]
pub(crate) struct QuoteEnd(pub(crate) u8);

/// A word ends before a byte that isn't one of a word, and before a comment.
#[derive(Clone, Copy)]
pub(crate) struct WordEnd;

/// A text's good bytes end before one that no text may have.
#[derive(Clone, Copy)]
pub(crate) struct GoodEnd;

impl End for LineEnd {
    ghost stops = { λ _. ends_line };

    #[tactic(auto, unfolding(cd_ast::specs::Pieces::ends_line))]
    fn stops(&self, byte: u8, _after: &[u8]) -> bool {
        byte == b'\n'
    }
}

impl End for CommentEnd {
    ghost stops = { λ _. closes_comment };

    fn stops(&self, byte: u8, after: &[u8]) -> bool {
        closes_comment(byte, after)
    }
}

impl End for QuoteEnd {
    ghost stops = { λ quote. ends_quote quote.0 };

    #[tactic(auto, unfolding(cd_ast::specs::Pieces::ends_quote))]
    fn stops(&self, byte: u8, _after: &[u8]) -> bool {
        byte == self.0
    }
}

impl End for WordEnd {
    ghost stops = { λ _. ends_word };

    #[tactic(auto, unfolding(cd_ast::specs::Pieces::ends_word))]
    fn stops(&self, byte: u8, after: &[u8]) -> bool {
        !is_word_byte(byte) || opens_comment(byte, after)
    }
}

impl End for GoodEnd {
    ghost stops = { λ _. ends_good };

    #[tactic(auto, unfolding(cd_ast::specs::Tokens::ends_good))]
    fn stops(&self, byte: u8, _after: &[u8]) -> bool {
        is_refused(byte)
    }
}

/// How many bytes stand before the end, or how many there are where it doesn't come.
pub(crate) fn run_len<E: End>(end: &E, bytes: &[u8]) -> usize
    ensures exact { result ≡ run_len (E.stops end.now) bytes.now }
    ensures within { result ≤ length bytes.now }
{
    for (place, byte) in bytes.iter().enumerate() {
        let (_, after) = bytes.split_at(place + 1);
        if end.stops(*byte, after) {
            return place;
        }
    }
    bytes.len()
}
