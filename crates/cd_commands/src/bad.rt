//! The first byte of a piece that makes no token.
ghost use Rattle.std.specs.Prelude.{◌≡◌, ◌≤◌, length, min};
ghost use Rattle.std.specs.Str.Lossy.{utf8_valid_len};
ghost use Rattle.cd_ast.specs.Tokens.{bad_place, ends_good};

use crate::run::{GoodEnd, run_len};

/// The length of the longest front that is UTF-8.
#[tactic(auto, using(crate::proofs::Runs::utf8_rules))]
fn utf8_len(text: &[u8]) -> usize
    ensures { result ≡ utf8_valid_len text.now }
{
    match str::from_utf8(text) {
        Ok(_) => text.len(),
        Err(error) => error.valid_up_to(),
    }
}

/// The place of the first byte that is refused, or with which the text isn't UTF-8; its length where there is none.
#[tactic(auto, unfolding(cd_ast::specs::Tokens::bad_place))]
pub(crate) fn bad_place(text: &[u8]) -> usize
    ensures exact { result ≡ bad_place text.now }
    ensures within { result ≤ length text.now }
{
    run_len(&GoodEnd, text).min(utf8_len(text))
}
