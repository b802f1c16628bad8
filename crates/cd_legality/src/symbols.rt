//! The values that a SUBMIT gives to names.
ghost use Rattle.std.specs.Prelude.{◌≡◌, ◌+◌, ◌<◌, length, nat_le, MatchOption};
ghost use Rattle.cd_rules.specs.Legal.{symbols_size};

use cd_types::Symbols;

/// The most bytes that the pairs have, behind the two of their number.
const MOST: usize = 119_998;

// What is left of so many bytes behind a pair.
fn left_behind(left: usize, name: &[u8], value: &[u8]) -> Option<usize>
    ensures { MatchOption result (left < 5 + length name.now + length value.now) (λ after. after + (5 + length name.now + length value.now) ≡ left) }
{
    let left = left.checked_sub(5)?;
    let left = left.checked_sub(name.len())?;
    left.checked_sub(value.len())
}

/// Whether the values are few enough to be sent.
pub(crate) fn are_few(symbols: &Symbols) -> bool
    ensures { result ≡ nat_le (symbols_size symbols.now) 120000 }
{
    let mut left = MOST;
    for place in 0..symbols.len() {
        if let Some((name, value)) = symbols.pair(place) {
            match left_behind(left, name, value) {
                Some(after) => left = after,
                None => return false,
            }
        }
    }
    true
}
