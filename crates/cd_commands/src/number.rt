//! Numbers.
ghost use Rattle.std.specs.Prelude.{◌≡◌, ◌<◌, ◌≤◌, length, IsTrue, IfSome};
ghost use Rattle.std.specs.List.{list_all};
ghost use Rattle.std.specs.Char.{is_ascii_digit};
ghost use Rattle.cd_grammar.specs.Values.{is_digits, number_of};
ghost use Rattle.cd_commands.specs.Values.{number_within, short_number, wide_number};

fn is_digit(byte: u8) -> bool
    ensures { result ≡ is_ascii_digit byte }
{
    byte.is_ascii_digit()
}

fn are_digits(word: &[u8]) -> bool
    ensures { result ≡ list_all is_ascii_digit word.now }
{
    word.iter().all(|byte| is_digit(*byte))
}

/// Whether a word has digits alone.
#[tactic(auto, unfolding(cd_grammar::specs::Values::is_digits))]
fn is_digits(word: &[u8]) -> bool
    ensures exact { result ≡ is_digits word.now }
    ensures all { IsTrue result → IsTrue (list_all is_ascii_digit word.now) }
{
    if word.is_empty() {
        return false;
    }
    are_digits(word)
}

/// The number that at most twenty digits write.
#[tactic(auto, unfolding(cd_grammar::specs::Values::number_of))]
fn number_of(digits: &[u8]) -> u128
    requires digits { IsTrue (list_all is_ascii_digit digits.now) }
    requires short { length digits.now ≤ 20 }
    ensures { result ≡ number_of digits.now }
{
    let mut value: u128 = 0;
    for digit in digits {
        value = 10 * value + (*digit - b'0') as u128;
    }
    value
}

/// A number of at most so many digits between two bounds.
#[tactic(auto, unfolding(crate::specs::Values::number_within))]
fn number_within(most: usize, low: u64, high: u64, word: &[u8]) -> Option<u64>
    requires { most ≤ 20 }
    ensures exact { result ≡ number_within most low high word.now }
    ensures within { IfSome result (λ n. (low ≤ n) × (n ≤ high)) }
{
    if !is_digits(word) || word.len() > most {
        return None;
    }
    let number = number_of(word);
    if number < low as u128 || number > high as u128 {
        return None;
    }
    Some(number as u64)
}

/// A number of at most 10 digits.
pub(crate) fn short_number(low: u32, high: u32, word: &[u8]) -> Option<u32>
    ensures exact { result ≡ short_number low high word.now }
    ensures within { IfSome result (λ n. (low ≤ n) × (n ≤ high)) }
{
    let number = number_within(10, low as u64, high as u64, word)?;
    Some(number as u32)
}

/// A number of eight bytes.
pub(crate) fn wide_number(word: &[u8]) -> Option<u64>
    ensures { result ≡ wide_number word.now }
{
    number_within(20, 0, 18_446_744_073_709_551_615, word)
}
