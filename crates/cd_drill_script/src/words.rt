//! Words between blanks, and numbers.
ghost use Rattle.std.specs.Prelude.{◌≡◌, ◌≤◌, ◌<◌, ◌==◌, ◌^◌, length, option_map, not, position, IsTrue};
ghost use Rattle.std.specs.Char.{is_ascii_digit};
ghost use Rattle.std.specs.List.{list_all, position_or_len};
ghost use Rattle.cd_drill_script.specs.Words.{is_gap, ungapped, word_in, is_digits, value_of, number_of, up_to};

fn is_gap(byte: u8) -> bool
    ensures { result ≡ is_gap byte }
{
    byte == b' ' || byte == b'\t'
}

fn gap_at(bytes: &[u8]) -> Option<usize>
    ensures { result ≡ position is_gap bytes.now }
{
    bytes.iter().position(|byte| is_gap(*byte))
}

fn other_at(bytes: &[u8]) -> Option<usize>
    ensures { result ≡ position (λ b. not (is_gap b)) bytes.now }
{
    bytes.iter().position(|byte| !is_gap(*byte))
}

#[tactic(auto, using(crate::proofs::Places::place_is, crate::proofs::Places::place_within))]
fn first_gap(bytes: &[u8]) -> usize
    ensures place { result ≡ position_or_len is_gap bytes.now }
    ensures within { result ≤ length bytes.now }
{
    gap_at(bytes).unwrap_or(bytes.len())
}

#[tactic(auto, using(crate::proofs::Places::place_is, crate::proofs::Places::place_within))]
fn first_other(bytes: &[u8]) -> usize
    ensures place { result ≡ position_or_len (λ b. not (is_gap b)) bytes.now }
    ensures within { result ≤ length bytes.now }
{
    other_at(bytes).unwrap_or(bytes.len())
}

/// The bytes behind the blanks at the front.
pub fn ungapped(bytes: &[u8]) -> &[u8]
    ensures { result.now ≡ ungapped bytes.now }
{
    &bytes[first_other(bytes)..]
}

/// Whether there are none but blanks.
pub fn is_end(bytes: &[u8]) -> bool
    ensures { result ≡ (length (ungapped bytes.now) == 0) }
{
    ungapped(bytes).is_empty()
}

/// The word at the front, behind blanks, and the bytes behind it.
pub fn word_in(bytes: &[u8]) -> Option<(&[u8], &[u8])>
    ensures { option_map (λ found. (found.0.now, found.1.now)) result ≡ word_in bytes.now }
{
    let rest = ungapped(bytes);
    let len = first_gap(rest);
    if len == 0 {
        return None;
    }
    Some(rest.split_at(len))
}

fn are_digits(word: &[u8]) -> bool
    ensures { result ≡ list_all is_ascii_digit word.now }
{
    word.iter().all(|byte| byte.is_ascii_digit())
}

fn is_digits(word: &[u8]) -> bool
    ensures { result ≡ is_digits word.now }
{
    if word.is_empty() || word.len() > 20 {
        return false;
    }
    are_digits(word)
}

fn value_of(digits: &[u8]) -> u128
    requires { IsTrue (is_digits digits.now) }
    ensures { result ≡ value_of digits.now }
{
    let mut value = 0;
    for digit in digits {
        value = 10 * value + (*digit - b'0') as u128;
    }
    value
}

/// The number that a word is, where it is at most so great.
pub fn number_of(word: &[u8]) -> Option<u64>
    ensures { result ≡ number_of word.now }
{
    if !is_digits(word) {
        return None;
    }
    let value = value_of(word);
    if value <= u64::MAX as u128 {
        Some(value as u64)
    } else {
        None
    }
}
