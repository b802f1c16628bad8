//! The last digits of numbers.
ghost use Rattle.std.specs.Prelude.{◌≡◌};
ghost use Rattle.cd_stats.specs.Digits.{digit, three, four, five};

fn digit(number: u32) -> u8
    ensures { result ≡ digit number }
{
    b'0' + (number % 10) as u8
}

/// The last three digits.
pub fn three(number: u32) -> [u8; 3]
    ensures { result ≡ three number }
{
    [digit(number / 100), digit(number / 10), digit(number)]
}

/// The last four digits.
pub fn four(number: u32) -> [u8; 4]
    ensures { result ≡ four number }
{
    [
        digit(number / 1000),
        digit(number / 100),
        digit(number / 10),
        digit(number),
    ]
}

/// The last five digits.
pub fn five(number: u32) -> [u8; 5]
    ensures { result ≡ five number }
{
    [
        digit(number / 10_000),
        digit(number / 1000),
        digit(number / 100),
        digit(number / 10),
        digit(number),
    ]
}
