//! Days and times of STARTT.
ghost use Rattle.std.specs.Prelude.{◌≡◌, ◌∷◌, ◌<◌, ◌≤◌, ◌+◌, ◌-◌, [], length, take, drop, true, IsTrue, IfSome};
ghost use Rattle.cd_grammar.specs.Answers.{taken};
ghost use Rattle.cd_grammar.specs.Words.{said_in};
ghost use Rattle.cd_grammar.specs.Starts.{are_two, two, date_in, named_days, day_in, minutes_in, long_clock, clock_in, half_in, plain_time, half_time, named_time};

use crate::Clock;
use crate::values::is_digit;
use crate::words::is_word;
use cd_ast::FaultName;
use cd_types::Day;

#[tactic(auto, unfolding(crate::specs::Starts::are_two))]
fn are_two(first: u8, second: u8) -> bool
    ensures { result ≡ are_two first second }
{
    first.is_ascii_digit() && second.is_ascii_digit()
}

/// The number that two digits write.
#[tactic(auto, unfolding(crate::specs::Starts::are_two, crate::specs::Starts::two))]
fn two(first: u8, second: u8) -> u8
    requires { IsTrue (are_two first second) }
    ensures exact { result ≡ two first second }
    ensures small { result < 100 }
{
    10 * (first - b'0') + (second - b'0')
}

/// A date in numbers, whether the calendar has such a day or not.
#[tactic(auto, unfolding(crate::specs::Starts::date_in))]
fn date_in(word: &[u8]) -> Option<Day>
    ensures { result ≡ date_in word.now }
{
    let [m, n, s, d, e, t, x, y, z, w] = word else {
        return None;
    };
    if !are_two(*m, *n) || *s != b'/' || !are_two(*d, *e) {
        return None;
    }
    if *t != b'/' || !are_two(*x, *y) || !are_two(*z, *w) {
        return None;
    }
    let year = 100 * two(*x, *y) as u16 + two(*z, *w) as u16;
    Some(Day::Date(year, two(*m, *n), two(*d, *e)))
}

/// A day that has a name.
#[tactic(auto, unfolding(crate::specs::Words::said_in))]
fn named_day(word: &[u8]) -> Option<Day>
    ensures { result ≡ said_in named_days word.now }
{
    if is_word(word, b"TODAY") {
        Some(Day::Today)
    } else if is_word(word, b"TOMORROW") {
        Some(Day::Tomorrow)
    } else if is_word(word, b"MONDAY") {
        Some(Day::Weekday(0))
    } else if is_word(word, b"TUESDAY") {
        Some(Day::Weekday(1))
    } else if is_word(word, b"WEDNESDAY") {
        Some(Day::Weekday(2))
    } else if is_word(word, b"THURSDAY") {
        Some(Day::Weekday(3))
    } else if is_word(word, b"FRIDAY") {
        Some(Day::Weekday(4))
    } else if is_word(word, b"SATURDAY") {
        Some(Day::Weekday(5))
    } else if is_word(word, b"SUNDAY") {
        Some(Day::Weekday(6))
    } else {
        None
    }
}

/// A day: one with a name, or a date.
#[tactic(auto, unfolding(crate::specs::Starts::day_in))]
pub fn day_in(word: &[u8]) -> Option<Day>
    ensures { result ≡ day_in word.now }
{
    match named_day(word) {
        Some(day) => Some(day),
        None => date_in(word),
    }
}

/// Minutes, and perhaps seconds, behind so many hours.
#[tactic(auto, unfolding(crate::specs::Starts::minutes_in))]
fn minutes_in(hours: u8, bytes: &[u8]) -> Option<Clock>
    ensures { result ≡ minutes_in hours bytes.now }
{
    match bytes {
        [m, n] => {
            if !are_two(*m, *n) {
                return None;
            }
            Some(Clock {
                hours,
                minutes: two(*m, *n),
                seconds: 0,
            })
        }
        [m, n, d, s, t] => {
            if !are_two(*m, *n) || *d != b':' || !are_two(*s, *t) {
                return None;
            }
            Some(Clock {
                hours,
                minutes: two(*m, *n),
                seconds: two(*s, *t),
            })
        }
        [] | [_] | [_, _, _] | [_, _, _, _] | [_, _, _, _, _, _, ..] => None,
    }
}

/// A time whose hour has two digits.
#[tactic(auto, unfolding(crate::specs::Starts::long_clock))]
fn long_clock(word: &[u8]) -> Option<Clock>
    ensures { result ≡ long_clock word.now }
{
    match word {
        [g, h, c, rest @ ..] => {
            if !are_two(*g, *h) || *c != b':' {
                return None;
            }
            minutes_in(two(*g, *h), rest)
        }
        [] | [_] | [_, _] => None,
    }
}

/// A time as it is written.
#[tactic(auto, unfolding(crate::specs::Starts::clock_in))]
pub fn clock_in(word: &[u8]) -> Option<Clock>
    ensures { result ≡ clock_in word.now }
{
    match word {
        [h, c, rest @ ..] => {
            if is_digit(*h) && *c == b':' {
                minutes_in(*h - b'0', rest)
            } else {
                long_clock(word)
            }
        }
        [] | [_] => None,
    }
}

/// The half of the day.
#[tactic(auto, unfolding(crate::specs::Starts::half_in, crate::specs::Words::said_in))]
pub fn half_in(word: &[u8]) -> Option<u8>
    ensures exact { result ≡ half_in word.now }
    ensures small { IfSome result (λ half. half ≤ 1) }
{
    if is_word(word, b"AM") {
        Some(0)
    } else if is_word(word, b"PM") {
        Some(1)
    } else {
        None
    }
}

/// A time of 24 hours, in seconds of the day.
#[tactic(auto, unfolding(crate::specs::Starts::plain_time))]
pub fn plain_time(clock: Clock) -> Result<u32, FaultName>
    ensures { result ≡ taken true (plain_time clock) }
{
    if clock.hours > 23 || clock.minutes > 59 || clock.seconds > 59 {
        return Err(FaultName::Range);
    }
    Ok(clock.hours as u32 * 3600 + clock.minutes as u32 * 60 + clock.seconds as u32)
}

/// A time in a half of the day, in seconds of the day.
#[tactic(auto, unfolding(crate::specs::Starts::half_time))]
pub fn half_time(clock: Clock, half: u8) -> Result<u32, FaultName>
    requires { half ≤ 1 }
    ensures { result ≡ taken true (half_time clock half) }
{
    if clock.hours < 1 || clock.hours > 12 || clock.minutes > 59 || clock.seconds > 59 {
        return Err(FaultName::Range);
    }
    let hours = clock.hours % 12 + 12 * half;
    Ok(hours as u32 * 3600 + clock.minutes as u32 * 60 + clock.seconds as u32)
}

/// NOON, MIDNIGHT, or a time with its half directly behind it, in seconds of the day.
#[tactic(auto, unfolding(crate::specs::Starts::named_time))]
pub fn named_time(word: &[u8]) -> Result<u32, FaultName>
    ensures { result ≡ taken true (named_time word.now) }
{
    if is_word(word, b"NOON") {
        return Ok(43_200);
    }
    if is_word(word, b"MIDNIGHT") {
        return Ok(0);
    }
    let (time, half) = word.split_at(word.len().saturating_sub(2));
    let Some(half) = half_in(half) else {
        return Err(FaultName::Unexpected);
    };
    match clock_in(time) {
        Some(clock) => half_time(clock, half),
        None => Err(FaultName::Unexpected),
    }
}
