use cd_ast::FaultName;
use cd_grammar::{
    Clock, Key, Lent, Sign, clock_in, day_in, front_label_in, half_in, half_time, interval_in,
    key_of, label_in, named_time, node_in, number_in, plain_time, sign_of, symbol_in,
};
use cd_types::Day;
use std::alloc::{AllocError, Global};
use std::test::Fail;

/// A number, or the name of what is wrong.
fn told<N: Into<u64>>(alloc: Global, answer: Result<N, FaultName>) -> Result<String, AllocError> {
    match answer {
        Ok(number) => {
            let number: u64 = number.into();
            format!(in alloc; "{number}")
        }
        Err(name) => format!(in alloc; "{name:?}"),
    }
}

/// Intervals, in bytes.
const INTERVALS: [(&[u8], &str); 18] = [
    (b"no", "0"),
    (b"NO", "0"),
    (b"0", "0"),
    (b"1K", "1024"),
    (b"64k", "65536"),
    (b"2M", "2097152"),
    (b"10m", "10485760"),
    (b"00000000001K", "Range"),
    (b"0000000001K", "1024"),
    (b"1048576M", "1099511627776"),
    (b"1048577M", "Range"),
    (b"1073741824K", "1099511627776"),
    (b"0K", "Range"),
    (b"00", "Range"),
    (b"5", "Range"),
    (b"1G", "Unexpected"),
    (b"abc", "Unexpected"),
    (b"K", "Unexpected"),
];

/// Priorities.
const NUMBERS: [(&[u8], &str); 8] = [
    (b"1", "1"),
    (b"15", "15"),
    (b"0000000015", "15"),
    (b"00000000015", "Range"),
    (b"0", "Range"),
    (b"16", "Range"),
    (b"abc", "Unexpected"),
    (b"1a", "Unexpected"),
];

/// Times in one word, in seconds of the day.
const TIMES: [(&[u8], &str); 22] = [
    (b"NOON", "43200"),
    (b"midnight", "0"),
    (b"0:00", "0"),
    (b"9:00", "32400"),
    (b"09:00", "32400"),
    (b"23:59:59", "86399"),
    (b"02:30PM", "52200"),
    (b"12:00AM", "0"),
    (b"12:30pm", "45000"),
    (b"1:00:01am", "3601"),
    (b"24:00", "Range"),
    (b"23:60", "Range"),
    (b"23:00:60", "Range"),
    (b"13:00PM", "Range"),
    (b"0:30AM", "Range"),
    (b"1:60AM", "Range"),
    (b"7:7", "Unexpected"),
    (b"7", "Unexpected"),
    (b"007:00", "Unexpected"),
    (b"7:00:0", "Unexpected"),
    (b"NOONPM", "Unexpected"),
    (b"PM", "Unexpected"),
];

/// A time in one word.
fn time(word: &[u8]) -> Result<u32, FaultName> {
    match clock_in(word) {
        Some(clock) => plain_time(clock),
        None => named_time(word),
    }
}

#[test]
fn values_are_read(rt: HostRuntime) -> Result<(), Fail> {
    for (word, expected) in INTERVALS {
        assert_eq!(rt; told(rt.alloc(), interval_in(word))?.as_str(), expected);
    }
    for (word, expected) in NUMBERS {
        assert_eq!(rt;
            told(rt.alloc(), number_in(1, 15, word))?.as_str(),
            expected
        );
    }
    for (word, expected) in TIMES {
        assert_eq!(rt; told(rt.alloc(), time(word))?.as_str(), expected);
    }
    Ok(())
}

#[test]
fn days_are_read(rt: HostRuntime) {
    assert_eq!(rt; day_in(b"TODAY"), Some(Day::Today));
    assert_eq!(rt; day_in(b"tomorrow"), Some(Day::Tomorrow));
    assert_eq!(rt; day_in(b"Monday"), Some(Day::Weekday(0)));
    assert_eq!(rt; day_in(b"SUNDAY"), Some(Day::Weekday(6)));
    assert_eq!(rt; day_in(b"02/30/2024"), Some(Day::Date(2024, 2, 30)));
    assert_eq!(rt; day_in(b"00/99/0000"), Some(Day::Date(0, 0, 99)));
    assert_eq!(rt; day_in(b"2/30/2024"), None);
    assert_eq!(rt; day_in(b"02/30/24"), None);
    assert_eq!(rt; day_in(b"02-30-2024"), None);
    assert_eq!(rt; day_in(b"MON"), None);
    assert_eq!(rt; half_in(b"AM"), Some(0));
    assert_eq!(rt; half_in(b"pm"), Some(1));
    assert_eq!(rt; half_in(b"A"), None);
    let clock = Clock {
        hours: 13,
        minutes: 0,
        seconds: 0,
    };
    assert!(rt; half_time(clock, 1) == Err(FaultName::Range));
}

#[test]
fn names_are_read(rt: HostRuntime) {
    assert!(rt; label_in(key_of(b"LONGLABEL"), b"LONGLABEL").err() == Some(FaultName::Range));
    assert!(rt; label_in(key_of(b"exit"), b"exit").err() == Some(FaultName::Unexpected));
    assert!(rt; label_in(key_of(b"1A"), b"1A").err() == Some(FaultName::Range));
    assert!(rt; label_in(key_of(b"ckpt"), b"ckpt").is_ok());
    assert!(rt; front_label_in(key_of(b"x&a"), b"x&a").err() == Some(FaultName::Unexpected));
    assert!(rt; front_label_in(key_of(b"&a"), b"&a").err() == Some(FaultName::Range));
    assert!(rt; front_label_in(key_of(b"ckpt"), b"ckpt").is_ok());
    assert!(rt; node_in(b"EXIT").is_ok());
    assert!(rt; node_in(b"A/B").err() == Some(FaultName::Range));
    assert!(rt; symbol_in(&Lent::new(b"&".as_slice())).is_err());
    assert!(rt; symbol_in(&Lent::new(b"&a.".as_slice())).is_err());
    assert!(rt; symbol_in(&Lent::new(b"&A1".as_slice())).is_ok());
    assert_eq!(rt; key_of(b"sysopts"), Key::Sysopts);
    assert_eq!(rt; key_of(b"PRIMECHARS"), Key::Other);
    assert_eq!(rt; sign_of(b"<>"), Sign::Unequal);
    assert_eq!(rt; sign_of(b"!="), Sign::Unequal);
    assert_eq!(rt; sign_of(b"=="), Sign::Same);
}
