#![tactic(auto, unfolding(crate::specs::Text::ranged_in))]

ghost use Rattle.std.specs.Prelude.{◌≡◌, ◌↔◌, ⊤, min, IsSome, IfSome};
ghost use Rattle.cd_types.specs.Number.{number_bytes};
ghost use Rattle.cd_types.specs.Moment.{is_moment, IsMoment};
ghost use Rattle.cd_types.specs.MomentLaw.{moment_law};
ghost use Rattle.cd_types.specs.Text.{ranged_in};

use crate::{Field, Small};
use std::marker::Model;

/// A moment, in seconds. Contracts see it as that number, from 0 to 249,999,999,999.
#[derive(Clone, Copy, Debug, PartialEq, Eq, PartialOrd, Ord)]
pub struct Moment {
    seconds: u64,
}

impl Model for Moment {
    ghost use Rattle.std.specs.Prelude.{ℕ};
    ghost use Rattle.cd_types.specs.Moment.{IsMoment};

    ghost Value = { ℕ };

    ghost view = { λ moment. moment.seconds };

    ghost invariant = { λ moment. IsMoment moment.seconds };

    ghost inverse = { λ seconds. record { seconds = seconds } };
}

impl Moment {
    /// The moment of that many seconds; `None` exactly where they are no moment.
    pub fn new(seconds: u64) -> Option<Self>
        ensures form { IsSome result ↔ IsMoment seconds }
        ensures value { IfSome result (λ moment. moment ≡ seconds) }
    {
        if seconds < 250_000_000_000 {
            Some(Moment { seconds })
        } else {
            None
        }
    }

    /// That moment, or the last one where it lies behind that.
    pub fn latest(seconds: u64) -> Self
        ensures { result ≡ min seconds 249999999999 }
    {
        Moment {
            seconds: seconds.min(249_999_999_999),
        }
    }

    /// Its number of seconds.
    pub fn seconds(self) -> u64
        ensures value { result ≡ self }
        ensures form { IsMoment self }
    {
        self.seconds
    }
}

/// Eight bytes.
impl Field for Moment {
    ghost form = { IsMoment };

    ghost writable = { λ _. ⊤ };

    ghost longest = { 8 };

    ghost spelled = { number_bytes 8 };

    ghost found_in = { ranged_in 8 is_moment };

    ghost law = { moment_law };

    fn front(bytes: &[u8]) -> Option<(Moment, &[u8])> {
        let (seconds, rest) = u64::front(bytes)?;
        Some((Moment::new(seconds)?, rest))
    }

    fn size(&self) -> usize {
        self.seconds().size()
    }

    fn put(&self, into: &mut Vec<u8>) {
        self.seconds().put(into);
    }
}

impl Small for Moment {
    ghost use Rattle.std.proofs.Common.{arith};

    ghost small = { Prim.omega arith };
}
