ghost use Rattle.std.specs.Prelude.{◌≡◌, ◌≤◌, ◌||◌, Some, None, false};
ghost use Rattle.cd_outside.specs.Counts.{next};
ghost use Rattle.cd_memory.specs.Stops.{fate_of, is_stopping};

use crate::fate::Fate;
use cd_outside::Beat;

/// A stop within the changing call that raises to a beat.
#[derive(Clone, Copy)]
pub struct Stop {
    pub at: Option<u64>,
    pub reached: bool,
}

impl Stop {
    /// No stop.
    pub fn none() -> Self
        ensures at { result.at ≡ None }
        ensures reached { result.reached ≡ false }
    {
        Stop {
            at: None,
            reached: false,
        }
    }

    /// A stop within the changing call that raises to that beat.
    pub fn at(beat: u64) -> Self
        ensures at { result.at ≡ Some beat }
        ensures reached { result.reached ≡ false }
    {
        Stop {
            at: Some(beat),
            reached: false,
        }
    }

    /// Raises the beat for a changing call, and tells what is to come of the call.
    pub fn fate(&mut self, beat: &mut Beat, fails: bool) -> Fate
        ensures fate { result ≡ fate_of self.old.at beat.old fails }
        ensures at { self.new.at ≡ self.old.at }
        ensures reached { self.new.reached ≡ (self.old.reached || is_stopping self.old.at beat.old) }
        ensures beat { beat.new ≡ next beat.old }
        ensures forward { beat.old ≤ beat.new }
    {
        if !beat.raise() {
            return Fate::Nothing;
        }
        match self.at {
            Some(at) if at <= beat.at() => {
                self.reached = true;
                if at == beat.at() {
                    Fate::UnderWay
                } else {
                    Fate::Nothing
                }
            }
            _ => { if fails { Fate::Nothing } else { Fate::Done } }
        }
    }
}
