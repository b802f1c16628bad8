ghost use Rattle.std.specs.Prelude.{◌≡◌, ◌+◌, ◌<◌, ◌≤◌, ◌^◌, ◌↔◌, IsTrue};
ghost use Rattle.cd_outside.specs.Counts.{next};

use std::marker::Model;

/// The order of the moments at which a crash may come, shared by the devices of one node. It isn't the time of day.
/// Contracts see it as a number, which each changing call of a device raises by one.
#[derive(Drop)]
pub struct Beat {
    at: u64,
}

impl Model for Beat {
    ghost use Rattle.std.specs.Prelude.{ℕ};

    ghost Value = { ℕ };

    ghost view = { λ beat. beat.at };
}

impl Beat {
    /// The first beat, 0.
    pub fn new() -> Self
        ensures { result ≡ 0 }
    {
        Beat { at: 0 }
    }

    /// Its number.
    pub fn at(&self) -> u64
        ensures value { result ≡ self.now }
        ensures range { self.now < 2 ^ 64 }
    {
        self.at
    }

    /// Goes on to the next beat; `false` exactly at the greatest u64, where it stays.
    pub fn raise(&mut self) -> bool
        ensures raised { IsTrue result ↔ (self.old + 1 < 2 ^ 64) }
        ensures next { self.new ≡ next self.old }
        ensures forward { self.old ≤ self.new }
    {
        if self.at < u64::MAX {
            self.at += 1;
            true
        } else {
            false
        }
    }
}
