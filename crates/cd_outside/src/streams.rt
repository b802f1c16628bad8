ghost use Rattle.std.specs.Prelude.{◌≡◌, ◌≤◌, ◌<◌, ◌↔◌, ◌++◌, [], List, ℕ, length, take, IfOk, OnOk, OnErr};
ghost use Rattle.cd_outside.specs.Counts.{Rose};
ghost use Rattle.cd_outside.specs.Streams.{TookFront};

use crate::Failed;
use cd_types::Moment;

/// The time of day.
pub trait Clock {
    /// It tells the moment that it gives.
    ghost observable: { Type 0 };

    /// That moment, in seconds.
    ghost moment: { Self → ℕ };

    /// The moment.
    fn now(&mut self) -> Moment
        ensures moment { observable → result ≡ moment self.old }
        ensures same { observable → moment self.new ≡ moment self.old };
}

/// Bytes that come in.
pub trait Source {
    /// It tells its bytes.
    ghost observable: { Type 0 };

    /// The bytes that it has still to give.
    ghost remaining: { Self → List ℕ };

    /// How often it has failed, up to the greatest u64.
    ghost faults: { Self → ℕ };

    /// Reads some bytes to the front of a buffer that isn't empty, and tells how many; 0 at the end alone. Where it
    /// fails, it gives none.
    fn read(&mut self, into: &mut [u8]) -> Result<usize, Failed>
        requires { 0 < length into.old }
        ensures within { IfOk result (λ n. n ≤ length into.old) }
        ensures given { observable → IfOk result (λ n. remaining self.old ≡ take n into.new ++ remaining self.new) }
        ensures end { observable → IfOk result (λ n. (n ≡ 0) ↔ (remaining self.old ≡ [])) }
        ensures none { observable → OnErr result (remaining self.new ≡ remaining self.old) }
        ensures later { faults self.old ≤ faults self.new }
        ensures cause { OnErr result (Rose (faults self.old) (faults self.new)) };
}

/// Bytes that go out.
pub trait Sink {
    /// It tells its bytes.
    ghost observable: { Type 0 };

    /// The bytes that it took.
    ghost taken: { Self → List ℕ };

    /// How often it has failed, up to the greatest u64.
    ghost faults: { Self → ℕ };

    /// Writes the bytes. Where it fails, it took a front of them.
    fn write(&mut self, bytes: &[u8]) -> Result<(), Failed>
        ensures taken { observable → OnOk result (taken self.new ≡ taken self.old ++ bytes.now) }
        ensures front { observable → OnErr result (TookFront (taken self.old) bytes.now (taken self.new)) }
        ensures later { faults self.old ≤ faults self.new }
        ensures cause { OnErr result (Rose (faults self.old) (faults self.new)) };
}
