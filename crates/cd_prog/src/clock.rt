use cd_outside::Clock;
use cd_types::Moment;
use std::rt::Clock as SystemTime;

/// The system's clock, in seconds since 1970. Where it can't be asked it gives the first moment, and behind the last
/// moment it stays there.
#[derive(Drop)]
pub struct SystemClock {
    rt: HostRuntime,
}

impl SystemClock {
    pub fn new(rt: HostRuntime) -> Self {
        SystemClock { rt }
    }
}

impl Clock for SystemClock {
    ghost observable = { ⊥ };

    ghost moment = { λ _. 0 };

    fn now(&mut self) -> Moment {
        let seconds = match self.rt.since_1970() {
            Ok(since) => since.as_secs(),
            Err(_) => 0,
        };
        Moment::latest(seconds)
    }
}
