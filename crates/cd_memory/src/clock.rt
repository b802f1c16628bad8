use crate::FaultScript;
use cd_outside::Clock;
use cd_types::{Moment, NoMemory};
use std::alloc::Global;

/// A clock in memory, which stands still until it is set. It begins at moment 0.
#[derive(Drop)]
pub struct MemoryClock {
    moment: Moment,
}

impl MemoryClock {
    ghost use Rattle.std.specs.Prelude.{◌≡◌, IfOk};
    ghost use Rattle.cd_memory.specs.MemoryStreams.{moment_of};

    /// A clock. None of its calls can fail, whatever the script says.
    pub fn new(_: Global, _: FaultScript) -> Result<Self, NoMemory>
        ensures { IfOk result (λ clock. moment_of clock ≡ 0) }
    {
        Ok(MemoryClock {
            moment: Moment::new(0).unwrap(),
        })
    }

    /// Gives this moment from now on.
    pub fn set(&mut self, moment: Moment)
        ensures { moment_of self.new ≡ moment }
    {
        self.moment = moment;
    }
}

impl Clock for MemoryClock {
    ghost observable = { Unit {0} };

    ghost moment = { λ clock. clock.moment };

    fn now(&mut self) -> Moment {
        self.moment
    }
}

/// A clock in memory, which stands still until it is set. It begins at moment 0.
#[derive(Drop)]
pub struct SteadyClock {
    moment: Moment,
}

impl SteadyClock {
    ghost use Rattle.std.specs.Prelude.{◌≡◌, IfOk};
    ghost use Rattle.cd_memory.specs.SteadyStreams.{moment_of};

    /// A clock.
    pub fn new(_: Global) -> Result<Self, NoMemory>
        ensures { IfOk result (λ clock. moment_of clock ≡ 0) }
    {
        Ok(SteadyClock {
            moment: Moment::new(0).unwrap(),
        })
    }

    /// Gives this moment from now on.
    pub fn set(&mut self, moment: Moment)
        ensures { moment_of self.new ≡ moment }
    {
        self.moment = moment;
    }
}

impl Clock for SteadyClock {
    ghost observable = { Unit {0} };

    ghost moment = { λ clock. clock.moment };

    fn now(&mut self) -> Moment {
        self.moment
    }
}
