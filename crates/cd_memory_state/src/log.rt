ghost use Rattle.std.specs.Prelude.{◌≡◌, length};

use crate::parts::Parts;
use crate::step::{Change, Step};
use cd_types::NoMemory;
use std::alloc::Global;

/// A record of the calls of files, each with its name and its bytes.
#[derive(Drop)]
pub struct Log {
    steps: Vec<Step>,
    names: Parts,
    bytes: Parts,
    ghost named: { length names.items ≡ length steps.items },
    ghost filled: { length bytes.items ≡ length steps.items },
}

impl Log {
    ghost use Rattle.std.specs.Prelude.{◌≡◌, ◌≤◌, ◌<◌, ◌+◌, ◌^◌, max, length, IsOk, OnOk};
    ghost use Rattle.cd_memory_state.specs.Log.{log_state, log_calls_left, log_bytes_left};
    ghost use Rattle.cd_memory_state.specs.Steps.{applied, no_files};

    /// No call, and no room.
    pub fn new(alloc: Global) -> Self
        ensures { log_state result ≡ no_files }
    {
        Log {
            steps: Vec::new(alloc),
            names: Parts::new(alloc),
            bytes: Parts::new(alloc),
        }
    }

    /// Takes room for that many further calls with so many bytes in all; none where it is there.
    pub fn room(&mut self, calls: usize, bytes: usize) -> Result<(), NoMemory>
        ensures state { log_state self.new ≡ log_state self.old }
        ensures calls { OnOk result (calls ≤ log_calls_left self.new) }
        ensures bytes { OnOk result (bytes ≤ log_bytes_left self.new) }
        ensures more_calls { log_calls_left self.old ≤ log_calls_left self.new }
        ensures more_bytes { log_bytes_left self.old ≤ log_bytes_left self.new }
        ensures there { calls ≤ log_calls_left self.old → bytes ≤ log_bytes_left self.old → IsOk result }
        ensures range { OnOk result (log_bytes_left self.new < 2 ^ 63) }
    {
        self.steps.reserve(calls)?;
        self.names.room(calls, bytes)?;
        self.bytes.room(calls, bytes)
    }

    /// Adds a call.
    pub fn add(&mut self, beat: u64, change: Change, name: &[u8], bytes: &[u8])
        requires calls { 1 ≤ log_calls_left self.old }
        requires name { length name.now ≤ log_bytes_left self.old }
        requires bytes { length bytes.now ≤ log_bytes_left self.old }
        ensures state { log_state self.new ≡ applied change beat name.now bytes.now (log_state self.old) }
        ensures calls { log_calls_left self.old ≤ log_calls_left self.new + 1 }
        ensures bytes { log_bytes_left self.old ≤ log_bytes_left self.new + max (length name.now) (length bytes.now) }
    {
        self.steps.push_reserved(Step { beat, change });
        self.names.push(name);
        self.bytes.push(bytes);
    }
}
