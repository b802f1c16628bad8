//! Why there is no report.
ghost use Rattle.std.specs.Prelude.{◌≡◌};
ghost use Rattle.cd_drill.specs.declared.fault.DrillFault.TheVariants.{NoMemory};

use cd_effects::Fault;
use std::alloc::{AllocError, AllocFailed};
use thiserror::Error;

/// Why there is no report.
#[derive(Clone, Copy, Debug, PartialEq, Eq, Error)]
pub enum DrillFault {
    /// The line that begins at this place asks for nothing that a line may ask for.
    #[error("no line of a script at {0}")]
    ScriptText(u64),
    /// Memory ran out; also where it ran out for a device, so that a node couldn't do all that its rules say, or where a journal would be
    /// longer than 2^30 bytes.
    #[error("no memory")]
    NoMemory,
}

impl From<AllocError> for DrillFault {
    ghost from_gives = { λ _ e. e ≡ NoMemory };

    fn from(_: AllocError) -> Self {
        DrillFault::NoMemory
    }
}

impl<T: Drop> From<AllocFailed<T>> for DrillFault {
    ghost from_gives = { λ _ e. e ≡ NoMemory };

    fn from(_: AllocFailed<T>) -> Self {
        DrillFault::NoMemory
    }
}

impl From<cd_types::NoMemory> for DrillFault {
    ghost from_gives = { λ _ e. e ≡ NoMemory };

    fn from(_: cd_types::NoMemory) -> Self {
        DrillFault::NoMemory
    }
}

// The devices of a drill fail only where they find no memory.
impl From<Fault> for DrillFault {
    ghost from_gives = { λ _ e. e ≡ NoMemory };

    fn from(_: Fault) -> Self {
        DrillFault::NoMemory
    }
}
