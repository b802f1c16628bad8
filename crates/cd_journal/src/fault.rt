ghost use Rattle.std.specs.Prelude.{◌≡◌};
ghost use Rattle.cd_journal.specs.declared.fault.JournalFault.TheVariants.{Disk, NoMemory};

use cd_outside::Failed;
use std::alloc::{AllocError, AllocFailed};
use thiserror::Error;

/// Why a call of a journal wasn't done. Places count bytes from 0.
#[derive(Debug, Drop, Error)]
pub enum JournalFault {
    /// The disk failed: its count of faults rose.
    #[error("the journal's disk failed")]
    Disk,
    /// The next entry would make the journal, which has this length, longer than 2^30 bytes.
    #[error("the journal is full at {0} bytes")]
    Full(u64),
    /// The bytes from this place on aren't a journal's.
    #[error("the journal's bytes at {0} are not a journal's")]
    Unfit(u64),
    /// Memory ran out.
    #[error("no memory")]
    NoMemory,
}

impl From<AllocError> for JournalFault {
    ghost from_gives = { λ _ e. e ≡ NoMemory };

    fn from(_: AllocError) -> Self {
        JournalFault::NoMemory
    }
}

impl<T: Drop> From<AllocFailed<T>> for JournalFault {
    ghost from_gives = { λ _ e. e ≡ NoMemory };

    fn from(_: AllocFailed<T>) -> Self {
        JournalFault::NoMemory
    }
}

impl From<Failed> for JournalFault {
    ghost from_gives = { λ _ e. e ≡ Disk };

    fn from(_: Failed) -> Self {
        JournalFault::Disk
    }
}
