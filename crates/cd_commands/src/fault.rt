//! Why a text is no command.
ghost use Rattle.std.specs.Prelude.{◌≡◌};
ghost use Rattle.cd_commands.specs.declared.fault.CommandFault.TheVariants as fault;
ghost use Rattle.cd_commands.specs.declared.fault.Stopped.TheVariants.{Left, NoMemory};

use cd_ast::FaultName;
use std::alloc::AllocFailed;
use thiserror::Error;

/// Why a text is no command.
#[derive(Debug, Drop, Error)]
pub enum CommandFault {
    /// It leaves the grammar of commands at this place, which counts from the command's first byte that is neither a blank
    /// nor in a comment.
    #[error("no command from {0} on")]
    Word(u64),
    /// The Process text in it has this fault, at this place of that text.
    #[error("{0:?} at {1} of the Process")]
    Process(FaultName, u64),
    /// Memory ran out.
    #[error("out of memory")]
    NoMemory,
}

impl From<cd_types::NoMemory> for CommandFault {
    ghost from_gives = { λ _ e. e ≡ fault.NoMemory };

    fn from(_: cd_types::NoMemory) -> Self {
        CommandFault::NoMemory
    }
}

/// Why reading tokens stopped: they are left at this place, or memory ran out.
#[derive(Debug, Drop)]
pub(crate) enum Stopped {
    Left(u32),
    NoMemory,
}

impl From<u32> for Stopped {
    ghost from_gives = { λ at e. e ≡ Left at };

    fn from(at: u32) -> Self {
        Stopped::Left(at)
    }
}

impl From<cd_types::NoMemory> for Stopped {
    ghost from_gives = { λ _ e. e ≡ NoMemory };

    fn from(_: cd_types::NoMemory) -> Self {
        Stopped::NoMemory
    }
}

impl<T: Drop> From<AllocFailed<T>> for Stopped {
    ghost from_gives = { λ _ e. e ≡ NoMemory };

    fn from(_: AllocFailed<T>) -> Self {
        Stopped::NoMemory
    }
}
