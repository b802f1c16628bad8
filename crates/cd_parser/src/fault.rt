//! Why a text isn't a Process.
ghost use Rattle.std.specs.Prelude.{◌≡◌};
ghost use Rattle.cd_parser.specs.declared.fault.ParseFault.TheVariants.{Text, NoMemory};

use cd_ast::FaultName;
use cd_lexer::{LexFault, SymFault};
use std::alloc::{AllocError, AllocFailed};
use thiserror::Error;

/// Why a text isn't a Process.
#[derive(Debug, Drop, Error)]
pub enum ParseFault {
    /// This is wrong with the text, at this place. For TooLong it is the length, and for TooMany the number of statements that
    /// there may be.
    #[error("{0:?} at {1}")]
    Text(FaultName, u64),
    /// Memory ran out.
    #[error("out of memory")]
    NoMemory,
}

impl From<AllocError> for ParseFault {
    ghost from_gives = { λ _ e. e ≡ NoMemory };

    fn from(_: AllocError) -> Self {
        ParseFault::NoMemory
    }
}

impl From<cd_types::NoMemory> for ParseFault {
    ghost from_gives = { λ _ e. e ≡ NoMemory };

    fn from(_: cd_types::NoMemory) -> Self {
        ParseFault::NoMemory
    }
}

impl<T: Drop> From<AllocFailed<T>> for ParseFault {
    ghost from_gives = { λ _ e. e ≡ NoMemory };

    fn from(_: AllocFailed<T>) -> Self {
        ParseFault::NoMemory
    }
}

/// What is wrong, and where.
pub(crate) type Found = (FaultName, u32);

impl From<Found> for ParseFault {
    ghost from_gives = { λ found e. e ≡ Text found.0 found.1 };

    fn from(found: Found) -> Self {
        ParseFault::Text(found.0, found.1 as u64)
    }
}

impl From<LexFault> for ParseFault {
    ghost use Rattle.cd_parser.specs.Lexed.{lexed};

    ghost from_gives = { λ fault e. e ≡ lexed fault };

    fn from(fault: LexFault) -> Self {
        match fault {
            LexFault::BadByte(at) => ParseFault::Text(FaultName::BadByte, at),
            LexFault::OpenQuote(at) => ParseFault::Text(FaultName::OpenQuote, at),
            LexFault::OpenComment(at) => ParseFault::Text(FaultName::OpenComment, at),
            LexFault::TooLong(len) => ParseFault::Text(FaultName::TooLong, len),
            LexFault::NoMemory => ParseFault::NoMemory,
        }
    }
}

impl From<SymFault> for ParseFault {
    ghost use Rattle.cd_parser.specs.Lexed.{unresolved};

    ghost from_gives = { λ fault e. e ≡ unresolved fault };

    fn from(fault: SymFault) -> Self {
        match fault {
            SymFault::Unresolved(at) => ParseFault::Text(FaultName::Unresolved, at),
            SymFault::TooLong(len) => ParseFault::Text(FaultName::TooLong, len),
            SymFault::NoMemory => ParseFault::NoMemory,
        }
    }
}
