ghost use Rattle.std.specs.Prelude.{◌≡◌};
ghost use Rattle.cd_lexer.specs.declared.fault.LexFault.TheVariants.{NoMemory};
ghost use Rattle.cd_lexer.specs.declared.fault.SymFault.TheVariants as sym;

use std::alloc::{AllocError, AllocFailed};
use thiserror::Error;

/// Why a text isn't cut into tokens. Places count its bytes from 0.
#[derive(Debug, Drop, Error)]
pub enum LexFault {
    /// At this place stands a byte that no text may have, a `!` that is no sign, or a byte with which the text isn't
    /// UTF-8.
    #[error("a bad byte at {0}")]
    BadByte(u64),
    /// The quote at this place isn't closed.
    #[error("an open quote at {0}")]
    OpenQuote(u64),
    /// The comment at this place isn't closed.
    #[error("an open comment at {0}")]
    OpenComment(u64),
    /// The text is longer than 262,143 bytes; this is its length.
    #[error("a text of {0} bytes")]
    TooLong(u64),
    /// Memory ran out.
    #[error("out of memory")]
    NoMemory,
}

impl<T: Drop> From<AllocFailed<T>> for LexFault {
    ghost from_gives = { λ _ e. e ≡ NoMemory };

    fn from(_: AllocFailed<T>) -> Self {
        LexFault::NoMemory
    }
}

/// Why the references of a text aren't replaced.
#[derive(Debug, Drop, Error)]
pub enum SymFault {
    /// The first reference without a value; this is the place of its `&` in the text as given.
    #[error("no value for the name at {0}")]
    Unresolved(u64),
    /// The text, or what it becomes, is longer than 65,536 bytes; this is that length.
    #[error("a text of {0} bytes")]
    TooLong(u64),
    /// Memory ran out.
    #[error("out of memory")]
    NoMemory,
}

impl From<AllocError> for SymFault {
    ghost from_gives = { λ _ e. e ≡ sym.NoMemory };

    fn from(_: AllocError) -> Self {
        SymFault::NoMemory
    }
}
