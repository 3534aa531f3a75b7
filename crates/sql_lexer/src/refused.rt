//! Why a script has no tokens.

ghost use Rattle.std.specs.Prelude.{◌≡◌};

use std::alloc::{AllocError, AllocFailed};
use thiserror::Error;

/// Why a script has no tokens. Places are those of bytes, from 0.
#[derive(Clone, Copy, Debug, Drop, Error)]
pub enum LexRefused {
    /// It has more than 1,048,576 bytes.
    #[error("too long: {length} bytes")]
    TooLong { length: u64 },
    /// It is no UTF-8 from this place on.
    #[error("no UTF-8 at {place}")]
    NotUtf8 { place: u32 },
    /// Here stands what begins no token, or what may not follow a number.
    #[error("unexpected character at {place}")]
    BadCharacter { place: u32 },
    /// The quote here has no end.
    #[error("quote without an end at {place}")]
    OpenQuote { place: u32 },
    /// The number here has more than 38 digits, leading zeros aside, or more than 38 behind its point.
    #[error("number too wide at {place}")]
    WideNumber { place: u32 },
    #[error("out of memory")]
    NoMemory,
}

impl From<AllocError> for LexRefused {
    ghost use Rattle.sql_lexer.specs.declared.refused.LexRefused.TheVariants.{NoMemory};

    ghost from_gives = { λ _ e. e ≡ NoMemory };

    fn from(_error: AllocError) -> LexRefused {
        LexRefused::NoMemory
    }
}

impl<T: Drop> From<AllocFailed<T>> for LexRefused {
    ghost use Rattle.sql_lexer.specs.declared.refused.LexRefused.TheVariants.{NoMemory};

    ghost from_gives = { λ _ e. e ≡ NoMemory };

    fn from(_error: AllocFailed<T>) -> LexRefused {
        LexRefused::NoMemory
    }
}
