//! Why reading stops.
ghost use Rattle.std.specs.Prelude.{◌≡◌};

use dfx_value::NoMemory;
use std::alloc::{AllocError, AllocFailed};

/// Why a token is refused: that at which the cursor stands.
#[derive(Clone, Copy, Debug, Drop)]
pub enum Refusal {
    /// It can't stand there.
    Unexpected,
    /// It would open a level for which there is no room.
    TooDeep,
    /// It would be one item, operator or table too many.
    TooMany,
}

/// Why reading stops.
#[derive(Clone, Copy, Debug, Drop)]
pub enum Halt {
    /// At the token where the cursor stands, or the end of the tokens.
    Refused(Refusal),
    NoMemory,
}

impl From<Refusal> for Halt {
    ghost use Rattle.expr_parser.specs.declared.halt.Halt.TheVariants.{Refused};

    ghost from_gives = { λ refusal e. e ≡ Refused refusal };

    fn from(refusal: Refusal) -> Halt {
        Halt::Refused(refusal)
    }
}

impl From<AllocError> for Halt {
    ghost use Rattle.expr_parser.specs.declared.halt.Halt.TheVariants.{NoMemory};

    ghost from_gives = { λ _ e. e ≡ NoMemory };

    fn from(_error: AllocError) -> Halt {
        Halt::NoMemory
    }
}

impl<T: Drop> From<AllocFailed<T>> for Halt {
    ghost use Rattle.expr_parser.specs.declared.halt.Halt.TheVariants.{NoMemory};

    ghost from_gives = { λ _ e. e ≡ NoMemory };

    fn from(_error: AllocFailed<T>) -> Halt {
        Halt::NoMemory
    }
}

impl From<NoMemory> for Halt {
    ghost use Rattle.expr_parser.specs.declared.halt.Halt.TheVariants.{NoMemory};

    ghost from_gives = { λ _ e. e ≡ NoMemory };

    fn from(_error: NoMemory) -> Halt {
        Halt::NoMemory
    }
}
