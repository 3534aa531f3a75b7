//! Why an operator's call has no answer.

use dfx_value::{EvalFault, NoMemory};
use std::alloc::{AllocError, AllocFailed};

/// Why an operator's call has no answer. After one the operator is only taken apart.
#[derive(Debug, Drop)]
pub enum OpRefused {
    /// The next item is a fault.
    Fault(EvalFault),
    /// The operator's spill file failed.
    Spill,
    /// There was no memory for what the call makes.
    NoMemory,
}

impl From<NoMemory> for OpRefused {
    ghost use Rattle.std.specs.Prelude.{◌≡◌};
    ghost use Rattle.operator_poll.specs.declared.refused.OpRefused.TheVariants.{NoMemory};

    ghost from_gives = { λ _ e. e ≡ NoMemory };

    fn from(_: NoMemory) -> OpRefused {
        OpRefused::NoMemory
    }
}

impl From<AllocError> for OpRefused {
    ghost use Rattle.std.specs.Prelude.{◌≡◌};
    ghost use Rattle.operator_poll.specs.declared.refused.OpRefused.TheVariants.{NoMemory};

    ghost from_gives = { λ _ e. e ≡ NoMemory };

    fn from(_: AllocError) -> OpRefused {
        OpRefused::NoMemory
    }
}

impl<T: Drop> From<AllocFailed<T>> for OpRefused {
    ghost use Rattle.std.specs.Prelude.{◌≡◌};
    ghost use Rattle.operator_poll.specs.declared.refused.OpRefused.TheVariants.{NoMemory};

    ghost from_gives = { λ _ e. e ≡ NoMemory };

    fn from(_: AllocFailed<T>) -> OpRefused {
        OpRefused::NoMemory
    }
}
