//! Why the columns of a plan have no kinds.

use dfx_value::NoMemory;
use std::alloc::{AllocError, AllocFailed};

/// Why a call answered no kinds.
#[derive(Debug, Drop)]
pub enum KindsRefused {
    /// Some column has no kind, or the inputs of a union have different ones.
    NoKind,
    /// There was no memory for the list.
    NoMemory,
}

impl From<NoMemory> for KindsRefused {
    ghost use Rattle.std.specs.Prelude.{◌≡◌};
    ghost use Rattle.plan_kinds.specs.declared.refused.KindsRefused.TheVariants.{NoMemory};

    ghost from_gives = { λ _ e. e ≡ NoMemory };

    fn from(_: NoMemory) -> KindsRefused {
        KindsRefused::NoMemory
    }
}

impl From<AllocError> for KindsRefused {
    ghost use Rattle.std.specs.Prelude.{◌≡◌};
    ghost use Rattle.plan_kinds.specs.declared.refused.KindsRefused.TheVariants.{NoMemory};

    ghost from_gives = { λ _ e. e ≡ NoMemory };

    fn from(_: AllocError) -> KindsRefused {
        KindsRefused::NoMemory
    }
}

impl<T: Drop> From<AllocFailed<T>> for KindsRefused {
    ghost use Rattle.std.specs.Prelude.{◌≡◌};
    ghost use Rattle.plan_kinds.specs.declared.refused.KindsRefused.TheVariants.{NoMemory};

    ghost from_gives = { λ _ e. e ≡ NoMemory };

    fn from(_: AllocFailed<T>) -> KindsRefused {
        KindsRefused::NoMemory
    }
}
