//! Why a plan has no tasks.

use dfx_value::NoMemory;
use std::alloc::AllocError;

/// Why a call made no tasks of a plan.
#[derive(Debug, Drop)]
pub enum PlanRefused {
    /// Some node is none of those of which tasks are made.
    NotBuilt,
    /// The columns of some node's input have no kinds.
    NoKind,
    /// There was no memory, or there are 2^32 sources, stages or partitions.
    NoMemory,
}

impl From<NoMemory> for PlanRefused {
    ghost use Rattle.std.specs.Prelude.{◌≡◌};
    ghost use Rattle.task_plans.specs.declared.refused.PlanRefused.TheVariants.{NoMemory};

    ghost from_gives = { λ _ e. e ≡ NoMemory };

    fn from(_: NoMemory) -> PlanRefused {
        PlanRefused::NoMemory
    }
}

impl From<AllocError> for PlanRefused {
    ghost use Rattle.std.specs.Prelude.{◌≡◌};
    ghost use Rattle.task_plans.specs.declared.refused.PlanRefused.TheVariants.{NoMemory};

    ghost from_gives = { λ _ e. e ≡ NoMemory };

    fn from(_: AllocError) -> PlanRefused {
        PlanRefused::NoMemory
    }
}
