//! What stations need, what they are answered, what a step gives, and why there is none.

ghost use Rattle.std.specs.Prelude.{◌≡◌};

use crate::operator::OperatorRefused;
use column_batch::Batch;
use dfx_value::NoMemory;
use run_journal::Cause;
use std::alloc::{AllocError, AllocFailed};

/// What the stations of a task ask next.
#[derive(Drop)]
pub enum Need {
    /// To read on in a file.
    Scan,
    /// The next batch of a channel.
    Recv { group: u32, channel: u32 },
    /// To reserve so many bytes more.
    Grow { consumer: u32, bytes: u64 },
    /// To give back the bytes that are held, so many.
    Free { consumer: u32, bytes: u64 },
    /// That the run fails.
    Fail(Cause),
}

/// What stations are answered.
#[derive(Drop)]
pub enum Answer {
    /// It was done: read, reserved or given back.
    Go,
    /// The next batch of the channel.
    Batch(Batch),
    /// The channel has ended.
    Ended,
    /// The bytes are not reserved.
    Refused,
}

/// What stations give when they are asked for a batch.
#[derive(Drop)]
pub enum Step {
    /// A batch.
    Gives(Batch),
    /// There are no more.
    Ends,
    /// A step was made that asks nobody.
    Moves,
    /// A need, which is to be answered first.
    Asks(Need),
}

/// Why there is no step. Its stations stand for nothing more.
#[derive(Clone, Copy, Debug, PartialEq, Eq)]
pub enum StepRefused {
    /// There was no memory.
    NoMemory,
    /// A source failed.
    Read,
    /// A spill file failed.
    Spill,
    /// The sink failed.
    Write,
}

impl From<NoMemory> for StepRefused {
    ghost use Rattle.task_stations.specs.declared.needs.StepRefused.TheVariants as refused;

    ghost from_gives = { λ _ e. e ≡ refused.NoMemory };

    fn from(_: NoMemory) -> StepRefused {
        StepRefused::NoMemory
    }
}

impl From<AllocError> for StepRefused {
    ghost use Rattle.task_stations.specs.declared.needs.StepRefused.TheVariants as refused;

    ghost from_gives = { λ _ e. e ≡ refused.NoMemory };

    fn from(_: AllocError) -> StepRefused {
        StepRefused::NoMemory
    }
}

impl<T: Drop> From<AllocFailed<T>> for StepRefused {
    ghost use Rattle.task_stations.specs.declared.needs.StepRefused.TheVariants as refused;

    ghost from_gives = { λ _ e. e ≡ refused.NoMemory };

    fn from(_: AllocFailed<T>) -> StepRefused {
        StepRefused::NoMemory
    }
}

impl From<OperatorRefused> for StepRefused {
    ghost use Rattle.task_stations.specs.Gives.{step_refused};

    ghost from_gives = { λ r e. e ≡ step_refused r };

    fn from(refused: OperatorRefused) -> StepRefused {
        match refused {
            OperatorRefused::Spill => StepRefused::Spill,
            OperatorRefused::NoMemory => StepRefused::NoMemory,
        }
    }
}
