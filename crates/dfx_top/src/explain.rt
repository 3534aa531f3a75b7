//! The text of a plan, written.

ghost use Rattle.std.specs.Prelude.{◌≡◌, ◌≤◌, ℕ, List, Some, Err, IfErr};
ghost use Rattle.dfx_outside.specs.Causes.{Rose};
ghost use Rattle.failure_text.specs.declared.failure.Failure.TheVariants as failure;
ghost use Rattle.dfx_top.specs.Answers.{EndedExplain};
ghost use Rattle.dfx_top.specs.Outcomes.{IsWriting, of_result};

use dfx_outside::{OutsideRefused, Sink, write_all};
use dfx_prepare::{Failure, Prepared, plan_text};
use std::alloc::Global;

/// Writes the text of a prepared query's plan.
pub fn explain<K: Sink>(alloc: Global, prepared: &Prepared, sink: &mut K) -> Result<(), Failure>
    ensures ended { (before : List ℕ) → K.told sink.old ≡ Some before
        → EndedExplain before prepared.now (K.told sink.new) (of_result result) }
    ensures write { result ≡ Err failure.Write → Rose (K.faults sink.old) (K.faults sink.new) }
    ensures later { K.faults sink.old ≤ K.faults sink.new }
    ensures writing { IfErr result IsWriting }
{
    let text = plan_text(alloc, &prepared.plan, prepared.tables.as_slice())?;
    match write_all(sink, text.as_slice()) {
        Ok(()) => Ok(()),
        Err(OutsideRefused::Failed) => Err(Failure::Write),
        Err(OutsideRefused::NoMemory) => Err(Failure::NoMemory),
    }
}
