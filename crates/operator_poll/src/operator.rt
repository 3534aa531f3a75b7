//! What every operator answers.

ghost use Rattle.std.specs.Prelude.{◌≡◌, ◌+◌, ◌^◌, ◌-◌, ◌<◌, ℕ, List, Some, Err, IfOk, IfSome, OnOk, min, take};
ghost use Rattle.dfx_outside.specs.Causes.{Rose};
ghost use Rattle.dfx_value.specs.declared.fault.EvalFault.{EvalFault};
ghost use Rattle.dfx_value.specs.declared.kind.Kind.{Kind};
ghost use Rattle.operator_poll.specs.declared.refused.OpRefused.TheVariants.{Fault, Spill};
ghost use Rattle.operator_poll.specs.Polls.{left, wants, IsCut, count};
ghost use Rattle.tree_laws.specs.Operators.{Op, Told, with_rows, with_end, with_flush};

use crate::refused::OpRefused;
use column_batch::Batch;
use std::alloc::Global;

/// An operator: it takes batches from its inputs, which are numbered from 0, and gives batches. After
/// a refusal it is only taken apart.
pub trait Operator {
    // The value is this operator, was told this, and gave so many items.
    ghost stands: { Self → Op → Told → ℕ → Type 0 };

    // It takes batches of these kinds from the input with this number.
    ghost takes: { Self → ℕ → List Kind → Type 0 };

    // What it gives has these kinds.
    ghost makes: { Self → List Kind → Type 0 };

    // The count of its spill file, or 0 where it has none.
    ghost faults: { Self → ℕ };

    /// The input that it asks; none where items are left or no more can come.
    fn wants(&self) -> Option<u32>
        ensures { (op : Op) (t : Told) (n : ℕ) → stands self.now op t n → result ≡ wants op t n };

    /// No more items can come.
    fn complete(&self) -> bool
        ensures { (op : Op) (t : Told) (n : ℕ) → stands self.now op t n
            → result ≡ op.is_complete t };

    /// The bytes that a batch of input 0 must reserve before it is taken, or 2^64 - 1 where that is
    /// less.
    fn amount(&mut self, alloc: Global, batch: &Batch) -> Result<u64, OpRefused>
        requires { takes self.old 0 batch.now.kinds }

        ensures asks { (op : Op) (t : Told) (n : ℕ) → stands self.old op t n
            → IfOk result (λ bytes. bytes ≡ min (op.amount t batch.now.rows) (2 ^ 64 - 1)) }
        ensures stays { (op : Op) (t : Told) (n : ℕ) → stands self.old op t n
            → OnOk result (stands self.new op t n) }

        ensures takes_same { (input : ℕ) (kinds : List Kind)
            → takes self.old input kinds → takes self.new input kinds }
        ensures makes_same { (kinds : List Kind)
            → makes self.old kinds → makes self.new kinds }

        ensures calm { (f : EvalFault) → ¬ (result ≡ Err (Fault f)) }
        ensures cause { result ≡ Err Spill → Rose (faults self.old) (faults self.new) };

    /// Takes a batch from the wanted input.
    fn accept(&mut self, alloc: Global, input: u32, batch: Batch) -> Result<(), OpRefused>
        requires { takes self.old input batch.kinds }

        ensures took { (op : Op) (t : Told) (n : ℕ) → stands self.old op t n
            → wants op t n ≡ Some input
            → OnOk result (stands self.new op (with_rows t input batch.rows) n) }

        ensures takes_same { (input : ℕ) (kinds : List Kind)
            → takes self.old input kinds → takes self.new input kinds }
        ensures makes_same { (kinds : List Kind)
            → makes self.old kinds → makes self.new kinds }

        ensures calm { (f : EvalFault) → ¬ (result ≡ Err (Fault f)) }
        ensures cause { result ≡ Err Spill → Rose (faults self.old) (faults self.new) };

    /// The wanted input has ended.
    fn end(&mut self, alloc: Global, input: u32) -> Result<(), OpRefused>
        ensures ended { (op : Op) (t : Told) (n : ℕ) → stands self.old op t n
            → wants op t n ≡ Some input
            → OnOk result (stands self.new op (with_end t input) n) }

        ensures takes_same { (input : ℕ) (kinds : List Kind)
            → takes self.old input kinds → takes self.new input kinds }
        ensures makes_same { (kinds : List Kind)
            → makes self.old kinds → makes self.new kinds }

        ensures calm { (f : EvalFault) → ¬ (result ≡ Err (Fault f)) }
        ensures cause { result ≡ Err Spill → Rose (faults self.old) (faults self.new) };

    /// The rows of input 0 since the last flush are a segment of their own: what was reserved for
    /// them is given back.
    fn flush(&mut self, alloc: Global) -> Result<(), OpRefused>
        ensures flushed { (op : Op) (t : Told) (n : ℕ) → stands self.old op t n
            → OnOk result (stands self.new op (with_flush t) n) }

        ensures takes_same { (input : ℕ) (kinds : List Kind)
            → takes self.old input kinds → takes self.new input kinds }
        ensures makes_same { (kinds : List Kind)
            → makes self.old kinds → makes self.new kinds }

        ensures calm { (f : EvalFault) → ¬ (result ≡ Err (Fault f)) }
        ensures cause { result ≡ Err Spill → Rose (faults self.old) (faults self.new) };

    /// The rows of the next items, at most `most`; none where no item is left. Where a fault is among
    /// these items, the first one is the answer.
    fn give(&mut self, alloc: Global, most: u32) -> Result<Option<Batch>, OpRefused>
        requires { 0 < most }

        ensures cut { (op : Op) (t : Told) (n : ℕ) → stands self.old op t n
            → IsCut (take most (left op t n)) result }
        ensures gave { (op : Op) (t : Told) (n : ℕ) → stands self.old op t n
            → IfOk result (λ given. stands self.new op t (n + count given)) }
        ensures made { (kinds : List Kind) → makes self.old kinds
            → IfOk result (λ given. IfSome given (λ batch. batch.kinds ≡ kinds)) }

        ensures takes_same { (input : ℕ) (kinds : List Kind)
            → takes self.old input kinds → takes self.new input kinds }
        ensures makes_same { (kinds : List Kind)
            → makes self.old kinds → makes self.new kinds }

        ensures cause { result ≡ Err Spill → Rose (faults self.old) (faults self.new) };
}
