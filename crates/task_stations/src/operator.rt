//! What stations ask of the code of an operator.

ghost use Rattle.std.specs.Prelude.{◌≡◌, ◌+◌, ◌-◌, ◌^◌, ◌<◌, ◌≤◌, ℕ, List, [], Err, false, true, min, drop, OnOk, IfOk};
ghost use Rattle.dfx_outside.specs.Causes.{Rose};
ghost use Rattle.tree_laws.specs.Operators.{Op, Told, with_rows, with_end, with_flush};
ghost use Rattle.task_stations.specs.declared.operator.OperatorRefused.TheVariants as refused;
ghost use Rattle.task_stations.specs.Gives.{IsCut, UnlessFault, count};

use column_batch::Batch;
use dfx_value::ItemFault;
use std::alloc::Global;

/// What an operator gives.
#[derive(Drop)]
pub enum Given {
    /// No item is left.
    Nothing,
    /// The next items, which are rows.
    Rows(Batch),
    /// The first fault among the next items.
    Fault(ItemFault),
}

/// Why an operator's call has no answer. It stands for nothing more.
#[derive(Clone, Copy, Debug, PartialEq, Eq)]
pub enum OperatorRefused {
    /// Its spill file failed.
    Spill,
    /// There was no memory.
    NoMemory,
}

/// The code of an operator.
pub trait Operator {
    /// It is this operator, was told this, and gave so many items.
    ghost stands: { Self → Op → Told → ℕ → Type 0 };

    /// How often its spill file failed, or 0 where it has none. It never falls.
    ghost faults: { Self → ℕ };

    /// The input that it asks, where no item is left and more can come.
    fn wanted(&self) -> u32
        ensures { (op : Op) (t : Told) (n : ℕ) → stands self.now op t n
            → drop n (op.items t) ≡ [] → op.is_complete t ≡ false → result ≡ op.wanted t };

    /// Whether no more items can come.
    fn is_complete(&self) -> bool
        ensures { (op : Op) (t : Told) (n : ℕ) → stands self.now op t n
            → result ≡ op.is_complete t };

    /// The bytes that a batch of input 0 must reserve before it is taken, or 2^64 - 1 where that is less.
    fn amount(&mut self, alloc: Global, batch: &Batch) -> Result<u64, OperatorRefused>
        ensures asks { (op : Op) (t : Told) (n : ℕ) → stands self.old op t n
            → IfOk result (λ bytes. bytes ≡ min (op.amount t batch.now.rows) (2 ^ 64 - 1)) }
        ensures stays { (op : Op) (t : Told) (n : ℕ) → stands self.old op t n
            → OnOk result (stands self.new op t n) }
        ensures later { faults self.old ≤ faults self.new }
        ensures failed { result ≡ Err refused.Spill → Rose (faults self.old) (faults self.new) };

    /// Takes a batch of the wanted input.
    fn accept(&mut self, alloc: Global, input: u32, batch: Batch) -> Result<(), OperatorRefused>
        ensures took { (op : Op) (t : Told) (n : ℕ) → stands self.old op t n
            → drop n (op.items t) ≡ [] → op.is_complete t ≡ false → input ≡ op.wanted t
            → OnOk result (stands self.new op (with_rows t (op.wanted t) batch.rows) n) }
        ensures later { faults self.old ≤ faults self.new }
        ensures failed { result ≡ Err refused.Spill → Rose (faults self.old) (faults self.new) };

    /// The wanted input has ended.
    fn end(&mut self, alloc: Global, input: u32) -> Result<(), OperatorRefused>
        ensures ended { (op : Op) (t : Told) (n : ℕ) → stands self.old op t n
            → drop n (op.items t) ≡ [] → op.is_complete t ≡ false → input ≡ op.wanted t
            → OnOk result (stands self.new op (with_end t (op.wanted t)) n) }
        ensures later { faults self.old ≤ faults self.new }
        ensures failed { result ≡ Err refused.Spill → Rose (faults self.old) (faults self.new) };

    /// Closes the segment.
    fn flush(&mut self, alloc: Global) -> Result<(), OperatorRefused>
        ensures flushed { (op : Op) (t : Told) (n : ℕ) → stands self.old op t n
            → drop n (op.items t) ≡ [] → op.is_complete t ≡ false
            → OnOk result (stands self.new op (with_flush t) n) }
        ensures later { faults self.old ≤ faults self.new }
        ensures failed { result ≡ Err refused.Spill → Rose (faults self.old) (faults self.new) };

    /// The next items, at most so many.
    fn give(&mut self, alloc: Global, most: u32) -> Result<Given, OperatorRefused>
        requires { 0 < most }

        ensures cut { (op : Op) (t : Told) (n : ℕ) → stands self.old op t n
            → IfOk result (λ g. IsCut most (drop n (op.items t)) g) }
        ensures gave { (op : Op) (t : Told) (n : ℕ) → stands self.old op t n
            → IfOk result (λ g. UnlessFault g (stands self.new op t (n + count g))) }
        ensures later { faults self.old ≤ faults self.new }
        ensures failed { result ≡ Err refused.Spill → Rose (faults self.old) (faults self.new) };
}
