//! The rows behind the first few, and at most so many of them.

ghost use Rattle.std.specs.Prelude.{◌≡◌, ◌++◌, ◌-◌, ◌||◌, List, length, IfOk, OnOk};
ghost use Rattle.dfx_value.specs.declared.kind.Kind.{Kind};
ghost use Rattle.logical_plan.specs.Items.{of_rows};
ghost use Rattle.op_basic.specs.Limits.{IsLimit, fewer, is_full};
ghost use Rattle.operator_poll.specs.Polls.{untold};
ghost use Rattle.tree_laws.specs.OperatorKinds.{cut, limit_op};

use crate::asked::asked;
use column_batch::Batch;
use dfx_value::{Kind, NoMemory};
use operator_poll::{OpRefused, Operator, Queue};
use std::alloc::Global;

/// Leaves out the first rows, and gives at most so many of those behind them.
#[derive(Drop)]
pub struct LimitOp {
    /// How many of the next rows are left out.
    skip: u64,
    /// How many rows behind these are given at most, where that is limited.
    fetch: Option<u64>,
    waiting: Queue,
    ended: bool,
}

/// The rows behind the first `skip`, at most `fetch` of them.
#[tactic(auto, using(crate::proofs::Limits::part_steps))]
fn part_of(alloc: Global, batch: Batch, skip: u64, fetch: Option<u64>) -> Result<Batch, NoMemory>
    ensures kinds { IfOk result (λ part. part.kinds ≡ batch.kinds) }
    ensures rows { IfOk result (λ part. of_rows part.rows ≡ cut skip fetch (of_rows batch.rows)) }
{
    let count = batch.rows();
    let from = skip.min(count as u64) as u32;
    match fetch {
        None => batch.slice(alloc, from, count),
        Some(most) => {
            let to = from + most.min((count - from) as u64) as u32;
            batch.slice(alloc, from, to)
        }
    }
}

/// How many rows are still given at most, where so many were taken.
fn left_of(fetch: Option<u64>, taken: u64) -> Option<u64>
    ensures { result ≡ fewer fetch taken }
{
    match fetch {
        None => None,
        Some(most) => Some(most.saturating_sub(taken)),
    }
}

/// No more rows are given.
fn is_full(fetch: Option<u64>) -> bool
    ensures { result ≡ is_full fetch }
{
    match fetch {
        None => false,
        Some(most) => most == 0,
    }
}

impl LimitOp {
    /// A limit of batches of these kinds.
    #[tactic(auto, using(crate::proofs::Limits::limit_began))]
    pub fn new(alloc: Global, skip: u64, fetch: Option<u64>, kinds: Vec<Kind>) -> LimitOp
        ensures stands { ⟦<LimitOp as Operator>⟧.stands result (limit_op skip fetch) untold 0 }
        ensures takes { ⟦<LimitOp as Operator>⟧.takes result 0 kinds.items }
        ensures makes { ⟦<LimitOp as Operator>⟧.makes result kinds.items }
    {
        LimitOp {
            skip,
            fetch,
            waiting: Queue::new(alloc, kinds),
            ended: false,
        }
    }
}

#[tactic(auto, using(crate::proofs::Limits::limit_steps))]
impl Operator for LimitOp {
    ghost stands = { λ q op t n. IsLimit q.waiting.items q.skip q.fetch q.ended op t n };

    ghost takes = { λ q input kinds. kinds ≡ q.waiting.kinds };

    ghost makes = { λ q kinds. kinds ≡ q.waiting.kinds };

    ghost faults = { λ q. 0 };

    fn wants(&self) -> Option<u32> {
        asked(&self.waiting, self.complete())
    }

    fn complete(&self) -> bool {
        self.ended || is_full(self.fetch)
    }

    fn amount(&mut self, _alloc: Global, _batch: &Batch) -> Result<u64, OpRefused> {
        Ok(0)
    }

    fn accept(&mut self, alloc: Global, _input: u32, batch: Batch) -> Result<(), OpRefused> {
        let count = batch.rows() as u64;
        let part = part_of(alloc, batch, self.skip, self.fetch)?;
        self.waiting.push(part)?;
        self.fetch = left_of(self.fetch, count.saturating_sub(self.skip));
        self.skip = self.skip.saturating_sub(count);
        Ok(())
    }

    fn end(&mut self, _alloc: Global, _input: u32) -> Result<(), OpRefused> {
        self.ended = true;
        Ok(())
    }

    fn flush(&mut self, _alloc: Global) -> Result<(), OpRefused> {
        Ok(())
    }

    fn give(&mut self, alloc: Global, most: u32) -> Result<Option<Batch>, OpRefused> {
        self.waiting.give(alloc, most)
    }
}
