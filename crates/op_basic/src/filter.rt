//! The rows that a test keeps.

ghost use Rattle.std.specs.Prelude.{◌≡◌, ◌++◌, ◌≤◌, List, length, OnOk, IfOk};
ghost use Rattle.column_batch.specs.Batches.{kept};
ghost use Rattle.dfx_value.specs.declared.kind.Kind.{Kind};
ghost use Rattle.logical_plan.specs.Items.{Item, of_rows, filtered, filter_items};
ghost use Rattle.op_basic.specs.Streams.{IsEach, filter_op};
ghost use Rattle.operator_poll.specs.Polls.{untold};
ghost use Rattle.operator_poll.specs.Waiting.{as_far};

use crate::asked::asked;
use column_batch::Batch;
use dfx_value::{Kind, NoMemory};
use operator_poll::{OpRefused, Operator, Queue};
use scalar_exprs::Expr;
use scalar_vector::eval_tests;
use std::alloc::Global;

/// Gives the rows that a test keeps.
#[derive(Drop)]
pub struct FilterOp {
    test: Expr,
    waiting: Queue,
    ended: bool,
}

/// The rows whose bit is true; those behind the last bit are left out.
#[tactic(auto, using(crate::proofs::Filters::kept_first))]
fn kept_rows(alloc: Global, batch: Batch, keep: &[bool]) -> Result<Batch, NoMemory>
    requires { length keep.now ≤ length batch.rows }
    ensures kinds { IfOk result (λ picked. picked.kinds ≡ batch.kinds) }
    ensures rows { IfOk result (λ picked. picked.rows ≡ kept keep.now batch.rows) }
{
    if keep.len() == batch.rows() as usize {
        return batch.filter(alloc, keep);
    }
    batch
        .slice(alloc, 0, keep.len() as u32)?
        .filter(alloc, keep)
}

/// Puts the rows of a batch that a test keeps, and the first fault of the test behind those before it.
#[tactic(auto, using(crate::proofs::Filters::filter_steps))]
fn put_kept(alloc: Global, test: &Expr, batch: Batch, waiting: &mut Queue) -> Result<(), NoMemory>
    requires { batch.kinds ≡ waiting.old.kinds }
    ensures items { OnOk result (waiting.new.items
        ≡ as_far (waiting.old.items ++ filter_items test.now (of_rows batch.rows))) }
    ensures same { waiting.new.kinds ≡ waiting.old.kinds }
{
    let tests = eval_tests(alloc, test, waiting.kinds(), &batch)?;
    let kept = kept_rows(alloc, batch, &tests.keep)?;
    waiting.push(kept)?;
    waiting.fail(tests.fault);
    Ok(())
}

impl FilterOp {
    /// A filter of batches of these kinds.
    #[tactic(auto, using(crate::proofs::Streams::each_began))]
    pub fn new(alloc: Global, test: Expr, kinds: Vec<Kind>) -> FilterOp
        ensures stands { ⟦<FilterOp as Operator>⟧.stands result (filter_op test) untold 0 }
        ensures takes { ⟦<FilterOp as Operator>⟧.takes result 0 kinds.items }
        ensures makes { ⟦<FilterOp as Operator>⟧.makes result kinds.items }
    {
        FilterOp {
            test,
            waiting: Queue::new(alloc, kinds),
            ended: false,
        }
    }
}

#[tactic(auto, using(crate::proofs::Streams::each_steps))]
impl Operator for FilterOp {
    ghost stands = { λ q op t n. IsEach (filtered q.test) q.waiting.items q.ended op t n };

    ghost takes = { λ q input kinds. kinds ≡ q.waiting.kinds };

    ghost makes = { λ q kinds. kinds ≡ q.waiting.kinds };

    ghost faults = { λ q. 0 };

    fn wants(&self) -> Option<u32> {
        asked(&self.waiting, self.ended)
    }

    fn complete(&self) -> bool {
        self.ended
    }

    fn amount(&mut self, _alloc: Global, _batch: &Batch) -> Result<u64, OpRefused> {
        Ok(0)
    }

    fn accept(&mut self, alloc: Global, _input: u32, batch: Batch) -> Result<(), OpRefused> {
        put_kept(alloc, &self.test, batch, &mut self.waiting)?;
        Ok(())
    }

    fn end(&mut self, _alloc: Global, _input: u32) -> Result<(), OpRefused> {
        self.ended = true;
        Ok(())
    }

    fn flush(&mut self, _alloc: Global) -> Result<(), OpRefused> {
        Ok(())
    }

    fn give(&mut self, alloc: Global, most: u32) -> Result<Option<Batch>, OpRefused> {
        self.waiting.give(alloc, most)
    }
}
