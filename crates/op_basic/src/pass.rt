//! The operator that hands on what it takes.

ghost use Rattle.std.specs.Prelude.{◌≡◌, List, [], ◌∷◌};
ghost use Rattle.dfx_value.specs.declared.kind.Kind.{Kind};
ghost use Rattle.dfx_value.specs.Items.{Item};
ghost use Rattle.op_basic.specs.Streams.{IsEach, pass_op};
ghost use Rattle.operator_poll.specs.Polls.{untold};

use crate::asked::asked;
use column_batch::Batch;
use dfx_value::Kind;
use operator_poll::{OpRefused, Operator, Queue};
use std::alloc::Global;

/// Hands on the batches of one input.
#[derive(Drop)]
pub struct PassOp {
    waiting: Queue,
    ended: bool,
}

impl PassOp {
    /// An operator over batches of these kinds.
    #[tactic(auto, using(crate::proofs::Streams::each_began))]
    pub fn new(alloc: Global, kinds: Vec<Kind>) -> PassOp
        ensures stands { ⟦<PassOp as Operator>⟧.stands result pass_op untold 0 }
        ensures takes { ⟦<PassOp as Operator>⟧.takes result 0 kinds.items }
        ensures makes { ⟦<PassOp as Operator>⟧.makes result kinds.items }
    {
        PassOp {
            waiting: Queue::new(alloc, kinds),
            ended: false,
        }
    }
}

#[tactic(auto, using(crate::proofs::Streams::each_steps))]
impl Operator for PassOp {
    ghost stands = { λ q op t n. IsEach (λ item. item ∷ []) q.waiting.items q.ended op t n };

    ghost takes = { λ q input kinds. kinds ≡ q.waiting.kinds };

    ghost makes = { λ q kinds. kinds ≡ q.waiting.kinds };

    ghost faults = { λ q. 0 };

    fn wants(&self) -> Option<u32> {
        asked(&self.waiting, self.ended)
    }

    fn complete(&self) -> bool {
        self.ended
    }

    fn amount(&mut self, _alloc: Global, _batch: &Batch) -> Result<u64, OpRefused> {
        Ok(0)
    }

    fn accept(&mut self, _alloc: Global, _input: u32, batch: Batch) -> Result<(), OpRefused> {
        self.waiting.push(batch)?;
        Ok(())
    }

    fn end(&mut self, _alloc: Global, _input: u32) -> Result<(), OpRefused> {
        self.ended = true;
        Ok(())
    }

    fn flush(&mut self, _alloc: Global) -> Result<(), OpRefused> {
        Ok(())
    }

    fn give(&mut self, alloc: Global, most: u32) -> Result<Option<Batch>, OpRefused> {
        self.waiting.give(alloc, most)
    }
}
