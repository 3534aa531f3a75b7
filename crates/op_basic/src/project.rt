//! The values of expressions on each row.

ghost use Rattle.std.specs.Prelude.{◌≡◌, ◌++◌, [], ◌∷◌, List, Some, true, IfOk, OnOk};
ghost use Rattle.column_batch.specs.Batches.{kinds_of};
ghost use Rattle.dfx_value.specs.declared.kind.Kind.{Kind};
ghost use Rattle.logical_plan.specs.Items.{Item, Cells, of_rows, projected, project_items};
ghost use Rattle.op_basic.specs.Projects.{HasKind, HaveKinds, IsMade};
ghost use Rattle.op_basic.specs.Streams.{IsEach, project_op};
ghost use Rattle.operator_poll.specs.Polls.{untold};
ghost use Rattle.operator_poll.specs.Waiting.{as_far};
ghost use Rattle.scalar_exprs.specs.declared.expr.Expr.{Expr};

use crate::asked::asked;
use column_batch::{Batch, Shared};
use dfx_value::{EvalFault, Kind, NoMemory};
use operator_poll::{OpRefused, Operator, Queue};
use scalar_exprs::Expr;
use scalar_vector::{Evaluated, eval_column};
use std::alloc::Global;

/// Gives of each row the values of expressions.
#[derive(Drop)]
pub struct ProjectOp {
    items: Vec<Expr>,
    /// The kinds of the batches that are taken; the queue has those of the batches that are given.
    kinds: Vec<Kind>,
    waiting: Queue,
    ended: bool,
}

/// Columns of the values of expressions on the first rows of a batch, those rows, and the fault of
/// the row behind them.
#[derive(Drop)]
struct Made {
    columns: Vec<Shared>,
    front: Batch,
    fault: Option<EvalFault>,
}

/// One column more: the values of an expression.
#[tactic(auto, using(crate::proofs::Projects::made_steps))]
fn with_column(
    alloc: Global,
    expr: &Expr,
    kind: Kind,
    kinds: &[Kind],
    made: Made,
) -> Result<Made, NoMemory>
    requires kinds { kinds.now ≡ made.front.kinds }
    requires kind { HasKind kinds.now expr.now kind }
    ensures made { (es : List Expr) (rows : List Cells)
        → IsMade es rows made.columns.items made.front.rows made.fault
        → IfOk result (λ m.
        IsMade (es ++ expr.now ∷ []) rows m.columns.items m.front.rows m.fault) }
    ensures columns { IfOk result (λ m.
        kinds_of m.columns.items ≡ kinds_of made.columns.items ++ kind ∷ []) }
    ensures front { IfOk result (λ m. m.front.kinds ≡ made.front.kinds) }
{
    let Made {
        mut columns,
        front,
        fault,
    } = made;
    let Evaluated { column, fault: met } = eval_column(alloc, expr, kind, kinds, &front)?;
    let count = column.len();
    columns.push(Shared::new(alloc, column)?)?;
    match met {
        None => Ok(Made {
            columns,
            front,
            fault,
        }),
        Some(_) => Ok(Made {
            columns,
            front: front.slice(alloc, 0, count)?,
            fault: met,
        }),
    }
}

/// The values of all expressions.
#[tactic(auto, using(crate::proofs::Projects::all_steps))]
fn made_of(
    alloc: Global,
    items: &[Expr],
    made: &[Kind],
    kinds: &[Kind],
    batch: Batch,
) -> Result<Made, NoMemory>
    requires kinds { kinds.now ≡ batch.kinds }
    requires items { HaveKinds kinds.now items.now made.now }
    ensures made { IfOk result (λ m.
        IsMade items.now batch.rows m.columns.items m.front.rows m.fault) }
    ensures columns { IfOk result (λ m. kinds_of m.columns.items ≡ made.now) }
{
    let mut all = Made {
        columns: Vec::with_capacity(alloc, items.len())?,
        front: batch,
        fault: None,
    };
    for at in 0..items.len() {
        all = with_column(alloc, &items[at], made[at], kinds, all)?;
    }
    Ok(all)
}

/// Puts the values of expressions on the rows of a batch, and the first fault behind those before
/// it.
fn put_projected(
    alloc: Global,
    items: &[Expr],
    kinds: &[Kind],
    batch: Batch,
    waiting: &mut Queue,
) -> Result<(), NoMemory>
    requires kinds { kinds.now ≡ batch.kinds }
    requires items { HaveKinds kinds.now items.now waiting.old.kinds }
    ensures items { OnOk result (waiting.new.items
        ≡ as_far (waiting.old.items ++ project_items items.now (of_rows batch.rows))) }
    ensures same { waiting.new.kinds ≡ waiting.old.kinds }
{
    let Made {
        columns,
        front,
        fault,
    } = made_of(alloc, items, waiting.kinds(), kinds, batch)?;
    waiting.push(Batch::of_columns(columns, front.rows()))?;
    waiting.fail(fault);
    Ok(())
}

impl ProjectOp {
    /// A projection of batches of these kinds, to batches of the kinds `made` of the expressions.
    #[tactic(auto, using(crate::proofs::Streams::each_began))]
    pub fn new(alloc: Global, items: Vec<Expr>, kinds: Vec<Kind>, made: Vec<Kind>) -> ProjectOp
        requires { HaveKinds kinds.items items.items made.items }
        ensures stands { ⟦<ProjectOp as Operator>⟧.stands result (project_op items.items) untold 0 }
        ensures takes { ⟦<ProjectOp as Operator>⟧.takes result 0 kinds.items }
        ensures makes { ⟦<ProjectOp as Operator>⟧.makes result made.items }
    {
        ProjectOp {
            items,
            kinds,
            waiting: Queue::new(alloc, made),
            ended: false,
        }
    }
}

#[tactic(auto, using(crate::proofs::Streams::each_steps))]
impl Operator for ProjectOp {
    ghost stands = { λ q op t n.
        IsEach (λ item. projected q.items.items item ∷ []) q.waiting.items q.ended op t n };

    ghost takes = { λ q input kinds.
        (kinds ≡ q.kinds.items) × HaveKinds q.kinds.items q.items.items q.waiting.kinds };

    ghost makes = { λ q kinds. kinds ≡ q.waiting.kinds };

    ghost faults = { λ q. 0 };

    fn wants(&self) -> Option<u32> {
        asked(&self.waiting, self.ended)
    }

    fn complete(&self) -> bool {
        self.ended
    }

    fn amount(&mut self, _alloc: Global, _batch: &Batch) -> Result<u64, OpRefused> {
        Ok(0)
    }

    fn accept(&mut self, alloc: Global, _input: u32, batch: Batch) -> Result<(), OpRefused> {
        put_projected(alloc, &self.items, &self.kinds, batch, &mut self.waiting)?;
        Ok(())
    }

    fn end(&mut self, _alloc: Global, _input: u32) -> Result<(), OpRefused> {
        self.ended = true;
        Ok(())
    }

    fn flush(&mut self, _alloc: Global) -> Result<(), OpRefused> {
        Ok(())
    }

    fn give(&mut self, alloc: Global, most: u32) -> Result<Option<Batch>, OpRefused> {
        self.waiting.give(alloc, most)
    }
}
