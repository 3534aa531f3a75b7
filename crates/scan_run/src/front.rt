//! What a chain gives for the rows of a batch, node by node over whole columns.

ghost use Rattle.std.specs.Prelude.{◌≡◌, ◌++◌, ◌∷◌, [], ◌≤◌, true, ℕ, List, length, Ok, None, IfOk, IfSome};
ghost use Rattle.column_batch.specs.Batches.{kept};
ghost use Rattle.logical_plan.specs.Items.{Item, filter_items, project_items, of_rows};
ghost use Rattle.scan_run.specs.Chains.{over};
ghost use Rattle.scalar_exprs.specs.declared.expr.Expr.{Expr as Expression};
ghost use Rattle.scalar_vector.specs.Woven.{earlier};
ghost use Rattle.scan_run.specs.Words.{IsFrontOf, IsProjection};

use crate::columns::{column_of, kinds_of};
use column_batch::{Batch, Shared};
use dfx_value::{EvalFault, Kind, NoMemory};
use logical_plan::Logical;
use scalar_exprs::{Expr, kind_of};
use scalar_vector::{Tests, eval_batch, eval_tests};
use std::alloc::Global;

/// The rows in front of the first fault, and that fault.
#[derive(Drop)]
pub struct Front {
    pub batch: Batch,
    pub fault: Option<EvalFault>,
}

/// The rows in front of the first fault on which a test is true.
fn filter_front(alloc: Global, test: &Expr, front: Front) -> Result<Front, NoMemory>
    ensures { (items : List Item) → IsFrontOf items front.batch.rows front.fault
        → IfOk result (λ f. IsFrontOf (filter_items test.now items) f.batch.rows f.fault) }
{
    let Front { batch, fault } = front;
    let kinds = kinds_of(alloc, &batch)?;
    let tests = eval_tests(alloc, test, &kinds, &batch)?;
    keep_front(alloc, batch, fault, tests)
}

/// The rows that tests keep, up to the first fault.
fn keep_front(
    alloc: Global,
    batch: Batch,
    fault: Option<EvalFault>,
    tests: Tests,
) -> Result<Front, NoMemory>
    requires whole { tests.fault ≡ None → length tests.keep.items ≡ length batch.rows }
    requires within { length tests.keep.items ≤ length batch.rows }
    ensures rows { IfOk result (λ f. f.batch.rows ≡ kept tests.keep.items batch.rows) }
    ensures fault { IfOk result (λ f. f.fault ≡ earlier tests.fault fault) }
{
    let Tests { keep, fault: met } = tests;
    let _ = batch.rows();
    match met {
        None => Ok(Front {
            batch: batch.filter(alloc, &keep)?,
            fault,
        }),
        Some(met) => {
            let part = batch.slice(alloc, 0, keep.len() as u32)?;
            Ok(Front {
                batch: part.filter(alloc, &keep)?,
                fault: Some(met),
            })
        }
    }
}

/// The columns of the first rows of a projection, and the fault behind them.
#[derive(Drop)]
struct Projected {
    columns: Vec<Shared>,
    rows: u32,
    fault: Option<EvalFault>,
}

/// Puts the column of one more expression to a projection; false where its values aren't seen to be of one kind.
fn push_expr(
    alloc: Global,
    expr: &Expr,
    kinds: &[Kind],
    batch: &Batch,
    made: &mut Projected,
) -> Result<bool, NoMemory>
    requires kinds { kinds.now ≡ batch.now.kinds }
    ensures { (exprs : List Expression) → result ≡ Ok true
        → IsProjection exprs batch.now.rows made.old
        → IsProjection (exprs ++ expr.now ∷ []) batch.now.rows made.new }
{
    let _ = batch.rows();
    let part = eval_batch(alloc, expr, kinds, batch)?;
    let rows = part.vector.len() as u32;
    let Some(column) = column_of(alloc, kind_of(expr, kinds), part.vector)? else {
        return Ok(false);
    };
    made.columns.push(column)?;
    if rows < made.rows {
        made.rows = rows;
        made.fault = part.fault;
    }
    Ok(true)
}

/// The values of expressions over a batch's rows, up to the first fault; none where an expression's values aren't seen
/// to be of one kind.
fn project_batch(alloc: Global, exprs: &[Expr], batch: &Batch) -> Result<Option<Front>, NoMemory>
    ensures { IfOk result (λ made. IfSome made (λ f. IsFrontOf
        (project_items exprs.now (of_rows batch.now.rows)) f.batch.rows f.fault)) }
{
    let kinds = kinds_of(alloc, batch)?;
    let mut made = Projected {
        columns: Vec::with_capacity(alloc, exprs.len())?,
        rows: batch.rows(),
        fault: None,
    };
    for expr in exprs {
        if !push_expr(alloc, expr, &kinds, batch, &mut made)? {
            return Ok(None);
        }
    }
    let Projected {
        columns,
        rows,
        fault,
    } = made;
    Ok(Some(Front {
        batch: Batch::of_columns(columns, rows),
        fault,
    }))
}

/// The values of expressions over the rows in front of the first fault.
fn project_front(alloc: Global, exprs: &[Expr], front: Front) -> Result<Option<Front>, NoMemory>
    ensures { (items : List Item) → IsFrontOf items front.batch.rows front.fault
        → IfOk result (λ made. IfSome made (λ f. IsFrontOf
        (project_items exprs.now items) f.batch.rows f.fault)) }
{
    let Front { batch, fault } = front;
    match project_batch(alloc, exprs, &batch)? {
        None => Ok(None),
        Some(made) => Ok(Some(Front {
            batch: made.batch,
            fault: first_of(made.fault, fault),
        })),
    }
}

/// What a chain gives for the rows of a batch, up to the first fault; none where the values of an expression aren't seen
/// to be of one kind.
#[tactic(auto, using(crate::proofs::ChainSteps::overs))]
pub(crate) fn pass_batch(
    alloc: Global,
    body: &Logical,
    batch: &Batch,
) -> Result<Option<Front>, NoMemory>
    ensures { IfOk result (λ made. IfSome made (λ f. IsFrontOf
        (over body.now (of_rows batch.now.rows)) f.batch.rows f.fault)) }
{
    match body {
        Logical::Scan { table: _, kinds: _ } => Ok(Some(Front {
            batch: batch.slice(alloc, 0, batch.rows())?,
            fault: None,
        })),
        Logical::Filter { input, test } => match pass_batch(alloc, input.get(), batch)? {
            Some(front) => Ok(Some(filter_front(alloc, test, front)?)),
            None => Ok(None),
        },
        Logical::Project { input, items } => match pass_batch(alloc, input.get(), batch)? {
            Some(front) => project_front(alloc, items.as_slice(), front),
            None => Ok(None),
        },
        Logical::Join {
            kind: _,
            left: _,
            right: _,
            keys: _,
            rest: _,
        }
        | Logical::Aggregate {
            input: _,
            keys: _,
            calls: _,
        }
        | Logical::Distinct { input: _ }
        | Logical::UnionAll { inputs: _ } => Ok(None),
    }
}

/// The first of two faults.
fn first_of(first: Option<EvalFault>, second: Option<EvalFault>) -> Option<EvalFault>
    ensures { result ≡ earlier first second }
{
    match first {
        Some(fault) => Some(fault),
        None => second,
    }
}
