//! The lines of what a chain gives for the rows of a batch.

ghost use Rattle.std.specs.Prelude.{◌∷◌, [], List, Ok};
ghost use Rattle.logical_plan.specs.Items as item;
ghost use Rattle.logical_plan.specs.Items.{Item, of_rows};
ghost use Rattle.scalar_exprs.specs.Eval as value;
ghost use Rattle.scan_run.specs.Chains.{over};
ghost use Rattle.scan_run.specs.Words.{Passes, Adds, IsFrontOf};

use crate::front::{Front, pass_batch};
use column_batch::Batch;
use dfx_value::{Row, Value};
use logical_plan::Logical;
use result_text::RowLines;
use scalar_exprs::{EvalRefused, Expr, eval};
use std::alloc::Global;

/// The row, where a test is true on it.
fn test_row(alloc: Global, test: &Expr, row: Row) -> Result<Option<Row>, EvalRefused>
    ensures { Passes result (item.tested row (value.eval row test.now)) }
{
    match eval(alloc, test, &row)? {
        Value::Bool(true) => Ok(Some(row)),
        _ => Ok(None),
    }
}

/// The values of expressions over a row.
fn project_row(alloc: Global, exprs: &[Expr], row: &Row) -> Result<Row, EvalRefused>
    ensures { value.Gives result (item.projected_row exprs.now row.now) }
{
    let mut cells = Vec::with_capacity(alloc, exprs.len())?;
    for expr in exprs {
        let Ok(()) = cells.push(eval(alloc, expr, row)?) else {
            return Err(EvalRefused::NoMemory);
        };
    }
    Ok(Row { cells })
}

/// The row that a chain gives for a row of its Scan, if it gives one.
#[tactic(auto, using(crate::proofs::ChainSteps::overs, crate::proofs::PassSteps::pass_steps))]
fn pass(alloc: Global, body: &Logical, row: Row) -> Result<Option<Row>, EvalRefused>
    ensures { Passes result (over body.now (Ok row ∷ [])) }
{
    match body {
        Logical::Scan { table: _, kinds: _ } => Ok(Some(row)),
        Logical::Filter { input, test } => match pass(alloc, input.get(), row)? {
            Some(row) => test_row(alloc, test, row),
            None => Ok(None),
        },
        Logical::Project { input, items } => match pass(alloc, input.get(), row)? {
            Some(row) => Ok(Some(project_row(alloc, items.as_slice(), &row)?)),
            None => Ok(None),
        },
        Logical::Join {
            kind: _,
            left: _,
            right: _,
            keys: _,
            rest: _,
        }
        | Logical::Aggregate {
            input: _,
            keys: _,
            calls: _,
        }
        | Logical::Distinct { input: _ }
        | Logical::UnionAll { inputs: _ } => Ok(None),
    }
}

/// Appends the line of the row that a chain gives for a row of its Scan, if it gives one.
fn push_row(
    alloc: Global,
    body: &Logical,
    row: Row,
    lines: &mut RowLines,
) -> Result<(), EvalRefused>
    ensures { Adds result (over body.now (Ok row ∷ [])) lines.old lines.new }
{
    match pass(alloc, body, row)? {
        Some(row) => Ok(lines.push_row(&row)?),
        None => Ok(()),
    }
}

/// Appends the lines of what a chain gives for the rows of a batch, row by row.
fn push_rows(
    alloc: Global,
    body: &Logical,
    batch: &Batch,
    lines: &mut RowLines,
) -> Result<(), EvalRefused>
    ensures { Adds result (over body.now (of_rows batch.now.rows)) lines.old lines.new }
{
    for at in 0..batch.rows() {
        push_row(alloc, body, batch.row(alloc, at)?, lines)?;
    }
    Ok(())
}

/// Appends the lines of what a chain gives for the rows of a batch. Where the values of an expression aren't seen to be of
/// one kind, and so make no column, its rows are taken one by one.
pub(crate) fn push_passed(
    alloc: Global,
    body: &Logical,
    batch: &Batch,
    lines: &mut RowLines,
) -> Result<(), EvalRefused>
    ensures { Adds result (over body.now (of_rows batch.now.rows)) lines.old lines.new }
{
    match pass_batch(alloc, body, batch)? {
        Some(front) => push_front(&front, lines),
        None => push_rows(alloc, body, batch, lines),
    }
}

/// Appends the lines of rows, and answers the fault behind them.
fn push_front(front: &Front, lines: &mut RowLines) -> Result<(), EvalRefused>
    ensures { (items : List Item) → IsFrontOf items front.now.batch.rows front.now.fault
        → Adds result items lines.old lines.new }
{
    lines.push_batch(&front.batch)?;
    match front.fault {
        None => Ok(()),
        Some(fault) => Err(EvalRefused::Fault(fault)),
    }
}
