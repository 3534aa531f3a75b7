//! Operators on cells that are looked at where they stand.

ghost use Rattle.std.specs.Prelude.{◌≡◌, true, IfOk, Ok};
ghost use Rattle.scalar_exprs.specs.Eval.{Gives};
ghost use Rattle.scalar_exprs.specs.Functions as spec;
ghost use Rattle.scalar_exprs.specs.Truth as truth;
ghost use Rattle.scalar_vector.specs.Lanes.{is_comparison};
ghost use Rattle.value_columns.specs.Cells.{value_of};

use crate::lanes::is_comparison_op;
use column_batch::{Cell, compare};
use dfx_value::{NoMemory, Op, Text, Value};
use scalar_exprs::{EvalRefused, from_truth, operate};
use std::alloc::Global;
use std::cmp::Ordering;

/// Whether a cell is NULL.
#[inline]
pub fn is_null_cell(cell: &Cell<'_>) -> bool
    ensures { result ≡ truth.is_null (value_of cell.now) }
{
    matches!(cell, Cell::Null)
}

/// Whether a test that gives this cell keeps its row.
#[inline]
pub fn is_true_cell(cell: &Cell<'_>) -> bool
    ensures { result ≡ truth.is_true (value_of cell.now) }
{
    matches!(cell, Cell::Bool(true))
}

/// The order of two cells, unknown where one is NULL.
fn order_of(left: &Cell<'_>, right: &Cell<'_>) -> Option<Ordering>
    ensures { result ≡ spec.order_of (value_of left.now) (value_of right.now) }
{
    if is_null_cell(left) || is_null_cell(right) {
        None
    } else {
        Some(compare(left, right))
    }
}

/// A comparison, which copies nothing.
fn compare_cells(op: Op, left: &Cell<'_>, right: &Cell<'_>) -> Value
    requires { is_comparison op ≡ true }
    ensures { spec.operated op (value_of left.now) (value_of right.now) ≡ Ok result }
{
    let order = order_of(left, right);
    from_truth(match op {
        Op::Eq => order.map(|order| order.is_eq()),
        Op::Ne => order.map(|order| order.is_ne()),
        Op::Lt => order.map(|order| order.is_lt()),
        Op::Le => order.map(|order| order.is_le()),
        Op::Gt => order.map(|order| order.is_gt()),
        _ => order.map(|order| order.is_ge()),
    })
}

/// The value of a cell.
pub fn copy_cell(alloc: Global, cell: &Cell<'_>) -> Result<Value, NoMemory>
    ensures { IfOk result (λ value. value ≡ value_of cell.now) }
{
    Ok(match cell {
        Cell::Null => Value::Null,
        Cell::Bool(truth) => Value::Bool(*truth),
        Cell::Int(number) => Value::Int(*number),
        Cell::Dec(number) => Value::Dec(*number),
        Cell::Text(text) => Value::Text(Text::from_string(String::from_str(alloc, text)?)),
    })
}

/// An operator on copies of two cells.
fn operate_copies(
    alloc: Global,
    op: Op,
    left: &Cell<'_>,
    right: &Cell<'_>,
) -> Result<Value, EvalRefused>
    ensures { Gives result (spec.operated op (value_of left.now) (value_of right.now)) }
{
    let left = copy_cell(alloc, left)?;
    let right = copy_cell(alloc, right)?;
    operate(alloc, op, &left, &right)
}

/// An operator on the values of two cells.
pub fn operate_cells(
    alloc: Global,
    op: Op,
    left: &Cell<'_>,
    right: &Cell<'_>,
) -> Result<Value, EvalRefused>
    ensures { Gives result (spec.operated op (value_of left.now) (value_of right.now)) }
{
    if is_comparison_op(op) {
        Ok(compare_cells(op, left, right))
    } else {
        operate_copies(alloc, op, left, right)
    }
}
