//! The values of an expression as a column of its kind.

ghost use Rattle.std.specs.Prelude.{◌≡◌, ◌+◌, ◌<◌, ◌^◌, length, true, Some, IfOk, OnOk};
ghost use Rattle.dfx_value.specs.Kinds.{is_kind, is_of};
ghost use Rattle.dfx_value.specs.declared.kind.Kind.TheVariants as kind;
ghost use Rattle.scalar_exprs.specs.Kinds.{constants_fit, kind_of};
ghost use Rattle.scalar_vector.specs.Fronts.{evaluated};
ghost use Rattle.scalar_vector.specs.Items.{ints, truths};
ghost use Rattle.scalar_vector.specs.Vectors.{values_of};
ghost use Rattle.value_columns.specs.Columns.{all_of, with_value};
ghost use Rattle.value_columns.specs.Cells.{value_of};

use crate::evaluate::eval_batch;
use crate::vector::Vector;
use column_batch::{Batch, Cell, Column};
use dfx_value::{EvalFault, Kind, NoMemory};
use scalar_exprs::Expr;
use std::alloc::Global;
use value_columns::Masked;

/// Puts the value of a cell at the end.
fn push_cell(column: &mut Column, cell: &Cell<'_>) -> Result<(), NoMemory>
    requires room { length column.old.values + 1 < 2 ^ 32 }
    requires fits { is_of column.old.kind (value_of cell.now) ≡ true }
    ensures { OnOk result (column.new ≡ with_value column.old (value_of cell.now)) }
{
    match cell {
        Cell::Null => column.push_null(),
        Cell::Bool(truth) => column.push_truth(*truth),
        Cell::Int(number) => column.push_int(*number),
        Cell::Dec(number) => column.push_decimal(*number),
        Cell::Text(text) => column.push_text(text),
    }
}

/// The values of a vector as a column, one after the other.
#[tactic(auto, using(crate::proofs::ColumnKinds::fit_at, crate::proofs::Loops::map_steps))]
fn copied_column(alloc: Global, kind: Kind, vector: &Vector) -> Result<Column, NoMemory>
    requires kind { is_kind kind ≡ true }
    requires fits { all_of kind (values_of vector.now) ≡ true }
    requires few { length (values_of vector.now) < 2 ^ 32 }
    ensures kind { IfOk result (λ c. c.kind ≡ kind) }
    ensures values { IfOk result (λ c. c.values ≡ values_of vector.now) }
{
    let mut column = Column::new(alloc, kind);
    for at in 0..vector.len() {
        push_cell(&mut column, &vector.get(at))?;
    }
    Ok(column)
}

/// Whole numbers that were made as a column.
#[tactic(auto, using(crate::proofs::ItemSteps::item_steps))]
fn int_column(numbers: Masked<i64>) -> Column
    requires { length numbers < 2 ^ 32 }
    ensures kind { result.kind ≡ kind.Int }
    ensures values { result.values ≡ ints numbers }
{
    let (items, nulls) = numbers.into_parts();
    Column::of_ints(items, nulls)
}

/// Truths that were made as a column.
#[tactic(auto, using(crate::proofs::ItemSteps::item_steps))]
fn truth_column(bits: Masked<bool>) -> Column
    requires { length bits < 2 ^ 32 }
    ensures kind { result.kind ≡ kind.Bool }
    ensures values { result.values ≡ truths bits }
{
    let (items, nulls) = bits.into_parts();
    Column::of_truths(items, nulls)
}

/// The values of a vector as a column of whole numbers.
fn column_of_ints(alloc: Global, vector: Vector) -> Result<Column, NoMemory>
    requires fits { all_of kind.Int (values_of vector) ≡ true }
    requires few { length (values_of vector) < 2 ^ 32 }
    ensures kind { IfOk result (λ c. c.kind ≡ kind.Int) }
    ensures values { IfOk result (λ c. c.values ≡ values_of vector) }
{
    match vector {
        Vector::Ints(numbers) => Ok(int_column(numbers)),
        other => copied_column(alloc, Kind::Int, &other),
    }
}

/// The values of a vector as a column of truths.
fn column_of_truths(alloc: Global, vector: Vector) -> Result<Column, NoMemory>
    requires fits { all_of kind.Bool (values_of vector) ≡ true }
    requires few { length (values_of vector) < 2 ^ 32 }
    ensures kind { IfOk result (λ c. c.kind ≡ kind.Bool) }
    ensures values { IfOk result (λ c. c.values ≡ values_of vector) }
{
    match vector {
        Vector::Truths(bits) => Ok(truth_column(bits)),
        other => copied_column(alloc, Kind::Bool, &other),
    }
}

/// The values of a vector as a column.
fn column_of(alloc: Global, kind: Kind, vector: Vector) -> Result<Column, NoMemory>
    requires kind { is_kind kind ≡ true }
    requires fits { all_of kind (values_of vector) ≡ true }
    requires few { length (values_of vector) < 2 ^ 32 }
    ensures kind { IfOk result (λ c. c.kind ≡ kind) }
    ensures values { IfOk result (λ c. c.values ≡ values_of vector) }
{
    match kind {
        Kind::Int => column_of_ints(alloc, vector),
        Kind::Bool => column_of_truths(alloc, vector),
        _ => copied_column(alloc, kind, &vector),
    }
}

/// The values before the first row with a fault, as a column, and that fault.
#[derive(Drop)]
pub struct Evaluated {
    pub column: Column,
    pub fault: Option<EvalFault>,
}

/// An expression of a kind on the rows of a batch.
pub fn eval_column(
    alloc: Global,
    expr: &Expr,
    kind: Kind,
    kinds: &[Kind],
    batch: &Batch,
) -> Result<Evaluated, NoMemory>
    requires kinds { kinds.now ≡ batch.now.kinds }
    requires constants { constants_fit expr.now ≡ true }
    requires kind { kind_of batch.now.kinds expr.now ≡ Some kind }
    requires is { is_kind kind ≡ true }
    ensures kind { IfOk result (λ e. e.column.kind ≡ kind) }
    ensures values { IfOk result (λ e. e.column.values
        ≡ (evaluated batch.now.rows expr.now).values) }
    ensures fault { IfOk result (λ e. e.fault ≡ (evaluated batch.now.rows expr.now).fault) }
{
    let _ = batch.rows();
    let part = eval_batch(alloc, expr, kinds, batch)?;
    Ok(Evaluated {
        column: column_of(alloc, kind, part.vector)?,
        fault: part.fault,
    })
}
