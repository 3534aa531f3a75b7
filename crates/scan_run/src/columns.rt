//! Columns of the values of expressions, and the kinds of batches.

ghost use Rattle.std.specs.Prelude.{◌≡◌, ◌+◌, ◌^◌, ◌<◌, length, take, true, Ok, IfOk, IfSome};
ghost use Rattle.dfx_value.specs.Kinds.{is_kind};
ghost use Rattle.scalar_vector.specs.Items.{ints, truths};
ghost use Rattle.scalar_vector.specs.Vectors.{values_of};
ghost use Rattle.value_columns.specs.Cells.{value_of};
ghost use Rattle.value_columns.specs.Columns.{with_value};
ghost use Rattle.scan_run.specs.Words.{BeginsWith};

use column_batch::{Batch, Column, Shared};
use dfx_value::{Kind, NoMemory};
use scalar_exprs::is_kind;
use scalar_vector::Vector;
use std::alloc::Global;
use value_columns::{Cell, Masked};

/// The kinds of a batch's columns.
pub(crate) fn kinds_of(alloc: Global, batch: &Batch) -> Result<Vec<Kind>, NoMemory>
    ensures { IfOk result (λ kinds. kinds.items ≡ batch.now.kinds) }
{
    let Ok(width) = u32::try_from(batch.width()) else {
        return Err(NoMemory);
    };
    let mut kinds = Vec::new(alloc);
    for at in 0..width {
        kinds.push(batch.column(alloc, at)?.column().kind())?;
    }
    Ok(kinds)
}

/// Puts the value of a cell at the end where it is of the column's kind, which it tells. A decimal isn't taken.
fn push_fitting(column: &mut Column, cell: &Cell<'_>) -> Result<bool, NoMemory>
    requires { length column.old.values + 1 < 2 ^ 32 }
    ensures { result ≡ Ok true → column.new ≡ with_value column.old (value_of cell.now) }
{
    match (column.kind(), cell) {
        (_, Cell::Null) => column.push_null()?,
        (Kind::Bool, Cell::Bool(truth)) => column.push_truth(*truth)?,
        (Kind::Int, Cell::Int(number)) => column.push_int(*number)?,
        (Kind::Text, Cell::Text(text)) => column.push_text(text)?,
        _ => return Ok(false),
    }
    Ok(true)
}

/// The values as a column of a kind, if they are of it.
fn column_of_kind(alloc: Global, kind: Kind, vector: &Vector) -> Result<Option<Shared>, NoMemory>
    requires few { length (values_of vector.now) < 2 ^ 32 }
    requires kind { is_kind kind ≡ true }
    ensures { IfOk result (λ made. IfSome made (λ c. c.values ≡ values_of vector.now)) }
{
    let mut column = Column::new(alloc, kind);
    for at in 0..vector.len() {
        if !push_fitting(&mut column, &vector.get(at))? {
            return Ok(None);
        }
    }
    Ok(Some(Shared::new(alloc, column)?))
}

/// Whole numbers that were made as a column.
#[tactic(auto, using(value_columns::proofs::MaskedLemmas::masked_steps))]
fn int_column(numbers: Masked<i64>) -> Column
    requires { length numbers < 2 ^ 32 }
    ensures { result.values ≡ ints numbers }
{
    let (items, nulls) = numbers.into_parts();
    Column::of_ints(items, nulls)
}

/// Truths that were made as a column.
#[tactic(auto, using(value_columns::proofs::MaskedLemmas::masked_steps))]
fn truth_column(bits: Masked<bool>) -> Column
    requires { length bits < 2 ^ 32 }
    ensures { result.values ≡ truths bits }
{
    let (items, nulls) = bits.into_parts();
    Column::of_truths(items, nulls)
}

/// A column that begins with the values: one that is shown is shared, and whole numbers and truths are taken over. None
/// where they aren't seen to be of one kind.
pub(crate) fn column_of(
    alloc: Global,
    kind: Option<Kind>,
    vector: Vector,
) -> Result<Option<Shared>, NoMemory>
    requires few { length (values_of vector) < 2 ^ 32 }
    ensures { IfOk result (λ made. IfSome made (λ c. BeginsWith c.values (values_of vector))) }
{
    match vector {
        Vector::Shown(column, _) => Ok(Some(column)),
        Vector::Ints(numbers) => Ok(Some(Shared::new(alloc, int_column(numbers))?)),
        Vector::Truths(truths) => Ok(Some(Shared::new(alloc, truth_column(truths))?)),
        made => match kind {
            Some(kind) if is_kind(kind) => column_of_kind(alloc, kind, &made),
            _ => Ok(None),
        },
    }
}
