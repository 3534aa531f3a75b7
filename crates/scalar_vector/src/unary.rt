//! Functions of one operand.

ghost use Rattle.std.specs.Prelude.{◌≡◌, IfOk, map};
ghost use Rattle.scalar_exprs.specs.Eval.{Gives};
ghost use Rattle.scalar_vector.specs.Fronts.{front};
ghost use Rattle.scalar_vector.specs.Items.{items_of, truths};
ghost use Rattle.scalar_vector.specs.declared.unary.Unary.TheVariants as unary;
ghost use Rattle.scalar_vector.specs.Woven.{followed};
ghost use Rattle.scalar_vector.specs.Steps.{applied};
ghost use Rattle.scalar_vector.specs.Vectors.{front_of, values_of};
ghost use Rattle.value_columns.specs.Cells.{value_of};

use crate::items::Items;
use crate::looks::{copy_cell, is_null_cell};
use crate::vector::{Part, Vector, earlier, stopped};
use column_batch::Cell;
use dfx_value::{Kind, NoMemory, Value};
use scalar_exprs::{
    EvalRefused, absolute, cast, from_truth, is_null, length_of, negate, not_3, truth,
};
use std::alloc::Global;
use value_columns::Masked;

/// A function of one operand.
#[derive(Clone, Copy)]
pub enum Unary {
    Not,
    Neg,
    IsNull,
    Cast(Kind),
    Abs,
    Length,
}

fn apply(alloc: Global, function: Unary, value: &Value) -> Result<Value, EvalRefused>
    ensures { Gives result (applied function value.now) }
{
    match function {
        Unary::Not => Ok(from_truth(not_3(truth(value)))),
        Unary::Neg => Ok(negate(value)?),
        Unary::IsNull => Ok(Value::Bool(is_null(value))),
        Unary::Cast(kind) => cast(alloc, kind, value),
        Unary::Abs => Ok(absolute(value)?),
        Unary::Length => Ok(length_of(value)?),
    }
}

/// A function on a copy of a cell.
fn apply_copy(alloc: Global, function: Unary, cell: &Cell<'_>) -> Result<Value, EvalRefused>
    ensures { Gives result (applied function (value_of cell.now)) }
{
    let value = copy_cell(alloc, cell)?;
    apply(alloc, function, &value)
}

/// A function on the value of a cell.
fn apply_cell(alloc: Global, function: Unary, cell: &Cell<'_>) -> Result<Value, EvalRefused>
    ensures { Gives result (applied function (value_of cell.now)) }
{
    match function {
        Unary::IsNull => Ok(Value::Bool(is_null_cell(cell))),
        _ => apply_copy(alloc, function, cell),
    }
}

/// A function on each value, one after the other.
fn apply_values(alloc: Global, function: Unary, vector: &Vector) -> Result<Part, NoMemory>
    ensures { IfOk result (λ p. front_of p
        ≡ front (map (applied function) (values_of vector.now))) }
{
    let mut values = Vec::with_capacity(alloc, vector.len())?;
    for at in 0..vector.len() {
        match apply_cell(alloc, function, &vector.get(at)) {
            Ok(value) => values.push(value)?,
            Err(refused) => return stopped(values, refused),
        }
    }
    Ok(Part {
        vector: Vector::Made(values),
        fault: None,
    })
}

/// Which values are NULL.
fn nulls_of(alloc: Global, vector: &Vector) -> Result<Part, NoMemory>
    ensures { IfOk result (λ p. front_of p
        ≡ front (map (applied unary.IsNull) (values_of vector.now))) }
{
    let mut bits = Masked::with_capacity(alloc, vector.len())?;
    for at in 0..vector.len() {
        bits.push(is_null_cell(&vector.get(at)))?;
    }
    Ok(Part {
        vector: Vector::Truths(bits),
        fault: None,
    })
}

/// NOT of each truth.
fn not_items(alloc: Global, items: &Items<'_, bool>) -> Result<Part, NoMemory>
    ensures { IfOk result (λ p. front_of p
        ≡ front (map (applied unary.Not) (truths (items_of items.now)))) }
{
    let mut bits = Masked::with_capacity(alloc, items.len())?;
    for at in 0..items.len() {
        bits.push_item(not_3(items.get(at)), false)?;
    }
    Ok(Part {
        vector: Vector::Truths(bits),
        fault: None,
    })
}

/// A function on each value.
fn apply_all(alloc: Global, function: Unary, vector: &Vector) -> Result<Part, NoMemory>
    ensures { IfOk result (λ p. front_of p
        ≡ front (map (applied function) (values_of vector.now))) }
{
    match function {
        Unary::IsNull => nulls_of(alloc, vector),
        Unary::Not => match vector.truth_items() {
            Some(items) => not_items(alloc, &items),
            None => apply_values(alloc, Unary::Not, vector),
        },
        _ => apply_values(alloc, function, vector),
    }
}

/// A function on each value of a part, whose fault comes after them.
pub fn apply_part(alloc: Global, function: Unary, part: &Part) -> Result<Part, NoMemory>
    ensures { IfOk result (λ p. front_of p
        ≡ followed (front (map (applied function) (values_of part.now.vector))) part.now.fault) }
{
    let made = apply_all(alloc, function, &part.vector)?;
    Ok(Part {
        vector: made.vector,
        fault: earlier(made.fault, part.fault),
    })
}
