//! Operators on pairs of vectors.

ghost use Rattle.std.specs.Prelude.{◌≡◌, IfOk};
ghost use Rattle.scalar_exprs.specs.Functions.{operated};
ghost use Rattle.scalar_vector.specs.Fronts.{front};
ghost use Rattle.scalar_vector.specs.Woven.{zipped, paired};
ghost use Rattle.scalar_vector.specs.Vectors.{front_of, values_of};

use crate::lanes::{
    compare_ints, compute_ints, is_arithmetic_op, is_comparison_op, is_connective_op,
};
use crate::looks::operate_cells;
use crate::numbers::{compare_items, compute_items};
use crate::truths::connect_items;
use crate::vector::{Part, Vector, earlier, stopped};
use dfx_value::{NoMemory, Op};
use std::alloc::Global;

/// An operator on pairs of values, as far as both vectors go.
fn operate_values(alloc: Global, op: Op, left: &Vector, right: &Vector) -> Result<Part, NoMemory>
    ensures { IfOk result (λ p. front_of p
        ≡ front (zipped (operated op) (values_of left.now) (values_of right.now))) }
{
    let count = left.len().min(right.len());
    let mut values = Vec::with_capacity(alloc, count)?;
    for at in 0..count {
        match operate_cells(alloc, op, &left.get(at), &right.get(at)) {
            Ok(value) => values.push(value)?,
            Err(refused) => return stopped(values, refused),
        }
    }
    Ok(Part {
        vector: Vector::Made(values),
        fault: None,
    })
}

/// The same, side by side where the values are whole numbers.
fn operate_all(alloc: Global, op: Op, left: &Vector, right: &Vector) -> Result<Part, NoMemory>
    ensures { IfOk result (λ p. front_of p
        ≡ front (zipped (operated op) (values_of left.now) (values_of right.now))) }
{
    if let (Some(ones), Some(others)) = (left.ints(), right.ints()) {
        if is_arithmetic_op(op) {
            return compute_ints(alloc, op, ones, others);
        }
        if is_comparison_op(op) {
            return compare_ints(alloc, op, ones, others);
        }
    }
    if let (Some(ones), Some(others)) = (left.int_items(), right.int_items()) {
        if is_arithmetic_op(op) {
            return compute_items(alloc, op, &ones, &others);
        }
        if is_comparison_op(op) {
            return compare_items(alloc, op, &ones, &others);
        }
    }
    if is_connective_op(op) {
        if let (Some(ones), Some(others)) = (left.truth_items(), right.truth_items()) {
            return connect_items(alloc, op, &ones, &others);
        }
    }
    operate_values(alloc, op, left, right)
}

/// An operator on two parts, of which the right one was asked for on the left one's rows alone.
pub fn operate_parts(alloc: Global, op: Op, left: &Part, right: &Part) -> Result<Part, NoMemory>
    ensures { IfOk result (λ p. front_of p
        ≡ paired (operated op) (front_of left.now) (front_of right.now)) }
{
    let made = operate_all(alloc, op, &left.vector, &right.vector)?;
    Ok(Part {
        vector: made.vector,
        fault: earlier(earlier(made.fault, right.fault), left.fault),
    })
}
