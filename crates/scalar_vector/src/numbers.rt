//! Operators on whole numbers of which some are NULL.

ghost use Rattle.std.specs.Prelude.{◌≡◌, true, IfOk, Ok};
ghost use Rattle.dfx_value.specs.declared.value.Value.TheVariants as value;
ghost use Rattle.scalar_exprs.specs.Functions as spec;
ghost use Rattle.scalar_vector.specs.Fronts.{front};
ghost use Rattle.scalar_vector.specs.Items.{ints, items_of, outcome_of};
ghost use Rattle.scalar_vector.specs.Lanes.{is_arithmetic, is_comparison};
ghost use Rattle.scalar_vector.specs.Vectors.{front_of};
ghost use Rattle.scalar_vector.specs.Woven.{zipped};
ghost use Rattle.value_columns.specs.Columns.{or_null};

use crate::items::Items;
use crate::lanes::{int_result, int_test};
use crate::vector::{Part, Vector};
use dfx_value::{EvalFault, NoMemory, Op};
use std::alloc::Global;
use value_columns::Masked;

/// The number, or NULL where an operand is NULL.
#[inline]
fn computed(op: Op, left: Option<i64>, right: Option<i64>) -> Result<Option<i64>, EvalFault>
    requires { is_arithmetic op ≡ true }
    ensures { outcome_of value.Int result
        ≡ spec.operated op (or_null value.Int left) (or_null value.Int right) }
{
    match left {
        Some(left) => match right {
            Some(right) => match int_result(op, left, right) {
                Some(number) => Ok(Some(number)),
                None => Err(EvalFault::Overflow),
            },
            None => Ok(None),
        },
        None => Ok(None),
    }
}

/// The answer of a comparison, unknown where an operand is NULL.
#[inline]
fn tested(op: Op, left: Option<i64>, right: Option<i64>) -> Option<bool>
    requires { is_comparison op ≡ true }
    ensures { spec.operated op (or_null value.Int left) (or_null value.Int right)
        ≡ Ok (or_null value.Bool result) }
{
    match left {
        Some(left) => match right {
            Some(right) => Some(int_test(op, left, right)),
            None => None,
        },
        None => None,
    }
}

/// A sum, a difference or a product of each two.
pub fn compute_items(
    alloc: Global,
    op: Op,
    left: &Items<'_, i64>,
    right: &Items<'_, i64>,
) -> Result<Part, NoMemory>
    requires { is_arithmetic op ≡ true }
    ensures { IfOk result (λ p. front_of p ≡ front (zipped (spec.operated op)
        (ints (items_of left.now)) (ints (items_of right.now)))) }
{
    let count = left.len().min(right.len());
    let mut numbers = Masked::with_capacity(alloc, count)?;
    for at in 0..count {
        match computed(op, left.get(at), right.get(at)) {
            Ok(number) => numbers.push_item(number, 0)?,
            Err(fault) => {
                return Ok(Part {
                    vector: Vector::Ints(numbers),
                    fault: Some(fault),
                });
            }
        }
    }
    Ok(Part {
        vector: Vector::Ints(numbers),
        fault: None,
    })
}

/// A comparison of each two.
pub fn compare_items(
    alloc: Global,
    op: Op,
    left: &Items<'_, i64>,
    right: &Items<'_, i64>,
) -> Result<Part, NoMemory>
    requires { is_comparison op ≡ true }
    ensures { IfOk result (λ p. front_of p ≡ front (zipped (spec.operated op)
        (ints (items_of left.now)) (ints (items_of right.now)))) }
{
    let count = left.len().min(right.len());
    let mut truths = Masked::with_capacity(alloc, count)?;
    for at in 0..count {
        truths.push_item(tested(op, left.get(at), right.get(at)), false)?;
    }
    Ok(Part {
        vector: Vector::Truths(truths),
        fault: None,
    })
}
