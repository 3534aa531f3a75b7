//! Operators on whole numbers side by side.

ghost use Rattle.std.specs.Prelude.{◌≡◌, ◌<◌, ◌≤◌, pos, length, slice_index_or, IfOk, IfSome, map, true, Ok};
ghost use Rattle.dfx_value.specs.declared.value.Value.TheVariants as value;
ghost use Rattle.scalar_exprs.specs.Functions as spec;
ghost use Rattle.scalar_vector.specs.Fronts.{front};
ghost use Rattle.scalar_vector.specs.Lanes.{ints_of, is_arithmetic, is_comparison, is_connective};
ghost use Rattle.scalar_vector.specs.Vectors.{front_of, values_of};
ghost use Rattle.scalar_vector.specs.Woven.{zipped};

use crate::vector::{Part, Vector};
use dfx_value::{EvalFault, NoMemory, Op};
use std::alloc::Global;
use value_columns::Masked;

/// Whole numbers, none of them NULL.
#[derive(Clone, Copy)]
pub enum Lane<'a> {
    /// These.
    Many(&'a [i64]),
    /// One, so many times.
    One(i64, usize),
}

impl<'a> Lane<'a> {
    pub fn len(self) -> usize
        ensures { result ≡ length (ints_of self.entry) }
    {
        match self {
            Lane::Many(numbers) => numbers.len(),
            Lane::One(_, count) => count,
        }
    }

    #[inline]
    pub fn get(self, at: usize) -> i64
        requires { at < length (ints_of self) }
        ensures { result ≡ slice_index_or (ints_of self.entry) at (pos 0) }
    {
        match self {
            Lane::Many(numbers) => numbers[at],
            Lane::One(number, _) => number,
        }
    }
}

pub fn is_arithmetic_op(op: Op) -> bool
    ensures { result ≡ is_arithmetic op }
{
    matches!(op, Op::Add | Op::Sub | Op::Mul)
}

pub fn is_comparison_op(op: Op) -> bool
    ensures { result ≡ is_comparison op }
{
    matches!(op, Op::Eq | Op::Ne | Op::Lt | Op::Le | Op::Gt | Op::Ge)
}

pub fn is_connective_op(op: Op) -> bool
    ensures { result ≡ is_connective op }
{
    matches!(op, Op::And | Op::Or)
}

/// The number where 64 bits hold it.
#[inline]
#[tactic(auto, unfolding(scalar_exprs::specs::Functions::int_outcome))]
pub fn int_result(op: Op, left: i64, right: i64) -> Option<i64>
    requires { is_arithmetic op ≡ true }
    ensures { spec.whole_or_overflow result ≡ spec.operated op (value.Int left) (value.Int right) }
{
    match op {
        Op::Add => left.checked_add(right),
        Op::Sub => left.checked_sub(right),
        _ => left.checked_mul(right),
    }
}

#[inline]
#[tactic(auto, using(dfx_value::proofs::OrderLemmas::ints))]
pub fn int_test(op: Op, left: i64, right: i64) -> bool
    requires { is_comparison op ≡ true }
    ensures { spec.operated op (value.Int left) (value.Int right) ≡ Ok (value.Bool result) }
{
    let order = left.cmp(&right);
    match op {
        Op::Eq => order.is_eq(),
        Op::Ne => order.is_ne(),
        Op::Lt => order.is_lt(),
        Op::Le => order.is_le(),
        Op::Gt => order.is_gt(),
        _ => order.is_ge(),
    }
}

/// Whole numbers, none of them NULL.
fn whole_numbers(alloc: Global, numbers: Vec<i64>) -> Vector
    ensures { values_of result ≡ map value.Int numbers.items }
{
    Vector::Ints(Masked::of_parts(numbers, Vec::new(alloc)))
}

/// Truths, none of them NULL.
fn whole_truths(alloc: Global, truths: Vec<bool>) -> Vector
    ensures { values_of result ≡ map value.Bool truths.items }
{
    Vector::Truths(Masked::of_parts(truths, Vec::new(alloc)))
}

pub fn compute_ints(
    alloc: Global,
    op: Op,
    left: Lane<'_>,
    right: Lane<'_>,
) -> Result<Part, NoMemory>
    requires { is_arithmetic op ≡ true }
    ensures { IfOk result (λ p. front_of p
        ≡ front (zipped (spec.operated op) (map value.Int (ints_of left.entry))
        (map value.Int (ints_of right.entry)))) }
{
    let count = left.len().min(right.len());
    let mut numbers = Vec::with_capacity(alloc, count)?;
    for at in 0..count {
        match int_result(op, left.get(at), right.get(at)) {
            Some(number) => numbers.push(number)?,
            None => {
                return Ok(Part {
                    vector: whole_numbers(alloc, numbers),
                    fault: Some(EvalFault::Overflow),
                });
            }
        }
    }
    Ok(Part {
        vector: whole_numbers(alloc, numbers),
        fault: None,
    })
}

pub fn compare_ints(
    alloc: Global,
    op: Op,
    left: Lane<'_>,
    right: Lane<'_>,
) -> Result<Part, NoMemory>
    requires { is_comparison op ≡ true }
    ensures { IfOk result (λ p. front_of p
        ≡ front (zipped (spec.operated op) (map value.Int (ints_of left.entry))
        (map value.Int (ints_of right.entry)))) }
{
    let count = left.len().min(right.len());
    let mut truths = Vec::with_capacity(alloc, count)?;
    for at in 0..count {
        truths.push(int_test(op, left.get(at), right.get(at)))?;
    }
    Ok(Part {
        vector: whole_truths(alloc, truths),
        fault: None,
    })
}
