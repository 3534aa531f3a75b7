//! Each row as `eval` gives it: lengths about those at which words and blocks end, NULLs, faults.

ghost use Rattle.std.specs.Prelude.{◌≡◌, ◌∷◌, []};
ghost use Rattle.dfx_value.specs.declared.kind.Kind.TheVariants as kind;

use crate::rows::{KINDS, batch, binary, case, coalesce, inner_part, number, row_at};
use column_batch::{Batch, compare, look};
use dfx_value::{EvalFault, Kind, Value};
use scalar_exprs::{EvalRefused, Expr, Op, eval, is_true};
use scalar_vector::{Part, Tests, eval_batch, eval_tests};
use sqlite_items::Boxed;
use std::alloc::Global;
use std::test::Fail;

/// Whether a part ends before a row with this fault.
fn ends(part: &Part, tests: &Tests, at: usize, fault: Option<EvalFault>) -> bool {
    part.vector.len() == at && tests.keep.len() == at && part.fault == fault && tests.fault == fault
}

/// Whether a part has this value at a row, and a filter's test its truth.
fn shows(part: &Part, tests: &Tests, at: usize, value: &Value) -> bool {
    if at >= part.vector.len() || at >= tests.keep.len() {
        return false;
    }
    let cell = part.vector.get(at);
    compare(&cell, &look(value)).is_eq() && tests.keep[at] == is_true(value)
}

/// Whether an expression over columns is what it is row by row, where the first row is this one.
fn agrees_on(alloc: Global, expr: &Expr, batch: &Batch, first: u32, zero: u32) -> Result<bool, Fail>
    requires { batch.now.kinds ≡ kind.Int ∷ kind.Int ∷ kind.Text ∷ [] }
{
    let part = eval_batch(alloc, expr, &KINDS, batch)?;
    let tests = eval_tests(alloc, expr, &KINDS, batch)?;
    for at in 0..batch.rows() {
        let row = row_at(alloc, first.saturating_add(at), zero)?;
        match eval(alloc, expr, &row) {
            Ok(value) => {
                if !shows(&part, &tests, at as usize, &value) {
                    return Ok(false);
                }
            }
            Err(EvalRefused::Fault(fault)) => {
                return Ok(ends(&part, &tests, at as usize, Some(fault)));
            }
            Err(EvalRefused::NoMemory) => return Ok(false),
        }
    }
    Ok(ends(&part, &tests, batch.rows() as usize, None))
}

/// The same on so many rows of a batch, and on so many of a part of a part.
fn agrees(alloc: Global, expr: &Expr, rows: u32, zero: u32) -> Result<bool, Fail> {
    let all = batch(alloc, rows, zero)?;
    let inner = inner_part(alloc, rows, zero)?;
    Ok(
        inner.rows() == rows
            && agrees_on(alloc, expr, &all, 0, zero)?
            && agrees_on(alloc, expr, &inner, 2, zero)?,
    )
}

fn zero_test(alloc: Global) -> Result<Expr, Fail> {
    binary(alloc, Op::Ne, Expr::Column(0), number(0))
}

fn quotient(alloc: Global) -> Result<Expr, Fail> {
    binary(alloc, Op::Div, number(100), Expr::Column(0))
}

fn lengths(alloc: Global) -> Result<Expr, Fail> {
    Ok(Expr::Length(Boxed::new(alloc, Expr::Column(2))?))
}

fn nulls(alloc: Global) -> Result<Expr, Fail> {
    Ok(Expr::IsNull(Boxed::new(alloc, Expr::Column(1))?))
}

fn negated(alloc: Global) -> Result<Expr, Fail> {
    Ok(Expr::Neg(Boxed::new(alloc, Expr::Column(1))?))
}

/// An operator between the second column and a number.
fn with_number(alloc: Global, op: Op, other: i64) -> Result<Expr, Fail> {
    binary(alloc, op, Expr::Column(1), number(other))
}

/// An operator between a column and itself.
fn with_itself(alloc: Global, op: Op, column: u32) -> Result<Expr, Fail> {
    binary(alloc, op, Expr::Column(column), Expr::Column(column))
}

fn ratio_where_it_is(alloc: Global) -> Result<Expr, Fail> {
    let test = zero_test(alloc)?;
    let chosen = quotient(alloc)?;
    case(alloc, test, chosen, number(-1))
}

fn ratio_where_it_is_not(alloc: Global) -> Result<Expr, Fail> {
    let test = zero_test(alloc)?;
    let other = quotient(alloc)?;
    case(alloc, test, number(5), other)
}

fn ratio_where_null(alloc: Global) -> Result<Expr, Fail> {
    let second = quotient(alloc)?;
    coalesce(alloc, Expr::Column(1), second)
}

fn two_tests(alloc: Global) -> Result<Expr, Fail> {
    let left = zero_test(alloc)?;
    let right = with_number(alloc, Op::Gt, 8)?;
    binary(alloc, Op::And, left, right)
}

/// A sum that leaves 64 bits at the first row whose second cell is above 40.
fn large_sum(alloc: Global) -> Result<Expr, Fail> {
    binary(alloc, Op::Add, number(i64::MAX - 40), Expr::Column(1))
}

/// The large sum where it is a number, and where it isn't.
fn large_sum_in_case(alloc: Global, below: i64) -> Result<Expr, Fail> {
    let test = with_number(alloc, Op::Lt, below)?;
    let chosen = large_sum(alloc)?;
    case(alloc, test, chosen, Expr::Column(0))
}

fn twice_below(alloc: Global) -> Result<Expr, Fail> {
    let twice = with_number(alloc, Op::Mul, 2)?;
    binary(alloc, Op::Lt, Expr::Column(0), twice)
}

/// Truths of which some are NULL, in a CASE.
fn truths_in_case(alloc: Global) -> Result<Expr, Fail> {
    let test = with_number(alloc, Op::Lt, 40)?;
    let chosen = with_number(alloc, Op::Ge, 9)?;
    let other = zero_test(alloc)?;
    case(alloc, test, chosen, other)
}

fn either_test(alloc: Global) -> Result<Expr, Fail> {
    let left = with_number(alloc, Op::Gt, 8)?;
    let right = with_number(alloc, Op::Lt, 5)?;
    binary(alloc, Op::Or, left, right)
}

fn texts_in_case(alloc: Global) -> Result<Expr, Fail> {
    let test = with_number(alloc, Op::Lt, 40)?;
    case(
        alloc,
        test,
        Expr::Column(2),
        Expr::Const(Value::Null, Kind::Text),
    )
}

/// The n-th of the expressions of which some operands are NULL.
fn with_nulls(alloc: Global, which: u32) -> Result<Expr, Fail> {
    match which {
        0 => with_itself(alloc, Op::Sub, 1),
        1 => with_itself(alloc, Op::Ne, 1),
        2 => binary(alloc, Op::Le, Expr::Column(0), Expr::Column(1)),
        3 => twice_below(alloc),
        4 => large_sum(alloc),
        5 => large_sum_in_case(alloc, 41),
        6 => large_sum_in_case(alloc, 60),
        7 => truths_in_case(alloc),
        8 => either_test(alloc),
        9 => texts_in_case(alloc),
        10 => coalesce(alloc, Expr::Column(1), number(-1)),
        11 => binary(
            alloc,
            Op::Mul,
            Expr::Const(Value::Null, Kind::Int),
            Expr::Column(0),
        ),
        _ => coalesce(alloc, Expr::Const(Value::Null, Kind::Text), Expr::Column(2)),
    }
}

/// The n-th of the expressions that are tried.
fn tried(alloc: Global, which: u32) -> Result<Expr, Fail> {
    match which {
        0 => with_number(alloc, Op::Add, 1),
        1 => with_number(alloc, Op::Lt, 40),
        2 => with_itself(alloc, Op::Mul, 0),
        3 => binary(alloc, Op::Ge, Expr::Column(0), number(7)),
        4 => with_itself(alloc, Op::Eq, 2),
        5 => with_itself(alloc, Op::Concat, 2),
        6 => quotient(alloc),
        7 => ratio_where_it_is(alloc),
        8 => ratio_where_it_is_not(alloc),
        9 => ratio_where_null(alloc),
        10 => coalesce(alloc, Expr::Column(1), Expr::Column(0)),
        11 => nulls(alloc),
        12 => lengths(alloc),
        13 => two_tests(alloc),
        14 => negated(alloc),
        15 => Ok(Expr::Column(9)),
        16 => Ok(number(3)),
        _ => with_nulls(alloc, which - 17),
    }
}

#[test]
fn each_row_as_row_by_row(rt: HostRuntime) -> Result<(), Fail> {
    let alloc = rt.alloc();
    for rows in [0, 1, 7, 8, 9, 63, 64, 65, 200] {
        for which in 0..30 {
            let expr = tried(alloc, which)?;
            assert!(rt; agrees(alloc, &expr, rows, rows)?, "{which} on {rows} rows");
            assert!(rt;
                agrees(alloc, &expr, rows, rows / 2)?,
                "{which} on {rows} rows with zeros"
            );
        }
    }
    Ok(())
}
