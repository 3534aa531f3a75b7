//! Tests of expressions: a sum, faults, kinds and copies.

use dfx_value::{EvalFault, Kind, Row, Value};
use logical_plan::{Logical, kinds_of};
use scalar_exprs::{EvalRefused, Expr, Op, copy_expr, eval, kind_of};
use sqlite_items::{Boxed, Items};
use std::alloc::Global;
use std::rt::HostRuntime;
use std::test::Fail;

/// An operator between the first column and a whole number.
fn operated(alloc: Global, op: Op, number: i64) -> Result<Expr, Fail> {
    let left = Boxed::new(alloc, Expr::Column(0))?;
    let right = Boxed::new(alloc, Expr::Const(Value::Int(number), Kind::Int))?;
    Ok(Expr::Binary(op, left, right))
}

fn row(alloc: Global, number: i64) -> Result<Row, Fail> {
    Ok(Row {
        cells: vec![in alloc; Value::Int(number)]?,
    })
}

#[test]
fn a_sum_and_its_copy(rt: HostRuntime) -> Result<(), Fail> {
    let alloc = rt.alloc();
    let row = row(alloc, 41)?;
    let sum = operated(alloc, Op::Add, 1)?;
    let copy = copy_expr(alloc, &sum)?;
    assert!(&rt;
        matches!(eval(alloc, &sum, &row), Ok(Value::Int(42))),
        "41 + 1"
    );
    assert!(&rt;
        matches!(eval(alloc, &copy, &row), Ok(Value::Int(42))),
        "its copy"
    );
    assert!(&rt;
        matches!(kind_of(&copy, &[Kind::Int]), Some(Kind::Int)),
        "its kind"
    );
    Ok(())
}

#[test]
fn a_zero_divisor(rt: HostRuntime) -> Result<(), Fail> {
    let alloc = rt.alloc();
    let row = row(alloc, 8)?;
    let ratio = operated(alloc, Op::Div, 0)?;
    let answer = eval(alloc, &ratio, &row);
    assert!(&rt;
        matches!(answer, Err(EvalRefused::Fault(EvalFault::DivideByZero))),
        "8 / 0"
    );
    Ok(())
}

fn scan(alloc: Global) -> Result<Logical, Fail> {
    let kinds = Items::from_slice(alloc, &[Kind::Int, Kind::Text])?;
    Ok(Logical::Scan { table: 0, kinds })
}

#[test]
fn kinds_of_a_scan(rt: HostRuntime) -> Result<(), Fail> {
    let plan = scan(rt.alloc())?;
    let kinds = kinds_of(rt.alloc(), &plan)?;
    assert!(&rt;
        matches!(kinds.as_slice(), [Kind::Int, Kind::Text]),
        "the table's"
    );
    Ok(())
}
