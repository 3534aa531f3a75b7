//! The tests that are timed, over a column `a` and a column `b`.

use dfx_value::{Kind, NoMemory, Op, Value};
use scalar_exprs::Expr;
use sqlite_items::{Boxed, Items};
use std::alloc::Global;

fn number(number: i64) -> Expr {
    Expr::Const(Value::Int(number), Kind::Int)
}

fn binary(alloc: Global, op: Op, left: Expr, right: Expr) -> Result<Expr, NoMemory> {
    Ok(Expr::Binary(op, Boxed::new(alloc, left)?, Boxed::new(alloc, right)?))
}

/// `a + 1 > 5`.
pub fn sum(alloc: Global) -> Result<Expr, NoMemory> {
    let sum = binary(alloc, Op::Add, Expr::Column(0), number(1))?;
    binary(alloc, Op::Gt, sum, number(5))
}

/// `a * 2 < b`.
pub fn product(alloc: Global) -> Result<Expr, NoMemory> {
    let product = binary(alloc, Op::Mul, Expr::Column(0), number(2))?;
    binary(alloc, Op::Lt, product, Expr::Column(1))
}

/// `CASE WHEN a > 4000 THEN a + b WHEN a > 1000 THEN b ELSE a - 1 END > 2000`.
pub fn case(alloc: Global) -> Result<Expr, NoMemory> {
    let mut arms = Vec::new(alloc);
    let high = binary(alloc, Op::Gt, Expr::Column(0), number(4000))?;
    let sum = binary(alloc, Op::Add, Expr::Column(0), Expr::Column(1))?;
    arms.push((high, sum))?;
    let middle = binary(alloc, Op::Gt, Expr::Column(0), number(1000))?;
    arms.push((middle, Expr::Column(1)))?;
    let rest = binary(alloc, Op::Sub, Expr::Column(0), number(1))?;
    let case = Expr::Case(Items::from_vec(arms), Boxed::new(alloc, rest)?);
    binary(alloc, Op::Gt, case, number(2000))
}
