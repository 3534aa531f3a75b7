//! Batches of one column of whole numbers.

ghost use Rattle.std.specs.Prelude.{◌≡◌, ◌∷◌, [], true, IfOk};
ghost use Rattle.dfx_value.specs.Kinds.{are_of};
ghost use Rattle.dfx_value.specs.declared.kind.Kind.TheVariants as kind;

use column_batch::{Batch, Builder};
use dfx_value::{Kind, Row, Value};
use operator_poll::OpRefused;
use scalar_exprs::{Expr, Op};
use sqlite_items::Boxed;
use std::alloc::Global;
use std::test::Fail;

/// A row of one number.
fn row(alloc: Global, number: i64) -> Result<Row, Fail>
    ensures { IfOk result (λ row. are_of (kind.Int ∷ []) row ≡ true) }
{
    let cells = vec![in alloc; Value::Int(number)]?;
    Ok(Row { cells })
}

/// Three numbers.
pub fn three(alloc: Global, numbers: [i64; 3]) -> Result<Batch, Fail>
    ensures { IfOk result (λ batch. batch.kinds ≡ kind.Int ∷ []) }
{
    let [first, second, third] = numbers;
    let mut builder = Builder::new(alloc, &[Kind::Int])?;
    builder.push(row(alloc, first)?)?;
    builder.push(row(alloc, second)?)?;
    builder.push(row(alloc, third)?)?;
    Ok(builder.finish(alloc)?)
}

/// The numbers of a batch.
pub fn numbers_of(alloc: Global, batch: &Batch) -> Result<Vec<i64>, Fail> {
    let mut numbers = Vec::new(alloc);
    for at in 0..batch.rows() {
        let row = batch.row(alloc, at)?;
        if let Some(Value::Int(number)) = row.cells.get(0) {
            numbers.push(*number)?;
        }
    }
    Ok(numbers)
}

/// The numbers that were given; none where no row was.
pub fn given(alloc: Global, answer: Result<Option<Batch>, OpRefused>) -> Result<Vec<i64>, Fail> {
    match answer? {
        Some(batch) => numbers_of(alloc, &batch),
        None => Ok(Vec::new(alloc)),
    }
}

/// An expression over two others.
pub fn binary(alloc: Global, op: Op, left: Expr, right: Expr) -> Result<Expr, Fail> {
    Ok(Expr::Binary(op, Boxed::new(alloc, left)?, Boxed::new(alloc, right)?))
}

pub fn number(number: i64) -> Expr {
    Expr::Const(Value::Int(number), Kind::Int)
}

/// The kinds of the batches.
pub fn kinds(alloc: Global) -> Result<Vec<Kind>, Fail>
    ensures { IfOk result (λ kinds. kinds.items ≡ kind.Int ∷ []) }
{
    Ok(vec![in alloc; Kind::Int]?)
}
