//! Batches of two whole numbers and a text.

ghost use Rattle.std.specs.Prelude.{◌≡◌, ◌<◌, ◌^◌, [], ◌∷◌, length, true, IfOk};
ghost use Rattle.dfx_value.specs.Kinds.{are_of, is_of};
ghost use Rattle.dfx_value.specs.declared.kind.Kind.TheVariants as kind;
ghost use Rattle.scalar_exprs.specs.declared.expr.Expr.TheVariants as expr;

use column_batch::{Batch, Builder};
use dfx_value::{Kind, Row, Text, Value};
use scalar_exprs::{Expr, Op};
use sqlite_items::{Boxed, Items};
use std::alloc::Global;
use std::test::Fail;

/// The kinds of the columns.
pub const KINDS: [Kind; 3] = [Kind::Int, Kind::Int, Kind::Text];

pub fn int(number: i64) -> Value
    ensures { is_of kind.Int result ≡ true }
{
    Value::Int(number)
}

/// A number but for every third.
fn number_at(at: u32) -> Value
    ensures { is_of kind.Int result ≡ true }
{
    if at % 3 == 2 {
        Value::Null
    } else {
        int(i64::from(at))
    }
}

/// A text but for every fifth.
#[tactic(auto, using(dfx_value::proofs::ParseLemmas::utf8_tests))]
fn text_at(alloc: Global, at: u32) -> Result<Value, Fail>
    ensures { IfOk result (λ value. is_of kind.Text value ≡ true) }
{
    if at % 5 == 4 {
        Ok(Value::Null)
    } else {
        Ok(Value::Text(Text::from_string(format!(in alloc; "é{at}")?)))
    }
}

/// A number that is 0 from a place on, a number but for every third, a text but for every fifth.
pub fn row_at(alloc: Global, at: u32, zero: u32) -> Result<Row, Fail>
    ensures { IfOk result (λ row. are_of (kind.Int ∷ kind.Int ∷ kind.Text ∷ []) row ≡ true) }
{
    let divisor = if at < zero { int(7) } else { int(0) };
    let cells = vec![in alloc; divisor, number_at(at), text_at(alloc, at)?]?;
    Ok(Row { cells })
}

/// So many of these rows.
pub fn batch(alloc: Global, rows: u32, zero: u32) -> Result<Batch, Fail>
    ensures kinds { IfOk result (λ batch. batch.kinds ≡ kind.Int ∷ kind.Int ∷ kind.Text ∷ []) }
    ensures rows { IfOk result (λ batch. length batch.rows ≡ rows) }
{
    let mut builder = Builder::new(alloc, &[Kind::Int, Kind::Int, Kind::Text])?;
    for at in 0..rows {
        builder.push(row_at(alloc, at, zero)?)?;
    }
    Ok(builder.finish(alloc)?)
}

/// So many of these rows from the third on, as a part of a part of a batch.
pub fn inner_part(alloc: Global, rows: u32, zero: u32) -> Result<Batch, Fail>
    ensures { IfOk result (λ batch. batch.kinds ≡ kind.Int ∷ kind.Int ∷ kind.Text ∷ []) }
{
    let all = batch(alloc, rows.saturating_add(4), zero)?;
    if all.rows() < 2 {
        return Ok(all);
    }
    let most = all.slice(alloc, 1, all.rows() - 1)?;
    if most.rows() < 2 {
        return Ok(most);
    }
    Ok(most.slice(alloc, 1, most.rows() - 1)?)
}

pub fn number(number: i64) -> Expr {
    Expr::Const(Value::Int(number), Kind::Int)
}

pub fn binary(alloc: Global, op: Op, left: Expr, right: Expr) -> Result<Expr, Fail>
    ensures { IfOk result (λ e. e ≡ expr.Binary op left right) }
{
    Ok(Expr::Binary(op, Boxed::new(alloc, left)?, Boxed::new(alloc, right)?))
}

/// CASE with one arm.
pub fn case(alloc: Global, test: Expr, chosen: Expr, other: Expr) -> Result<Expr, Fail> {
    let mut arms = Vec::new(alloc);
    arms.push((test, chosen))?;
    Ok(Expr::Case(Items::from_vec(arms), Boxed::new(alloc, other)?))
}

/// COALESCE of two.
pub fn coalesce(alloc: Global, first: Expr, second: Expr) -> Result<Expr, Fail> {
    let mut parts = Vec::new(alloc);
    parts.push(first)?;
    parts.push(second)?;
    Ok(Expr::Coalesce(Items::from_vec(parts)))
}
