//! How many rows a test keeps.

ghost use Rattle.std.specs.Prelude.{◌≡◌, [], ◌∷◌};
ghost use Rattle.dfx_value.specs.declared.kind.Kind.TheVariants as kind;

use crate::expressions::{case, product, sum};
use crate::table::{KINDS, batch, rows};
use column_batch::Batch;
use dfx_value::Row;
use scalar_exprs::{EvalRefused, Expr, eval, is_true};
use scalar_vector::eval_tests;
use std::alloc::Global;

/// How often the batch is read.
const TIMES: u32 = 123;

fn count_rows(alloc: Global, expr: &Expr, rows: &[Row]) -> Result<u64, EvalRefused> {
    let mut count: u64 = 0;
    for row in rows {
        if is_true(&eval(alloc, expr, row)?) {
            count = count.wrapping_add(1);
        }
    }
    Ok(count)
}

fn count_columns(alloc: Global, expr: &Expr, batch: &Batch) -> Result<u64, EvalRefused>
    requires { batch.now.kinds ≡ kind.Int ∷ kind.Int ∷ [] }
{
    let mut count: u64 = 0;
    for keep in &eval_tests(alloc, expr, &KINDS, batch)?.keep {
        if *keep {
            count = count.wrapping_add(1);
        }
    }
    Ok(count)
}

fn by_rows(alloc: Global, expr: &Expr) -> Result<u64, EvalRefused> {
    let rows = rows(alloc)?;
    let mut total: u64 = 0;
    for _ in 0..TIMES {
        total = total.wrapping_add(count_rows(alloc, expr, &rows)?);
    }
    Ok(total)
}

fn by_columns(alloc: Global, expr: &Expr) -> Result<u64, EvalRefused> {
    let batch = batch(alloc)?;
    let mut total: u64 = 0;
    for _ in 0..TIMES {
        total = total.wrapping_add(count_columns(alloc, expr, &batch)?);
    }
    Ok(total)
}

/// How many rows the named test keeps, row by row or by columns; 0 for names that there aren't.
pub fn kept(alloc: Global, expression: &str, way: &str) -> Result<u64, EvalRefused> {
    let expr = match expression {
        "sum" => sum(alloc)?,
        "product" => product(alloc)?,
        "case" => case(alloc)?,
        _ => return Ok(0),
    };
    match way {
        "rows" => by_rows(alloc, &expr),
        "columns" => by_columns(alloc, &expr),
        _ => Ok(0),
    }
}
