//! The rows that are read.

ghost use Rattle.std.specs.Prelude.{◌≡◌, [], ◌∷◌, true, IfOk};
ghost use Rattle.dfx_value.specs.Kinds.{are_of, is_of};
ghost use Rattle.dfx_value.specs.declared.kind.Kind.TheVariants as kind;

use column_batch::{Batch, Builder};
use dfx_value::{Kind, NoMemory, Row, Value};
use std::alloc::Global;

/// The kinds of `a` and `b`.
pub const KINDS: [Kind; 2] = [Kind::Int, Kind::Int];

/// How many rows a batch has.
const ROWS: u32 = 8192;

fn int(number: i64) -> Value
    ensures { is_of kind.Int result ≡ true }
{
    Value::Int(number)
}

/// Every third `b` is NULL.
fn second(at: u32) -> Value
    ensures { is_of kind.Int result ≡ true }
{
    if at % 3 == 2 {
        Value::Null
    } else {
        int(i64::from(at % 100))
    }
}

/// `a` is the row's place.
fn row(alloc: Global, at: u32) -> Result<Row, NoMemory>
    ensures { IfOk result (λ row. are_of (kind.Int ∷ kind.Int ∷ []) row ≡ true) }
{
    let cells = vec![in alloc; int(i64::from(at)), second(at)]?;
    Ok(Row { cells })
}

/// The rows of one batch.
pub fn rows(alloc: Global) -> Result<Vec<Row>, NoMemory> {
    let mut rows = Vec::with_capacity(alloc, ROWS as usize)?;
    for at in 0..ROWS {
        rows.push(row(alloc, at)?)?;
    }
    Ok(rows)
}

/// One batch.
pub fn batch(alloc: Global) -> Result<Batch, NoMemory>
    ensures { IfOk result (λ batch. batch.kinds ≡ kind.Int ∷ kind.Int ∷ []) }
{
    let mut builder = Builder::new(alloc, &[Kind::Int, Kind::Int])?;
    for at in 0..ROWS {
        if builder.push(row(alloc, at)?).is_err() {
            return Err(NoMemory);
        }
    }
    builder.finish(alloc)
}
