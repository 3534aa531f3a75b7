//! Batches about the lengths at which words and blocks end, with NULLs; parts that outlive what they were taken from.

ghost use Rattle.std.specs.Prelude.{◌≡◌, ◌<◌, ◌^◌, [], ◌∷◌, length, true, IfOk};
ghost use Rattle.dfx_value.specs.Kinds.{are_of, is_of};
ghost use Rattle.dfx_value.specs.declared.kind.Kind.TheVariants as kind;

use crate::cells::{int, text};
use column_batch::{Batch, Builder};
use dfx_value::{Kind, Row, Value};
use std::alloc::Global;
use std::fmt::Write;
use std::test::Fail;

/// A number but for every third.
fn number_at(at: u32) -> Value
    ensures { is_of kind.Int result ≡ true }
{
    if at % 3 == 2 {
        Value::Null
    } else {
        int(-i64::from(at))
    }
}

/// A text but for every fifth.
fn text_at(alloc: Global, at: u32) -> Result<Value, Fail>
    ensures { IfOk result (λ value. is_of kind.Text value ≡ true) }
{
    if at % 5 == 4 {
        Ok(Value::Null)
    } else {
        Ok(text(format!(in alloc; "é{at}")?))
    }
}

fn numbered_row(alloc: Global, at: u32) -> Result<Row, Fail>
    ensures { IfOk result (λ row. are_of (kind.Int ∷ kind.Text ∷ []) row ≡ true) }
{
    let cells = vec![in alloc; number_at(at), text_at(alloc, at)?]?;
    Ok(Row { cells })
}

/// So many of these rows.
fn numbered(alloc: Global, rows: u32) -> Result<Batch, Fail>
    ensures kinds { IfOk result (λ batch. batch.kinds ≡ kind.Int ∷ kind.Text ∷ []) }
    ensures rows { IfOk result (λ batch. length batch.rows ≡ rows) }
{
    let mut builder = Builder::new(alloc, &[Kind::Int, Kind::Text])?;
    for at in 0..rows {
        builder.push(numbered_row(alloc, at)?)?;
    }
    Ok(builder.finish(alloc)?)
}

/// The printed cells of a batch.
fn shown(alloc: Global, batch: &Batch) -> Result<String, Fail>
    requires { length batch.now.kinds ≡ 2 }
{
    let mut text = String::new(alloc);
    for at in 0..batch.rows() {
        batch.push_cell(&mut text, at, 0)?;
        text.push('|')?;
        batch.push_cell(&mut text, at, 1)?;
        text.push(';')?;
    }
    Ok(text)
}

/// What such rows show from one place to before another, where they are taken in steps.
fn expected(alloc: Global, from: u32, to: u32, step: u32) -> Result<String, Fail> {
    let mut text = String::new(alloc);
    for at in from..to {
        if step == 0 || (at - from) % step != 0 {
            continue;
        }
        if at % 3 != 2 {
            if at > 0 {
                text.push('-')?;
            }
            write!(text, "{at}")?;
        }
        text.push('|')?;
        if at % 5 != 4 {
            write!(text, "é{at}")?;
        }
        text.push(';')?;
    }
    Ok(text)
}

#[test]
fn lengths(rt: HostRuntime) -> Result<(), Fail> {
    let alloc = rt.alloc();
    for rows in [0u32, 1, 7, 8, 9, 63, 64, 65] {
        let whole = numbered(alloc, rows)?;
        assert_eq!(rt; shown(alloc, &whole)?, expected(alloc, 0, rows, 1)?);
        let part = whole.slice(alloc, rows / 8, rows)?;
        let len = part.rows();
        assert!(rt; len == rows - rows / 8);
        let inner = part.slice(alloc, len / 3, len - len / 9)?;
        drop(whole);
        drop(part);
        let from = rows / 8 + len / 3;
        let to = rows / 8 + len - len / 9;
        assert_eq!(rt; shown(alloc, &inner)?, expected(alloc, from, to, 1)?);
        let mut keep = Vec::new(alloc);
        for at in 0..inner.rows() {
            keep.push(at % 2 == 0)?;
        }
        assert!(rt; keep.len() == inner.rows() as usize);
        let halved = inner.filter(alloc, &keep)?;
        drop(inner);
        assert_eq!(rt; shown(alloc, &halved)?, expected(alloc, from, to, 2)?);
    }
    Ok(())
}
