//! Rows through columns and back, with values worked by hand.

ghost use Rattle.std.specs.Prelude.{◌≡◌, ◌∷◌, [], true, IfOk};
ghost use Rattle.dfx_value.specs.Kinds.{are_of};
ghost use Rattle.dfx_value.specs.declared.kind.Kind.TheVariants as kind;

use crate::cells::{int_or_null, text as text_cell};
use column_batch::{Batch, Builder, Cell, Column, Shared, push_printed};
use dfx_value::{Kind, Row, Value};
use std::alloc::Global;
use std::test::Fail;

fn pair(alloc: Global, number: Option<i64>, text: &str) -> Result<Row, Fail>
    ensures { IfOk result (λ row. are_of (kind.Int ∷ kind.Text ∷ []) row ≡ true) }
{
    let text = text_cell(String::from_str(alloc, text)?);
    let cells = vec![in alloc; int_or_null(number), text]?;
    Ok(Row { cells })
}

/// The rows of a whole number and a text: -7, NULL and 9.
fn three(alloc: Global) -> Result<Batch, Fail>
    ensures { IfOk result (λ batch. batch.kinds ≡ kind.Int ∷ kind.Text ∷ []) }
{
    let mut builder = Builder::new(alloc, &[Kind::Int, Kind::Text])?;
    builder.push(pair(alloc, Some(-7), "héé")?)?;
    builder.push(pair(alloc, None, "")?)?;
    builder.push(pair(alloc, Some(9), "x")?)?;
    Ok(builder.finish(alloc)?)
}

/// The printed cells of a column, each with a mark behind it.
fn shown(alloc: Global, column: &Column) -> Result<String, Fail> {
    let mut text = String::new(alloc);
    for at in 0..column.len() {
        match column.cell(at) {
            Cell::Dec(number) => push_printed(&mut text, Cell::Dec(number))?,
            cell => push_printed(&mut text, cell)?,
        }
        text.push(';')?;
    }
    Ok(text)
}

#[test]
fn parts_of_batches(rt: HostRuntime) -> Result<(), Fail> {
    let alloc = rt.alloc();
    let batch = three(alloc)?;
    assert!(rt; batch.rows() == 3);
    assert_eq!(rt; batch.size(), 102);
    let part = batch.slice(alloc, 1, 3)?;
    assert!(rt; part.rows() == 2);
    let picked = part.pick(alloc, &[1, 0, 1])?;
    assert!(rt; picked.rows() == 3);
    let kept = picked.filter(alloc, &[true, false, true])?;
    assert!(rt; kept.rows() == 2);
    let whole = batch.concat(alloc, &kept)?;
    assert!(rt; whole.rows() == 5);
    assert_eq!(rt;
        shown(alloc, whole.column(alloc, 0)?.column())?.as_str(),
        "-7;;9;9;9;"
    );
    let turned = whole.project(alloc, &[1, 0])?;
    assert_eq!(rt;
        shown(alloc, turned.column(alloc, 0)?.column())?.as_str(),
        "héé;;x;x;x;"
    );
    Ok(())
}

#[test]
fn cells_of_batches(rt: HostRuntime) -> Result<(), Fail> {
    let alloc = rt.alloc();
    let numbers = Column::of_ints(vec![in alloc; 4i64, 5, 6]?, vec![in alloc; false, true]?);
    assert!(rt; numbers.len() == 3);
    let truths = Column::of_truths(vec![in alloc; true, false, true]?, Vec::new(alloc));
    assert!(rt; truths.len() == 3);
    let columns = vec![in alloc; Shared::new(alloc, numbers)?, Shared::new(alloc, truths)?]?;
    let batch = Batch::of_columns(columns, 3);
    let mut text = String::new(alloc);
    for at in 0..3 {
        batch.push_cell(&mut text, at, 0)?;
        text.push(';')?;
        batch.push_cell(&mut text, at, 1)?;
        text.push(';')?;
    }
    assert_eq!(rt; text.as_str(), "4;true;;false;6;true;");
    let (items, nulls) = batch.ints(0);
    assert_eq!(rt; items.last(), Some(&6));
    assert_eq!(rt; nulls, [false, true].as_slice());
    let (items, _) = batch.truths(1);
    assert_eq!(rt; items, [true, false, true].as_slice());
    let row = batch.row(alloc, 2)?;
    let mut builder = Builder::alike(alloc, &batch)?;
    builder.extend(&batch)?;
    builder.push(row)?;
    let more = builder.finish(alloc)?;
    assert_eq!(rt; more.rows(), 4);
    assert_eq!(rt; more.size(), 128);
    Ok(())
}
