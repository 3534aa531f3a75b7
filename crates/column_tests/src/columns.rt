//! Each call at ample memory, with values worked by hand: looks at cells, columns of each kind. proofs/CellExamples.antt has eleven
//! values with their order and their texts.

ghost use Rattle.std.specs.Prelude.{◌≡◌};

use column_batch::{Cell, Column, compare, look, own, push_printed};
use dfx_value::{Decimal, Kind, Text, Value, value_text};
use std::alloc::Global;
use std::cmp::Ordering;
use std::process::Abort;
use std::test::Fail;

fn dec(rt: &impl Abort, unscaled: i128, scale: u8) -> Decimal
    ensures { result ≡ record { unscaled = unscaled; scale = scale } }
{
    assert!(rt; unscaled.unsigned_abs() < 1_000_000);
    assert!(rt; scale <= 38);
    Decimal { unscaled, scale }
}

/// The printed text of a value, by a look at it and by one at what is made of that.
fn printed(alloc: Global, value: &Value) -> Result<String, Fail> {
    let mut text = String::new(alloc);
    match look(value) {
        Cell::Dec(number) => push_printed(&mut text, Cell::Dec(number))?,
        cell => push_printed(&mut text, cell)?,
    }
    text.push(';')?;
    let again = match look(value) {
        Cell::Dec(number) => own(alloc, Cell::Dec(number))?,
        cell => own(alloc, cell)?,
    };
    text.push_str(value_text(alloc, &again)?.as_str())?;
    Ok(text)
}

/// Whether a look at one value stands to one at another as these do.
fn is_ordered(left: &Value, right: &Value, order: Ordering) -> bool {
    match (look(left), look(right)) {
        (Cell::Dec(a), b) => compare(&Cell::Dec(a), &b) == order,
        (a, b) => compare(&a, &b) == order,
    }
}

#[test]
fn looks(rt: HostRuntime) -> Result<(), Fail> {
    let alloc = rt.alloc();
    let number = Value::Dec(dec(&rt, -25, 1));
    let text = Value::Text(Text::from_string(String::from_str(alloc, "é")?));
    assert_eq!(rt; printed(alloc, &number)?.as_str(), "-2.5;-2.5");
    assert_eq!(rt; printed(alloc, &text)?.as_str(), "é;é");
    assert!(rt; is_ordered(&number, &text, Ordering::Less));
    Ok(())
}

/// The printed cells of a column, each with a mark behind it.
fn shown(alloc: Global, column: &Column) -> Result<String, Fail> {
    let mut text = String::new(alloc);
    for at in 0..column.len() {
        match column.cell(at) {
            Cell::Dec(number) => push_printed(&mut text, Cell::Dec(number))?,
            cell => push_printed(&mut text, cell)?,
        }
        text.push(';')?;
    }
    Ok(text)
}

#[test]
fn whole_numbers(rt: HostRuntime) -> Result<(), Fail> {
    let alloc = rt.alloc();
    let column = Column::of_ints(
        vec![in alloc; -7i64, 0, 9_000_000_000, 0]?,
        vec![in alloc; false, true]?,
    );
    assert!(rt; column.len() == 4);
    assert_eq!(rt; shown(alloc, &column)?.as_str(), "-7;;9000000000;0;");
    let (numbers, nulls) = column.ints(1, 4);
    assert_eq!(rt; numbers.last(), Some(&0));
    assert_eq!(rt; nulls, [true].as_slice());
    let mut more = column.pick(alloc, 1, &[1, 0])?;
    assert!(rt; more.len() == 2);
    more.push_int(1)?;
    assert!(rt; more.len() == 3);
    more.extend(&column, 0, 2)?;
    assert!(rt; more.len() == 5);
    assert_eq!(rt; shown(alloc, &more)?.as_str(), "9000000000;;1;-7;;");
    assert_eq!(rt; more.size(1, 5), 64);
    Ok(())
}

#[test]
fn texts(rt: HostRuntime) -> Result<(), Fail> {
    let alloc = rt.alloc();
    let mut texts = Column::new(alloc, Kind::Text);
    texts.push_text("héé")?;
    texts.push_text("x")?;
    texts.push_null()?;
    assert!(rt; texts.len() == 3);
    assert_eq!(rt; shown(alloc, &texts)?.as_str(), "héé;x;;");
    assert_eq!(rt; texts.size(0, 3), 54);
    Ok(())
}

#[test]
fn decimals(rt: HostRuntime) -> Result<(), Fail> {
    let alloc = rt.alloc();
    let mut decimals = Column::new(
        alloc,
        Kind::Dec {
            precision: 3,
            scale: 1,
        },
    );
    decimals.push_decimal(dec(&rt, -25, 1))?;
    decimals.push_copy(&Value::Dec(dec(&rt, 999, 1)))?;
    let number = dec(&rt, 5, 1);
    decimals.push(Cell::Dec(number))?;
    assert_eq!(rt; shown(alloc, &decimals)?.as_str(), "-2.5;99.9;0.5;");
    Ok(())
}

#[test]
fn truths(rt: HostRuntime) -> Result<(), Fail> {
    let alloc = rt.alloc();
    let mut truths = Column::of_truths(vec![in alloc; true]?, Vec::new(alloc));
    assert!(rt; truths.len() == 1);
    truths.push_truth(false)?;
    assert!(rt; truths.len() == 2);
    truths.push_value(Value::Null)?;
    assert!(rt; truths.len() == 3);
    assert_eq!(rt; shown(alloc, &truths)?.as_str(), "true;false;;");
    let (items, nulls) = truths.truths(0, 2);
    assert_eq!(rt; items, [true, false].as_slice());
    assert!(rt; !nulls.contains(&true));
    Ok(())
}
