//! A look at a cell.

ghost use Rattle.std.specs.Prelude.{◌≡◌, IfOk};
ghost use Rattle.value_columns.specs.Cells.{value_of};
ghost use Rattle.dfx_value.specs.Order.{class, value_cmp};

use dfx_value::{Decimal, NoMemory, Text, Value};
use std::alloc::Global;
use std::cmp::Ordering;

/// A cell that is looked at where it stands. It takes no memory.
#[derive(Clone, Copy)]
pub enum Cell<'a> {
    /// SQL's NULL, which is of every kind.
    Null,
    Bool(bool),
    Int(i64),
    Dec(Decimal),
    Text(&'a str),
}

/// The value of a cell.
pub fn own(alloc: Global, cell: Cell<'_>) -> Result<Value, NoMemory>
    ensures { IfOk result (λ value. value ≡ value_of cell.entry) }
{
    Ok(match cell {
        Cell::Null => Value::Null,
        Cell::Bool(truth) => Value::Bool(truth),
        Cell::Int(number) => Value::Int(number),
        Cell::Dec(number) => Value::Dec(number),
        Cell::Text(text) => Value::Text(Text::from_string(String::from_str(alloc, text)?)),
    })
}

/// A look at a value.
pub fn look(value: &Value) -> Cell<'_>
    ensures { value_of result ≡ value.now }
{
    match value {
        Value::Null => Cell::Null,
        Value::Bool(truth) => Cell::Bool(*truth),
        Value::Int(number) => Cell::Int(*number),
        Value::Dec(number) => Cell::Dec(*number),
        Value::Text(text) => Cell::Text(text.as_str()),
    }
}

fn class_of(cell: &Cell<'_>) -> u8
    ensures { result ≡ class (value_of cell.now) }
{
    match cell {
        Cell::Null => 0,
        Cell::Bool(_) => 1,
        Cell::Int(_) | Cell::Dec(_) => 2,
        Cell::Text(_) => 3,
    }
}

/// The order of two values of one class, and else that of their classes: NULL, truths, numbers, texts.
#[tactic(auto, using(dfx_value::proofs::OrderLemmas::bools, dfx_value::proofs::OrderLemmas::ints, dfx_value::proofs::OrderLemmas::int_decimal, dfx_value::proofs::OrderLemmas::decimal_int, dfx_value::proofs::OrderLemmas::decimals, dfx_value::proofs::OrderLemmas::texts))]
pub fn compare(left: &Cell<'_>, right: &Cell<'_>) -> Ordering
    ensures { result ≡ value_cmp (value_of left.now) (value_of right.now) }
{
    match (left, right) {
        (Cell::Bool(a), Cell::Bool(b)) => a.cmp(b),
        (Cell::Int(a), Cell::Int(b)) => a.cmp(b),
        (Cell::Int(a), Cell::Dec(b)) => Decimal::whole(*a).compare(*b),
        (Cell::Dec(a), Cell::Int(b)) => a.compare(Decimal::whole(*b)),
        (Cell::Dec(a), Cell::Dec(b)) => a.compare(*b),
        (Cell::Text(a), Cell::Text(b)) => a.as_bytes().cmp(b.as_bytes()),
        _ => class_of(left).cmp(&class_of(right)),
    }
}
