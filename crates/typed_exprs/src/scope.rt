//! The columns that a select reads, and which of them a name names.

ghost use Rattle.std.specs.Prelude.{◌≡◌};
ghost use Rattle.typed_exprs.specs.Scopes as spec;

use crate::refusal::{Refusal, Why};
use dfx_value::{Kind, Text};

/// A column that a select reads, under the alias of its table.
#[derive(Debug, Drop)]
pub struct Column {
    pub alias: Text,
    pub name: Text,
    pub kind: Kind,
}

fn is_under(alias: &Option<Text>, column: &Column) -> bool
    ensures { result ≡ spec.is_under alias.now column.now }
{
    match alias {
        None => true,
        Some(alias) => *alias == column.alias,
    }
}

fn is_named(alias: &Option<Text>, name: &Text, column: &Column) -> bool
    ensures { result ≡ spec.is_named alias.now name.now column.now }
{
    is_under(alias, column) && *name == column.name
}

fn any_under(alias: &Option<Text>, columns: &[Column]) -> bool
    ensures { result ≡ spec.any_is (spec.is_under alias.now) columns.now }
{
    for column in columns {
        if is_under(alias, column) {
            return true;
        }
    }
    false
}

/// Whether an alias is written that no table has. Each table has a column.
fn is_unknown(alias: &Option<Text>, columns: &[Column]) -> bool
    ensures { result ≡ spec.is_unknown alias.now columns.now }
{
    match alias {
        None => false,
        Some(_) => !any_under(alias, columns),
    }
}

/// The one column of this name, under its alias where one is written.
fn the_one(
    columns: &[Column],
    place: u32,
    alias: &Option<Text>,
    name: &Text,
) -> Result<usize, Refusal>
    ensures { result
        ≡ spec.the_one place (spec.numbers (spec.is_named alias.now name.now) columns.now) }
{
    let mut found = None;
    for (number, column) in columns.iter().enumerate() {
        if is_named(alias, name, column) {
            if found.is_some() {
                return Err(Refusal::new(Why::Ambiguous, place));
            }
            found = Some(number);
        }
    }
    match found {
        Some(number) => Ok(number),
        None => Err(Refusal::new(Why::UnknownColumn, place)),
    }
}

/// The one column that a name at this place names, by its number from 0.
///
/// UnknownTable where the alias before the name is no table's, UnknownColumn where no column has the name, Ambiguous where several have.
pub fn column_of(
    columns: &[Column],
    place: u32,
    alias: &Option<Text>,
    name: &Text,
) -> Result<usize, Refusal>
    ensures { result ≡ spec.column_of columns.now place alias.now name.now }
{
    if is_unknown(alias, columns) {
        return Err(Refusal::new(Why::UnknownTable, place));
    }
    the_one(columns, place, alias, name)
}
