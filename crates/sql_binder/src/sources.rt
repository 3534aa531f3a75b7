//! What FROM gives, one table or join at a time.

ghost use Rattle.std.specs.Prelude.{◌≡◌, ◌++◌, ◌<◌, IfOk, IfSome, Some, length, option_map};
ghost use Rattle.std.specs.Option.{option_copied};
ghost use Rattle.typed_exprs.specs.Answer.{Gives};
ghost use Rattle.typed_exprs.specs.Scopes.{any_is, is_under as is_under_alias, is_unknown as is_unknown_alias};
ghost use Rattle.typed_exprs.specs.Answer.{or_refuse};
ghost use Rattle.typed_exprs.specs.declared.refusal.Why.TheVariants as why;
ghost use Rattle.join_lowering.specs.Lowering.{lowered};
ghost use Rattle.sql_binder.specs.Sources as spec;

use crate::selected::Selected;
use dfx_value::{JoinKind, Kind, NoMemory, Seq, Text};
use expr_binder::{Column, Refusal, Unbound, Why, bind_expr, tested};
use join_lowering::{Side, lower_join};
use logical_build::as_u32;
use logical_plan::Logical;
use scalar_exprs::Expr;
use sql_grammar::ast::ExprAst;
use sql_tables::{Table, columns_under};
use sqlite_items::{Boxed, Items};
use std::alloc::Global;

/// A body, and its columns under their aliases.
#[derive(Debug, Drop)]
pub struct Source {
    pub columns: Seq<Column>,
    pub body: Logical,
}

fn kinds_of(alloc: Global, columns: &[Column]) -> Result<Items<Kind>, NoMemory>
    ensures { IfOk result (λ kinds. kinds ≡ spec.kinds columns.now) }
{
    let mut kinds = Items::new(alloc);
    for column in columns {
        kinds.push(column.kind)?;
    }
    Ok(kinds)
}

fn scanned(alloc: Global, table: usize, columns: Vec<Column>) -> Result<Source, NoMemory>
    ensures { IfOk result (λ source. source ≡ spec.scanned table columns.items) }
{
    let kinds = kinds_of(alloc, columns.as_slice())?;
    Ok(Source {
        columns: Seq::from_vec(columns),
        body: Logical::Scan {
            table: as_u32(table)?,
            kinds,
        },
    })
}

/// The number of the first table of this name.
fn number_of_table(tables: &[Table], name: &Text) -> Option<usize>
    ensures number { result ≡ spec.number_of_table tables.now name.now }
    ensures within { IfSome result (λ k. k < length tables.now) }
{
    for number in 0..tables.len() {
        if tables[number].name == *name {
            return Some(number);
        }
    }
    None
}

/// The rows of a table under an alias. UnknownTable where there is none of this name.
pub fn table(
    alloc: Global,
    tables: &[Table],
    place: u32,
    name: &Text,
    alias: &Text,
) -> Result<Source, Unbound>
    ensures { Gives result (spec.table tables.now place name.now alias.now) }
{
    match number_of_table(tables, name) {
        None => Err(Unbound::from(Refusal::new(Why::UnknownTable, place))),
        Some(number) => {
            let table = &tables[number];
            let columns = columns_under(
                alloc,
                alias,
                table.names.as_slice(),
                table.kinds.as_slice(),
            )?;
            Ok(scanned(alloc, number, columns)?)
        }
    }
}

/// The rows of a derived table under its alias.
pub fn derived(alloc: Global, alias: &Text, selected: Selected) -> Result<Source, NoMemory>
    ensures { IfOk result (λ source. source ≡ spec.derived alias.now selected) }
{
    let Selected {
        columns: _,
        names,
        kinds,
        body,
    } = selected;
    let columns = columns_under(alloc, alias, names.as_slice(), kinds.as_slice())?;
    Ok(Source {
        columns: Seq::from_vec(columns),
        body,
    })
}

pub fn is_under(alias: &Text, column: &Column) -> bool
    ensures { result ≡ is_under_alias (Some alias.now) column.now }
{
    *alias == column.alias
}

/// Whether a column stands under this alias.
pub fn has_alias(alias: &Text, columns: &[Column]) -> bool
    ensures { result ≡ any_is (is_under_alias (Some alias.now)) columns.now }
{
    for column in columns {
        if is_under(alias, column) {
            return true;
        }
    }
    false
}

/// Whether an alias is written that no table has. Each table has a column.
pub fn is_unknown(alias: Option<&Text>, columns: &[Column]) -> bool
    ensures { result ≡ is_unknown_alias (option_copied alias.entry) columns.now }
{
    match alias {
        None => false,
        Some(alias) => !has_alias(alias, columns),
    }
}

/// A test over columns, which must be a truth.
pub fn condition(alloc: Global, columns: &[Column], test: &ExprAst) -> Result<Expr, Unbound>
    ensures { Gives result (spec.condition columns.now test.now) }
{
    let bound = bind_expr(alloc, columns, None, test)?;
    Ok(tested(test.place, bound)?)
}

/// A body of so many columns, as a side of a join.
fn side(body: Logical, columns: usize) -> Result<Side, NoMemory>
    ensures { IfOk result (λ side. side ≡ record { body = body; width = columns }) }
{
    let width = as_u32(columns)?;
    Ok(Side { body, width })
}

/// The body of a join, where its test has a key.
fn join_of(
    alloc: Global,
    kind: JoinKind,
    left: Side,
    right: Side,
    on: Expr,
    place: u32,
) -> Result<Logical, Unbound>
    ensures { Gives result (or_refuse why.NoEquiKey place (lowered kind left right on)) }
{
    match lower_join(alloc, kind, left, right, on)? {
        Some(body) => Ok(body),
        None => Err(Unbound::from(Refusal::new(Why::NoEquiKey, place))),
    }
}

/// The left columns, and behind them the right ones.
fn both(left: Seq<Column>, right: Seq<Column>) -> Result<Seq<Column>, NoMemory>
    ensures { IfOk result (λ columns. columns ≡ left ++ right) }
{
    let mut columns = left.into_vec();
    let mut more = right.into_vec();
    columns.append(&mut more)?;
    Ok(Seq::from_vec(columns))
}

/// The body of a join on a test over both sides' columns.
fn joined_body(
    alloc: Global,
    kind: JoinKind,
    left: Side,
    right: Side,
    columns: &[Column],
    on: &ExprAst,
) -> Result<Logical, Unbound>
    ensures { Gives result (spec.joined_body kind left right columns.now on.now) }
{
    let test = condition(alloc, columns, on)?;
    join_of(alloc, kind, left, right, test, on.place)
}

/// The body of a join of two bodies of so many columns.
fn joined_bodies(
    alloc: Global,
    kind: JoinKind,
    left: (Logical, usize),
    right: (Logical, usize),
    columns: &[Column],
    on: &ExprAst,
) -> Result<Logical, Unbound>
    ensures { Gives result
        (spec.joined_body kind (record { body = left.0; width = left.1 })
        (record { body = right.0; width = right.1 }) columns.now on.now) }
{
    let (left, left_columns) = left;
    let (right, right_columns) = right;
    let left = side(left, left_columns)?;
    let right = side(right, right_columns)?;
    joined_body(alloc, kind, left, right, columns, on)
}

/// Two sources joined on a test.
pub fn join_sources(
    alloc: Global,
    kind: JoinKind,
    left: Source,
    right: Source,
    on: &ExprAst,
) -> Result<Source, Unbound>
    ensures { Gives result (spec.joined_on kind left right on.now) }
{
    let Source {
        columns: left_columns,
        body: left,
    } = left;
    let Source {
        columns: right_columns,
        body: right,
    } = right;
    let left = (left, left_columns.len());
    let right = (right, right_columns.len());
    let columns = both(left_columns, right_columns)?;
    let body = joined_bodies(alloc, kind, left, right, columns.as_slice(), on)?;
    Ok(Source { columns, body })
}

/// The rows on which WHERE is true.
pub fn filtered(alloc: Global, test: &Option<ExprAst>, source: Source) -> Result<Source, Unbound>
    ensures { Gives result (spec.filtered test.now source) }
{
    match test {
        None => Ok(source),
        Some(test) => {
            let test = condition(alloc, source.columns.as_slice(), test)?;
            Ok(Source {
                columns: source.columns,
                body: Logical::Filter {
                    input: Boxed::new(alloc, source.body)?,
                    test,
                },
            })
        }
    }
}
