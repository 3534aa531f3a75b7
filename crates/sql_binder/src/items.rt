//! The columns that the items of a select give.

ghost use Rattle.std.specs.Prelude.{◌≡◌, ◌<◌, ◌+◌, ◌++◌, ◌∷◌, [], All, IfOk, Some, length, codes};
ghost use Rattle.std.specs.Option.{option_copied};
ghost use Rattle.typed_exprs.specs.Answer.{Gives};
ghost use Rattle.std.specs.Fmt.{decimal};
ghost use Rattle.scalar_exprs.specs.declared.expr.Expr.TheVariants as expr;
ghost use Rattle.expr_binder.specs.Meaning.{column_kind};
ghost use Rattle.sql_binder.specs.Each.{each};
ghost use Rattle.sql_binder.specs.Items as spec;

use crate::scope::Scope;
use crate::sources::{is_under, is_unknown};
use dfx_value::{Kind, NoMemory, Seq, Text};
use expr_binder::{Column, Grouping, Refusal, Unbound, Why, bind_expr, column_of, settle};
use logical_build::{Output, as_u32};
use scalar_exprs::Expr;
use sql_grammar::ast::{ExprAst, ItemAst, NodeAst};
use std::alloc::Global;

/// Whether an expression is the name of this column.
#[tactic(auto, unfolding(crate::specs::Items::is_column))]
pub fn is_column(columns: &[Column], number: usize, expr: &ExprAst) -> bool
    ensures { result ≡ spec.is_column columns.now number expr.now }
{
    match &expr.node {
        NodeAst::Name(alias, name) => match column_of(columns, 0, alias, name) {
            Ok(found) => found == number,
            Err(_) => false,
        },
        _ => false,
    }
}

fn kind_of_key(kinds: &[Kind], at: usize) -> Kind
    ensures { result ≡ column_kind kinds.now at }
{
    match kinds.get(at) {
        Some(kind) => *kind,
        None => Kind::Text,
    }
}

/// A column itself.
fn own_column(alloc: Global, column: &Column, number: usize) -> Result<Output, NoMemory>
    ensures { IfOk result
        (λ o. o ≡ record {
          name = column.now.name;
          expr = expr.Column number;
          kind = column.now.kind;
        }) }
{
    Ok(Output {
        name: column.name.copy(alloc)?,
        expr: Expr::Column(as_u32(number)?),
        kind: column.kind,
    })
}

/// A column over groups: the first key that is it. NotGrouped where there is none.
fn key_column(
    alloc: Global,
    grouping: &Grouping<'_>,
    key: Option<usize>,
    place: u32,
    column: &Column,
) -> Result<Output, Unbound>
    ensures { Gives result (spec.of_key grouping.now place column.now.name key) }
{
    match key {
        None => Err(Unbound::from(Refusal::new(Why::NotGrouped, place))),
        Some(key) => Ok(Output {
            name: column.name.copy(alloc)?,
            expr: Expr::Column(as_u32(key)?),
            kind: kind_of_key(grouping.kinds, key),
        }),
    }
}

/// A column that `*` gives: itself, or over groups the first key that is this column.
fn star(alloc: Global, scope: &Scope<'_>, place: u32, number: usize) -> Result<Output, Unbound>
    requires { number < length scope.now.columns }
    ensures { Gives result (spec.star scope.now.columns scope.now.over place number) }
{
    let column = &scope.columns()[number];
    match scope.groups() {
        None => Ok(own_column(alloc, column, number)?),
        Some(grouping) => {
            key_column(alloc, grouping, scope.key_of_column(number), place, column)
        }
    }
}

/// Whether `*`, or `alias.*`, gives this column.
fn is_given(alias: Option<&Text>, column: &Column) -> bool
    ensures { result ≡ spec.is_given (option_copied alias.entry) column.now }
{
    match alias {
        None => true,
        Some(alias) => is_under(alias, column),
    }
}

/// The numbers of the columns that `*`, or `alias.*`, gives.
fn given(alloc: Global, columns: &[Column], alias: Option<&Text>) -> Result<Vec<usize>, NoMemory>
    ensures numbers { IfOk result
        (λ numbers. numbers.items ≡ spec.given (option_copied alias.entry) columns.now) }
    ensures within { IfOk result (λ numbers. All (λ n. n < length columns.now) numbers.items) }
{
    let mut numbers = Vec::new(alloc);
    for number in 0..columns.len() {
        if is_given(alias, &columns[number]) {
            numbers.push(number)?;
        }
    }
    Ok(numbers)
}

fn stars_of(
    alloc: Global,
    scope: &Scope<'_>,
    place: u32,
    numbers: &[usize],
) -> Result<Seq<Output>, Unbound>
    requires { All (λ n. n < length scope.now.columns) numbers.now }
    ensures { Gives result (each (spec.star scope.now.columns scope.now.over place) numbers.now) }
{
    let mut outputs = Vec::with_capacity(alloc, numbers.len())?;
    for number in numbers {
        outputs.push(star(alloc, scope, place, *number)?)?;
    }
    Ok(Seq::from_vec(outputs))
}

/// The columns that `*`, or `alias.*`, gives. UnknownTable where no table has the alias.
fn stars(
    alloc: Global,
    scope: &Scope<'_>,
    place: u32,
    alias: Option<&Text>,
) -> Result<Seq<Output>, Unbound>
    ensures { Gives result
        (spec.stars scope.now.columns scope.now.over place (option_copied alias.entry)) }
{
    if is_unknown(alias, scope.columns()) {
        return Err(Unbound::from(Refusal::new(Why::UnknownTable, place)));
    }
    let numbers = given(alloc, scope.columns(), alias)?;
    stars_of(alloc, scope, place, &numbers)
}

/// `c` and a position.
fn numbered_name(alloc: Global, position: usize) -> Result<Text, NoMemory>
    ensures { IfOk result (λ name. name ≡ codes "c" ++ decimal position) }
{
    Ok(Text::from_string(format!(in alloc; "c{position}")?))
}

/// The name that is given, else that of the column which the item is, or `c` and its position, from 1.
fn item_name(
    alloc: Global,
    position: usize,
    expr: &ExprAst,
    name: &Option<Text>,
) -> Result<Text, NoMemory>
    ensures { IfOk result (λ n. n ≡ spec.item_name position expr.now name.now) }
{
    match name {
        Some(name) => name.copy(alloc),
        None => match &expr.node {
            NodeAst::Name(_, name) => name.copy(alloc),
            _ => numbered_name(alloc, position),
        },
    }
}

/// The one column of an item that is an expression.
fn expr_output(
    alloc: Global,
    scope: &Scope<'_>,
    position: usize,
    expr: &ExprAst,
    name: &Option<Text>,
) -> Result<Output, Unbound>
    ensures { Gives result
        (spec.expr_output scope.now.columns scope.now.over position expr.now name.now) }
{
    let (bound, kind) = settle(bind_expr(alloc, scope.columns(), scope.groups(), expr)?);
    Ok(Output {
        name: item_name(alloc, position, expr, name)?,
        expr: bound,
        kind,
    })
}

fn one_output(alloc: Global, output: Output) -> Result<Seq<Output>, NoMemory>
    ensures { IfOk result (λ os. os ≡ output ∷ []) }
{
    let mut outputs = Vec::new(alloc);
    outputs.push(output)?;
    Ok(Seq::from_vec(outputs))
}

/// The columns of an item that begins at a position.
fn outputs_of(
    alloc: Global,
    scope: &Scope<'_>,
    position: usize,
    item: &ItemAst,
) -> Result<Seq<Output>, Unbound>
    ensures { Gives result (spec.outputs_of scope.now.columns scope.now.over position item.now) }
{
    match item {
        ItemAst::All { place } => stars(alloc, scope, *place, None),
        ItemAst::AllOf { name, place } => stars(alloc, scope, *place, Some(name)),
        ItemAst::One { expr, name } => {
            let output = expr_output(alloc, scope, position, expr, name)?;
            Ok(one_output(alloc, output)?)
        }
    }
}

/// How many columns stand under an alias.
fn count_under(columns: &[Column], alias: &Text) -> usize
    ensures { result ≡ length (spec.given (Some alias.now) columns.now) }
{
    let mut count = 0;
    for number in 0..columns.len() {
        if is_under(alias, &columns[number]) {
            count += 1;
        }
    }
    count
}

/// How many columns an item gives.
#[tactic(auto, using(crate::proofs::AllGiven::all_given), unfolding(crate::specs::Items::width_of))]
pub fn width_of(columns: &[Column], item: &ItemAst) -> usize
    ensures { result ≡ spec.width_of columns.now item.now }
{
    match item {
        ItemAst::All { place: _ } => columns.len(),
        ItemAst::AllOf { name, place: _ } => count_under(columns, name),
        ItemAst::One { expr: _, name: _ } => 1,
    }
}

/// A select gives no more columns than this.
const MOST_COLUMNS: usize = 16_384;

/// Whether so many columns, and so many behind them, are more than a select may give.
fn are_too_many(before: usize, width: usize) -> bool
    ensures { result ≡ spec.are_too_many (before + width) }
{
    match before.checked_add(width) {
        Some(count) => count > MOST_COLUMNS,
        None => true,
    }
}

fn place_of_item(item: &ItemAst) -> u32
    ensures { result ≡ spec.place_of_item item.now }
{
    match item {
        ItemAst::All { place } => *place,
        ItemAst::AllOf { name: _, place } => *place,
        ItemAst::One { expr, name: _ } => expr.place,
    }
}

/// The columns of an item behind `before` others. Unsupported where they are too many with it, which then isn't
/// bound.
fn outputs_behind(
    alloc: Global,
    scope: &Scope<'_>,
    before: usize,
    item: &ItemAst,
) -> Result<Seq<Output>, Unbound>
    ensures { Gives result (spec.outputs_behind scope.now.columns scope.now.over before item.now) }
{
    if are_too_many(before, width_of(scope.columns(), item)) {
        return Err(Unbound::from(Refusal::new(Why::Unsupported, place_of_item(item))));
    }
    outputs_of(alloc, scope, before + 1, item)
}

fn appended(done: Seq<Output>, more: Seq<Output>) -> Result<Seq<Output>, NoMemory>
    ensures { IfOk result (λ all. all ≡ done ++ more) }
{
    let mut all = done.into_vec();
    let mut more = more.into_vec();
    all.append(&mut more)?;
    Ok(Seq::from_vec(all))
}

/// The columns of all items, in order.
pub fn outputs(alloc: Global, scope: &Scope<'_>, items: &[ItemAst]) -> Result<Seq<Output>, Unbound>
    ensures { Gives result (spec.outputs scope.now.columns scope.now.over items.now) }
{
    let mut done = Seq::from_vec(Vec::new(alloc));
    for item in items {
        let more = outputs_behind(alloc, scope, done.len(), item)?;
        done = appended(done, more)?;
    }
    Ok(done)
}
