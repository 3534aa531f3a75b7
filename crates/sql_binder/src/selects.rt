//! Selects, and the tree of them.

ghost use Rattle.std.specs.Prelude.{◌≡◌, IfOk, None, map};
ghost use Rattle.typed_exprs.specs.Answer.{Gives};
ghost use Rattle.sql_binder.specs.Each.{each};
ghost use Rattle.sql_binder.specs.Items.{outputs as outputs_of};
ghost use Rattle.sql_binder.specs.Selects as spec;
ghost use Rattle.sql_binder.specs.Sources as sources;

use crate::aggregates::{arguments, calls, is_grouped};
use crate::clauses::{Clauses, bind_clauses};
use crate::items::outputs;
use crate::scope::Scope;
use crate::selected::Selected;
use crate::sources::{Source, derived, filtered, has_alias, join_sources, table};
use crate::unions::united;
use dfx_value::{Kind, NoMemory, Seq, Text};
use expr_binder::{Column, Refusal, Unbound, Why};
use logical_build::{Output, aggregated, kept, numbered, project};
use logical_plan::Logical;
use scalar_exprs::Expr;
use sql_grammar::ast::{ExprAst, FromAst, ItemAst, JoinAst, SelectAst};
use sql_tables::Table;
use std::alloc::Global;

/// A Project of the items, and a Distinct on top where it is written.
fn projected(
    alloc: Global,
    distinct: bool,
    columns: Seq<Column>,
    items: Seq<Output>,
    body: Logical,
) -> Result<Selected, NoMemory>
    ensures { IfOk result (λ s. s ≡ spec.projected distinct columns items body) }
{
    let (names, kinds, body) = project(alloc, distinct, items, body)?;
    Ok(Selected {
        columns,
        names,
        kinds,
        body,
    })
}

fn outputs_over_columns(
    alloc: Global,
    columns: &[Column],
    items: &[ItemAst],
) -> Result<Seq<Output>, Unbound>
    ensures { Gives result (outputs_of columns.now None items.now) }
{
    let scope = Scope::of_columns(alloc, columns);
    outputs(alloc, &scope, items)
}

/// The items over the rows themselves.
fn plain(
    alloc: Global,
    distinct: bool,
    items: &[ItemAst],
    source: Source,
) -> Result<Selected, Unbound>
    ensures { Gives result (spec.plain distinct items.now source) }
{
    let found = outputs_over_columns(alloc, source.columns.as_slice(), items)?;
    Ok(projected(alloc, distinct, source.columns, found, source.body)?)
}

/// The groups over a body, on which HAVING is true.
fn groups_body(
    alloc: Global,
    calls: &[ExprAst],
    keys: Seq<(Expr, Kind)>,
    test: Option<Expr>,
    arguments: Seq<Expr>,
    body: Logical,
) -> Result<Logical, NoMemory>
    ensures { IfOk result (λ b. b ≡ spec.groups_body calls.now keys test arguments body) }
{
    let numbered = numbered(alloc, keys.len(), calls)?;
    let groups = aggregated(alloc, body, keys, arguments, numbered)?;
    kept(alloc, test, groups)
}

/// The items over groups.
fn grouped(
    alloc: Global,
    select: &SelectAst,
    calls: &[ExprAst],
    source: Source,
) -> Result<Selected, Unbound>
    ensures { Gives result (spec.grouped (spec.select_parts select.now) calls.now source) }
{
    let Source { columns, body } = source;
    let bound = bind_clauses(alloc, select, calls, columns.as_slice())?;
    let arguments = arguments(alloc, columns.as_slice(), calls)?;
    let Clauses {
        keys,
        outputs,
        test,
    } = bound;
    let body = groups_body(alloc, calls, keys, test, arguments, body)?;
    Ok(projected(alloc, select.distinct, columns, outputs, body)?)
}

/// A select behind FROM and WHERE.
fn selected(alloc: Global, select: &SelectAst, source: Source) -> Result<Selected, Unbound>
    ensures { Gives result (spec.selected (spec.select_parts select.now) source) }
{
    let items = select.items.as_slice();
    let found = calls(alloc, source.columns.as_slice(), items, &select.having)?;
    if is_grouped(select.groups.as_slice(), &select.having, found.as_slice()) {
        grouped(alloc, select, found.as_slice(), source)
    } else {
        plain(alloc, select.distinct, items, source)
    }
}

/// A table or a derived one, under an alias that none before it has.
#[tactic(auto, using(crate::proofs::SelectSteps::selects))]
#[cycle(select)]
fn read(
    alloc: Global,
    tables: &[Table],
    before: &[Column],
    from: &FromAst,
) -> Result<Source, Unbound>
    ensures { Gives result
        (sources.under_new_alias before.now (spec.reading_of tables.now from.now)) }
{
    match from {
        FromAst::Named {
            table: name,
            alias,
            place,
        } => {
            let source = table(alloc, tables, *place, name, alias)?;
            under_new_alias(before, alias, *place, source)
        }
        FromAst::Derived {
            parts,
            alias,
            place,
        } => {
            let selected = bind_parts(alloc, tables, parts.as_slice())?;
            let source = derived(alloc, alias, selected)?;
            under_new_alias(before, alias, *place, source)
        }
    }
}

fn under_new_alias(
    before: &[Column],
    alias: &Text,
    place: u32,
    source: Source,
) -> Result<Source, Unbound>
    ensures { Gives result (sources.if_new before.now alias.now place source) }
{
    if has_alias(alias, before) {
        return Err(Unbound::from(Refusal::new(Why::Ambiguous, place)));
    }
    Ok(source)
}

/// A join, behind what is read so far.
#[tactic(auto, using(crate::proofs::SelectSteps::selects))]
#[cycle(select)]
fn read_join(
    alloc: Global,
    tables: &[Table],
    join: &JoinAst,
    left: Source,
) -> Result<Source, Unbound>
    ensures { Gives result (sources.joined_source left (spec.joining_of tables.now join.now)) }
{
    let right = read(alloc, tables, left.columns.as_slice(), &join.right)?;
    join_sources(alloc, join.kind, left, right, &join.on)
}

/// What is read first, joined with each of the others in turn.
#[tactic(auto, using(crate::proofs::SelectSteps::selects))]
#[cycle(select)]
fn read_joins(
    alloc: Global,
    tables: &[Table],
    joins: &[JoinAst],
    first: Source,
) -> Result<Source, Unbound>
    ensures { Gives result (sources.all_joined first (map (spec.joining_of tables.now) joins.now)) }
{
    let mut source = first;
    for join in joins {
        source = read_join(alloc, tables, join, source)?;
    }
    Ok(source)
}

/// One select: FROM with its joins, WHERE, and what the items are over that.
#[tactic(auto, using(crate::proofs::SelectSteps::selects))]
#[cycle(select)]
fn bind_select(alloc: Global, tables: &[Table], select: &SelectAst) -> Result<Selected, Unbound>
    ensures { Gives result (spec.select tables.now select.now).select }
{
    let first = read(alloc, tables, &[], &select.first)?;
    let source = read_joins(alloc, tables, select.joins.as_slice(), first)?;
    let source = filtered(alloc, &select.test, source)?;
    selected(alloc, select, source)
}

#[tactic(auto, using(crate::proofs::SelectSteps::selects))]
#[cycle(select)]
fn bind_all(
    alloc: Global,
    tables: &[Table],
    parts: &[SelectAst],
) -> Result<Seq<(u32, Selected)>, Unbound>
    ensures { Gives result (each spec.placed (map (spec.select tables.now) parts.now)) }
{
    let mut done = Vec::new(alloc);
    for part in parts {
        let selected = bind_select(alloc, tables, part)?;
        done.push((part.place, selected))?;
    }
    Ok(Seq::from_vec(done))
}

/// Selects that are united, of which there is one at least.
#[cycle(select)]
pub fn bind_parts(alloc: Global, tables: &[Table], parts: &[SelectAst]) -> Result<Selected, Unbound>
    ensures { Gives result (spec.union_of (map (spec.select tables.now) parts.now)) }
{
    let done = bind_all(alloc, tables, parts)?;
    united(alloc, done.into_vec())
}
