//! From the tree of a script to its query.

ghost use Rattle.std.specs.Prelude.{◌≡◌, option_map};
ghost use Rattle.typed_exprs.specs.Answer.{Gives};
ghost use Rattle.sql_binder.specs.Bound as spec;
ghost use Rattle.sql_binder.specs.Orders.{viewed};
ghost use Rattle.sql_binder.specs.Refusals.{IsBound};

use crate::orders::{Single, limit, offset, order};
use crate::selected::Selected;
use crate::selects::bind_parts;
use dfx_value::{Seq, SortKey};
use expr_binder::{Column, Unbound};
use logical_plan::Query;
use sql_grammar::ast::{Script, SelectAst};
use sql_tables::{Schema, tables};
use std::alloc::Global;
use typed_exprs::BindRefused;

fn single<'a>(columns: &'a [Column], parts: &'a [SelectAst]) -> Option<Single<'a>>
    ensures { option_map viewed result ≡ spec.single columns.now parts.now }
{
    if parts.len() == 1 {
        Some(Single {
            columns,
            items: parts[0].items.as_slice(),
        })
    } else {
        None
    }
}

fn query_of(alloc: Global, script: &Script, selected: Selected) -> Result<Query, Unbound>
    ensures { Gives result (spec.query_of script.now selected) }
{
    let single = single(selected.columns.as_slice(), script.parts.as_slice());
    let order = order(
        alloc,
        selected.names.as_slice(),
        single,
        script.order.as_slice(),
    )?;
    let limit = limit(alloc, &script.limit)?;
    let offset = offset(alloc, &script.offset)?;
    Ok(Query {
        names: selected.names,
        body: selected.body,
        order,
        offset,
        limit,
    })
}

fn query(alloc: Global, script: &Script, schemas: &[Schema]) -> Result<Query, Unbound>
    ensures { Gives result (spec.bound script.now schemas.now) }
{
    let tables = tables(alloc, script.tables.as_slice(), schemas)?;
    let selected = bind_parts(alloc, tables.as_slice(), script.parts.as_slice())?;
    query_of(alloc, script, selected)
}

/// The query of a script over its tables. Each statement of a table has a schema: that of its files, where they
/// are Arrow files; else it isn't read, since the statement declares the columns.
///
/// The refusal is the first one: the tables in order; then the selects in order, in each FROM with its joins, WHERE,
/// GROUP BY, the items and HAVING, operands before their operator and from the left; then the union, ORDER BY, LIMIT
/// and OFFSET.
pub fn bind(alloc: Global, script: &Script, schemas: &[Schema]) -> Result<Query, BindRefused>
    ensures { IsBound result (spec.bound script.now schemas.now) }
{
    match query(alloc, script, schemas) {
        Ok(query) => Ok(query),
        Err(Unbound::Refused(refusal)) => Err(BindRefused::of(refusal)),
        Err(Unbound::NoMemory) => Err(BindRefused::NoMemory),
    }
}
