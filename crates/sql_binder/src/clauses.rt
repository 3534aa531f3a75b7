//! The clauses of a select over groups, bound in text order.

ghost use Rattle.std.specs.Prelude.{◌≡◌};
ghost use Rattle.typed_exprs.specs.Answer.{Gives};
ghost use Rattle.sql_binder.specs.Selects as spec;

use crate::aggregates::having;
use crate::groups::keys;
use crate::items::outputs;
use crate::scope::Scope;
use dfx_value::{Kind, Seq};
use expr_binder::{Column, Grouping, Unbound};
use logical_build::{Output, key_kinds};
use scalar_exprs::Expr;
use sql_grammar::ast::{ExprAst, SelectAst};
use std::alloc::Global;

/// GROUP BY, the items and HAVING of a select.
#[derive(Debug, Drop)]
pub struct Clauses {
    /// The keys with their kinds.
    pub keys: Seq<(Expr, Kind)>,
    pub outputs: Seq<Output>,
    /// That of HAVING.
    pub test: Option<Expr>,
}

/// The clauses over these columns, where `calls` are the aggregate calls of the select.
pub fn bind_clauses(
    alloc: Global,
    select: &SelectAst,
    calls: &[ExprAst],
    columns: &[Column],
) -> Result<Clauses, Unbound>
    ensures { Gives result (spec.clauses (spec.select_parts select.now) calls.now columns.now) }
{
    let keys = keys(alloc, columns, select.groups.as_slice())?;
    let kinds = key_kinds(alloc, keys.as_slice())?;
    let groups = Grouping {
        keys: select.groups.as_slice(),
        kinds: kinds.as_slice(),
        calls,
    };
    let scope = Scope::of_groups(alloc, columns, groups)?;
    let outputs = outputs(alloc, &scope, select.items.as_slice())?;
    let test = having(alloc, &scope, &select.having)?;
    Ok(Clauses {
        keys,
        outputs,
        test,
    })
}
