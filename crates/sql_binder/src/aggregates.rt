//! Aggregate calls, and HAVING.

ghost use Rattle.std.specs.Prelude.{◌≡◌, IfOk, map};
ghost use Rattle.typed_exprs.specs.Answer.{Gives};
ghost use Rattle.logical_build.specs.Calls.{argument as argument_of};
ghost use Rattle.sql_binder.specs.Grouped as spec;

use crate::scope::Scope;
use dfx_value::{NoMemory, Seq};
use expr_binder::{Column, Unbound, add_calls, bind_expr, settle, tested};
use logical_build::argument;
use scalar_exprs::Expr;
use sql_grammar::ast::{ExprAst, ItemAst};
use sqlite_items::Items;
use std::alloc::Global;

fn add_item(
    alloc: Global,
    columns: &[Column],
    mut found: Items<ExprAst>,
    item: &ItemAst,
) -> Result<Items<ExprAst>, NoMemory>
    ensures { IfOk result (λ calls. calls ≡ spec.with_item columns.now found item.now) }
{
    if let ItemAst::One { expr, name: _ } = item {
        add_calls(alloc, columns, &mut found, expr)?;
    }
    Ok(found)
}

/// The aggregate calls of the items and then of HAVING, in the order in which they are met, equal ones once.
pub fn calls(
    alloc: Global,
    columns: &[Column],
    items: &[ItemAst],
    having: &Option<ExprAst>,
) -> Result<Items<ExprAst>, NoMemory>
    ensures { IfOk result (λ calls. calls ≡ spec.calls columns.now items.now having.now) }
{
    let mut found = Items::new(alloc);
    for item in items {
        found = add_item(alloc, columns, found, item)?;
    }
    if let Some(test) = having {
        add_calls(alloc, columns, &mut found, test)?;
    }
    Ok(found)
}

/// GROUP BY, HAVING or an aggregate makes groups.
pub fn is_grouped(groups: &[ExprAst], having: &Option<ExprAst>, calls: &[ExprAst]) -> bool
    ensures { result ≡ spec.is_grouped groups.now having.now calls.now }
{
    groups.len() > 0 || having.is_some() || calls.len() > 0
}

fn argument_expr(alloc: Global, columns: &[Column], argument: &ExprAst) -> Result<Expr, Unbound>
    ensures { Gives result (spec.settled_expr columns.now argument.now) }
{
    let (expr, _) = settle(bind_expr(alloc, columns, None, argument)?);
    Ok(expr)
}

/// The arguments of the calls that have one.
pub fn arguments(alloc: Global, columns: &[Column], calls: &[ExprAst]) -> Result<Seq<Expr>, Unbound>
    ensures { Gives result (spec.arguments columns.now (map argument_of calls.now)) }
{
    let mut done = Vec::new(alloc);
    for call in calls {
        if let Some((_, argument)) = argument(call) {
            done.push(argument_expr(alloc, columns, argument)?)?;
        }
    }
    Ok(Seq::from_vec(done))
}

/// The test of HAVING, which must be a truth.
pub fn having(
    alloc: Global,
    scope: &Scope<'_>,
    test: &Option<ExprAst>,
) -> Result<Option<Expr>, Unbound>
    ensures { Gives result (spec.having scope.now.columns scope.now.over test.now) }
{
    match test {
        None => Ok(None),
        Some(test) => {
            let bound = bind_expr(alloc, scope.columns(), scope.groups(), test)?;
            Ok(Some(tested(test.place, bound)?))
        }
    }
}
