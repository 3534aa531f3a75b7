//! Equal plans.

ghost use Rattle.std.specs.Prelude.{◌≡◌, IfOk};

use crate::plan::Plan;
use crate::properties::copy_partitioning;
use dfx_value::NoMemory;
use scalar_exprs::{Expr, copy_expr};
use sqlite_items::{Boxed, Items};
use std::alloc::Global;

/// Equal expressions.
pub fn copy_exprs(alloc: Global, exprs: &[Expr]) -> Result<Items<Expr>, NoMemory>
    ensures { IfOk result (λ copy. copy ≡ exprs.now) }
{
    let mut copies = Items::new(alloc);
    for expr in exprs {
        copies.push(copy_expr(alloc, expr)?)?;
    }
    Ok(copies)
}

/// An equal expression, where there is one.
pub fn copy_rest(alloc: Global, rest: &Option<Expr>) -> Result<Option<Expr>, NoMemory>
    ensures { IfOk result (λ copy. copy ≡ rest.now) }
{
    match rest {
        Some(expr) => Ok(Some(copy_expr(alloc, expr)?)),
        None => Ok(None),
    }
}

#[cycle(copy)]
fn copy_all(alloc: Global, plans: &[Plan]) -> Result<Items<Plan>, NoMemory>
    ensures { IfOk result (λ copy. copy ≡ plans.now) }
{
    let mut copies = Items::new(alloc);
    for plan in plans {
        copies.push(copy_plan(alloc, plan)?)?;
    }
    Ok(copies)
}

#[cycle(copy)]
fn copy_input(alloc: Global, plan: &Boxed<Plan>) -> Result<Boxed<Plan>, NoMemory>
    ensures { IfOk result (λ copy. copy ≡ plan.now) }
{
    Ok(Boxed::new(alloc, copy_plan(alloc, plan.get())?)?)
}

/// An equal plan.
#[cycle(copy)]
pub fn copy_plan(alloc: Global, plan: &Plan) -> Result<Plan, NoMemory>
    ensures { IfOk result (λ copy. copy ≡ plan.now) }
{
    Ok(match plan {
        Plan::Scan {
            table,
            kinds,
            files,
            partitions,
        } => Plan::Scan {
            table: *table,
            kinds: Items::from_slice(alloc, kinds.as_slice())?,
            files: *files,
            partitions: *partitions,
        },
        Plan::Filter { input, test } => Plan::Filter {
            input: copy_input(alloc, input)?,
            test: copy_expr(alloc, test)?,
        },
        Plan::Project { input, items } => Plan::Project {
            input: copy_input(alloc, input)?,
            items: copy_exprs(alloc, items.as_slice())?,
        },
        Plan::PartialGroup { input, keys, calls } => Plan::PartialGroup {
            input: copy_input(alloc, input)?,
            keys: Items::from_slice(alloc, keys.as_slice())?,
            calls: Items::from_slice(alloc, calls.as_slice())?,
        },
        Plan::FinalGroup { input, keys, calls } => Plan::FinalGroup {
            input: copy_input(alloc, input)?,
            keys: Items::from_slice(alloc, keys.as_slice())?,
            calls: Items::from_slice(alloc, calls.as_slice())?,
        },
        Plan::HashJoin {
            kind,
            left,
            right,
            keys,
            rest,
        } => Plan::HashJoin {
            kind: *kind,
            left: copy_input(alloc, left)?,
            right: copy_input(alloc, right)?,
            keys: Items::from_slice(alloc, keys.as_slice())?,
            rest: copy_rest(alloc, rest)?,
        },
        Plan::Sort { input, keys } => Plan::Sort {
            input: copy_input(alloc, input)?,
            keys: Items::from_slice(alloc, keys.as_slice())?,
        },
        Plan::Merge { input, keys } => Plan::Merge {
            input: copy_input(alloc, input)?,
            keys: Items::from_slice(alloc, keys.as_slice())?,
        },
        Plan::Coalesce { input } => Plan::Coalesce {
            input: copy_input(alloc, input)?,
        },
        Plan::Repartition { input, to } => Plan::Repartition {
            input: copy_input(alloc, input)?,
            to: copy_partitioning(alloc, to)?,
        },
        Plan::UnionAll { inputs } => Plan::UnionAll {
            inputs: copy_all(alloc, inputs.as_slice())?,
        },
        Plan::Limit { input, skip, fetch } => Plan::Limit {
            input: copy_input(alloc, input)?,
            skip: *skip,
            fetch: *fetch,
        },
    })
}
