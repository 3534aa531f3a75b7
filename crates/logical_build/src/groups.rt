//! The rows of groups: a Project of the keys and then the arguments, and an Aggregate.

ghost use Rattle.std.specs.Prelude.{◌≡◌, ◌++◌, IfOk};
ghost use Rattle.logical_build.specs.Groups as spec;

use crate::number::as_u32;
use dfx_value::{AggCall, Kind, NoMemory, Seq};
use logical_plan::Logical;
use scalar_exprs::Expr;
use sqlite_items::{Boxed, Items};
use std::alloc::Global;

/// The kinds of keys.
pub fn key_kinds(alloc: Global, keys: &[(Expr, Kind)]) -> Result<Vec<Kind>, NoMemory>
    ensures { IfOk result (λ kinds. kinds.items ≡ spec.key_kinds keys.now) }
{
    let mut kinds = Vec::with_capacity(alloc, keys.len())?;
    for (_, kind) in keys {
        kinds.push(*kind)?;
    }
    Ok(kinds)
}

/// The expressions of keys.
fn key_exprs(alloc: Global, keys: Seq<(Expr, Kind)>) -> Result<Items<Expr>, NoMemory>
    ensures { IfOk result (λ exprs. exprs ≡ spec.exprs keys) }
{
    let mut exprs = Items::new(alloc);
    for (expr, _) in keys.into_vec() {
        exprs.push(expr)?;
    }
    Ok(exprs)
}

/// The first `count` columns.
#[tactic(auto, using(crate::proofs::FirstColumns::first_columns))]
fn first_columns(alloc: Global, count: usize) -> Result<Items<u32>, NoMemory>
    ensures { IfOk result (λ columns. columns ≡ spec.first_columns count) }
{
    let mut columns = Items::new(alloc);
    for column in 0..count {
        columns.push(as_u32(column)?)?;
    }
    Ok(columns)
}

/// The expressions of keys, and behind them the arguments.
fn keys_and_arguments(
    alloc: Global,
    keys: Seq<(Expr, Kind)>,
    arguments: Seq<Expr>,
) -> Result<Items<Expr>, NoMemory>
    ensures { IfOk result (λ items. items ≡ spec.exprs keys ++ arguments) }
{
    let mut items = key_exprs(alloc, keys)?;
    items.append(Items::from_vec(arguments.into_vec()))?;
    Ok(items)
}

/// The groups over a body: rows of the keys and then of the calls.
pub fn aggregated(
    alloc: Global,
    body: Logical,
    keys: Seq<(Expr, Kind)>,
    arguments: Seq<Expr>,
    calls: Items<AggCall>,
) -> Result<Logical, NoMemory>
    ensures { IfOk result (λ body'. body' ≡ spec.aggregated body keys arguments calls) }
{
    let columns = first_columns(alloc, keys.len())?;
    let items = keys_and_arguments(alloc, keys, arguments)?;
    let below = Logical::Project {
        input: Boxed::new(alloc, body)?,
        items,
    };
    Ok(Logical::Aggregate {
        input: Boxed::new(alloc, below)?,
        keys: columns,
        calls,
    })
}

/// The rows on which a test is true.
pub fn kept(alloc: Global, test: Option<Expr>, body: Logical) -> Result<Logical, NoMemory>
    ensures { IfOk result (λ body'. body' ≡ spec.kept test body) }
{
    match test {
        None => Ok(body),
        Some(test) => Ok(Logical::Filter {
            input: Boxed::new(alloc, body)?,
            test,
        }),
    }
}
