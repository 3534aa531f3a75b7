//! The plain plan of a body, without exchanges and sorts for them.

ghost use Rattle.std.specs.Prelude.{◌≡◌, ◌+◌, IfOk, slice_index_or, [], None};
ghost use Rattle.physical_plan.specs.Numbers.{numbers_from, numbers};
ghost use Rattle.physical_build.specs.Build as spec;

use dfx_value::{NoMemory, SortKey};
use logical_plan::{AggCall, Logical, Query};
use physical_plan::{Plan, copy_exprs, copy_rest};
use scalar_exprs::copy_expr;
use sqlite_items::{Boxed, Items};
use std::alloc::Global;

/// A plan and how many columns it has.
struct Body {
    plan: Plan,
    width: u32,
}

/// The numbers below one.
#[tactic(auto, using(crate::proofs::Bodies::numbered))]
fn first_numbers(alloc: Global, count: u32) -> Result<Items<u32>, NoMemory>
    ensures { IfOk result (λ v. v ≡ numbers count) }
{
    let mut all = Items::new(alloc);
    for number in 0..count {
        all.push(number)?;
    }
    Ok(all)
}

/// Both phases of a grouping.
fn two_phases(
    alloc: Global,
    input: Plan,
    keys: Items<u32>,
    calls: &[AggCall],
) -> Result<Plan, NoMemory>
    ensures { IfOk result (λ p. p ≡ spec.two_phases input keys calls.now) }
{
    let count = u32::try_from(keys.len()).map_err(|_| NoMemory)?;
    let first = Plan::PartialGroup {
        input: Boxed::new(alloc, input)?,
        keys,
        calls: Items::from_slice(alloc, calls)?,
    };
    Ok(Plan::FinalGroup {
        input: Boxed::new(alloc, first)?,
        keys: first_numbers(alloc, count)?,
        calls: Items::from_slice(alloc, calls)?,
    })
}

fn small(count: usize) -> Result<u32, NoMemory>
    ensures { IfOk result (λ n. n ≡ count) }
{
    match u32::try_from(count) {
        Ok(small) => Ok(small),
        Err(_) => Err(NoMemory),
    }
}

fn total(left: u32, right: u32) -> Result<u32, NoMemory>
    ensures { IfOk result (λ n. n ≡ spec.plus left right) }
{
    match left.checked_add(right) {
        Some(sum) => Ok(sum),
        None => Err(NoMemory),
    }
}

fn files_of(files: &[u32], table: u32) -> u32
    ensures { result ≡ slice_index_or files.now table 0 }
{
    if (table as usize) < files.len() {
        files[table as usize]
    } else {
        0
    }
}

fn first_or(first: Option<u32>, width: u32) -> Option<u32>
    ensures { result ≡ spec.first_or first width }
{
    match first {
        Some(known) => Some(known),
        None => Some(width),
    }
}

fn known_or(first: Option<u32>) -> u32
    ensures { result ≡ spec.first_of first [] }
{
    match first {
        Some(known) => known,
        None => 0,
    }
}

#[cycle(build)]
#[tactic(auto, using(crate::proofs::Bodies::steps))]
fn build_all(
    alloc: Global,
    plans: &[Logical],
    files: &[u32],
    n: u32,
) -> Result<(Items<Plan>, u32), NoMemory>
    ensures plans { IfOk result (λ r. r.0 ≡ spec.plans files.now n plans.now) }
    ensures width { IfOk result
        (λ r. r.1 ≡ spec.first_of None (spec.bodies files.now n plans.now)) }
{
    let mut all = Items::new(alloc);
    let mut first = None;
    for plan in plans {
        let Body { plan: one, width } = build_body(alloc, plan, files, n)?;
        first = first_or(first, width);
        all.push(one)?;
    }
    Ok((all, known_or(first)))
}

/// The plan of a body, and its width.
#[cycle(build)]
#[tactic(auto, using(crate::proofs::Bodies::builds))]
fn build_body(alloc: Global, body: &Logical, files: &[u32], n: u32) -> Result<Body, NoMemory>
    ensures plan { IfOk result (λ b. b.plan ≡ (spec.built_of files.now n body.now).plan) }
    ensures width { IfOk result (λ b. b.width ≡ (spec.built_of files.now n body.now).width) }
{
    match body {
        Logical::Scan { table, kinds } => {
            let count = files_of(files, *table);
            Ok(Body {
                plan: Plan::Scan {
                    table: *table,
                    kinds: Items::from_slice(alloc, kinds.as_slice())?,
                    files: count,
                    partitions: count.max(1).min(n),
                },
                width: small(kinds.len())?,
            })
        }
        Logical::Filter { input, test } => {
            let Body { plan, width } = build_body(alloc, input.get(), files, n)?;
            Ok(Body {
                plan: Plan::Filter {
                    input: Boxed::new(alloc, plan)?,
                    test: copy_expr(alloc, test)?,
                },
                width,
            })
        }
        Logical::Project { input, items } => {
            let Body { plan, width: _ } = build_body(alloc, input.get(), files, n)?;
            Ok(Body {
                plan: Plan::Project {
                    input: Boxed::new(alloc, plan)?,
                    items: copy_exprs(alloc, items.as_slice())?,
                },
                width: small(items.len())?,
            })
        }
        Logical::Join {
            kind,
            left,
            right,
            keys,
            rest,
        } => {
            let Body {
                plan: first,
                width: one,
            } = build_body(alloc, left.get(), files, n)?;
            let Body {
                plan: second,
                width: two,
            } = build_body(alloc, right.get(), files, n)?;
            Ok(Body {
                plan: Plan::HashJoin {
                    kind: *kind,
                    left: Boxed::new(alloc, first)?,
                    right: Boxed::new(alloc, second)?,
                    keys: Items::from_slice(alloc, keys.as_slice())?,
                    rest: copy_rest(alloc, rest)?,
                },
                width: total(one, two)?,
            })
        }
        Logical::Aggregate { input, keys, calls } => {
            let Body { plan, width: _ } = build_body(alloc, input.get(), files, n)?;
            let width = total(small(keys.len())?, small(calls.len())?)?;
            Ok(Body {
                plan: two_phases(
                    alloc,
                    plan,
                    Items::from_slice(alloc, keys.as_slice())?,
                    calls.as_slice(),
                )?,
                width,
            })
        }
        Logical::Distinct { input } => {
            let Body { plan, width } = build_body(alloc, input.get(), files, n)?;
            Ok(Body {
                plan: two_phases(alloc, plan, first_numbers(alloc, width)?, &[])?,
                width,
            })
        }
        Logical::UnionAll { inputs } => {
            let (all, width) = build_all(alloc, inputs.as_slice(), files, n)?;
            Ok(Body {
                plan: Plan::UnionAll { inputs: all },
                width,
            })
        }
    }
}

/// The plain plan of a query: without exchanges, with a Sort on top where there are order keys, and a Limit on top of that where
/// there is a limit or an offset above 0.
///
/// `files` has the number of files of each table. A Scan of f files has as many partitions, but at least 1 and at most n.
pub fn build(alloc: Global, query: &Query, files: &[u32], n: u32) -> Result<Plan, NoMemory>
    ensures { IfOk result (λ p. p ≡ spec.build query.now files.now n) }
{
    let Body { plan, width: _ } = build_body(alloc, &query.body, files, n)?;
    let sorted = sorted_by(alloc, query.order.as_slice(), plan)?;
    limited(alloc, query.offset, query.limit, sorted)
}

fn sorted_by(alloc: Global, order: &[SortKey], plan: Plan) -> Result<Plan, NoMemory>
    ensures { IfOk result (λ p. p ≡ spec.sorted_by order.now plan) }
{
    if order.is_empty() {
        return Ok(plan);
    }
    Ok(Plan::Sort {
        input: Boxed::new(alloc, plan)?,
        keys: Items::from_slice(alloc, order)?,
    })
}

fn limited(alloc: Global, skip: u64, fetch: Option<u64>, plan: Plan) -> Result<Plan, NoMemory>
    ensures { IfOk result (λ p. p ≡ spec.limited skip fetch plan) }
{
    if fetch.is_some() || 0 < skip {
        return Ok(Plan::Limit {
            input: Boxed::new(alloc, plan)?,
            skip,
            fetch,
        });
    }
    Ok(plan)
}
