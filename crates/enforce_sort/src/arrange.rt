//! Puts sorts and merges where nodes need an order.

ghost use Rattle.std.specs.Prelude.{◌≡◌, IfOk, map, reverse};
ghost use Rattle.plan_props.specs.Satisfies as tests;
ghost use Rattle.physical_plan.specs.Properties as declared;
ghost use Rattle.physical_plan.specs.declared.plan.Plan.TheVariants as plans;
ghost use Rattle.enforce_sort.specs.Arrange as spec;

use dfx_value::{NoMemory, SortKey};
use physical_plan::{Plan, props};
use plan_props::satisfies_order;
use sqlite_items::{Boxed, Items};
use std::alloc::Global;

fn is_sorted(alloc: Global, plan: &Plan, keys: &Items<SortKey>) -> Result<bool, NoMemory>
    ensures { IfOk result (λ b. b ≡ tests.satisfies_order (declared.props plan.now) keys.now) }
{
    let props = props(alloc, plan)?;
    satisfies_order(alloc, &props, keys.as_slice())
}

fn with_sort(alloc: Global, keys: Items<SortKey>, plan: Plan) -> Result<Plan, NoMemory>
    ensures { IfOk result (λ p. p ≡ spec.with_sort keys plan) }
{
    if is_sorted(alloc, &plan, &keys)? {
        return Ok(plan);
    }
    Ok(Plan::Sort {
        input: Boxed::new(alloc, plan)?,
        keys,
    })
}

/// A merge, with a sort below where one is needed.
fn merged(alloc: Global, keys: Items<SortKey>, plan: Plan) -> Result<Plan, NoMemory>
    ensures { IfOk result (λ p. p ≡ plans.Merge (spec.with_sort keys plan) keys) }
{
    let copy = Items::from_slice(alloc, keys.as_slice())?;
    let input = with_sort(alloc, copy, plan)?;
    Ok(Plan::Merge {
        input: Boxed::new(alloc, input)?,
        keys,
    })
}

/// The plans in the other order.
fn reversed(alloc: Global, mut plans: Items<Plan>) -> Result<Items<Plan>, NoMemory>
    ensures { IfOk result (λ r. r ≡ reverse plans) }
{
    let mut all = Items::new(alloc);
    while let Some(plan) = plans.pop() {
        all.push(plan)?;
    }
    Ok(all)
}

#[cycle(arrange)]
fn arrange_all(alloc: Global, mut inputs: Items<Plan>) -> Result<Items<Plan>, NoMemory>
    ensures { IfOk result (λ ps. ps ≡ map spec.enforce_sorting inputs) }
{
    let mut backwards = Items::new(alloc);
    while let Some(plan) = inputs.pop() {
        backwards.push(enforce_sorting(alloc, plan)?)?;
    }
    reversed(alloc, backwards)
}

#[cycle(arrange)]
fn arrange_input(alloc: Global, input: Boxed<Plan>) -> Result<Boxed<Plan>, NoMemory>
    ensures { IfOk result (λ p. p ≡ spec.enforce_sorting input) }
{
    Ok(Boxed::new(alloc, enforce_sorting(alloc, input.into_inner())?)?)
}

/// The plan with a sort where one is needed, and without those that aren't.
///
/// From the leaves up: a Sort whose input stands in its order is dropped, and a Merge whose input doesn't stand in its order
/// gets a Sort below.
#[cycle(arrange)]
#[tactic(auto, using(crate::proofs::Nodes::arranged_nodes))]
pub fn enforce_sorting(alloc: Global, plan: Plan) -> Result<Plan, NoMemory>
    ensures { IfOk result (λ p. p ≡ spec.enforce_sorting plan) }
{
    match plan {
        Plan::Scan {
            table,
            kinds,
            files,
            partitions,
        } => {
            Ok(Plan::Scan {
                table,
                kinds,
                files,
                partitions,
            })
        }
        Plan::Filter { input, test } => {
            Ok(Plan::Filter {
                input: arrange_input(alloc, input)?,
                test,
            })
        }
        Plan::Project { input, items } => {
            Ok(Plan::Project {
                input: arrange_input(alloc, input)?,
                items,
            })
        }
        Plan::PartialGroup { input, keys, calls } => {
            Ok(Plan::PartialGroup {
                input: arrange_input(alloc, input)?,
                keys,
                calls,
            })
        }
        Plan::FinalGroup { input, keys, calls } => {
            Ok(Plan::FinalGroup {
                input: arrange_input(alloc, input)?,
                keys,
                calls,
            })
        }
        Plan::HashJoin {
            kind,
            left,
            right,
            keys,
            rest,
        } => {
            let left = arrange_input(alloc, left)?;
            let right = arrange_input(alloc, right)?;
            Ok(Plan::HashJoin {
                kind,
                left,
                right,
                keys,
                rest,
            })
        }
        Plan::Sort { input, keys } => {
            let input = enforce_sorting(alloc, input.into_inner())?;
            with_sort(alloc, keys, input)
        }
        Plan::Merge { input, keys } => {
            let input = enforce_sorting(alloc, input.into_inner())?;
            merged(alloc, keys, input)
        }
        Plan::Coalesce { input } => {
            Ok(Plan::Coalesce {
                input: arrange_input(alloc, input)?,
            })
        }
        Plan::Repartition { input, to } => {
            Ok(Plan::Repartition {
                input: arrange_input(alloc, input)?,
                to,
            })
        }
        Plan::UnionAll { inputs } => {
            Ok(Plan::UnionAll {
                inputs: arrange_all(alloc, inputs)?,
            })
        }
        Plan::Limit { input, skip, fetch } => {
            Ok(Plan::Limit {
                input: arrange_input(alloc, input)?,
                skip,
                fetch,
            })
        }
    }
}
