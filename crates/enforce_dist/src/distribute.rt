//! Puts exchanges where nodes need a distribution.

ghost use Rattle.std.specs.Prelude.{◌≡◌, IfOk, map, reverse};
ghost use Rattle.enforce_dist.specs.Distribute as spec;

use crate::needs::{gathered, grouped_input, join_input, spread};
use dfx_value::NoMemory;
use physical_plan::{Plan, left_keys, right_keys};
use sqlite_items::{Boxed, Items};
use std::alloc::Global;

/// The plans in the other order.
fn reversed(alloc: Global, mut plans: Items<Plan>) -> Result<Items<Plan>, NoMemory>
    ensures { IfOk result (λ r. r ≡ reverse plans) }
{
    let mut all = Items::new(alloc);
    while let Some(plan) = plans.pop() {
        all.push(plan)?;
    }
    Ok(all)
}

#[cycle(spread)]
fn distribute_all(
    alloc: Global,
    mut inputs: Items<Plan>,
    n: u32,
    above: bool,
) -> Result<Items<Plan>, NoMemory>
    ensures { IfOk result (λ ps. ps ≡ map (λ f. f above) (map (spec.distributed n) inputs)) }
{
    let mut backwards = Items::new(alloc);
    while let Some(plan) = inputs.pop() {
        backwards.push(distribute(alloc, plan, n, above)?)?;
    }
    reversed(alloc, backwards)
}

#[cycle(spread)]
fn distribute_input(
    alloc: Global,
    input: Boxed<Plan>,
    n: u32,
    above: bool,
) -> Result<Boxed<Plan>, NoMemory>
    ensures { IfOk result (λ p. p ≡ spec.distributed n input above) }
{
    Ok(Boxed::new(alloc, distribute(alloc, input.into_inner(), n, above)?)?)
}

/// The plan with its exchanges but that of the root, from whether a PartialGroup, HashJoin or Sort stands above.
#[cycle(spread)]
#[tactic(auto, using(crate::proofs::Nodes::distributed_nodes))]
fn distribute(alloc: Global, plan: Plan, n: u32, above: bool) -> Result<Plan, NoMemory>
    ensures { IfOk result (λ p. p ≡ spec.distributed n plan above) }
{
    match plan {
        Plan::Scan {
            table,
            kinds,
            files,
            partitions,
        } => {
            spread(
                alloc,
                n,
                partitions,
                above,
                Plan::Scan {
                    table,
                    kinds,
                    files,
                    partitions,
                },
            )
        }
        Plan::Filter { input, test } => {
            let input = distribute_input(alloc, input, n, above)?;
            Ok(Plan::Filter { input, test })
        }
        Plan::Project { input, items } => {
            let input = distribute_input(alloc, input, n, above)?;
            Ok(Plan::Project { input, items })
        }
        Plan::PartialGroup { input, keys, calls } => {
            let input = distribute_input(alloc, input, n, true)?;
            Ok(Plan::PartialGroup { input, keys, calls })
        }
        Plan::FinalGroup { input, keys, calls } => {
            let below = distribute(alloc, input.into_inner(), n, above)?;
            let input = Boxed::new(alloc, grouped_input(alloc, keys.as_slice(), n, below)?)?;
            Ok(Plan::FinalGroup { input, keys, calls })
        }
        Plan::HashJoin {
            kind,
            left,
            right,
            keys,
            rest,
        } => {
            let first = left_keys(alloc, keys.as_slice())?;
            let second = right_keys(alloc, keys.as_slice())?;
            let left = distribute(alloc, left.into_inner(), n, true)?;
            let right = distribute(alloc, right.into_inner(), n, true)?;
            let left = Boxed::new(alloc, join_input(alloc, first.as_slice(), n, left)?)?;
            let right = Boxed::new(alloc, join_input(alloc, second.as_slice(), n, right)?)?;
            Ok(Plan::HashJoin {
                kind,
                left,
                right,
                keys,
                rest,
            })
        }
        Plan::Sort { input, keys } => {
            let input = distribute_input(alloc, input, n, true)?;
            Ok(Plan::Sort { input, keys })
        }
        Plan::Merge { input, keys } => {
            let input = distribute_input(alloc, input, n, above)?;
            Ok(Plan::Merge { input, keys })
        }
        Plan::Coalesce { input } => {
            let input = distribute_input(alloc, input, n, above)?;
            Ok(Plan::Coalesce { input })
        }
        Plan::Repartition { input, to } => {
            let input = distribute_input(alloc, input, n, above)?;
            Ok(Plan::Repartition { input, to })
        }
        Plan::UnionAll { inputs } => {
            Ok(Plan::UnionAll {
                inputs: distribute_all(alloc, inputs, n, above)?,
            })
        }
        Plan::Limit { input, skip, fetch } => {
            let below = distribute(alloc, input.into_inner(), n, above)?;
            let input = Boxed::new(alloc, gathered(alloc, below)?)?;
            Ok(Plan::Limit { input, skip, fetch })
        }
    }
}

/// The plan with the exchanges that its needs ask for, for n partitions.
///
/// From the leaves up: each Scan of fewer than n partitions below a PartialGroup, HashJoin or Sort is spread in turn, a need of
/// a hash that isn't satisfied gets a hash exchange, and a need of one partition a Merge by the input's order, or a Coalesce.
pub fn enforce_distribution(alloc: Global, plan: Plan, n: u32) -> Result<Plan, NoMemory>
    ensures { IfOk result (λ p. p ≡ spec.enforce_distribution plan n) }
{
    let below = distribute(alloc, plan, n, false)?;
    gathered(alloc, below)
}
