//! The input of a node, with an exchange on top where its need isn't satisfied.

ghost use Rattle.std.specs.Prelude.{◌≡◌, ◌==◌, IfOk};
ghost use Rattle.plan_props.specs.Satisfies as tests;
ghost use Rattle.plan_props.specs.declared.properties.Partitioning.TheVariants as parting;
ghost use Rattle.physical_plan.specs.Properties as declared;
ghost use Rattle.physical_plan.specs.declared.plan.Plan.TheVariants as plans;
ghost use Rattle.enforce_dist.specs.Distribute as spec;

use dfx_value::{NoMemory, SortKey};
use physical_plan::{Plan, partitions, props};
use plan_props::{Distribution, Partitioning, Props, satisfies_distribution};
use sqlite_items::{Boxed, Items};
use std::alloc::Global;

fn satisfies(alloc: Global, plan: &Plan, need: &Distribution) -> Result<bool, NoMemory>
    ensures { IfOk result
        (λ b. b ≡ tests.satisfies_distribution (declared.props plan.now) need.now) }
{
    let props = props(alloc, plan)?;
    satisfies_distribution(alloc, &props, need)
}

#[tactic(auto, using(crate::proofs::Ones::one_below))]
fn is_single(plan: &Plan) -> bool
    ensures { result ≡ declared.partitions plan.now == 1 }
{
    partitions(plan) == 1
}

fn order_of(alloc: Global, plan: &Plan) -> Result<Items<SortKey>, NoMemory>
    ensures { IfOk result (λ keys. keys ≡ (declared.props plan.now).ordering) }
{
    let Props {
        partitioning: _,
        ordering,
        same: _,
        constants: _,
    } = props(alloc, plan)?;
    Ok(ordering)
}

fn gathered_by(alloc: Global, keys: Items<SortKey>, plan: Plan) -> Result<Plan, NoMemory>
    ensures { IfOk result (λ p. p ≡ spec.gathered_by keys plan) }
{
    let input = Boxed::new(alloc, plan)?;
    if keys.is_empty() {
        return Ok(Plan::Coalesce { input });
    }
    Ok(Plan::Merge { input, keys })
}

/// On one partition.
pub(crate) fn gathered(alloc: Global, plan: Plan) -> Result<Plan, NoMemory>
    ensures { IfOk result (λ p. p ≡ spec.gathered plan) }
{
    if is_single(&plan) {
        return Ok(plan);
    }
    let keys = order_of(alloc, &plan)?;
    gathered_by(alloc, keys, plan)
}

fn exchanged(alloc: Global, keys: &[u32], n: u32, plan: Plan) -> Result<Plan, NoMemory>
    ensures { IfOk result (λ p. p ≡ plans.Repartition plan (parting.Hash keys.now n)) }
{
    Ok(Plan::Repartition {
        input: Boxed::new(alloc, plan)?,
        to: Partitioning::Hash(Items::from_slice(alloc, keys)?, n),
    })
}

/// The input of a grouping by keys.
pub(crate) fn grouped_input(
    alloc: Global,
    keys: &[u32],
    n: u32,
    plan: Plan,
) -> Result<Plan, NoMemory>
    ensures { IfOk result (λ p. p ≡ spec.grouped_input keys.now n plan) }
{
    if keys.is_empty() {
        return gathered(alloc, plan);
    }
    let group_need = Distribution::Hash(Items::from_slice(alloc, keys)?, n);
    if satisfies(alloc, &plan, &group_need)? {
        return Ok(plan);
    }
    exchanged(alloc, keys, n, plan)
}

/// A side of a join by its keys.
pub(crate) fn join_input(alloc: Global, keys: &[u32], n: u32, plan: Plan) -> Result<Plan, NoMemory>
    ensures { IfOk result (λ p. p ≡ spec.join_input keys.now n plan) }
{
    let join_need = Distribution::JoinHash(Items::from_slice(alloc, keys)?, n);
    if satisfies(alloc, &plan, &join_need)? {
        return Ok(plan);
    }
    exchanged(alloc, keys, n, plan)
}

/// A scan, spread where that is wanted and it has fewer partitions.
pub(crate) fn spread(
    alloc: Global,
    n: u32,
    partitions: u32,
    above: bool,
    plan: Plan,
) -> Result<Plan, NoMemory>
    ensures { IfOk result (λ p. p ≡ spec.spread n partitions above plan) }
{
    if above && partitions < n {
        return Ok(Plan::Repartition {
            input: Boxed::new(alloc, plan)?,
            to: Partitioning::RoundRobin(n),
        });
    }
    Ok(plan)
}
