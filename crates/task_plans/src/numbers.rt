//! Numbers of stages, sources and partitions.

ghost use Rattle.std.specs.Prelude.{◌≡◌, ◌+◌, map, IfOk};
ghost use Rattle.plan_shape.specs.Counts as counts;
ghost use Rattle.plan_task_laws.specs.Trees as trees;

use dfx_value::NoMemory;
use physical_plan::Plan;
use plan_props::partition_count;

/// What is next: the next stage that opens, and the next source.
#[derive(Clone, Copy)]
pub(crate) struct Place {
    pub(crate) stage: u32,
    pub(crate) source: u32,
}

/// The sum, where it fits.
pub(crate) fn sum_of(left: u32, right: u32) -> Result<u32, NoMemory>
    ensures { IfOk result (λ n. n ≡ left + right) }
{
    match left.checked_add(right) {
        Some(sum) => Ok(sum),
        None => Err(NoMemory),
    }
}

#[cycle(behind)]
fn behind_all(plans: &[Plan], at: Place) -> Result<Place, NoMemory>
    ensures stage { IfOk result
        (λ p. p.stage ≡ at.stage + trees.sum_all (map trees.stages_in plans.now)) }
    ensures source { IfOk result
        (λ p. p.source ≡ at.source + trees.sum_all (map trees.sources_in plans.now)) }
{
    let mut place = at;
    for plan in plans {
        place = behind(plan, place)?;
    }
    Ok(place)
}

/// What is next behind a plan.
#[cycle(behind)]
#[tactic(auto, using(crate::proofs::Nodes::counted_by_node))]
pub(crate) fn behind(plan: &Plan, at: Place) -> Result<Place, NoMemory>
    ensures stage { IfOk result (λ p. p.stage ≡ at.stage + trees.stages_in plan.now) }
    ensures source { IfOk result (λ p. p.source ≡ at.source + trees.sources_in plan.now) }
{
    match plan {
        Plan::Scan { files, .. } => Ok(Place {
            stage: at.stage,
            source: sum_of(at.source, *files)?,
        }),
        Plan::HashJoin { left, right, .. } => {
            let next = behind(left.get(), at)?;
            behind(right.get(), next)
        }
        Plan::UnionAll { inputs } => behind_all(inputs.as_slice(), at),
        Plan::Merge { input, .. } | Plan::Coalesce { input } | Plan::Repartition { input, .. } => {
            let below = behind(input.get(), at)?;
            Ok(Place {
                stage: sum_of(below.stage, 1)?,
                source: below.source,
            })
        }
        Plan::Filter { input, .. }
        | Plan::Project { input, .. }
        | Plan::PartialGroup { input, .. }
        | Plan::FinalGroup { input, .. }
        | Plan::Sort { input, .. }
        | Plan::Limit { input, .. } => behind(input.get(), at),
    }
}

#[cycle(width)]
fn width_of_all(plans: &[Plan]) -> Result<u32, NoMemory>
    ensures { IfOk result (λ n. n ≡ (counts.in_all (map counts.counts_of plans.now)).parts) }
{
    let mut total = 0;
    for plan in plans {
        total = sum_of(total, width(plan)?)?;
    }
    Ok(total)
}

/// How many partitions a plan has.
#[cycle(width)]
#[tactic(auto, using(crate::proofs::Nodes::wide_by_node))]
pub(crate) fn width(plan: &Plan) -> Result<u32, NoMemory>
    ensures { IfOk result (λ n. n ≡ (counts.counts_of plan.now).parts) }
{
    match plan {
        Plan::Scan { partitions, .. } => Ok(*partitions),
        Plan::HashJoin { left, right, .. } => {
            let first = width(left.get())?;
            let second = width(right.get())?;
            Ok(first.max(second))
        }
        Plan::UnionAll { inputs } => width_of_all(inputs.as_slice()),
        Plan::Merge { .. } | Plan::Coalesce { .. } => Ok(1),
        Plan::Repartition { to, .. } => Ok(partition_count(to)),
        Plan::Filter { input, .. }
        | Plan::Project { input, .. }
        | Plan::PartialGroup { input, .. }
        | Plan::FinalGroup { input, .. }
        | Plan::Sort { input, .. }
        | Plan::Limit { input, .. } => width(input.get()),
    }
}
