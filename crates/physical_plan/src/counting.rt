//! Partitions.

ghost use Rattle.std.specs.Prelude.{◌≡◌, min, map, sum};
ghost use Rattle.physical_plan.specs.Properties as spec;

use crate::plan::Plan;
use plan_props::partition_count;

#[cycle(partitions)]
#[tactic(auto, using(crate::proofs::Sums::sum_rest, crate::proofs::Sums::cut_end, crate::proofs::Sums::cut_step))]
fn partitions_in_all(plans: &[Plan]) -> u32
    ensures { result ≡ min (sum (map spec.partitions plans.now)) 4294967295 }
{
    let mut total: u32 = 0;
    for plan in plans {
        total = total.saturating_add(partitions(plan));
    }
    total
}

/// How many partitions a plan has, or the largest number.
#[cycle(partitions)]
#[tactic(auto, using(crate::proofs::PartitionCounts::partition_nodes))]
pub fn partitions(plan: &Plan) -> u32
    ensures { result ≡ min (spec.partitions plan.now) 4294967295 }
{
    match plan {
        Plan::Scan {
            table: _,
            kinds: _,
            files: _,
            partitions,
        } => *partitions,
        Plan::Filter { input, test: _ } => partitions(input.get()),
        Plan::Project { input, items: _ } => partitions(input.get()),
        Plan::PartialGroup {
            input,
            keys: _,
            calls: _,
        } => partitions(input.get()),
        Plan::FinalGroup {
            input,
            keys: _,
            calls: _,
        } => partitions(input.get()),
        Plan::HashJoin {
            kind: _,
            left,
            right: _,
            keys: _,
            rest: _,
        } => partitions(left.get()),
        Plan::Sort { input, keys: _ } => partitions(input.get()),
        Plan::Merge { input: _, keys: _ } => 1,
        Plan::Coalesce { input: _ } => 1,
        Plan::Repartition { input: _, to } => partition_count(to),
        Plan::UnionAll { inputs } => partitions_in_all(inputs.as_slice()),
        Plan::Limit {
            input,
            skip: _,
            fetch: _,
        } => partitions(input.get()),
    }
}
