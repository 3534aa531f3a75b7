//! Stages, and the tasks of a plan by stage, then partition.

ghost use Rattle.std.specs.Prelude.{◌≡◌, ◌∷◌, ◌++◌, map, OnOk, IfOk};
ghost use Rattle.plan_shape.specs.Counts as counts;
ghost use Rattle.plan_shape.specs.Layout as layout;

use crate::numbers::{small, sum_of};
use dfx_value::NoMemory;
use physical_plan::Plan;
use plan_props::partition_count;
use std::alloc::Global;

/// One partition of a stage: of the nodes between two exchanges. Stage 0 is the root's.
#[derive(Clone, Copy, Debug, PartialEq, Eq)]
pub struct StageTask {
    pub stage: u32,
    pub partition: u32,
}

#[cycle(count)]
fn count_all(plans: &[Plan], stages: &mut Vec<u32>) -> Result<u32, NoMemory>
    ensures parts { IfOk result (λ n. n ≡ (counts.in_all (map counts.counts_of plans.now)).parts) }
    ensures stages { OnOk result
        (stages.new.items
        ≡ stages.old.items ++ (counts.in_all (map counts.counts_of plans.now)).stages) }
{
    let mut total = 0;
    for plan in plans {
        total = sum_of(total, count(plan, stages)?)?;
    }
    Ok(total)
}

/// Appends the partitions of an input that is a stage of its own, and those of the stages in it.
#[cycle(count)]
#[tactic(auto, using(crate::proofs::Countings::set_here))]
fn count_stage(input: &Plan, stages: &mut Vec<u32>) -> Result<(), NoMemory>
    ensures { OnOk result
        (stages.new.items
        ≡ stages.old.items ++ (counts.counts_of input.now).parts ∷
        (counts.counts_of input.now).stages) }
{
    let at = stages.len();
    stages.push(0)?;
    let below = count(input, stages)?;
    stages[at] = below;
    Ok(())
}

/// The partitions of a subtree; appends those of the stages that open in it.
#[cycle(count)]
#[tactic(auto, using(crate::proofs::Countings::count_nodes, crate::proofs::Countings::scan_stages, crate::proofs::Countings::join_stages))]
fn count(plan: &Plan, stages: &mut Vec<u32>) -> Result<u32, NoMemory>
    ensures parts { IfOk result (λ n. n ≡ (counts.counts_of plan.now).parts) }
    ensures stages { OnOk result
        (stages.new.items ≡ stages.old.items ++ (counts.counts_of plan.now).stages) }
{
    match plan {
        Plan::Scan {
            table: _,
            kinds: _,
            files: _,
            partitions,
        } => Ok(*partitions),
        Plan::Filter { input, test: _ } => count(input.get(), stages),
        Plan::Project { input, items: _ } => count(input.get(), stages),
        Plan::PartialGroup {
            input,
            keys: _,
            calls: _,
        } => count(input.get(), stages),
        Plan::FinalGroup {
            input,
            keys: _,
            calls: _,
        } => count(input.get(), stages),
        Plan::HashJoin {
            kind: _,
            left,
            right,
            keys: _,
            rest: _,
        } => {
            let first = count(left.get(), stages)?;
            let second = count(right.get(), stages)?;
            Ok(first.max(second))
        }
        Plan::Sort { input, keys: _ } => count(input.get(), stages),
        Plan::Merge { input, keys: _ } => {
            count_stage(input.get(), stages)?;
            Ok(1)
        }
        Plan::Coalesce { input } => {
            count_stage(input.get(), stages)?;
            Ok(1)
        }
        Plan::Repartition { input, to } => {
            count_stage(input.get(), stages)?;
            Ok(partition_count(to))
        }
        Plan::UnionAll { inputs } => count_all(inputs.as_slice(), stages),
        Plan::Limit {
            input,
            skip: _,
            fetch: _,
        } => count(input.get(), stages),
    }
}

#[tactic(auto, using(crate::proofs::Countings::push_step, crate::proofs::Countings::places_end))]
fn push_places(tasks: &mut Vec<StageTask>, stage: u32, count: u32) -> Result<(), NoMemory>
    ensures { OnOk result (tasks.new.items ≡ tasks.old.items ++ counts.places stage 0 count) }
{
    for partition in 0..count {
        tasks.push(StageTask { stage, partition })?;
    }
    Ok(())
}

/// The tasks of a plan, by stage, then partition. Task 0 is the root's.
///
/// Stage 0 holds the root. Node before inputs, left to right, each Repartition, Coalesce and Merge opens the next stage below it.
#[tactic(auto, using(crate::proofs::Countings::finished_places))]
pub fn stages(alloc: Global, plan: &Plan) -> Result<Vec<StageTask>, NoMemory>
    ensures { IfOk result (λ v. v.items ≡ layout.stages plan.now) }
{
    let mut counts = Vec::new(alloc);
    count_stage(plan, &mut counts)?;
    let mut tasks = Vec::new(alloc);
    for at in 0..counts.len() {
        push_places(&mut tasks, small(at)?, counts[at])?;
    }
    Ok(tasks)
}
