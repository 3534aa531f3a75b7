//! The tasks of a plan, stage by stage.

ghost use Rattle.std.specs.Prelude.{◌≡◌, ◌+◌, map, reverse, true, IfOk, IfErr, OnOk};
ghost use Rattle.physical_plan.specs.Everywhere.{all_true};
ghost use Rattle.plan_task_laws.specs.Trees.{Doing, partitions_of};
ghost use Rattle.plan_task_laws.specs.Tops.{tops};
ghost use Rattle.plan_task_laws.specs.Starts.{split_by, tasks_by, tasks_in, tasks_of};
ghost use Rattle.task_plans.specs.Built as spec;
ghost use Rattle.task_plans.specs.Refusals.{Refuses, RefusesSome};
ghost use Rattle.task_plans.specs.Tasks.{AreTasks, split_of};
ghost use Rattle.task_plans.specs.Added.{AddsTasks, way_of, tops_over};

use crate::built::is_built;
use crate::numbers::{Place, behind, sum_of, width};
use crate::partition::push_stations;
use crate::refused::PlanRefused;
use crate::station::{Sending, StationPlan, TaskPlan};
use dfx_value::NoMemory;
use physical_plan::Plan;
use plan_props::partition_count;
use sqlite_items::Items;
use std::alloc::Global;

/// Where the batches of a stage go.
#[derive(Clone, Copy)]
enum Way {
    Written,
    InTurn(u32),
    ToOne,
}

fn sending(way: Way, partition: u32) -> Sending
    ensures { (f : Doing) → split_of f result ≡ split_by f (way_of way) partition }
{
    match way {
        Way::Written => Sending::Written,
        Way::InTurn(channels) => Sending::InTurn(partition, channels),
        Way::ToOne => Sending::One(0),
    }
}

fn reversed(alloc: Global, mut stations: Items<StationPlan>) -> Result<Items<StationPlan>, NoMemory>
    ensures { IfOk result (λ r. r ≡ reverse stations) }
{
    let mut all = Items::new(alloc);
    while let Some(station) = stations.pop() {
        all.push(station)?;
    }
    Ok(all)
}

/// Appends the tasks of a stage, from what is next in it.
fn push_stage(
    alloc: Global,
    tasks: &mut Items<TaskPlan>,
    plan: &Plan,
    at: Place,
    way: Way,
) -> Result<(), PlanRefused>
    ensures adds { (f : Doing) → spec.is_built plan.now ≡ true
        → OnOk result (AddsTasks f tasks.old tasks.new
        (tasks_by (split_by f (way_of way)) 0 0 (partitions_of f plan.now at.stage at.source))) }
    ensures refused { IfErr result (λ e. Refuses e plan.now) }
{
    for partition in 0..width(plan)? {
        let mut backwards = Items::new(alloc);
        push_stations(alloc, &mut backwards, plan, at, partition)?;
        tasks.push(TaskPlan {
            stations: reversed(alloc, backwards)?,
            consumer: 0,
            sending: sending(way, partition),
        })?;
    }
    Ok(())
}

/// Appends the tasks of the stages that open in these plans.
#[cycle(stages)]
fn push_stages_of_all(
    alloc: Global,
    tasks: &mut Items<TaskPlan>,
    plans: &[Plan],
    at: Place,
) -> Result<(), PlanRefused>
    ensures adds { (f : Doing) → all_true (map spec.is_built plans.now) ≡ true
        → OnOk result (AddsTasks f tasks.old tasks.new
        (tasks_in f 0 (tops_over plans.now at.stage at.source))) }
    ensures refused { IfErr result (λ e. RefusesSome e plans.now) }
{
    let mut place = at;
    for plan in plans {
        push_stages(alloc, tasks, plan, place)?;
        place = behind(plan, place)?;
    }
    Ok(())
}

/// Appends the tasks of the stages that open in a plan, from what is next.
#[cycle(stages)]
#[tactic(auto, using(crate::proofs::Nodes::unbuilt_by_node))]
fn push_stages(
    alloc: Global,
    tasks: &mut Items<TaskPlan>,
    plan: &Plan,
    at: Place,
) -> Result<(), PlanRefused>
    ensures adds { (f : Doing) → spec.is_built plan.now ≡ true
        → OnOk result (AddsTasks f tasks.old tasks.new
        (tasks_in f 0 (tops plan.now at.stage at.source))) }
    ensures refused { IfErr result (λ e. Refuses e plan.now) }
{
    match plan {
        Plan::Scan { .. } => Ok(()),
        Plan::Filter { input, .. } => push_stages(alloc, tasks, input.get(), at),
        Plan::Project { input, .. } => push_stages(alloc, tasks, input.get(), at),
        Plan::Coalesce { input } => {
            let next = opened(at)?;
            push_stage(alloc, tasks, input.get(), next, Way::ToOne)?;
            push_stages(alloc, tasks, input.get(), next)
        }
        Plan::Repartition { input, to } => {
            let next = opened(at)?;
            push_stage(
                alloc,
                tasks,
                input.get(),
                next,
                Way::InTurn(partition_count(to)),
            )?;
            push_stages(alloc, tasks, input.get(), next)
        }
        Plan::UnionAll { inputs } => push_stages_of_all(alloc, tasks, inputs.as_slice(), at),
        Plan::PartialGroup { .. }
        | Plan::FinalGroup { .. }
        | Plan::HashJoin { .. }
        | Plan::Sort { .. }
        | Plan::Merge { .. }
        | Plan::Limit { .. } => Err(PlanRefused::NotBuilt),
    }
}

/// What is next behind the stage that opens.
fn opened(at: Place) -> Result<Place, NoMemory>
    ensures stage { IfOk result (λ p. p.stage ≡ at.stage + 1) }
    ensures source { IfOk result (λ p. p.source ≡ at.source) }
{
    Ok(Place {
        stage: sum_of(at.stage, 1)?,
        source: at.source,
    })
}

/// The tasks that a run of a plan starts with, by stage, then partition.
///
/// NotBuilt comes exactly where `is_built` says no, and NoKind only where some node's input has no kinds, which isn't so in the finished
/// plan of a well-kinded query. A plan with 2^32 sources, stages or partitions is answered as want of memory.
pub fn task_plans(alloc: Global, plan: &Plan) -> Result<Items<TaskPlan>, PlanRefused>
    ensures gives { (f : Doing) → IfOk result (λ ts. AreTasks f ts (tasks_of f plan.now)) }
    ensures built { OnOk result (spec.is_built plan.now ≡ true) }
    ensures refused { IfErr result (λ e. Refuses e plan.now) }
{
    if !is_built(plan) {
        return Err(PlanRefused::NotBuilt);
    }
    let mut tasks = Items::new(alloc);
    let first = Place {
        stage: 1,
        source: 0,
    };
    push_stage(alloc, &mut tasks, plan, first, Way::Written)?;
    push_stages(alloc, &mut tasks, plan, first)?;
    Ok(tasks)
}
