//! The stations of one partition of a plan.

ghost use Rattle.std.specs.Prelude.{◌≡◌, ◌∷◌, [], ◌++◌, ◌<◌, map, IfErr, OnOk};
ghost use Rattle.plan_shape.specs.Counts as counts;
ghost use Rattle.plan_task_laws.specs.Trees.{Doing};
ghost use Rattle.plan_task_laws.specs.Branches.{seed_at, union_at};
ghost use Rattle.task_plans.specs.Refusals as spec;
ghost use Rattle.task_plans.specs.Added.{AddsFor, AddsOperator};
ghost use Rattle.task_plans.specs.declared.station.StationPlan.TheVariants as station;
ghost use Rattle.task_plans.specs.declared.refused.PlanRefused.TheVariants as refused;

use crate::numbers::{Place, behind, width};
use crate::refused::PlanRefused;
use crate::scans::dealt_files;
use crate::station::{Node, OperatorPlan, StationPlan};
use physical_plan::{Plan, copy_exprs};
use plan_kinds::{KindsRefused, kinds_of};
use scalar_exprs::copy_expr;
use sqlite_items::Items;
use std::alloc::Global;

/// Appends an operator without a consumer, over an input with so many stations.
fn push_operator(
    alloc: Global,
    stations: &mut Items<StationPlan>,
    node: Node,
    input: &Plan,
    size: usize,
) -> Result<(), PlanRefused>
    ensures ok { OnOk result (AddsOperator stations.old stations.new node input.now size) }
    ensures refused { IfErr result (λ e. spec.RefusesOver e input.now) }
{
    let kinds = match kinds_of(alloc, input) {
        Ok(kinds) => Items::from_vec(kinds),
        Err(KindsRefused::NoMemory) => return Err(PlanRefused::NoMemory),
        Err(KindsRefused::NoKind) => return Err(PlanRefused::NoKind),
    };
    let operator = OperatorPlan {
        node,
        kinds,
        consumer: None,
        sizes: Items::from_slice(alloc, &[size])?,
    };
    stations.push(StationPlan::Operator(operator))?;
    Ok(())
}

fn push_inlet(
    stations: &mut Items<StationPlan>,
    group: u32,
    channel: u32,
) -> Result<(), PlanRefused>
    ensures ok { OnOk result (stations.new ≡ stations.old ++ station.Inlet group channel ∷ []) }
    ensures refused { IfErr result (λ e. e ≡ refused.NoMemory) }
{
    stations.push(StationPlan::Inlet(group, channel))?;
    Ok(())
}

/// Appends the stations of a union's partition, which is one of an input.
#[cycle(stations)]
fn push_in_union(
    alloc: Global,
    stations: &mut Items<StationPlan>,
    inputs: &[Plan],
    at: Place,
    partition: u32,
) -> Result<(), PlanRefused>
    ensures adds { (f : Doing)
        → partition < (counts.in_all (map counts.counts_of inputs.now)).parts
        → OnOk result (AddsFor f stations.old stations.new
        (union_at f inputs.now at.stage at.source partition)) }
    ensures refused { IfErr result (λ e. spec.RefusesSome e inputs.now) }
{
    let mut place = at;
    let mut left = partition;
    for input in inputs {
        let count = width(input)?;
        if left < count {
            return push_stations(alloc, stations, input, place, left);
        }
        left -= count;
        place = behind(input, place)?;
    }
    Ok(())
}

/// Appends the stations of a plan's partition, inputs before node.
#[cycle(stations)]
#[tactic(auto, using(crate::proofs::Nodes::unbuilt_by_node))]
pub(crate) fn push_stations(
    alloc: Global,
    stations: &mut Items<StationPlan>,
    plan: &Plan,
    at: Place,
    partition: u32,
) -> Result<(), PlanRefused>
    ensures adds { (f : Doing) → partition < (counts.counts_of plan.now).parts
        → OnOk result (AddsFor f stations.old stations.new
        (seed_at f plan.now at.stage at.source partition)) }
    ensures refused { IfErr result (λ e. spec.Refuses e plan.now) }
{
    match plan {
        Plan::Scan {
            table,
            files,
            partitions,
            ..
        } => {
            let files = dealt_files(alloc, at.source, *files, *partitions, partition)?;
            stations.push(StationPlan::Scan(*table, files))?;
            Ok(())
        }
        Plan::Filter { input, test } => {
            let before = stations.len();
            push_stations(alloc, stations, input.get(), at, partition)?;
            let size = stations.len().saturating_sub(before);
            let node = Node::Filter(copy_expr(alloc, test)?);
            push_operator(alloc, stations, node, input.get(), size)
        }
        Plan::Project { input, items } => {
            let before = stations.len();
            push_stations(alloc, stations, input.get(), at, partition)?;
            let size = stations.len().saturating_sub(before);
            let node = Node::Project(copy_exprs(alloc, items.as_slice())?);
            push_operator(alloc, stations, node, input.get(), size)
        }
        Plan::Coalesce { .. } => push_inlet(stations, at.stage, partition),
        Plan::Repartition { .. } => push_inlet(stations, at.stage, partition),
        Plan::UnionAll { inputs } => {
            push_in_union(alloc, stations, inputs.as_slice(), at, partition)
        }
        Plan::PartialGroup { .. }
        | Plan::FinalGroup { .. }
        | Plan::HashJoin { .. }
        | Plan::Sort { .. }
        | Plan::Merge { .. }
        | Plan::Limit { .. } => Err(PlanRefused::NotBuilt),
    }
}
