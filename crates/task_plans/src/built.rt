//! Which plans are built.

ghost use Rattle.std.specs.Prelude.{◌≡◌, map, true};
ghost use Rattle.physical_plan.specs.Everywhere.{all_true};
ghost use Rattle.task_plans.specs.Built as spec;

use physical_plan::Plan;
use plan_props::Partitioning;

fn is_in_turn(to: &Partitioning) -> bool
    ensures { result ≡ spec.is_in_turn to.now }
{
    matches!(to, Partitioning::RoundRobin(_))
}

#[cycle(built)]
fn all_built(plans: &[Plan]) -> bool
    ensures { result ≡ all_true (map spec.is_built plans.now) }
{
    for plan in plans {
        if !is_built(plan) {
            return false;
        }
    }
    true
}

/// Whether the tasks of a plan can be made: it has no nodes but Scans, Filters, Projects, UnionAlls, Coalesces and round-robin
/// Repartitions.
#[cycle(built)]
#[tactic(auto, using(crate::proofs::Nodes::built_by_node))]
pub fn is_built(plan: &Plan) -> bool
    ensures { result ≡ spec.is_built plan.now }
{
    match plan {
        Plan::Scan { .. } => true,
        Plan::Filter { input, .. } => is_built(input.get()),
        Plan::Project { input, .. } => is_built(input.get()),
        Plan::Coalesce { input } => is_built(input.get()),
        Plan::Repartition { input, to } => is_in_turn(to) && is_built(input.get()),
        Plan::UnionAll { inputs } => all_built(inputs.as_slice()),
        Plan::PartialGroup { .. }
        | Plan::FinalGroup { .. }
        | Plan::HashJoin { .. }
        | Plan::Sort { .. }
        | Plan::Merge { .. }
        | Plan::Limit { .. } => false,
    }
}
