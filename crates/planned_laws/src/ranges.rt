//! That the plan of a query has its columns in range.

ghost use Rattle.std.specs.Prelude.{ℕ, ◌≡◌, true, List};
ghost use Rattle.logical_plan.specs.declared.query.Query.{Query as AQuery};
ghost use Rattle.physical_plan.specs.declared.plan.Plan.{Plan as APlan};
ghost use Rattle.physical_plan.specs.Properties.{props};
ghost use Rattle.plan_props.specs.Meets.{Hashing, IsHash};
ghost use Rattle.physical_plan.specs.declared.plan.Plan.TheOpen.{Plan-F as Node};
ghost use Rattle.physical_plan.specs.Everywhere.{everywhere, kids};
ghost use Rattle.physical_plan.specs.Needs.{spread_needs, order_needs};
ghost use Rattle.node_laws.specs.Nodes.{PlanInput, plans_of, inputs_of, AllStand, NodeNeeds, InRange};
ghost use Rattle.node_laws.specs.Tests.{needs_in_range};
ghost use Rattle.physical_build.specs.Build.{build};
ghost use Rattle.enforce_dist.specs.Distribute.{enforce_distribution};
ghost use Rattle.enforce_sort.specs.Arrange.{enforce_sorting};
ghost use Rattle.planned_laws.specs.Ranges.{are_below, key_columns, width, in_range};
ghost use Rattle.planned_laws.specs.Queries.{body_width, QueryInRange};
ghost use Rattle.planned_laws.specs.Wholly.{IsWhollyPlanned};

/// Both passes keep a plan's number of columns and all columns in range, and orders that such plans declare are in range.
pub fn pass_law()
    ensures distribution { (p : APlan) (n : ℕ) → everywhere in_range p ≡ true
        → everywhere in_range (enforce_distribution p n) ≡ true }
    ensures sorting { (p : APlan) → everywhere in_range p ≡ true
        → everywhere in_range (enforce_sorting p) ≡ true }
    ensures distributed_width { (p : APlan) (n : ℕ) → everywhere in_range p ≡ true
        → width (enforce_distribution p n) ≡ width p }
    ensures sorted_width { (p : APlan) → everywhere in_range p ≡ true
        → width (enforce_sorting p) ≡ width p }
    ensures orders { (p : APlan) → everywhere in_range p ≡ true
        → are_below (width p) (key_columns (props p).ordering) ≡ true }
{}

/// Where the columns of a node are in range and its needs are satisfied by what its inputs declare, as they are everywhere in the finished
/// plan of a query whose columns are in range, the node's needs are met by rows of which that stands.
pub fn column_law()
    ensures ranges { (node : Node PlanInput) → in_range (plans_of node) ≡ true
        → InRange (inputs_of node) }
    ensures tests { (p : APlan) → everywhere in_range p ≡ true
        → everywhere needs_in_range p ≡ true }
    ensures needs { (h : Hashing) → IsHash h → (n : ℕ) (node : Node PlanInput)
        → AllStand h (kids (inputs_of node)) → in_range (plans_of node) ≡ true
        → spread_needs n (plans_of node) ≡ true → order_needs (plans_of node) ≡ true
        → NodeNeeds h n (inputs_of node) }
{}

/// Of every query whose columns are in range, over every number of files and for every number of partitions, the plan that `build`, then
/// the enforcement of distribution and then that of sorting give is finished, its columns are in range, and it has the query's columns.
pub fn range_law()
    ensures built { (q : AQuery) (files : List ℕ) (n : ℕ) → QueryInRange q
        → everywhere in_range (build q files n) ≡ true }
    ensures planned { (q : AQuery) (files : List ℕ) (n : ℕ) → QueryInRange q
        → IsWhollyPlanned q files (enforce_sorting (enforce_distribution (build q files n) n)) n }
    ensures width { (q : AQuery) (files : List ℕ) (n : ℕ) → QueryInRange q
        → width (enforce_sorting (enforce_distribution (build q files n) n)) ≡ body_width q.body }
{}
