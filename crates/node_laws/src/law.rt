//! Laws of nodes: what a node declares stands of the rows that it gives.

ghost use Rattle.std.specs.Prelude.{ℕ, ◌≡◌, true, List, [], ◌∷◌, length};
ghost use Rattle.scalar_exprs.specs.declared.expr.Expr.{Expr as AnExpr};
ghost use Rattle.dfx_value.specs.declared.rows.SortKey.{SortKey as Key};
ghost use Rattle.dfx_value.specs.declared.op.JoinKind.TheVariants.{Inner as InnerJoin, Left as LeftJoin, Right as RightJoin, Full as FullJoin};
ghost use Rattle.dfx_value.specs.Items.{concat};
ghost use Rattle.plan_props.specs.declared.properties.Partitioning.TheVariants.{Hash as ByHash, RoundRobin as ByTurns};
ghost use Rattle.plan_props.specs.Meets.{Row, Hashing, IsHash, Each, Meets, Delivers, InOrder, AllInOrder};
ghost use Rattle.physical_plan.specs.declared.plan.Plan.TheOpen.{Plan-F as Node};
ghost use Rattle.physical_plan.specs.declared.plan.Plan.TheViews.{roll-Plan};
ghost use Rattle.physical_plan.specs.declared.plan.Plan.TheFolds.{map-Plan};
ghost use Rattle.physical_plan.specs.declared.properties.Declared.{Declared as Said};
ghost use Rattle.physical_plan.specs.Properties.{filtered, projected, grouped, sorted, merged, repartitioned, united, hash_joined, declared, declared_of};
ghost use Rattle.physical_plan.specs.Everywhere.{kids};
ghost use Rattle.physical_plan.specs.Needs.{group_need, spread_needs, order_needs};
ghost use Rattle.node_laws.specs.NodeRows.{by_row, kept, values, Arranged, Dealt, Exchanged, HoldsIn, Joined, InnerRow, LeftRow};
ghost use Rattle.node_laws.specs.Joins.{AllMeet, Sides};
ghost use Rattle.node_laws.specs.Weaves.{Merges};
ghost use Rattle.node_laws.specs.Nodes.{Stands, Input, PlanInput, AllStand, NodeNeeds, NodeGives, InRange, plans_of, inputs_of};
ghost use Rattle.node_laws.specs.Tests.{needs_in_range};
ghost use Rattle.node_laws.specs.Rows.{Stretches, Begun, PartGroups, Groups, RightRow, FullRow, RightSides};

/// What a node declares follows from what its inputs declare, for the rows that the node gives.
///
/// Where a node needs something of its input, that is a premise: the order of a Merge, the distribution of groups, the sides of a join.
/// Limit declares what its input does, and so do the rows that any node gave so far.
pub fn node_laws()
    ensures filter { (h : Hashing) (test : AnExpr) (d : Said) (parts : List (List Row))
        → Meets h d.props parts → Meets h (filtered test d).props (by_row (kept test) parts) }
    ensures project { (h : Hashing) (es : List AnExpr) (d : Said) (parts : List (List Row))
        → Meets h d.props parts → Meets h (projected es d).props (by_row (values es) parts) }
    ensures sort { (h : Hashing) (keys : List Key) (d : Said) (ins outs : List (List Row))
        → Arranged keys ins outs → Meets h d.props ins → Meets h (sorted keys d).props outs }
    ensures hash { (h : Hashing) (cs : List ℕ) (n : ℕ) (d : Said) (ins outs : List (List Row))
        → Exchanged h cs n ins outs → Meets h d.props ins
        → Meets h (repartitioned (ByHash cs n) d).props outs }
    ensures union { (h : Hashing) (ds : List Said) (ps : List (List (List Row)))
        → AllMeet h ds ps → Meets h (united ds).props (concat ps) }
    ensures left { (h : Hashing) (keys : List (ℕ × ℕ)) (d e : Said)
        (lefts rights outs : List (List Row))
        → Sides h keys d lefts → Meets h d.props lefts
        → Joined (LeftRow keys e.width) lefts rights outs
        → Meets h (hash_joined LeftJoin keys d e).props outs }
    ensures inner { (h : Hashing) (keys : List (ℕ × ℕ)) (d e : Said)
        (lefts rights outs : List (List Row))
        → Sides h keys d lefts → Meets h d.props lefts → Meets h e.props rights
        → Joined (InnerRow keys) lefts rights outs
        → Meets h (hash_joined InnerJoin keys d e).props outs }
    ensures limit { (h : Hashing) (d : Said) (ins outs : List (List Row))
        → Stretches ins outs → Meets h d.props ins → Meets h d.props outs }
    ensures begun { (h : Hashing) (d : Said) (whole outs : List (List Row))
        → Begun whole outs → Meets h d.props whole → Meets h d.props outs }
    ensures coalesce { (h : Hashing) (d : Said) (ins outs : List (List Row))
        → Dealt 1 ins outs → Meets h d.props ins → Meets h (merged [] d).props outs }
    ensures merge { (h : Hashing) (keys : List Key) (d : Said) (ins : List (List Row))
        (out : List Row)
        → AllInOrder keys ins → Merges keys ins out → Meets h d.props ins
        → Meets h (merged keys d).props (out ∷ []) }
    ensures in_order { (h : Hashing) (keys : List Key) (d : Said) (ins : List (List Row))
        (out : List Row)
        → Each (HoldsIn ins) out → InOrder keys out → Meets h d.props ins
        → Meets h (merged keys d).props (out ∷ []) }
    ensures deal { (h : Hashing) (n : ℕ) (d : Said) (ins outs : List (List Row))
        → Dealt n ins outs → Meets h d.props ins
        → Meets h (repartitioned (ByTurns n) d).props outs }
    ensures partial_group { (h : Hashing) (width : ℕ) (keys : List ℕ) (d : Said)
        (ins outs : List (List Row))
        → PartGroups keys ins outs → Meets h d.props ins
        → Meets h (grouped width keys d).props outs }
    ensures final_group { (h : Hashing) (width n : ℕ) (keys : List ℕ) (d : Said)
        (ins outs : List (List Row))
        → Delivers h (group_need keys n) ins → Groups keys ins outs → Meets h d.props ins
        → Meets h (grouped width keys d).props outs }
    ensures right { (h : Hashing) (keys : List (ℕ × ℕ)) (d e : Said)
        (lefts rights outs : List (List Row))
        → RightSides h keys d lefts rights → Meets h d.props lefts → Meets h e.props rights
        → Joined (RightRow keys d.width) lefts rights outs
        → Meets h (hash_joined RightJoin keys d e).props outs }
    ensures full { (h : Hashing) (keys : List (ℕ × ℕ)) (d e : Said)
        (lefts rights outs : List (List Row))
        → Meets h d.props lefts
        → Joined (FullRow keys d.width e.width) lefts rights outs
        → Meets h (hash_joined FullJoin keys d e).props outs }
{}

/// What every node of a plan declares stands of the rows that it gives, where it stands of its inputs and the node's needs are met.
///
/// To stand means that the declaration is met, that rows have its width, and that its pairs and constants are columns of it. So the law
/// goes on from node to node, and it holds of what was given so far as well.
pub fn whole_law()
    ensures node { (h : Hashing) (n : ℕ) (node : Node Input) (outs : List (List Row))
        → AllStand h (kids node) → NodeNeeds h n node → NodeGives h node outs
        → Stands h (declared (map-Plan Input Said (λ i. i.0) node)) outs }
    ensures plan { (h : Hashing) (n : ℕ) (node : Node PlanInput) (outs : List (List Row))
        → AllStand h (kids (inputs_of node)) → NodeNeeds h n (inputs_of node)
        → NodeGives h (inputs_of node) outs
        → Stands h (declared_of (roll-Plan (plans_of node))) outs }
    ensures begun { (h : Hashing) (d : Said) (whole outs : List (List Row))
        → Begun whole outs → Stands h d whole → Stands h d outs }
{}

/// Where a plan's needs at a node are satisfied by what its inputs declare, as they are everywhere in a finished plan, and the node's
/// columns are in range, the node's needs are met by rows of which that stands, for every hash that equal key lists have in common.
pub fn needs_law()
    ensures { (h : Hashing) → IsHash h → (n : ℕ) (node : Node PlanInput)
        → AllStand h (kids (inputs_of node)) → InRange (inputs_of node)
        → spread_needs n (plans_of node) ≡ true → order_needs (plans_of node) ≡ true
        → NodeNeeds h n (inputs_of node) }
{}

/// Where a node of plans passes the test, the columns that its needs speak of are in range.
pub fn range_test_law()
    ensures { (node : Node PlanInput) → needs_in_range (plans_of node) ≡ true
        → InRange (inputs_of node) }
{}
