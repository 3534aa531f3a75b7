//! Laws of finished plans: what their partitions give, and the answers that these are.

ghost use Rattle.std.specs.Prelude.{◌≡◌, ◌<◌, ◌||◌, nat_lt, is_some, ℕ, true, false, List, map};
ghost use Rattle.dfx_value.specs.declared.rows.SortKey.{SortKey as Key};
ghost use Rattle.plan_props.specs.Satisfies.{satisfies_order};
ghost use Rattle.plan_props.specs.Meets.{Hashing, IsHash};
ghost use Rattle.physical_plan.specs.declared.plan.Plan.{Plan as APlan};
ghost use Rattle.physical_plan.specs.declared.plan.Plan.TheVariants.{Limit as ALimit};
ghost use Rattle.plan_shape.specs.Counts.{counts_of};
ghost use Rattle.physical_plan.specs.Properties.{partitions, declared_of, props};
ghost use Rattle.physical_plan.specs.Everywhere.{everywhere};
ghost use Rattle.physical_plan.specs.Needs.{spread_needs};
ghost use Rattle.planned_laws.specs.Finished.{IsFinished};
ghost use Rattle.physical_build.specs.Build.{build};
ghost use Rattle.logical_plan.specs.declared.query.Query.{Query as AQuery};
ghost use Rattle.logical_plan.specs.Body.{Tables};
ghost use Rattle.logical_plan.specs.Items.{Item, rows, of_rows};
ghost use Rattle.logical_plan.specs.Allowed.{Allowed};
ghost use Rattle.tree_laws.specs.Runs.{State, the_task};
ghost use Rattle.content_laws.specs.Bags.{Alike};
ghost use Rattle.plan_task_laws.specs.Trees.{Doing, partitions_of};
ghost use Rattle.plan_task_laws.specs.Tops.{tops};
ghost use Rattle.plan_task_laws.specs.Placed.{HasChannels};
ghost use Rattle.node_laws.specs.Nodes.{Stands};
ghost use Rattle.node_laws.specs.Tests.{needs_in_range};
ghost use Rattle.answer_laws.specs.Gives.{AllGive};
ghost use Rattle.answer_laws.specs.Fed.{AllFed};
ghost use Rattle.answer_laws.specs.Kept.{IsKept};
ghost use Rattle.answer_laws.specs.Meant.{Phases, Tells, meaning_of, meant, is_told, is_whole};
ghost use Rattle.answer_laws.specs.Answering.{IsAnswering};
ghost use Rattle.answer_laws.specs.Ordered.{IsOrdering};
ghost use Rattle.answer_laws.specs.Parted.{LawsOfParts, Delivers};
ghost use Rattle.answer_laws.specs.Distincts.{has_distincts};
ghost use Rattle.answer_laws.specs.Finished.{IsFinishedRun};
ghost use Rattle.finished_laws.specs.Sound.{is_sound, on_properties, IsAsDeclared};
ghost use Rattle.finished_laws.specs.Rows.{IsChannelOf, AreGroups};
ghost use Rattle.finished_laws.specs.Known.{is_known};
ghost use Rattle.finished_laws.specs.Engine.{IsEngineBy};

/// A finished plan, for at least one partition, has channels in each exchange (`channels`), and one partition at its
/// root by its tasks too (`single`): where the needs are met, a plan has as many partitions as it declares (`parts`).
/// Over tables that the query's body fits, a finished plan of a query without a limit is sound (`sound`), and else it
/// is that limit of a sound plan of one partition that declares the query's order (`limited`).
pub fn finished_law()
    ensures channels { (plain p : APlan) (order : List Key) (n : ℕ) → 0 < n
        → IsFinished plain order n p
        → HasChannels p }
    ensures parts { (n : ℕ) (p : APlan) → everywhere (spread_needs n) p ≡ true
        → (counts_of p).parts ≡ partitions p }
    ensures single { (plain p : APlan) (order : List Key) (n : ℕ) → IsFinished plain order n p
        → (counts_of p).parts ≡ 1 }
    ensures sound { (phases : Phases) → LawsOfParts phases → (tables : Tables) (q : AQuery)
        → has_distincts tables q.body ≡ true → (files : List ℕ) → is_known tables files q.body
        ≡ true → (n : ℕ) → 0 < n
        → is_some q.limit || nat_lt 0 q.offset ≡ false
        → (p : APlan) → IsFinished (build q files n) q.order n p
        → everywhere needs_in_range p ≡ true
        → is_sound tables n p ≡ true }
    ensures limited { (phases : Phases) → LawsOfParts phases → (tables : Tables) (q : AQuery)
        → has_distincts tables q.body ≡ true → (files : List ℕ) → is_known tables files q.body
        ≡ true → (n : ℕ) → 0 < n
        → is_some q.limit || nat_lt 0 q.offset ≡ true
        → (p : APlan) → IsFinished (build q files n) q.order n p
        → everywhere needs_in_range p ≡ true
        → (r : APlan) × (p ≡ ALimit r q.offset q.limit) × (is_sound tables n r ≡ true)
        × (satisfies_order (props r) q.order ≡ true) × ((counts_of r).parts ≡ 1) }
{}

/// What a sound plan declares stands of the rows that its partitions would give (`kept`). That gives groups and joins
/// what they need (`delivers`), so that a sound plan can be told (`told`).
pub fn declared_law()
    ensures kept { (h : Hashing) (f : Doing) → IsChannelOf h f
        → (tables : Tables) (n : ℕ) (phases : Phases)
        → IsAnswering f tables (on_properties tables n) phases → AreGroups phases → IsOrdering f
        → IsKept f (IsAsDeclared h tables n) }
    ensures delivers { (h : Hashing) → IsHash h → (tables : Tables) (n : ℕ)
        → Delivers (on_properties tables n) (IsAsDeclared h tables n) }
    ensures told { (tables : Tables) (n : ℕ) (p : APlan) → is_sound tables n p ≡ true
        → is_told tables (on_properties tables n) p ≡ true }
{}

/// Where the exchanges of a sound plan are fed, what it declares stands of what its partitions would give (`stand`),
/// and that tells what the plan means (`tells`). So where the root of such a plan's run has finished, its output has
/// the rows of what the plan means, in some order (`alike`).
///
/// Where the root of a finished plan's run has finished, its output is an answer that the query allows (`allowed`).
pub fn planned_answer_law()
    ensures stand { (h : Hashing) (f : Doing) (tables : Tables) (n : ℕ) (phases : Phases)
        → IsEngineBy h f tables n phases
        → (full : ℕ → ℕ → List Item) (p : APlan) → is_sound tables n p ≡ true
        → (k s : ℕ) → AllFed f full (tops p k s) → (parts : List (List Item))
        → AllGive full (partitions_of f p k s) parts
        → Stands h (declared_of p) (map rows parts) }
    ensures tells { (h : Hashing) (f : Doing) (tables : Tables) (n : ℕ) (phases : Phases)
        → IsEngineBy h f tables n phases
        → (full : ℕ → ℕ → List Item) (p : APlan) → is_sound tables n p ≡ true
        → (k s : ℕ) → AllFed f full (tops p k s) → (parts : List (List Item))
        → AllGive full (partitions_of f p k s) parts
        → Tells phases (meaning_of tables p) parts }
    ensures alike { (h : Hashing) (f : Doing) (tables : Tables) (n : ℕ) (phases : Phases)
        → IsEngineBy h f tables n phases
        → (p : APlan) → HasChannels p → (counts_of p).parts ≡ 1 → is_sound tables n p ≡ true
        → is_whole (meaning_of tables p) ≡ true
        → (s : State) → IsFinishedRun f p s
        → Alike (of_rows (the_task s.tasks 0).output) (meant tables p) }
    ensures allowed { (h : Hashing) (f : Doing) (tables : Tables) (n : ℕ) (phases : Phases)
        → IsEngineBy h f tables n phases
        → (q : AQuery) → has_distincts tables q.body ≡ true → (files : List ℕ)
        → is_known tables files q.body ≡ true
        → 0 < n
        → (p : APlan) → IsFinished (build q files n) q.order n p
        → everywhere needs_in_range p ≡ true
        → (s : State) → IsFinishedRun f p s → Allowed q tables (the_task s.tasks 0).output }
{}
