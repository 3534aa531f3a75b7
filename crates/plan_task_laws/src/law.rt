//! Laws: the trees of a plan's partitions are those of its layout's tasks.

ghost use Rattle.std.specs.Prelude.{◌≡◌, ◌+◌, ◌<◌, ℕ, Bool, true, List, ◌∷◌, ◌++◌, length, map, is_some, if◌then◌else◌, slice_index_or};
ghost use Rattle.physical_plan.specs.declared.plan.Plan.{Plan};
ghost use Rattle.physical_plan.specs.declared.plan.Plan.TheOpen.{Plan-F};
ghost use Rattle.physical_plan.specs.declared.plan.Plan.TheViews.{roll-Plan};
ghost use Rattle.physical_plan.specs.declared.plan.Plan.TheFolds.{map-Plan};
ghost use Rattle.plan_shape.specs.Counts.{counts_of};
ghost use Rattle.plan_shape.specs.Layout.{Part, bare, layout, shape};
ghost use Rattle.physical_plan.specs.Numbers.{numbers_from};
ghost use Rattle.task_shape.specs.Shape.{task_at, names, has, is_group, width};
ghost use Rattle.tree_laws.specs.Trees.{File, Tree, Nothing, HasInlet, HasConsumer};
ghost use Rattle.tree_laws.specs.Runs.{IsStart, the_task};
ghost use Rattle.tree_laws.specs.Batches.{AreFilled};
ghost use Rattle.tree_laws.specs.Held.{IsApart, IsHolding};
ghost use Rattle.tree_laws.specs.Exits.{HeadsOwn};
ghost use Rattle.content_laws.specs.Bags.{SameBag, sum_below};
ghost use Rattle.content_laws.specs.Senders.{AreSenders, IsOnlySender, IsLoneSender};
ghost use Rattle.plan_task_laws.specs.Trees.{Doing, Growing, grow, leaf, count_stages, stages_in, count_sources, sources_in, partitions_of, At, tree_of};
ghost use Rattle.plan_task_laws.specs.Branches.{seed_at, width_at, branch, IsEven};
ghost use Rattle.plan_task_laws.specs.Tops.{Top, Topping, ToOwn, top_node, tops, all_tops, width_by};
ghost use Rattle.plan_task_laws.specs.Starts.{seeds_of, start_of, tasks_of};
ghost use Rattle.plan_task_laws.specs.Reading.{Reads, Reserves, Opens, IsTreeOf, AreOperators};
ghost use Rattle.logical_plan.specs.Items.{Cells, Item};
ghost use Rattle.plan_task_laws.specs.Operators.{NodeItems, operator_of};
ghost use Rattle.plan_task_laws.specs.Placed.{tasks_before, IsPlaced, IsCovered, consumers_over, deal_of, IsHashing, HasChannels};
ghost use Rattle.plan_task_laws.specs.Sources.{files_of, files_in, reads_all, places_of, items_at};

/// The trees of a plan's partitions are those of its layout, for every plan: each reads and reserves what its
/// partition does (`tree`), the same consumers can spill (`spills`), and there are as many stages (`stages`). What a
/// list says that a tree reads or reserves is what it has (`reads`, `reserves`). A node's partitions, tops and counts
/// are made of its inputs' (`grown`, `topped`, `counted`).
pub fn trees_law()
    ensures tree { (f : Doing) → AreOperators f → (p : Plan) (a : At) (i : ℕ)
        → IsTreeOf a.stage (a.stage + stages_in p) a.consumer
        (slice_index_or (layout p a.stage).parts i bare)
        (tree_of f p a i) }
    ensures stages { (p : Plan) (k s : ℕ)
        → (length (layout p k).stages ≡ stages_in p) × (length (tops p k s) ≡ stages_in p) }
    ensures spills { (f : Doing) → AreOperators f → (p : Plan) (k s i : ℕ)
        → (seed_at f p k s i).consumers ≡ (slice_index_or (layout p k).parts i bare).consumers }
    ensures reads { (t : Tree) (xs : List (ℕ × ℕ)) → Reads t xs
        → (g c : ℕ) → (HasInlet g c t → names xs g c ≡ true)
        × (names xs g c ≡ true → HasInlet g c t) }
    ensures reserves { (t : Tree) (cs : List ℕ) → Reserves t cs
        → (c : ℕ) → (HasConsumer c t → has cs c ≡ true) × (has cs c ≡ true → HasConsumer c t) }
    ensures grown { (f : Doing) (z : Plan-F Plan)
        → partitions_of f (roll-Plan z)
        ≡ grow f (map-Plan Plan (Plan × Growing) (λ (p : Plan). (p, partitions_of f p)) z) }
    ensures topped { (z : Plan-F Plan)
        → tops (roll-Plan z)
        ≡ top_node (map-Plan Plan (Plan × Topping) (λ (p : Plan). (p, tops p)) z) }
    ensures counted { (z : Plan-F Plan)
        → (stages_in (roll-Plan z) ≡ count_stages (map-Plan Plan ℕ stages_in z))
        × (sources_in (roll-Plan z) ≡ count_sources (map-Plan Plan ℕ sources_in z)) }
{}

/// A node's partition is made of its inputs' partitions (`branch`), where the inputs of a join have equally many: its
/// tree, its consumers and its files. How many partitions a plan has, its counts say (`parts`).
pub fn branches_law()
    ensures branch { (f : Doing) (z : Plan-F Plan) (k s i : ℕ) → IsEven z
        → i < (counts_of (roll-Plan z)).parts
        → seed_at f (roll-Plan z) k s i ≡ branch f z k s i }
    ensures parts { (f : Doing) (p : Plan) (k s : ℕ) → width_at f p k s ≡ (counts_of p).parts }
{}

/// The operators of all kinds of nodes are such as the other laws ask, whatever nodes do to items.
pub fn operators_law()
    ensures { (w : NodeItems) (channel : List ℕ → ℕ → Cells → ℕ) (items : ℕ → ℕ → List Item)
        → AreOperators (record { operator = operator_of w; channel = channel; items = items }) }
{}

/// The start of a plan is one of its shape, for every plan, whatever its operators, files and hashes are (`start`). A
/// task sends just where it has a split (`splits`). Each consumer can spill as its node says (`spillable`). The
/// operators of a task have different consumers and hold nothing yet (`begins`), only a task that writes has a header
/// to write (`heads`), and no task cuts a batch that has rows into empty parts (`filled`).
pub fn start_law()
    ensures start { (f : Doing) → AreOperators f → (p : Plan) (size limit : ℕ)
        → IsStart (shape p) size limit (start_of f p limit) }
    ensures splits { (f : Doing) → AreOperators f → (p : Plan) (t : ℕ)
        → is_some (the_task (tasks_of f p) t).split ≡ is_some (task_at (shape p) t).sends }
    ensures spillable { (f : Doing) → AreOperators f → (p : Plan)
        → (shape p).spillable ≡ consumers_over f (all_tops p) }
    ensures begins { (f : Doing) → AreOperators f → (p : Plan) (t : ℕ)
        → IsApart (the_task (tasks_of f p) t).tree
        × IsHolding (λ c. 0) (the_task (tasks_of f p) t).tree }
    ensures heads { (f : Doing) → AreOperators f → (p : Plan) (t : ℕ)
        → HeadsOwn (the_task (tasks_of f p) t) }
    ensures filled { (f : Doing) → AreOperators f → (p : Plan) → AreFilled (tasks_of f p) }
{}

/// Each task is a partition of some stage (`covered`), and the partitions of a stage are tasks one after the other,
/// in their order (`placed`). A stage's number is its place, and its group has the channels of its way (`stage`).
/// What all tasks that send to a group give together is what that stage's partitions give (`feeds`).
pub fn stages_law()
    ensures covered { (f : Doing) → AreOperators f → (p : Plan) (u : ℕ) → u < length (shape p).tasks
        → IsCovered f p u }
    ensures placed { (f : Doing) → AreOperators f → (p : Plan) (before after : List Top) (t : Top)
        → all_tops p ≡ before ++ t ∷ after
        → (i : ℕ) → i < length (seeds_of f t) → IsPlaced f p before t i }
    ensures stage { (f : Doing) → AreOperators f → (p : Plan) (before after : List Top) (t : Top)
        → all_tops p ≡ before ++ t ∷ after
        → (t.stage ≡ length before)
        × (width (shape p) t.stage ≡ width_by t.way (length (seeds_of f t))) }
    ensures feeds { (f : Doing) → AreOperators f → (p : Plan) (before after : List Top) (t : Top)
        → all_tops p ≡ before ++ t ∷ after
        → 0 < t.stage → (h : ℕ → ℕ)
        → sum_below (length (shape p).tasks)
        (λ u. if is_group (task_at (shape p) u).sends t.stage then h u else 0)
        ≡ sum_below (length (seeds_of f t)) (λ i. h (tasks_before f before + i)) }
{}

/// Each task that sends does so in one of the known ways (`senders`), where hashes give channels and each exchange
/// has one. A partition of a merging stage is the only sender of its channel (`own`). The partition of a stage that
/// has one alone sends to the stage's group, in order (`lone`).
pub fn senders_law()
    ensures senders { (f : Doing) → AreOperators f → IsHashing f → (p : Plan) → HasChannels p
        → AreSenders (shape p) (tasks_of f p) (deal_of f p) }
    ensures own { (f : Doing) → AreOperators f → (p : Plan) (before after : List Top) (t : Top)
        → all_tops p ≡ before ++ t ∷ after
        → 0 < t.stage → t.way ≡ ToOwn → (i : ℕ) → i < length (seeds_of f t)
        → IsOnlySender (shape p) (tasks_of f p) (deal_of f p) (tasks_before f before + i)
        t.stage i }
    ensures lone { (f : Doing) → AreOperators f → (p : Plan) (before after : List Top) (t : Top)
        → all_tops p ≡ before ++ t ∷ after
        → 0 < t.stage → length (seeds_of f t) ≡ 1 → (i : ℕ) → i < length (seeds_of f t)
        → IsLoneSender (shape p) (tasks_of f p) (deal_of f p) (tasks_before f before + i) t.stage }
{}

/// The files of a plan's scans have the sources from 0 on, in plan order (`numbered`), and each has the items of its
/// table's file (`named`). Where each scan has a partition, the tasks read each file once (`once`); the leaves of a
/// tree read its partition's files, in order (`leaves`).
pub fn sources_law()
    ensures numbered { (f : Doing) (p : Plan) (s : ℕ)
        → map (λ (x : File). x.source) (files_of f p s) ≡ numbers_from s (sources_in p) }
    ensures named { (f : Doing) (p : Plan) (s : ℕ)
        → map (λ (x : File). x.items) (files_of f p s) ≡ map (items_at f) (places_of p) }
    ensures once { (f : Doing) (p : Plan) → reads_all p ≡ true
        → SameBag (files_in f (all_tops p)) (files_of f p 0) }
    ensures leaves { (f : Doing) → AreOperators f → (p : Plan) (a : At) (i : ℕ)
        → Opens (tree_of f p a i) (seed_at f p a.stage a.source i).files }
{}
