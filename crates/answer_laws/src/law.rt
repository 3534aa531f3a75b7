//! Laws: what a plan's partitions would give is what its query's body means.

ghost use Rattle.std.specs.Prelude.{◌≡◌, ℕ, true, List, [], length, map};
ghost use Rattle.run_journal.specs.declared.entry.Entry.{Entry};
ghost use Rattle.core_frame.specs.Frame.{place_of};
ghost use Rattle.core_frame.specs.declared.place.Place.TheVariants.{Done};
ghost use Rattle.physical_plan.specs.declared.plan.Plan.{Plan};
ghost use Rattle.plan_shape.specs.Counts.{counts_of};
ghost use Rattle.plan_shape.specs.Layout.{shape};
ghost use Rattle.physical_plan.specs.Numbers.{numbers};
ghost use Rattle.physical_plan.specs.Everywhere.{erased};
ghost use Rattle.physical_build.specs.Build.{build};
ghost use Rattle.history_laws.specs.Histories.{Past};
ghost use Rattle.logical_plan.specs.declared.query.Query.{Query as AQuery};
ghost use Rattle.logical_plan.specs.Items.{Cells, Item, of_rows, faults};
ghost use Rattle.logical_plan.specs.Body.{Tables, meant_part as body_part};
ghost use Rattle.tree_laws.specs.Trees.{Tree, form};
ghost use Rattle.tree_laws.specs.Linked.{whole, IsLinked, IsFlow};
ghost use Rattle.tree_laws.specs.Runs.{State, the_task, IsReached};
ghost use Rattle.content_laws.specs.Bags.{Alike};
ghost use Rattle.content_laws.specs.Whole.{tree_in, AreFull};
ghost use Rattle.plan_task_laws.specs.Trees.{Doing, partitions_of};
ghost use Rattle.plan_task_laws.specs.Tops.{tops};
ghost use Rattle.plan_task_laws.specs.Starts.{start_of};
ghost use Rattle.plan_task_laws.specs.Reading.{AreOperators};
ghost use Rattle.plan_task_laws.specs.Placed.{deal_of, IsHashing, HasChannels};
ghost use Rattle.answer_laws.specs.Gives.{Gives, AllGive};
ghost use Rattle.answer_laws.specs.Fed.{AllFed};
ghost use Rattle.answer_laws.specs.Meant.{Phases, meaning, meaning_of};
ghost use Rattle.answer_laws.specs.Parted.{LawsOfParts};
ghost use Rattle.answer_laws.specs.Distincts.{has_distincts};

/// A tree that agrees with its history gives of whole channels what its form can (`gives`). So in each state that a
/// plan's run reaches, the channels of each exchange hold in whole what the partitions of its input would give (`fed`),
/// and the first tasks would give what the partitions of the plan do (`root`). Where a plan has one partition and the
/// root has finished, its output is what that partition would give (`output`).
pub fn feeds_law()
    ensures gives { (size : ℕ) (past : Past (List Cells)) (full : ℕ → ℕ → List Item) (t : Tree)
        → IsLinked size past t → IsFlow past full t → Gives full (form t) (whole full t) }
    ensures fed { (f : Doing) → AreOperators f → IsHashing f → (p : Plan) → HasChannels p
        → (size limit : ℕ) (entries : List Entry) (s : State) (full : ℕ → ℕ → List Item)
        → IsReached (shape p) size limit (start_of f p limit) entries s
        → AreFull (shape p) s (deal_of f p) full
        → AllFed f full (tops p 1 0) }
    ensures root { (f : Doing) → AreOperators f → IsHashing f → (p : Plan) → HasChannels p
        → (size limit : ℕ) (entries : List Entry) (s : State) (full : ℕ → ℕ → List Item)
        → IsReached (shape p) size limit (start_of f p limit) entries s
        → AreFull (shape p) s (deal_of f p) full
        → AllGive full (partitions_of f p 1 0)
        (map (λ (i : ℕ). whole full (tree_in s i)) (numbers (length (partitions_of f p 1 0)))) }
    ensures output { (f : Doing) → AreOperators f → IsHashing f → (p : Plan) → HasChannels p
        → (size limit : ℕ) (entries : List Entry) (s : State) (full : ℕ → ℕ → List Item)
        → IsReached (shape p) size limit (start_of f p limit) entries s
        → AreFull (shape p) s (deal_of f p) full
        → (counts_of p).parts ≡ 1 → place_of s.run.frame 0 ≡ Done
        → of_rows (the_task s.tasks 0).output ≡ whole full (tree_in s 0) }
{}

/// A plan that is the query's plain plan, but for sorts and exchanges, means what the query's body means (`built`).
/// What rows are alike to has no fault (`clean`).
pub fn meant_law()
    ensures built { (tables : Tables) (phases : Phases) → LawsOfParts phases
        → (files : List ℕ) (n : ℕ) (q : AQuery) (p : Plan)
        → has_distincts tables q.body ≡ true → erased p ≡ erased (build q files n)
        → meaning_of tables p
        ≡ meaning (body_part tables q.body).kinds (body_part tables q.body).items }
    ensures clean { (given : List Cells) (items : List Item) → Alike (of_rows given) items
        → faults items ≡ [] }
{}
