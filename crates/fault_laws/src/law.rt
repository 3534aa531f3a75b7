//! Laws: a fault that ends a run is one that its query meets.

ghost use Rattle.std.specs.Prelude.{◌≡◌, ◌<◌, ℕ, Bool, true, Option, Some, List};
ghost use Rattle.std.specs.List.{AllPass};
ghost use Rattle.dfx_value.specs.declared.fault.ItemFault.{ItemFault};
ghost use Rattle.run_journal.specs.declared.cause.Cause.{Cause};
ghost use Rattle.run_journal.specs.declared.entry.Entry.{Entry};
ghost use Rattle.run_journal.specs.declared.entry.EntryKind.TheVariants.{Failed};
ghost use Rattle.core_frame.specs.Step.{Fail};
ghost use Rattle.history_laws.specs.Histories.{Past, Reply};
ghost use Rattle.physical_plan.specs.declared.plan.Plan.{Plan};
ghost use Rattle.plan_shape.specs.Layout.{shape};
ghost use Rattle.logical_plan.specs.declared.query.Query.{Query as AQuery};
ghost use Rattle.logical_plan.specs.Items.{Cells, Item, faults, concat};
ghost use Rattle.logical_plan.specs.Body.{Tables, all_faults};
ghost use Rattle.tree_laws.specs.Trees.{Tree, Asks, poll, form};
ghost use Rattle.tree_laws.specs.Linked.{IsLinked, IsFlow};
ghost use Rattle.tree_laws.specs.Runs.{State, state_step, state_replay, IsReached};
ghost use Rattle.content_laws.specs.Whole.{tree_in, AreFull};
ghost use Rattle.plan_task_laws.specs.Trees.{Doing, partitions_of};
ghost use Rattle.plan_task_laws.specs.Tops.{tops};
ghost use Rattle.plan_task_laws.specs.Starts.{start_of};
ghost use Rattle.plan_task_laws.specs.Sources.{files_of, places_of};
ghost use Rattle.plan_task_laws.specs.Placed.{deal_of, HasChannels};
ghost use Rattle.answer_laws.specs.Gives.{AllGive};
ghost use Rattle.answer_laws.specs.Fed.{AllFed};
ghost use Rattle.answer_laws.specs.Meant.{is_told};
ghost use Rattle.physical_build.specs.Build.{build};
ghost use Rattle.answer_laws.specs.Distincts.{has_distincts};
ghost use Rattle.part_laws.specs.Phased.{the_phases};
ghost use Rattle.plan_props.specs.Meets.{Hashing};
ghost use Rattle.physical_plan.specs.Everywhere.{erased, everywhere};
ghost use Rattle.planned_laws.specs.Finished.{IsFinished};
ghost use Rattle.node_laws.specs.Tests.{needs_in_range};
ghost use Rattle.finished_laws.specs.Known.{is_known};
ghost use Rattle.finished_laws.specs.Engine.{IsEngineBy};
ghost use Rattle.kind_laws.specs.Tables.{FaultsAreNamed};
ghost use Rattle.fault_laws.specs.Named.{EndsAt};
ghost use Rattle.fault_laws.specs.Met.{met_of};
ghost use Rattle.fault_laws.specs.Trees.{Meets, LeavesPass};
ghost use Rattle.fault_laws.specs.Found.{Found, IsIn, Ends, is_of_fault, IsTold, IsToldTop};

/// Where a plan's exchanges are fed and all faults that it meets pass a test, every fault that its partitions would
/// give does (`pass`), so it is one of those (`one`). A finished plan of a query meets what the query's body does
/// (`built`).
pub fn met_law()
    ensures pass { (h : Hashing) (f : Doing) (tables : Tables) (n : ℕ)
        → IsEngineBy h f tables n the_phases
        → (full : ℕ → ℕ → List Item) (test : ItemFault → Bool) (p : Plan)
        → IsTold tables n p → AllPass test (met_of tables p) → (k s : ℕ)
        → AllFed f full (tops p k s)
        → (parts : List (List Item)) → AllGive full (partitions_of f p k s) parts
        → AllPass test (faults (concat parts)) }
    ensures one { (h : Hashing) (f : Doing) (tables : Tables) (n : ℕ)
        → IsEngineBy h f tables n the_phases
        → (full : ℕ → ℕ → List Item) (p : Plan)
        → IsTold tables n p → (k s : ℕ) → AllFed f full (tops p k s)
        → (parts : List (List Item)) → AllGive full (partitions_of f p k s) parts
        → (fault : ItemFault) → IsIn fault (faults (concat parts)) → IsIn fault (met_of tables p) }
    ensures built { (tables : Tables) (files : List ℕ) (n : ℕ) (q : AQuery) (p : Plan)
        → has_distincts tables q.body ≡ true → erased p ≡ erased (build q files n)
        → met_of tables p ≡ all_faults tables q.body }
{}

/// In each state that a plan's run reaches, every tree of a task, and every tree in one, would give only faults that
/// pass, where all that the plan meets do (`trees`). A tree whose need is that the run fails has met such a fault: an
/// operator that of an evaluation, in what it has determined, or a scan one in a file that it still reads, whose
/// source is named (`fails`). So the cause of an entry of failure, unless a device, memory or a reservation failed,
/// is a fault that the plan meets (`ends`), and that the query of a finished plan does (`meant`). Where the faults of
/// the tables' files name them, a source in a cause is the file that the fault names (`named`).
pub fn cause_law()
    ensures trees { (h : Hashing) (f : Doing) (tables : Tables) (n : ℕ)
        → IsEngineBy h f tables n the_phases
        → (test : ItemFault → Bool)
        → (p : Plan) → HasChannels p → IsToldTop tables n p → AllPass test (met_of tables p)
        → (size limit : ℕ) (entries : List Entry) (s : State) (full : ℕ → ℕ → List Item)
        → IsReached (shape p) size limit (start_of f p limit) entries s
        → AreFull (shape p) s (deal_of f p) full
        → (u : ℕ) → Meets test full (form (tree_in s u)) }
    ensures fails { (met : ItemFault → Bool) (named : ℕ → ItemFault → Bool) (size : ℕ)
        (past : Past (List Cells))
        (full : ℕ → ℕ → List Item) (t : Tree)
        → IsLinked size past t → IsFlow past full t → Meets met full (form t) → LeavesPass named t
        → (cause : Cause) (after : Reply (List Cells) → Tree)
        → poll size t ≡ Asks (Fail cause) after
        → Found met named cause }
    ensures ends { (h : Hashing) (f : Doing) (tables : Tables) (n : ℕ)
        → IsEngineBy h f tables n the_phases
        → (p : Plan) → HasChannels p → IsToldTop tables n p
        → (size limit steps : ℕ) (entries : List Entry) (s next : State) (e : Entry) (cause : Cause)
        → state_replay (shape p) size steps (Some (start_of f p limit)) entries ≡ Some s
        → state_step (shape p) size steps s e ≡ Some next
        → e.kind ≡ Failed cause → is_of_fault cause ≡ true
        → Ends (met_of tables p) (files_of f p 0) cause }
    ensures meant { (h : Hashing) (f : Doing) (tables : Tables) (n : ℕ)
        → IsEngineBy h f tables n the_phases
        → (q : AQuery) → has_distincts tables q.body ≡ true → (files : List ℕ)
        → is_known tables files q.body ≡ true
        → 0 < n
        → (p : Plan) → IsFinished (build q files n) q.order n p → everywhere needs_in_range p ≡ true
        → (size limit steps : ℕ) (entries : List Entry) (s next : State) (e : Entry) (cause : Cause)
        → state_replay (shape p) size steps (Some (start_of f p limit)) entries ≡ Some s
        → state_step (shape p) size steps s e ≡ Some next → e.kind ≡ Failed cause
        → is_of_fault cause ≡ true
        → Ends (all_faults tables q.body) (files_of f p 0) cause }
    ensures named { (h : Hashing) (f : Doing) (tables : Tables) (n : ℕ)
        → IsEngineBy h f tables n the_phases
        → FaultsAreNamed tables
        → (q : AQuery) → has_distincts tables q.body ≡ true → (files : List ℕ)
        → is_known tables files q.body ≡ true
        → 0 < n
        → (p : Plan) → IsFinished (build q files n) q.order n p → everywhere needs_in_range p ≡ true
        → (size limit steps : ℕ) (entries : List Entry) (s next : State) (e : Entry) (cause : Cause)
        → state_replay (shape p) size steps (Some (start_of f p limit)) entries ≡ Some s
        → state_step (shape p) size steps s e ≡ Some next → e.kind ≡ Failed cause
        → is_of_fault cause ≡ true
        → EndsAt (all_faults tables q.body) (places_of p) cause }
{}
