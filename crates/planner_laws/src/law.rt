//! Laws of the planner: a finished run's output is an answer that the query allows.

ghost use Rattle.std.specs.Prelude.{◌≡◌, ◌<◌, ℕ, true, List};
ghost use Rattle.plan_props.specs.Meets.{Hashing, IsHash};
ghost use Rattle.physical_plan.specs.declared.plan.Plan.{Plan};
ghost use Rattle.physical_plan.specs.declared.plan.Plan.TheOpen.{Plan-F as Node};
ghost use Rattle.logical_plan.specs.Body.{Tables};
ghost use Rattle.plan_task_laws.specs.Trees.{Doing};
ghost use Rattle.plan_task_laws.specs.Reading.{AreOperators};
ghost use Rattle.physical_build.specs.Build.{build};
ghost use Rattle.enforce_dist.specs.Distribute.{enforce_distribution};
ghost use Rattle.enforce_sort.specs.Arrange.{enforce_sorting};
ghost use Rattle.planned_laws.specs.Queries.{QueryInRange};
ghost use Rattle.planned_laws.specs.Wholly.{IsWhollyPlanned};
ghost use Rattle.logical_plan.specs.declared.query.Query.{Query as AQuery};
ghost use Rattle.logical_plan.specs.Allowed.{Allowed};
ghost use Rattle.tree_laws.specs.Runs.{State, the_task};
ghost use Rattle.answer_laws.specs.Distincts.{has_distincts};
ghost use Rattle.answer_laws.specs.Finished.{IsFinishedRun};
ghost use Rattle.finished_laws.specs.Known.{is_known};
ghost use Rattle.part_laws.specs.Phased.{the_phases};
ghost use Rattle.part_laws.specs.Made.{Amount, IsMade};
ghost use Rattle.part_laws.specs.Doing.{the_doing};
ghost use Rattle.finished_laws.specs.Sound.{on_properties};
ghost use Rattle.finished_laws.specs.Rows.{IsChannelOf, AreGroups};
ghost use Rattle.finished_laws.specs.Engine.{IsEngineBy};
ghost use Rattle.planner_laws.specs.Channels.{channel_by};

/// Rows of the first phase begin with the keys of a row of the segment, and the second phase gives at most one row
/// for each list of keys (`groups`). So operators of the kinds that tree_laws has owe what the answers of finished plans ask
/// of them (`engine`), and there are such, for every hash and all tables (`doing`).
pub fn planned_parts_law()
    ensures groups { AreGroups the_phases }
    ensures engine { (h : Hashing) (f : Doing) (tables : Tables) (n : ℕ)
        → IsMade f tables (on_properties tables n)
        → AreOperators f → IsChannelOf h f → IsEngineBy h f tables n the_phases }
    ensures doing { (h : Hashing) → IsHash h
        → (tables : Tables) (n : ℕ) (amount : Node Plan → Amount)
        → IsEngineBy h (the_doing tables amount (channel_by h)) tables n the_phases }
{}

/// Where the root of a run of a finished plan has finished, with the plan's columns in range, its output is an answer
/// that the query allows (`plans`): so of the plan that the planner makes of any query whose columns are in range
/// (`planner`).
pub fn planner_law()
    ensures plans { (h : Hashing) (f : Doing) (tables : Tables) (n : ℕ)
        → IsEngineBy h f tables n the_phases
        → (q : AQuery) → has_distincts tables q.body ≡ true → (files : List ℕ)
        → is_known tables files q.body ≡ true
        → 0 < n
        → (p : Plan) → IsWhollyPlanned q files p n
        → (s : State) → IsFinishedRun f p s → Allowed q tables (the_task s.tasks 0).output }
    ensures planner { (h : Hashing) (f : Doing) (tables : Tables) (n : ℕ)
        → IsEngineBy h f tables n the_phases
        → (q : AQuery) → has_distincts tables q.body ≡ true → (files : List ℕ)
        → is_known tables files q.body ≡ true
        → 0 < n
        → QueryInRange q
        → (s : State)
        → IsFinishedRun f (enforce_sorting (enforce_distribution (build q files n) n)) s
        → Allowed q tables (the_task s.tasks 0).output }
{}
