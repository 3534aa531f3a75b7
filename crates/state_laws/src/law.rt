//! The law of states: each that a finished plan's run reaches is good.

ghost use Rattle.std.specs.Prelude.{◌≡◌, ℕ, ◌<◌, true, List};
ghost use Rattle.run_journal.specs.declared.entry.Entry.{Entry};
ghost use Rattle.plan_props.specs.Meets.{Hashing};
ghost use Rattle.physical_plan.specs.declared.plan.Plan.{Plan as APlan};
ghost use Rattle.plan_shape.specs.Layout.{shape};
ghost use Rattle.planned_laws.specs.Finished.{IsFinished};
ghost use Rattle.physical_plan.specs.Everywhere.{everywhere};
ghost use Rattle.physical_build.specs.Build.{build};
ghost use Rattle.node_laws.specs.Tests.{needs_in_range};
ghost use Rattle.logical_plan.specs.declared.query.Query.{Query as AQuery};
ghost use Rattle.logical_plan.specs.Body.{Tables};
ghost use Rattle.tree_laws.specs.Runs.{State, IsReached};
ghost use Rattle.plan_task_laws.specs.Trees.{Doing};
ghost use Rattle.plan_task_laws.specs.Starts.{start_of};
ghost use Rattle.answer_laws.specs.Meant.{Phases};
ghost use Rattle.answer_laws.specs.Distincts.{has_distincts};
ghost use Rattle.finished_laws.specs.Known.{is_known};
ghost use Rattle.finished_laws.specs.Engine.{IsEngineBy};
ghost use Rattle.state_laws.specs.Good.{Good};

/// Every state that a finished plan's run reaches is good, also one in which the run has failed, whatever the batch size
/// and the limit are.
pub fn good_law()
    ensures { (h : Hashing) (f : Doing) (tables : Tables) (n : ℕ) (phases : Phases)
        → IsEngineBy h f tables n phases
        → (q : AQuery) → has_distincts tables q.body ≡ true → (files : List ℕ)
        → is_known tables files q.body ≡ true
        → 0 < n → (p : APlan) → IsFinished (build q files n) q.order n p
        → everywhere needs_in_range p ≡ true
        → (size limit : ℕ) (entries : List Entry) (s : State)
        → IsReached (shape p) size limit (start_of f p limit) entries s
        → Good size h f tables phases p s }
{}
