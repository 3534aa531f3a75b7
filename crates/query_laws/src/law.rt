//! The law of queries: every run of the plan of a script, in any order of entries.

ghost use Rattle.std.specs.Prelude.{◌≡◌, ◌++◌, true, List, [], ◌∷◌};
ghost use Rattle.run_journal.specs.declared.entry.Entry.{Entry};
ghost use Rattle.run_journal.specs.declared.entry.EntryKind.TheVariants.{Failed};
ghost use Rattle.run_journal.specs.declared.cause.Cause.{Cause};
ghost use Rattle.core_frame.specs.Frame.{place_of};
ghost use Rattle.core_frame.specs.declared.place.Place.TheVariants.{Done};
ghost use Rattle.logical_plan.specs.Body.{all_faults};
ghost use Rattle.logical_plan.specs.Allowed.{Allowed};
ghost use Rattle.tree_laws.specs.Runs.{State, the_task};
ghost use Rattle.plan_task_laws.specs.Sources.{places_of};
ghost use Rattle.part_laws.specs.Phased.{the_phases};
ghost use Rattle.fault_laws.specs.Found.{is_of_fault};
ghost use Rattle.fault_laws.specs.Named.{EndsAt};
ghost use Rattle.state_laws.specs.Good.{Good};
ghost use Rattle.query_laws.specs.Runs.{Setting, IsSetting, tables_in, doing_in, LeadsTo};

/// Every run of the plan to which a script is prepared, over files that tell their bytes, whatever its entries are, as
/// long as they are legal: for any number of partitions above 0, any batch size, any limit, any hash that equal keys have
/// in common, and whatever rows reserve.
///
/// Every state that entries lead to is good (`good`). Where the root has finished, its output is an answer that the query
/// allows (`answer`). And where the last entry says that the run failed, by anything but a device, memory or a
/// reservation, it names a fault that the query meets: that of an evaluation, or one in a file that it scans, at that
/// file's source (`cause`).
pub fn query_runs_law()
    ensures good { (r : Setting) → IsSetting r → (entries : List Entry) (s : State)
        → LeadsTo r entries s
        → Good r.size r.hash (doing_in r) (tables_in r) the_phases r.made.plan s }
    ensures answer { (r : Setting) → IsSetting r → (entries : List Entry) (s : State)
        → LeadsTo r entries s
        → place_of s.run.frame 0 ≡ Done
        → Allowed r.made.query (tables_in r) (the_task s.tasks 0).output }
    ensures cause { (r : Setting) → IsSetting r → (entries : List Entry) (e : Entry) (s : State)
        → LeadsTo r (entries ++ e ∷ []) s → (cause : Cause) → e.kind ≡ Failed cause
        → is_of_fault cause ≡ true
        → EndsAt (all_faults (tables_in r) r.made.query.body) (places_of r.made.plan) cause }
{}
