//! That the plan of a query is finished.

ghost use Rattle.std.specs.Prelude.{ℕ, ◌≡◌, ◌||◌, true, false, nat_lt, is_some, List, Option};
ghost use Rattle.dfx_value.specs.declared.rows.SortKey.{SortKey as Key};
ghost use Rattle.logical_plan.specs.declared.plan.Logical.{Logical as ABody};
ghost use Rattle.logical_plan.specs.declared.query.Query.{Query as AQuery};
ghost use Rattle.physical_plan.specs.declared.plan.Plan.{Plan as APlan};
ghost use Rattle.physical_plan.specs.declared.plan.Plan.TheVariants.{Limit as ALimit};
ghost use Rattle.planned_laws.specs.Plain.{IsBody, IsPlain};
ghost use Rattle.physical_build.specs.Build.{sorted_by, limited, body_plan, build};
ghost use Rattle.planned_laws.specs.Finished.{IsFinished, no_limit};
ghost use Rattle.physical_plan.specs.Everywhere.{everywhere};
ghost use Rattle.planned_laws.specs.Planned.{IsPlanned};
ghost use Rattle.planned_laws.specs.Spread.{IsSpread};
ghost use Rattle.enforce_dist.specs.Distribute.{enforce_distribution};
ghost use Rattle.enforce_sort.specs.Arrange.{enforce_sorting};

/// The plan of every body is without exchanges and limits.
pub fn plain_law()
    ensures { (body : ABody) (files : List ℕ) (n : ℕ) → IsBody (body_plan files n body) }
{}

/// A plain plan with its exchanges meets all needs of distribution, and none of its exchanges was there already.
pub fn spread_law()
    ensures { (p : APlan) (n : ℕ) → IsPlain p → IsSpread p n (enforce_distribution p n) }
{}

/// The enforcement of distribution and then that of sorting finish every plain plan: the plan of a body, below a sort and a limit
/// where they are asked for.
pub fn finished_law()
    ensures { (body : APlan) (order : List Key) (skip : ℕ) (fetch : Option ℕ) (n : ℕ) → IsBody body
        → IsFinished (limited skip fetch (sorted_by order body)) order n
        (enforce_sorting (enforce_distribution (limited skip fetch (sorted_by order body)) n)) }
{}

/// Where a query has a limit or skips rows, its plan is that limit over a plan without one, and else it is without one.
pub fn limit_law()
    ensures on_top { (q : AQuery) (files : List ℕ) (p : APlan) (n : ℕ) → IsPlanned q files p n
        → is_some q.limit || nat_lt 0 q.offset ≡ true
        → (r : APlan) × (p ≡ ALimit r q.offset q.limit) × (everywhere no_limit r ≡ true) }
    ensures without { (q : AQuery) (files : List ℕ) (p : APlan) (n : ℕ) → IsPlanned q files p n
        → is_some q.limit || nat_lt 0 q.offset ≡ false → everywhere no_limit p ≡ true }
{}

/// What `build`, then the enforcement of distribution and then that of sorting give for a query is a finished plan of it.
pub fn planned_law()
    ensures { (q : AQuery) (files : List ℕ) (n : ℕ)
        → IsPlanned q files (enforce_sorting (enforce_distribution (build q files n) n)) n }
{}
