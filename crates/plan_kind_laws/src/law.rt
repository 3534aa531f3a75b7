//! Laws of the kinds of plans.

ghost use Rattle.std.specs.Prelude.{ℕ, ◌≡◌, ◌++◌, true, List, Some};
ghost use Rattle.dfx_value.specs.declared.kind.Kind.{Kind as AKind};
ghost use Rattle.dfx_value.specs.declared.op.AggCall.{AggCall as ACall};
ghost use Rattle.logical_plan.specs.declared.plan.Logical.{Logical as ABody};
ghost use Rattle.logical_plan.specs.declared.query.Query.{Query as AQuery};
ghost use Rattle.logical_plan.specs.Body as body;
ghost use Rattle.physical_plan.specs.declared.plan.Plan.{Plan as APlan};
ghost use Rattle.physical_plan.specs.Everywhere.{everywhere, erased};
ghost use Rattle.physical_build.specs.Build.{two_phases, body_plan, build};
ghost use Rattle.planned_laws.specs.Planned.{IsPlanned};
ghost use Rattle.kind_laws.specs.Kinded.{is_well_kinded};
ghost use Rattle.plan_kinds.specs.Phases.{has_columns, calls_fit};
ghost use Rattle.plan_kinds.specs.Kinds.{kinds, inputs_have_kinds};

/// Exchanges, sorts and merges keep the kinds of their input's columns, so a plan has those of its tree without them (`erased`). Both
/// phases of a grouping have the kinds of the one group: of its keys, then of its calls (`phases`). Where a plan has kinds, so has
/// each node's input (`nodes`).
pub fn phases_law()
    ensures erased { (p : APlan) → kinds (erased p) ≡ kinds p }
    ensures phases { (p : APlan) (columns : List AKind) (keys : List ℕ) (calls : List ACall)
        → kinds p ≡ Some columns
        → has_columns columns keys ≡ true → calls_fit columns calls ≡ true
        → kinds (two_phases p keys calls)
        ≡ Some (body.key_kinds columns keys ++ body.call_kinds columns calls) }
    ensures nodes { (p : APlan) (columns : List AKind) → kinds p ≡ Some columns
        → everywhere inputs_have_kinds p ≡ true }
{}

/// The plan of a well-kinded body has the body's kinds (`bodies`), the plain plan of a query with such a body too (`built`), and so
/// has every finished plan of it (`planned`).
pub fn query_law()
    ensures bodies { (tables : List (List AKind)) (files : List ℕ) (n : ℕ) (q : ABody)
        → is_well_kinded tables q ≡ true → kinds (body_plan files n q) ≡ Some (body.kinds q) }
    ensures built { (tables : List (List AKind)) (files : List ℕ) (n : ℕ) (q : AQuery)
        → is_well_kinded tables q.body ≡ true → kinds (build q files n) ≡ Some (body.kinds q.body) }
    ensures planned { (tables : List (List AKind)) (files : List ℕ) (n : ℕ) (q : AQuery) (p : APlan)
        → is_well_kinded tables q.body ≡ true → IsPlanned q files p n
        → kinds p ≡ Some (body.kinds q.body) }
{}
