//! The law of ranges: the query that a script means has its columns in range.

ghost use Rattle.std.specs.Prelude.{ℕ, ◌≡◌, List, length, Ok};
ghost use Rattle.logical_plan.specs.declared.query.Query.{Query as AQuery};
ghost use Rattle.sql_grammar.specs.declared.ast.Script.{Script as AScript};
ghost use Rattle.sql_tables.specs.declared.schema.Schema.{Schema as ASchema};
ghost use Rattle.sql_binder.specs.Bound.{bound};
ghost use Rattle.physical_build.specs.Build.{build};
ghost use Rattle.enforce_dist.specs.Distribute.{enforce_distribution};
ghost use Rattle.enforce_sort.specs.Arrange.{enforce_sorting};
ghost use Rattle.planned_laws.specs.Queries.{body_width, QueryInRange};
ghost use Rattle.planned_laws.specs.Wholly.{IsWhollyPlanned};

/// The query that a script means over tables of any schemas has its columns in range, and a name for each column. So over every number
/// of files and for every number of partitions its plan is finished with all columns in range.
pub fn binder_law()
    ensures ranges { (script : AScript) (schemas : List ASchema) (q : AQuery)
        → bound script schemas ≡ Ok q → QueryInRange q }
    ensures names { (script : AScript) (schemas : List ASchema) (q : AQuery)
        → bound script schemas ≡ Ok q
        → length q.names ≡ body_width q.body }
    ensures planned { (script : AScript) (schemas : List ASchema) (q : AQuery) (files : List ℕ)
        (n : ℕ) → bound script schemas ≡ Ok q
        → IsWhollyPlanned q files (enforce_sorting (enforce_distribution (build q files n) n)) n }
{}
