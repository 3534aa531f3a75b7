//! The law of kinds: what a script means is well-kinded.

ghost use Rattle.std.specs.Prelude.{◌≡◌, ℕ, true, Ok, Some, None, List, length, map};
ghost use Rattle.dfx_value.specs.Kinds.{are_kinds};
ghost use Rattle.scalar_exprs.specs.Kinds.{kind_of, constants_fit};
ghost use Rattle.logical_plan.specs.Body as body;
ghost use Rattle.logical_plan.specs.declared.query.Query.{Query as AQuery};
ghost use Rattle.kind_laws.specs.Kinded.{is_well_kinded};
ghost use Rattle.sql_lexer.specs.declared.token.Token.{Token as AToken};
ghost use Rattle.sql_grammar.specs.declared.ast.ExprAst.{ExprAst as AExprAst};
ghost use Rattle.sql_grammar.specs.declared.ast.Script.{Script as AScript};
ghost use Rattle.sql_grammar.specs.Parsed.{parsed};
ghost use Rattle.typed_exprs.specs.declared.typed.Typed.{Typed as ATyped};
ghost use Rattle.typed_exprs.specs.Scopes.{Columns};
ghost use Rattle.typed_exprs.specs.Typed.{settled};
ghost use Rattle.expr_binder.specs.Meaning.{meaning};
ghost use Rattle.sql_tables.specs.declared.schema.Schema.{Schema as ASchema};
ghost use Rattle.sql_tables.specs.declared.table.Table.{Table as ATable};
ghost use Rattle.sql_tables.specs.Tables.{tables};
ghost use Rattle.sql_binder.specs.Sources.{kinds};
ghost use Rattle.sql_binder.specs.Bound.{bound};
ghost use Rattle.binder_kind_laws.specs.Scans.{has_sound_scans};
ghost use Rattle.binder_kind_laws.specs.Scripts.{has_items, are_whole, kinds_of, declared_schema, declared_kinds};

/// What an expression means over columns has the kind that is told with it, and its constants fit
/// (`expressions`).
///
/// The query that a script means over tables, each with a kind for each name, is well-kinded over
/// them (`queries`) and has a name for each of its columns (`names`). The premise on the script is
/// that each select has an item. A script that a text spells has them, and kinds for the columns
/// that it declares, at most 256 a table: so its query is well-kinded over its tables (`spelled`),
/// with a name for each of its columns (`named`), and the kinds of each Scan in it are kinds, and
/// as few (`scans`).
pub fn kinded_law()
    ensures expressions { (columns : Columns) (e : AExprAst) (t : ATyped)
        → are_kinds (kinds columns) ≡ true → meaning columns e None ≡ Ok t
        → (kind_of (kinds columns) (settled t).0 ≡ Some (settled t).1)
        × (constants_fit (settled t).0 ≡ true) }
    ensures queries { (script : AScript) (schemas : List ASchema) (ts : List ATable) (q : AQuery)
        → tables script.tables schemas ≡ Ok ts → are_whole ts ≡ true → has_items script ≡ true
        → bound script schemas ≡ Ok q → is_well_kinded (kinds_of ts) q.body ≡ true }
    ensures names { (script : AScript) (schemas : List ASchema) (ts : List ATable) (q : AQuery)
        → tables script.tables schemas ≡ Ok ts → are_whole ts ≡ true → has_items script ≡ true
        → bound script schemas ≡ Ok q → length q.names ≡ length (body.kinds q.body) }
    ensures spelled { (text : List ℕ) (tokens : List AToken) (script : AScript) (q : AQuery)
        → parsed text tokens ≡ Ok script → bound script (map declared_schema script.tables) ≡ Ok q
        → is_well_kinded (map declared_kinds script.tables) q.body ≡ true }
    ensures scans { (text : List ℕ) (tokens : List AToken) (script : AScript) (q : AQuery)
        → parsed text tokens ≡ Ok script → bound script (map declared_schema script.tables) ≡ Ok q
        → has_sound_scans q.body ≡ true }
    ensures named { (text : List ℕ) (tokens : List AToken) (script : AScript) (q : AQuery)
        → parsed text tokens ≡ Ok script → bound script (map declared_schema script.tables) ≡ Ok q
        → length q.names ≡ length (body.kinds q.body) }
{}
