//! From the text of a script to a finished plan.

ghost use Rattle.std.specs.Prelude.{◌≡◌, ◌<◌, ◌≤◌, ◌^◌, ℕ, List, All, Some, Ok, Err, true, IfOk, IfErr, length, map};
ghost use Rattle.dfx_outside.specs.Causes.{Rose};
ghost use Rattle.dfx_outside.specs.Contents.{Contents};
ghost use Rattle.sql_lexer.specs.Parts.{IsToken};
ghost use Rattle.sql_grammar.specs.Parsed.{parsed};
ghost use Rattle.sql_binder.specs.Bound.{bound};
ghost use Rattle.sql_binder.specs.Refusals.{IsBound};
ghost use Rattle.sql_grammar.specs.declared.ast.Script.{Script as AScript};
ghost use Rattle.kind_laws.specs.Kinded.{is_well_kinded};
ghost use Rattle.binder_kind_laws.specs.Scripts.{declared_kinds};
ghost use Rattle.binder_kind_laws.specs.Scans.{has_sound_scans};
ghost use Rattle.planned_laws.specs.Queries.{QueryInRange};
ghost use Rattle.planned_laws.specs.Wholly.{IsWhollyPlanned};
ghost use Rattle.dfx_prepare.specs.Outcomes.{Answers, IsPreparing, IsQuerying, IsReading, OrMemory};
ghost use Rattle.dfx_prepare.specs.Preparing as spec;
ghost use Rattle.failure_text.specs.declared.failure.Failure.{Failure as Refusal};
ghost use Rattle.failure_text.specs.declared.failure.Failure.TheVariants as failure;

use crate::declared::{are_arrow, counts_of, schemas_of, table_names};
use crate::prepared::Prepared;
use crate::tables::files_of;
use binder_laws::binder_law;
use dfx_outside::Files;
use dfx_value::{NoMemory, Seq, Text};
use enforce_dist::enforce_distribution;
use enforce_sort::enforce_sorting;
use failure_text::Failure;
use logical_plan::Query;
use physical_build::build;
use physical_plan::Plan;
use planned_laws::range_law;
use sql_binder::{BindRefused, bind};
use sql_grammar::SyntaxRefused;
use sql_grammar::ast::Script;
use sql_lexer::{LexRefused, Token, tokens};
use sql_parser::parse_script;
use sql_tables::Schema;
use std::alloc::Global;

fn script_of_tokens(alloc: Global, text: &[u8], tokens: &[Token]) -> Result<Script, Failure>
    requires parts { All (IsToken text.now) tokens.now }
    requires fits { length text.now < 2 ^ 32 }
    ensures found { OrMemory result (spec.of_parsed (parsed text.now tokens.now)) }
    ensures reading { IfErr result IsReading }
{
    match parse_script(alloc, text, tokens) {
        Ok(script) => Ok(script),
        Err(SyntaxRefused::NoMemory) => Err(Failure::NoMemory),
        Err(refused) => Err(Failure::Syntax(refused)),
    }
}

/// The script that a text spells, or its first refusal.
#[tactic(auto, using(crate::proofs::ScriptSteps::small_text), unfolding(crate::specs::Preparing::script_of))]
fn script_of(alloc: Global, text: &[u8]) -> Result<Script, Failure>
    ensures found { OrMemory result (spec.script_of text.now) }
    ensures reading { IfErr result IsReading }
{
    match tokens(alloc, text) {
        Ok(tokens) => script_of_tokens(alloc, text, tokens.as_slice()),
        Err(LexRefused::NoMemory) => Err(Failure::NoMemory),
        Err(refused) => Err(Failure::Lexer(refused)),
    }
}

/// The query of a script over tables of these schemas. Its columns are in range.
fn bound_query(alloc: Global, script: &Script, schemas: &[Schema]) -> Result<Query, BindRefused>
    ensures bound { IsBound result (bound script.now schemas.now) }
    ensures ranges { IfOk result QueryInRange }
{
    binder_law();
    bind(alloc, script, schemas)
}

/// The query of a script over its tables, or its first refusal.
#[tactic(auto, unfolding(crate::specs::Preparing::query_of))]
fn query_of(alloc: Global, script: &Script) -> Result<Query, Failure>
    ensures found { OrMemory result (spec.query_of script.now) }
    ensures ranges { IfOk result QueryInRange }
    ensures querying { IfErr result IsQuerying }
{
    let schemas = schemas_of(alloc, script.tables.as_slice())?;
    match bound_query(alloc, script, schemas.as_slice()) {
        Ok(query) => Ok(query),
        Err(BindRefused::NoMemory) => Err(Failure::NoMemory),
        Err(refused) => Err(Failure::Binder(refused)),
    }
}

/// The finished plan of a query over tables of so many files.
fn plan_of(alloc: Global, query: &Query, files: &[u32], n: u32) -> Result<Plan, NoMemory>
    requires { QueryInRange query.now }
    ensures value { IfOk result (λ p. p ≡ spec.plan_of query.now files.now n) }
    ensures planned { IfOk result (λ p. IsWhollyPlanned query.now files.now p n) }
{
    range_law();
    let plain = build(alloc, query, files, n)?;
    let spread = enforce_distribution(alloc, plain, n)?;
    enforce_sorting(alloc, spread)
}

/// A query with its finished plan.
fn with_plan(alloc: Global, query: Query, files: &[u32], n: u32) -> Result<(Query, Plan), NoMemory>
    requires { QueryInRange query }
    ensures value { IfOk result (λ p. (p.0 ≡ query) × (p.1 ≡ spec.plan_of query files.now n)) }
    ensures planned { IfOk result (λ p. IsWhollyPlanned p.0 files.now p.1 n) }
{
    let plan = plan_of(alloc, &query, files, n)?;
    Ok((query, plan))
}

/// The query of a script with its finished plan over tables of so many files.
fn planned_query(
    alloc: Global,
    script: &Script,
    files: &[u32],
    n: u32,
) -> Result<(Query, Plan), Failure>
    ensures found { OrMemory result
        (spec.followed (spec.query_of script.now) (λ q. Ok (q, spec.plan_of q files.now n))) }
    ensures planned { IfOk result (λ p. IsWhollyPlanned p.0 files.now p.1 n) }
    ensures querying { IfErr result IsQuerying }
{
    let query = query_of(alloc, script)?;
    Ok(with_plan(alloc, query, files, n)?)
}

/// What a script is prepared to over these files of its tables.
fn prepare_over(
    alloc: Global,
    script: &Script,
    n: u32,
    paths: Seq<Seq<Text>>,
) -> Result<Prepared, Failure>
    ensures prepared { OrMemory result (spec.prepared_over script.now n paths) }
    ensures planned { IfOk result (λ p. IsWhollyPlanned p.query (map length p.paths) p.plan n) }
    ensures same { IfOk result (λ p. p.paths ≡ paths) }
    ensures querying { IfErr result IsQuerying }
{
    let counts = counts_of(alloc, paths.as_slice())?;
    let tables = table_names(alloc, script.tables.as_slice())?;
    let arrow = are_arrow(alloc, script.tables.as_slice())?;
    let (query, plan) = planned_query(alloc, script, counts.as_slice(), n)?;
    Ok(Prepared {
        query,
        plan,
        tables,
        paths,
        arrow,
    })
}

/// What a script is prepared to.
#[tactic(auto, using(crate::proofs::WholeSteps::whole_steps))]
fn prepare_script<F: Files>(
    alloc: Global,
    script: &Script,
    files: &mut F,
    n: u32,
) -> Result<Prepared, Failure>
    ensures prepared { (all : Contents) → F.told files.old ≡ Some all
        → Answers result (spec.prepared_script all n script.now) }
    ensures whole { IfOk result (λ p. spec.IsOf script.now n p) }
    ensures planned { IfOk result (λ p. IsWhollyPlanned p.query (map length p.paths) p.plan n) }
    ensures same { F.told files.new ≡ F.told files.old }
    ensures later { (F.faults files.old ≤ F.faults files.new)
        × (F.absences files.old ≤ F.absences files.new) }

    ensures read { result ≡ Err failure.Read → Rose (F.faults files.old) (F.faults files.new) }
    ensures missing { (p : List ℕ) → result ≡ Err (failure.Missing p)
        → Rose (F.absences files.old) (F.absences files.new) }
    ensures preparing { IfErr result IsPreparing }
{
    let paths = files_of(alloc, files, script.tables.as_slice())?;
    prepare_over(alloc, script, n, paths)
}

/// What the text of a script is prepared to for at least one partition: its query, the finished plan, and the files of its tables.
///
/// The refusal is the first one: the text, then the grammar, then the tables in the order of their statements, each with its folder's
/// listing, then the names and kinds.
#[tactic(auto, using(crate::proofs::WholeSteps::whole_steps))]
pub fn prepare<F: Files>(
    alloc: Global,
    script: &[u8],
    files: &mut F,
    partitions: u32,
) -> Result<Prepared, Failure>
    requires { 0 < partitions }

    // Where the files are told, this is answered, or a file failed, or there was no memory.
    ensures prepared { (all : Contents) → F.told files.old ≡ Some all
        → Answers result (spec.prepared script.now all partitions) }

    // Told or not, a text that spells no script is refused so, and what is prepared is the script's, with a finished plan of its
    // query, whose columns are all in range.
    ensures script { (refusal : Refusal) → spec.script_of script.now ≡ Err refusal
        → OrMemory result (Err refusal) }
    ensures whole { IfOk result (λ p. spec.IsOfText script.now partitions p) }
    ensures planned { IfOk result
        (λ p. IsWhollyPlanned p.query (map length p.paths) p.plan partitions) }

    // Its query is well-kinded over the tables that the script declares.
    ensures kinded { (spelled : AScript) → spec.script_of script.now ≡ Ok spelled
        → IfOk result
        (λ p. is_well_kinded (map declared_kinds spelled.tables) p.query.body ≡ true) }

    // Each Scan of its query has at most 256 columns, of kinds that are kinds.
    ensures scans { IfOk result (λ p. has_sound_scans p.query.body ≡ true) }

    // The files stay, and their counts tell of absences and faults.
    ensures same { F.told files.new ≡ F.told files.old }
    ensures later { (F.faults files.old ≤ F.faults files.new)
        × (F.absences files.old ≤ F.absences files.new) }
    ensures read { result ≡ Err failure.Read → Rose (F.faults files.old) (F.faults files.new) }
    ensures missing { (p : List ℕ) → result ≡ Err (failure.Missing p)
        → Rose (F.absences files.old) (F.absences files.new) }

    // No other failure comes of preparing.
    ensures preparing { IfErr result IsPreparing }
{
    let script = script_of(alloc, script)?;
    prepare_script(alloc, &script, files, partitions)
}
