//! The words of one node.

ghost use Rattle.std.specs.Prelude.{◌≡◌, ◌++◌, map, codes, OnOk};
ghost use Rattle.std.specs.String.{string_bytes};
ghost use Rattle.plan_text.specs.ExprText.{expr_text};
ghost use Rattle.plan_text.specs.ListText.{bracketed};
ghost use Rattle.plan_text.specs.NodeText as spec;

use crate::exprs::{push_expr, push_exprs};
use crate::lists::{push_calls, push_columns, push_keys, push_pairs};
use dfx_value::{AggCall, JoinKind, NoMemory, SortKey, Text};
use physical_plan::Plan;
use plan_props::Partitioning;
use scalar_exprs::Expr;
use std::fmt::Write;

fn push_scan(
    text: &mut String,
    tables: &[Text],
    table: u32,
    partitions: u32,
    files: u32,
) -> Result<(), NoMemory>
    ensures { OnOk result (string_bytes text.new
        ≡ string_bytes text.old
        ++ spec.scan_text (spec.name_of tables.now table) partitions files) }
{
    text.push_str("Scan ")?;
    push_name(text, tables, table)?;
    Ok(write!(text, " partitions={partitions} files={files}")?)
}

fn push_name(text: &mut String, tables: &[Text], table: u32) -> Result<(), NoMemory>
    ensures { OnOk result (string_bytes text.new
        ≡ string_bytes text.old ++ spec.name_of tables.now table) }
{
    match tables.get(table as usize) {
        Some(name) => Ok(text.push_str(name.as_str())?),
        None => Ok(()),
    }
}

fn push_test(text: &mut String, test: &Expr) -> Result<(), NoMemory>
    ensures { OnOk result (string_bytes text.new
        ≡ string_bytes text.old ++ (codes "Filter " ++ expr_text test.now)) }
{
    text.push_str("Filter ")?;
    push_expr(text, test)
}

fn push_items(text: &mut String, items: &[Expr]) -> Result<(), NoMemory>
    ensures { OnOk result (string_bytes text.new
        ≡ string_bytes text.old ++ (codes "Project " ++ bracketed (map expr_text items.now))) }
{
    text.push_str("Project [")?;
    push_exprs(text, items)?;
    Ok(text.push(']')?)
}

fn push_group(
    text: &mut String,
    name: &str,
    keys: &[u32],
    calls: &[AggCall],
) -> Result<(), NoMemory>
    ensures { OnOk result (string_bytes text.new
        ≡ string_bytes text.old ++ (name.now ++ spec.group_text keys.now calls.now)) }
{
    text.push_str(name)?;
    text.push_str(" keys=")?;
    push_columns(text, keys)?;
    text.push_str(" calls=")?;
    push_calls(text, calls)
}

fn push_join_kind(text: &mut String, kind: JoinKind) -> Result<(), NoMemory>
    ensures { OnOk result (string_bytes text.new ≡ string_bytes text.old ++ spec.join_text kind) }
{
    match kind {
        JoinKind::Inner => text.push_str("INNER")?,
        JoinKind::Left => text.push_str("LEFT")?,
        JoinKind::Right => text.push_str("RIGHT")?,
        JoinKind::Full => text.push_str("FULL")?,
    }
    Ok(())
}

fn push_rest(text: &mut String, rest: &Option<Expr>) -> Result<(), NoMemory>
    ensures { OnOk result (string_bytes text.new
        ≡ string_bytes text.old ++ spec.rest_text rest.now) }
{
    match rest {
        Some(test) => push_expr(text, test),
        None => Ok(text.push_str("NONE")?),
    }
}

fn push_join(
    text: &mut String,
    kind: JoinKind,
    keys: &[(u32, u32)],
    rest: &Option<Expr>,
) -> Result<(), NoMemory>
    ensures { OnOk result (string_bytes text.new
        ≡ string_bytes text.old ++ spec.hash_join_text kind keys.now rest.now) }
{
    text.push_str("HashJoin ")?;
    push_join_kind(text, kind)?;
    text.push_str(" keys=")?;
    push_pairs(text, keys)?;
    text.push_str(" rest=")?;
    push_rest(text, rest)
}

fn push_order(text: &mut String, name: &str, keys: &[SortKey]) -> Result<(), NoMemory>
    ensures { OnOk result (string_bytes text.new
        ≡ string_bytes text.old ++ (name.now ++ bracketed (map spec.key_text keys.now))) }
{
    text.push_str(name)?;
    push_keys(text, keys)
}

fn push_hash(text: &mut String, columns: &[u32], count: u32) -> Result<(), NoMemory>
    ensures { OnOk result (string_bytes text.new
        ≡ string_bytes text.old ++ spec.hash_text columns.now count) }
{
    text.push_str("Hash(")?;
    push_columns(text, columns)?;
    Ok(write!(text, ", {count})")?)
}

fn push_partitioning(text: &mut String, to: &Partitioning) -> Result<(), NoMemory>
    ensures { OnOk result (string_bytes text.new
        ≡ string_bytes text.old ++ spec.partitioning_text to.now) }
{
    match to {
        Partitioning::Single => Ok(text.push_str("Single")?),
        Partitioning::RoundRobin(count) => Ok(write!(text, "RoundRobin({count})")?),
        Partitioning::Hash(columns, count) => push_hash(text, columns.as_slice(), *count),
        Partitioning::Unknown(count) => Ok(write!(text, "Unknown({count})")?),
    }
}

fn push_exchange(text: &mut String, to: &Partitioning) -> Result<(), NoMemory>
    ensures { OnOk result (string_bytes text.new
        ≡ string_bytes text.old ++ (codes "Repartition " ++ spec.partitioning_text to.now)) }
{
    text.push_str("Repartition ")?;
    push_partitioning(text, to)
}

fn push_fetch(text: &mut String, fetch: Option<u64>) -> Result<(), NoMemory>
    ensures { OnOk result (string_bytes text.new ≡ string_bytes text.old ++ spec.fetch_text fetch) }
{
    match fetch {
        Some(count) => Ok(write!(text, "{count}")?),
        None => Ok(text.push_str("ALL")?),
    }
}

fn push_limit(text: &mut String, skip: u64, fetch: Option<u64>) -> Result<(), NoMemory>
    ensures { OnOk result (string_bytes text.new
        ≡ string_bytes text.old ++ spec.limit_text skip fetch) }
{
    write!(text, "Limit skip={skip}")?;
    text.push_str(" fetch=")?;
    push_fetch(text, fetch)
}

/// Appends what a plan's top node is, without its inputs.
#[tactic(auto, using(crate::proofs::NodeSteps::top_nodes))]
pub fn push_words(text: &mut String, plan: &Plan, tables: &[Text]) -> Result<(), NoMemory>
    ensures { OnOk result (string_bytes text.new
        ≡ string_bytes text.old ++ spec.top_words tables.now plan.now) }
{
    match plan {
        Plan::Scan {
            table,
            kinds: _,
            files,
            partitions,
        } => push_scan(text, tables, *table, *partitions, *files),
        Plan::Filter { input: _, test } => push_test(text, test),
        Plan::Project { input: _, items } => push_items(text, items.as_slice()),
        Plan::PartialGroup {
            input: _,
            keys,
            calls,
        } => push_group(text, "PartialGroup", keys.as_slice(), calls.as_slice()),
        Plan::FinalGroup {
            input: _,
            keys,
            calls,
        } => push_group(text, "FinalGroup", keys.as_slice(), calls.as_slice()),
        Plan::HashJoin {
            kind,
            left: _,
            right: _,
            keys,
            rest,
        } => push_join(text, *kind, keys.as_slice(), rest),
        Plan::Sort { input: _, keys } => push_order(text, "Sort ", keys.as_slice()),
        Plan::Merge { input: _, keys } => push_order(text, "Merge ", keys.as_slice()),
        Plan::Coalesce { input: _ } => Ok(text.push_str("Coalesce")?),
        Plan::Repartition { input: _, to } => push_exchange(text, to),
        Plan::UnionAll { inputs: _ } => Ok(text.push_str("UnionAll")?),
        Plan::Limit {
            input: _,
            skip,
            fetch,
        } => push_limit(text, *skip, *fetch),
    }
}
