//! The lines of a plan.

ghost use Rattle.std.specs.Prelude.{◌≡◌, ◌++◌, map, IfOk, OnOk};
ghost use Rattle.std.specs.String.{string_bytes};
ghost use Rattle.plan_text.specs.NodeText.{top_words};
ghost use Rattle.plan_text.specs.PlanText as spec;

use crate::nodes::push_words;
use dfx_value::{Bytes, NoMemory, Text};
use physical_plan::Plan;
use std::alloc::Global;

fn push_indent(text: &mut String, level: u64) -> Result<(), NoMemory>
    ensures { OnOk result (string_bytes text.new ≡ string_bytes text.old ++ spec.indent level) }
{
    for _at in 0..level {
        text.push_str("  ")?;
    }
    Ok(())
}

/// Appends the line of a plan's top node.
fn push_line(text: &mut String, plan: &Plan, tables: &[Text], level: u64) -> Result<(), NoMemory>
    ensures { OnOk result (string_bytes text.new
        ≡ string_bytes text.old ++ spec.line level (top_words tables.now plan.now)) }
{
    push_indent(text, level)?;
    push_words(text, plan, tables)?;
    Ok(text.push('\n')?)
}

/// Appends the lines of some plans.
#[cycle(lines)]
fn push_all(text: &mut String, plans: &[Plan], tables: &[Text], level: u64) -> Result<(), NoMemory>
    ensures { OnOk result (string_bytes text.new
        ≡ string_bytes text.old ++ spec.all_at (map (spec.lines_of tables.now) plans.now) level) }
{
    for plan in plans {
        push_lines(text, plan, tables, level)?;
    }
    Ok(())
}

/// Appends the lines of a plan's inputs.
#[cycle(lines)]
#[tactic(auto, using(crate::proofs::LineSteps::inputs))]
fn push_inputs(text: &mut String, plan: &Plan, tables: &[Text], level: u64) -> Result<(), NoMemory>
    ensures { OnOk result (string_bytes text.new
        ≡ string_bytes text.old ++ spec.input_lines tables.now plan.now level) }
{
    match plan {
        Plan::Scan {
            table: _,
            kinds: _,
            files: _,
            partitions: _,
        } => Ok(()),
        Plan::Filter { input, test: _ } => push_lines(text, input.get(), tables, level),
        Plan::Project { input, items: _ } => push_lines(text, input.get(), tables, level),
        Plan::PartialGroup {
            input,
            keys: _,
            calls: _,
        } => push_lines(text, input.get(), tables, level),
        Plan::FinalGroup {
            input,
            keys: _,
            calls: _,
        } => push_lines(text, input.get(), tables, level),
        Plan::HashJoin {
            kind: _,
            left,
            right,
            keys: _,
            rest: _,
        } => {
            push_lines(text, left.get(), tables, level)?;
            push_lines(text, right.get(), tables, level)
        }
        Plan::Sort { input, keys: _ } => push_lines(text, input.get(), tables, level),
        Plan::Merge { input, keys: _ } => push_lines(text, input.get(), tables, level),
        Plan::Coalesce { input } => push_lines(text, input.get(), tables, level),
        Plan::Repartition { input, to: _ } => push_lines(text, input.get(), tables, level),
        Plan::UnionAll { inputs } => push_all(text, inputs.as_slice(), tables, level),
        Plan::Limit {
            input,
            skip: _,
            fetch: _,
        } => push_lines(text, input.get(), tables, level),
    }
}

/// Appends the lines of a plan that stands at a level.
#[cycle(lines)]
fn push_lines(text: &mut String, plan: &Plan, tables: &[Text], level: u64) -> Result<(), NoMemory>
    ensures { OnOk result (string_bytes text.new
        ≡ string_bytes text.old ++ spec.lines_of tables.now plan.now level) }
{
    push_line(text, plan, tables, level)?;
    match level.checked_add(1) {
        Some(below) => push_inputs(text, plan, tables, below),
        None => Err(NoMemory),
    }
}

/// The text of a plan: a line for each node, before those of its inputs and two spaces further out, each ended by a line
/// feed. `tables` has the names of the tables by their numbers; a number past them is written as the empty name.
pub fn plan_text(alloc: Global, plan: &Plan, tables: &[Text]) -> Result<Bytes, NoMemory>
    ensures text { IfOk result (λ text. text ≡ spec.plan_text tables.now plan.now) }
{
    let mut text = String::new(alloc);
    push_lines(&mut text, plan, tables, 0)?;
    Ok(Bytes::from_vec(text.into_bytes()))
}
