//! The kinds of a body's columns.

ghost use Rattle.std.specs.Prelude.{◌≡◌, ◌++◌, IfOk, OnOk, slice_get};
ghost use Rattle.logical_plan.specs.Body as spec;

use crate::plan::Logical;
use dfx_value::{AggCall, Kind, NoMemory};
use scalar_exprs::{Expr, call_kind, kind_of};
use std::alloc::Global;

fn append_kinds(kinds: &mut Vec<Kind>, more: &[Kind]) -> Result<(), NoMemory>
    ensures { OnOk result (kinds.new.items ≡ kinds.old.items ++ more.now) }
{
    for kind in more {
        kinds.push(*kind)?;
    }
    Ok(())
}

fn kind_or_text(kind: Option<Kind>) -> Kind
    ensures { result ≡ spec.kind_or_text kind }
{
    match kind {
        Some(kind) => kind,
        None => Kind::Text,
    }
}

fn item_kinds(alloc: Global, columns: &[Kind], items: &[Expr]) -> Result<Vec<Kind>, NoMemory>
    ensures { IfOk result (λ kinds. kinds.items ≡ spec.item_kinds columns.now items.now) }
{
    let mut kinds = Vec::with_capacity(alloc, items.len())?;
    for item in items {
        kinds.push(kind_or_text(kind_of(item, columns)))?;
    }
    Ok(kinds)
}

fn column_kind(columns: &[Kind], column: u32) -> Option<Kind>
    ensures { result ≡ slice_get columns.now column }
{
    match columns.get(column as usize) {
        Some(kind) => Some(*kind),
        None => None,
    }
}

fn append_keys(kinds: &mut Vec<Kind>, columns: &[Kind], keys: &[u32]) -> Result<(), NoMemory>
    ensures { OnOk result
        (kinds.new.items ≡ kinds.old.items ++ spec.key_kinds columns.now keys.now) }
{
    for key in keys {
        kinds.push(kind_or_text(column_kind(columns, *key)))?;
    }
    Ok(())
}

fn append_calls(kinds: &mut Vec<Kind>, columns: &[Kind], calls: &[AggCall]) -> Result<(), NoMemory>
    ensures { OnOk result
        (kinds.new.items ≡ kinds.old.items ++ spec.call_kinds columns.now calls.now) }
{
    for call in calls {
        kinds.push(kind_or_text(call_kind(*call, columns)))?;
    }
    Ok(())
}

/// The kinds of a body's columns.
///
/// A column that has no kind, which `bind` doesn't make, counts as a text.
#[tactic(auto, using(crate::proofs::KindSteps::kinds_by_node))]
pub fn kinds_of(alloc: Global, plan: &Logical) -> Result<Vec<Kind>, NoMemory>
    ensures { IfOk result (λ kinds. kinds.items ≡ spec.kinds plan.now) }
{
    match plan {
        Logical::Scan { table: _, kinds } => Ok(Vec::from_slice(alloc, kinds.as_slice())?),
        Logical::Filter { input, test: _ } => kinds_of(alloc, input.get()),
        Logical::Project { input, items } => {
            let columns = kinds_of(alloc, input.get())?;
            item_kinds(alloc, columns.as_slice(), items.as_slice())
        }
        Logical::Join {
            kind: _,
            left,
            right,
            keys: _,
            rest: _,
        } => {
            let mut kinds = kinds_of(alloc, left.get())?;
            let right = kinds_of(alloc, right.get())?;
            append_kinds(&mut kinds, right.as_slice())?;
            Ok(kinds)
        }
        Logical::Aggregate { input, keys, calls } => {
            let columns = kinds_of(alloc, input.get())?;
            let mut kinds = Vec::new(alloc);
            append_keys(&mut kinds, columns.as_slice(), keys.as_slice())?;
            append_calls(&mut kinds, columns.as_slice(), calls.as_slice())?;
            Ok(kinds)
        }
        Logical::Distinct { input } => kinds_of(alloc, input.get()),
        Logical::UnionAll { inputs } => match inputs.get(0) {
            Some(first) => kinds_of(alloc, first),
            None => Ok(Vec::new(alloc)),
        },
    }
}
