//! The kinds of a plan's columns.

ghost use Rattle.std.specs.Prelude.{◌≡◌, ◌++◌, map, true, Some, IfOk, IfErr, OnOk};
ghost use Rattle.plan_kinds.specs.Kinds as spec;
ghost use Rattle.plan_kinds.specs.Unions as words;

use crate::phases::{append, final_kinds, partial_kinds};
use crate::refused::KindsRefused;
use dfx_value::Kind;
use physical_plan::Plan;
use scalar_exprs::{Expr, kind_of, same};
use std::alloc::Global;

/// Whether two lists of kinds are one.
pub fn same_kinds(left: &[Kind], right: &[Kind]) -> bool
    ensures { result ≡ spec.same_kinds left.now right.now }
{
    let mut others = right;
    for kind in left {
        match others.split_first() {
            Some((other, behind)) => {
                if !same(*kind, *other) {
                    return false;
                }
                others = behind;
            }
            None => return false,
        }
    }
    others.is_empty()
}

/// The kinds of expressions over columns of these kinds. NoKind comes exactly where one of them has none.
pub fn projected_kinds(
    alloc: Global,
    columns: &[Kind],
    items: &[Expr],
) -> Result<Vec<Kind>, KindsRefused>
    ensures gives { IfOk result
        (λ kinds. spec.projected_kinds columns.now items.now ≡ Some kinds.items) }
    ensures refused { IfErr result
        (λ e. spec.Refuses e (spec.projected_kinds columns.now items.now)) }
{
    let mut kinds = Vec::with_capacity(alloc, items.len())?;
    for item in items {
        match kind_of(item, columns) {
            Some(kind) => kinds.push(kind)?,
            None => return Err(KindsRefused::NoKind),
        }
    }
    Ok(kinds)
}

/// The kinds of a union's inputs up to one of these kinds, from those of the inputs before it.
fn agreed(before: Option<Vec<Kind>>, kinds: Vec<Kind>) -> Result<Vec<Kind>, KindsRefused>
    ensures gives { IfOk result
        (λ both. both.items ≡ words.first_or (words.items_of before) kinds.items) }
    ensures same { OnOk result (words.agree (words.items_of before) kinds.items ≡ true) }
    ensures refused { IfErr result
        (λ e. spec.Fails e (words.agree (words.items_of before) kinds.items)) }
{
    match before {
        Some(first) => {
            if !same_kinds(first.as_slice(), kinds.as_slice()) {
                return Err(KindsRefused::NoKind);
            }
            Ok(first)
        }
        None => Ok(kinds),
    }
}

#[cycle(kinds)]
fn union_kinds(alloc: Global, inputs: &[Plan]) -> Result<Vec<Kind>, KindsRefused>
    ensures gives { IfOk result
        (λ kinds. spec.union_kinds (map spec.kinds inputs.now) ≡ Some kinds.items) }
    ensures refused { IfErr result
        (λ e. spec.Refuses e (spec.union_kinds (map spec.kinds inputs.now))) }
{
    let mut found = None;
    for input in inputs {
        let kinds = kinds_of(alloc, input)?;
        found = Some(agreed(found, kinds)?);
    }
    match found {
        Some(kinds) => Ok(kinds),
        None => Ok(Vec::new(alloc)),
    }
}

/// The kinds of a plan's columns.
///
/// NoKind comes exactly where a column of the plan or of a node below it has none: where an item of a Project, a key or a call has
/// no kind over the node's input, where what stands below a second phase isn't the keys and the state columns of its calls, or
/// where the inputs of a union have different kinds. Tests and orders aren't looked at. The plan of a well-kinded query has kinds.
#[cycle(kinds)]
#[tactic(auto, using(crate::proofs::Nodes::kinds_by_node))]
pub fn kinds_of(alloc: Global, plan: &Plan) -> Result<Vec<Kind>, KindsRefused>
    ensures gives { IfOk result (λ kinds. spec.kinds plan.now ≡ Some kinds.items) }
    ensures refused { IfErr result (λ e. spec.Refuses e (spec.kinds plan.now)) }
{
    match plan {
        Plan::Scan { kinds, .. } => Ok(Vec::from_slice(alloc, kinds.as_slice())?),
        Plan::Project { input, items } => {
            let columns = kinds_of(alloc, input.get())?;
            projected_kinds(alloc, columns.as_slice(), items.as_slice())
        }
        Plan::PartialGroup { input, keys, calls } => {
            let columns = kinds_of(alloc, input.get())?;
            partial_kinds(alloc, columns.as_slice(), keys.as_slice(), calls.as_slice())
        }
        Plan::FinalGroup { input, keys, calls } => {
            let columns = kinds_of(alloc, input.get())?;
            final_kinds(alloc, columns.as_slice(), keys.as_slice(), calls.as_slice())
        }
        Plan::HashJoin { left, right, .. } => {
            let mut kinds = kinds_of(alloc, left.get())?;
            let more = kinds_of(alloc, right.get())?;
            append(&mut kinds, more.as_slice())?;
            Ok(kinds)
        }
        Plan::UnionAll { inputs } => union_kinds(alloc, inputs.as_slice()),
        Plan::Filter { input, .. }
        | Plan::Sort { input, .. }
        | Plan::Merge { input, .. }
        | Plan::Coalesce { input }
        | Plan::Repartition { input, .. }
        | Plan::Limit { input, .. } => kinds_of(alloc, input.get()),
    }
}
