//! The inputs of a union, as bodies of one list of kinds.

ghost use Rattle.std.specs.Prelude.{◌≡◌, IfOk};
ghost use Rattle.logical_build.specs.Unions as spec;

use crate::number::as_u32;
use dfx_value::{Kind, NoMemory, Seq};
use logical_plan::Logical;
use scalar_exprs::{Expr, same};
use sqlite_items::{Boxed, Items};
use std::alloc::Global;
use typed_exprs::{Typed, as_kind, unified};

/// The kinds unified column by column, where there are as many and they unify.
#[tactic(auto, using(crate::proofs::Uneven::not_unified))]
pub fn all_unified(
    alloc: Global,
    left: &[Kind],
    right: &[Kind],
) -> Result<Option<Seq<Kind>>, NoMemory>
    ensures { IfOk result (λ kinds. kinds ≡ spec.all_unified left.now right.now) }
{
    if left.len() != right.len() {
        return Ok(None);
    }
    let mut kinds = Vec::with_capacity(alloc, left.len())?;
    for at in 0..left.len() {
        match unified(left[at], right[at]) {
            Some(kind) => kinds.push(kind)?,
            None => return Ok(None),
        }
    }
    Ok(Some(Seq::from_vec(kinds)))
}

#[tactic(auto, using(crate::proofs::Uneven::uneven))]
fn are_same(left: &[Kind], right: &[Kind]) -> bool
    ensures { result ≡ spec.are_same left.now right.now }
{
    if left.len() != right.len() {
        return false;
    }
    for at in 0..left.len() {
        if !same(left[at], right[at]) {
            return false;
        }
    }
    true
}

/// A column as the unified kind.
fn cast_column(alloc: Global, column: usize, to: Kind, from: Kind) -> Result<Expr, NoMemory>
    ensures { IfOk result (λ e. e ≡ spec.cast column to from) }
{
    as_kind(alloc, to, Typed::Of(Expr::Column(as_u32(column)?), from))
}

/// Each column, with a CAST where its kind is another one.
fn casts(alloc: Global, unified: &[Kind], kinds: &[Kind]) -> Result<Items<Expr>, NoMemory>
    ensures { IfOk result (λ items. items ≡ spec.casts 0 unified.now kinds.now) }
{
    let mut items = Items::new(alloc);
    for column in 0..unified.len() {
        match kinds.get(column) {
            Some(kind) => items.push(cast_column(alloc, column, unified[column], *kind)?)?,
            None => return Ok(items),
        }
    }
    Ok(items)
}

/// A Project on top where the kinds aren't the unified ones.
pub fn with_kinds(
    alloc: Global,
    unified: &[Kind],
    kinds: &[Kind],
    body: Logical,
) -> Result<Logical, NoMemory>
    ensures { IfOk result (λ cast. cast ≡ spec.with_kinds unified.now kinds.now body) }
{
    if are_same(unified, kinds) {
        return Ok(body);
    }
    let items = casts(alloc, unified, kinds)?;
    Ok(Logical::Project {
        input: Boxed::new(alloc, body)?,
        items,
    })
}
