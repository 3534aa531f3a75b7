//! The join of two bodies on a test.

ghost use Rattle.std.specs.Prelude.{◌≡◌, IfOk, length};
ghost use Rattle.join_lowering.specs.Lowering as spec;

use crate::appended::{join, on_appended};
use crate::split::{Found, split};
use dfx_value::{JoinKind, NoMemory};
use logical_plan::Logical;
use scalar_exprs::Expr;
use sqlite_items::Items;
use std::alloc::Global;

/// A body and how many columns it has.
#[derive(Debug, Drop)]
pub struct Side {
    pub body: Logical,
    pub width: u32,
}

fn column_of(expr: &Expr) -> Option<u32>
    ensures { result ≡ spec.column_of expr.now }
{
    match expr {
        Expr::Column(column) => Some(*column),
        _ => None,
    }
}

/// A key as columns of its inputs, where both expressions are columns.
fn plain_key(left: Option<u32>, right: Option<u32>, width: u32) -> Option<(u32, u32)>
    ensures { result ≡ spec.plain_key width left right }
{
    match (left, right) {
        (Some(left), Some(right)) => Some((left, right.saturating_sub(width))),
        (Some(_), None) => None,
        (None, _) => None,
    }
}

/// The keys as columns of their inputs, where all are.
fn plain_keys(
    alloc: Global,
    keys: &[(Expr, Expr)],
    width: u32,
) -> Result<Option<Items<(u32, u32)>>, NoMemory>
    ensures { IfOk result (λ plain. plain ≡ spec.plain_keys width keys.now) }
{
    let mut all = Items::new(alloc);
    for key in keys {
        match plain_key(column_of(&key.0), column_of(&key.1), width) {
            Some(plain) => all.push(plain)?,
            None => return Ok(None),
        }
    }
    Ok(Some(all))
}

fn count_of(keys: &[(Expr, Expr)]) -> Result<u32, NoMemory>
    ensures { IfOk result (λ n. n ≡ length keys.now) }
{
    match u32::try_from(keys.len()) {
        Ok(count) => Ok(count),
        Err(_) => Err(NoMemory),
    }
}

fn on_counted(
    alloc: Global,
    kind: JoinKind,
    left: Side,
    right: Side,
    keys: &[(Expr, Expr)],
    rest: Option<Expr>,
) -> Result<Logical, NoMemory>
    ensures { IfOk result
        (λ body. body ≡ spec.on_appended kind left right keys.now (length keys.now) rest) }
{
    let count = count_of(keys)?;
    on_appended(alloc, kind, left, right, keys, count, rest)
}

/// The join on keys, which are these columns where they are plain.
fn on_keys(
    alloc: Global,
    kind: JoinKind,
    left: Side,
    right: Side,
    keys: &[(Expr, Expr)],
    plain: Option<Items<(u32, u32)>>,
    rest: Option<Expr>,
) -> Result<Logical, NoMemory>
    ensures { IfOk result (λ body. body ≡ spec.on_keys kind left right keys.now plain rest) }
{
    match plain {
        Some(plain) => join(alloc, kind, left.body, right.body, plain, rest),
        None => on_counted(alloc, kind, left, right, keys, rest),
    }
}

fn on_some(
    alloc: Global,
    kind: JoinKind,
    left: Side,
    right: Side,
    keys: &[(Expr, Expr)],
    rest: Option<Expr>,
) -> Result<Logical, NoMemory>
    ensures { IfOk result
        (λ body. body
        ≡ spec.on_keys kind left right keys.now (spec.plain_keys left.width keys.now) rest) }
{
    let plain = plain_keys(alloc, keys, left.width)?;
    on_keys(alloc, kind, left, right, keys, plain, rest)
}

#[tactic(auto, using(crate::proofs::Keyed::keyed))]
fn on_found(
    alloc: Global,
    kind: JoinKind,
    left: Side,
    right: Side,
    found: Found,
) -> Result<Option<Logical>, NoMemory>
    ensures { IfOk result (λ body. body ≡ spec.where_keyed kind left right found.keys found.rest) }
{
    let Found { keys, rest } = found;
    if keys.is_empty() {
        return Ok(None);
    }
    let body = on_some(alloc, kind, left, right, keys.as_slice(), rest)?;
    Ok(Some(body))
}

/// The join of two bodies on a bound test over the left columns and then the right ones; none where no part of the test is an
/// equality of both sides.
///
/// The test is split at the ANDs at its top. A part `l = r` is a key where one side uses columns of the left body alone and the
/// other those of the right one alone, each at least one; the others are left as the join's test. Where some key is no plain column
/// all key expressions are appended to the columns of their bodies, and a Project above leaves them out again.
pub fn lower_join(
    alloc: Global,
    kind: JoinKind,
    left: Side,
    right: Side,
    on: Expr,
) -> Result<Option<Logical>, NoMemory>
    ensures { IfOk result (λ body. body ≡ spec.lowered kind left right on) }
{
    let found = split(alloc, on, left.width)?;
    on_found(alloc, kind, left, right, found)
}
