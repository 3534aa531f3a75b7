//! A join whose key expressions are appended to the columns of its inputs.

ghost use Rattle.std.specs.Prelude.{◌≡◌, ◌+◌, ◌++◌, IfOk};
ghost use Rattle.logical_plan.specs.declared.plan.Logical.TheVariants as logical;
ghost use Rattle.join_lowering.specs.Lowering as spec;

use crate::lower::Side;
use crate::renumber::{Renumbering, renumber, renumber_rest, sum_of};
use dfx_value::{JoinKind, NoMemory};
use logical_plan::Logical;
use scalar_exprs::{Expr, copy_expr};
use sqlite_items::{Boxed, Items};
use std::alloc::Global;

/// So many columns from one on, after other expressions.
#[tactic(auto, using(crate::proofs::Counted::counted))]
fn push_columns(mut exprs: Items<Expr>, first: u32, count: u32) -> Result<Items<Expr>, NoMemory>
    ensures { IfOk result (λ es. es ≡ exprs ++ spec.columns_from first count) }
{
    let _ = sum_of(first, count)?;
    for at in 0..count {
        exprs.push(Expr::Column(first + at))?;
    }
    Ok(exprs)
}

/// So many keys, of the columns from these on.
#[tactic(auto, using(crate::proofs::Counted::keys_push))]
fn keys_from(
    alloc: Global,
    left: u32,
    right: u32,
    count: u32,
) -> Result<Items<(u32, u32)>, NoMemory>
    ensures { IfOk result (λ keys. keys ≡ spec.keys_from left right count) }
{
    let _ = sum_of(left, count)?;
    let _ = sum_of(right, count)?;
    let mut keys = Items::new(alloc);
    for at in 0..count {
        keys.push((left + at, right + at))?;
    }
    Ok(keys)
}

fn push_left(
    alloc: Global,
    mut exprs: Items<Expr>,
    keys: &[(Expr, Expr)],
) -> Result<Items<Expr>, NoMemory>
    ensures { IfOk result (λ es. es ≡ exprs ++ spec.left_exprs keys.now) }
{
    for key in keys {
        exprs.push(copy_expr(alloc, &key.0)?)?;
    }
    Ok(exprs)
}

fn push_right(
    alloc: Global,
    mut exprs: Items<Expr>,
    width: u32,
    keys: &[(Expr, Expr)],
) -> Result<Items<Expr>, NoMemory>
    ensures { IfOk result (λ es. es ≡ exprs ++ spec.right_exprs width keys.now) }
{
    for key in keys {
        exprs.push(renumber(alloc, &key.1, Renumbering::WithoutLeft(width))?)?;
    }
    Ok(exprs)
}

fn project(alloc: Global, body: Logical, items: Items<Expr>) -> Result<Logical, NoMemory>
    ensures { IfOk result (λ p. p ≡ logical.Project body items) }
{
    let input = Boxed::new(alloc, body)?;
    Ok(Logical::Project { input, items })
}

fn left_extended(alloc: Global, side: Side, keys: &[(Expr, Expr)]) -> Result<Logical, NoMemory>
    ensures { IfOk result (λ body. body ≡ spec.extended side (spec.left_exprs keys.now)) }
{
    let columns = push_columns(Items::new(alloc), 0, side.width)?;
    let items = push_left(alloc, columns, keys)?;
    project(alloc, side.body, items)
}

/// The right input, after a left one of so many columns.
fn right_extended(
    alloc: Global,
    side: Side,
    width: u32,
    keys: &[(Expr, Expr)],
) -> Result<Logical, NoMemory>
    ensures { IfOk result (λ body. body ≡ spec.extended side (spec.right_exprs width keys.now)) }
{
    let columns = push_columns(Items::new(alloc), 0, side.width)?;
    let items = push_right(alloc, columns, width, keys)?;
    project(alloc, side.body, items)
}

/// Both inputs with their key expressions.
fn both_extended(
    alloc: Global,
    left: Side,
    right: Side,
    keys: &[(Expr, Expr)],
) -> Result<(Logical, Logical), NoMemory>
    ensures left { IfOk result (λ both. both.0 ≡ spec.extended left (spec.left_exprs keys.now)) }
    ensures right { IfOk result
        (λ both. both.1 ≡ spec.extended right (spec.right_exprs left.width keys.now)) }
{
    let width = left.width;
    let left = left_extended(alloc, left, keys)?;
    let right = right_extended(alloc, right, width, keys)?;
    Ok((left, right))
}

/// A join of two bodies.
pub(crate) fn join(
    alloc: Global,
    kind: JoinKind,
    left: Logical,
    right: Logical,
    keys: Items<(u32, u32)>,
    rest: Option<Expr>,
) -> Result<Logical, NoMemory>
    ensures { IfOk result (λ body. body ≡ logical.Join kind left right keys rest) }
{
    let left = Boxed::new(alloc, left)?;
    let right = Boxed::new(alloc, right)?;
    Ok(Logical::Join {
        kind,
        left,
        right,
        keys,
        rest,
    })
}

/// The join on the columns that are appended to its inputs, so many of each.
fn join_extended(
    alloc: Global,
    kind: JoinKind,
    left: Side,
    right: Side,
    keys: &[(Expr, Expr)],
    count: u32,
    rest: Option<Expr>,
) -> Result<Logical, NoMemory>
    ensures { IfOk result (λ body. body ≡ spec.join_extended kind left right keys.now count rest) }
{
    let width = left.width;
    let more = right.width;
    let (left, right) = both_extended(alloc, left, right, keys)?;
    let rest = renumber_rest(alloc, rest, Renumbering::Spread(width, count))?;
    let pairs = keys_from(alloc, width, more, count)?;
    join(alloc, kind, left, right, pairs, rest)
}

/// The columns of both inputs, without so many appended ones of each.
fn both_columns(alloc: Global, left: u32, count: u32, right: u32) -> Result<Items<Expr>, NoMemory>
    ensures { IfOk result
        (λ es. es ≡ spec.columns_from 0 left ++ spec.columns_from (left + count) right) }
{
    let columns = push_columns(Items::new(alloc), 0, left)?;
    push_columns(columns, sum_of(left, count)?, right)
}

/// The join on appended key expressions, with the columns of both inputs alone.
#[tactic(auto, unfolding(crate::specs::Lowering::on_appended))]
pub(crate) fn on_appended(
    alloc: Global,
    kind: JoinKind,
    left: Side,
    right: Side,
    keys: &[(Expr, Expr)],
    count: u32,
    rest: Option<Expr>,
) -> Result<Logical, NoMemory>
    ensures { IfOk result (λ body. body ≡ spec.on_appended kind left right keys.now count rest) }
{
    let width = left.width;
    let more = right.width;
    let joined = join_extended(alloc, kind, left, right, keys, count, rest)?;
    let columns = both_columns(alloc, width, count, more)?;
    project(alloc, joined, columns)
}
