//! Expressions with new numbers of their columns.

ghost use Rattle.std.specs.Prelude.{◌≡◌, ◌+◌, IfOk, map, option_map};
ghost use Rattle.join_lowering.specs.Lowering as spec;
ghost use Rattle.join_lowering.specs.SidesUsed as words;

use dfx_value::{NoMemory, copy_value};
use scalar_exprs::Expr;
use sqlite_items::{Boxed, Items};
use std::alloc::Global;

/// New numbers of columns.
#[derive(Clone, Copy)]
pub enum Renumbering {
    /// Less the width of the left input.
    WithoutLeft(u32),
    /// From the width of the left input on so many more.
    Spread(u32, u32),
}

/// The sum, where it is a number of columns.
pub(crate) fn sum_of(left: u32, right: u32) -> Result<u32, NoMemory>
    ensures { IfOk result (λ n. n ≡ left + right) }
{
    match left.checked_add(right) {
        Some(sum) => Ok(sum),
        None => Err(NoMemory),
    }
}

fn new_number(by: Renumbering, column: u32) -> Result<u32, NoMemory>
    ensures { IfOk result (λ c. c ≡ words.new_number by column) }
{
    match by {
        Renumbering::WithoutLeft(width) => Ok(column.saturating_sub(width)),
        Renumbering::Spread(width, count) => {
            if column < width {
                Ok(column)
            } else {
                sum_of(column, count)
            }
        }
    }
}

#[cycle(renumber)]
fn renumber_boxed(
    alloc: Global,
    expr: &Boxed<Expr>,
    by: Renumbering,
) -> Result<Boxed<Expr>, NoMemory>
    ensures { IfOk result (λ e. e ≡ spec.renumbered (words.new_number by) expr.now) }
{
    Ok(Boxed::new(alloc, renumber(alloc, expr.get(), by)?)?)
}

#[cycle(renumber)]
fn renumber_all(alloc: Global, exprs: &[Expr], by: Renumbering) -> Result<Items<Expr>, NoMemory>
    ensures { IfOk result (λ es. es ≡ map (spec.renumbered (words.new_number by)) exprs.now) }
{
    let mut all = Items::new(alloc);
    for expr in exprs {
        all.push(renumber(alloc, expr, by)?)?;
    }
    Ok(all)
}

#[cycle(renumber)]
fn renumber_arms(
    alloc: Global,
    arms: &[(Expr, Expr)],
    by: Renumbering,
) -> Result<Items<(Expr, Expr)>, NoMemory>
    ensures { IfOk result (λ new. new ≡ words.renumbered_arms (words.new_number by) arms.now) }
{
    let mut all = Items::new(alloc);
    for arm in arms {
        all.push((renumber(alloc, &arm.0, by)?, renumber(alloc, &arm.1, by)?))?;
    }
    Ok(all)
}

/// The expression with new numbers of its columns.
#[cycle(renumber)]
#[tactic(auto, using(crate::proofs::Nodes::renumbered_by_node))]
pub(crate) fn renumber(alloc: Global, expr: &Expr, by: Renumbering) -> Result<Expr, NoMemory>
    ensures { IfOk result (λ e. e ≡ spec.renumbered (words.new_number by) expr.now) }
{
    match expr {
        Expr::Column(column) => Ok(Expr::Column(new_number(by, *column)?)),
        Expr::Const(value, kind) => Ok(Expr::Const(copy_value(alloc, value)?, *kind)),
        Expr::Not(inner) => Ok(Expr::Not(renumber_boxed(alloc, inner, by)?)),
        Expr::Neg(inner) => Ok(Expr::Neg(renumber_boxed(alloc, inner, by)?)),
        Expr::IsNull(inner) => Ok(Expr::IsNull(renumber_boxed(alloc, inner, by)?)),
        Expr::Binary(op, left, right) => Ok(Expr::Binary(
            *op,
            renumber_boxed(alloc, left, by)?,
            renumber_boxed(alloc, right, by)?,
        )),
        Expr::Case(arms, other) => Ok(Expr::Case(
            renumber_arms(alloc, arms.as_slice(), by)?,
            renumber_boxed(alloc, other, by)?,
        )),
        Expr::Coalesce(parts) => { Ok(Expr::Coalesce(renumber_all(alloc, parts.as_slice(), by)?)) }
        Expr::Cast(inner, kind) => Ok(Expr::Cast(renumber_boxed(alloc, inner, by)?, *kind)),
        Expr::Abs(inner) => Ok(Expr::Abs(renumber_boxed(alloc, inner, by)?)),
        Expr::Length(inner) => Ok(Expr::Length(renumber_boxed(alloc, inner, by)?)),
    }
}

/// A test with new numbers of its columns, where there is one.
pub(crate) fn renumber_rest(
    alloc: Global,
    rest: Option<Expr>,
    by: Renumbering,
) -> Result<Option<Expr>, NoMemory>
    ensures { IfOk result (λ r. r ≡ option_map (spec.renumbered (words.new_number by)) rest) }
{
    match rest {
        Some(test) => Ok(Some(renumber(alloc, &test, by)?)),
        None => Ok(None),
    }
}
