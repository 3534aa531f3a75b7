//! The keys among the parts of a test, and the test that is left.

ghost use Rattle.std.specs.Prelude.{◌≡◌, [], ◌∷◌, ◌++◌, IfOk};
ghost use Rattle.dfx_value.specs.declared.op.Op.TheVariants as op;
ghost use Rattle.scalar_exprs.specs.declared.expr.Expr.TheVariants as expr;
ghost use Rattle.join_lowering.specs.Keys as spec;

use crate::uses::{Uses, used_by};
use dfx_value::{NoMemory, Op};
use scalar_exprs::Expr;
use sqlite_items::{Boxed, Items};
use std::alloc::Global;

/// What was found in the parts of a test so far.
#[derive(Drop)]
pub struct Found {
    /// The keys, a left expression and a right one each.
    pub keys: Items<(Expr, Expr)>,
    /// The other parts, joined by AND.
    pub rest: Option<Expr>,
}

fn with_key(found: Found, left: Boxed<Expr>, right: Boxed<Expr>) -> Result<Found, NoMemory>
    ensures keys { IfOk result (λ f. f.keys ≡ found.keys ++ (left, right) ∷ []) }
    ensures rest { IfOk result (λ f. f.rest ≡ found.rest) }
{
    let Found { mut keys, rest } = found;
    keys.push((left.into_inner(), right.into_inner()))?;
    Ok(Found { keys, rest })
}

fn and_also(alloc: Global, rest: Option<Expr>, part: Expr) -> Result<Expr, NoMemory>
    ensures { IfOk result (λ test. test ≡ spec.and_also rest part) }
{
    match rest {
        None => Ok(part),
        Some(test) => Ok(Expr::Binary(Op::And, Boxed::new(alloc, test)?, Boxed::new(alloc, part)?)),
    }
}

fn with_rest(alloc: Global, found: Found, part: Expr) -> Result<Found, NoMemory>
    ensures keys { IfOk result (λ f. f.keys ≡ found.keys) }
    ensures rest { IfOk result (λ f. f.rest ≡ spec.conjoined found.rest (part ∷ [])) }
{
    let Found { keys, rest } = found;
    let rest = Some(and_also(alloc, rest, part)?);
    Ok(Found { keys, rest })
}

fn is_left(expr: &Expr, width: u32) -> bool
    ensures { result ≡ spec.is_left width expr.now }
{
    let Uses { left, right } = used_by(expr, width);
    left && !right
}

fn is_right(expr: &Expr, width: u32) -> bool
    ensures { result ≡ spec.is_right width expr.now }
{
    let Uses { left, right } = used_by(expr, width);
    right && !left
}

/// The part that says that two expressions are equal.
fn with_equality(
    alloc: Global,
    left: Boxed<Expr>,
    right: Boxed<Expr>,
    width: u32,
    found: Found,
) -> Result<Found, NoMemory>
    ensures keys { IfOk result
        (λ f. f.keys ≡ found.keys ++ spec.keys width (expr.Binary op.Eq left right ∷ [])) }
    ensures rest { IfOk result
        (λ f. f.rest
        ≡ spec.conjoined found.rest (spec.others width (expr.Binary op.Eq left right ∷ []))) }
{
    if is_left(left.get(), width) && is_right(right.get(), width) {
        return with_key(found, left, right);
    }
    if is_left(right.get(), width) && is_right(left.get(), width) {
        return with_key(found, right, left);
    }
    with_rest(alloc, found, Expr::Binary(Op::Eq, left, right))
}

/// One part more: a key, or what is left to test.
fn with_part(alloc: Global, found: Found, part: Expr, width: u32) -> Result<Found, NoMemory>
    ensures keys { IfOk result (λ f. f.keys ≡ found.keys ++ spec.keys width (part ∷ [])) }
    ensures rest { IfOk result
        (λ f. f.rest ≡ spec.conjoined found.rest (spec.others width (part ∷ []))) }
{
    match part {
        Expr::Binary(Op::Eq, left, right) => with_equality(alloc, left, right, width, found),
        other => with_rest(alloc, found, other),
    }
}

fn with_last(mut before: Vec<Expr>, part: Expr) -> Result<Vec<Expr>, NoMemory>
    ensures { IfOk result (λ parts. parts.items ≡ before.items ++ part ∷ []) }
{
    before.push(part)?;
    Ok(before)
}

/// The parts between the ANDs at the top of a test, behind those before.
#[tactic(auto, using(crate::proofs::Parts::conjuncts_by_top, crate::proofs::Parts::both_parts))]
fn conjuncts(test: Expr, before: Vec<Expr>) -> Result<Vec<Expr>, NoMemory>
    ensures { IfOk result (λ parts. parts.items ≡ before.items ++ spec.conjuncts test) }
{
    match test {
        Expr::Binary(op, left, right) => match op {
            Op::And => {
                let before = conjuncts(left.into_inner(), before)?;
                conjuncts(right.into_inner(), before)
            }
            _ => with_last(before, Expr::Binary(op, left, right)),
        },
        part => with_last(before, part),
    }
}

/// The keys among the parts of a test, and the other parts.
#[tactic(auto, using(crate::proofs::Parts::parts))]
pub(crate) fn split(alloc: Global, test: Expr, width: u32) -> Result<Found, NoMemory>
    ensures keys { IfOk result (λ f. f.keys ≡ spec.keys width (spec.conjuncts test)) }
    ensures rest { IfOk result (λ f. f.rest ≡ spec.residual width test) }
{
    let mut found = Found {
        keys: Items::new(alloc),
        rest: None,
    };
    for part in conjuncts(test, Vec::new(alloc))? {
        found = with_part(alloc, found, part, width)?;
    }
    Ok(found)
}
