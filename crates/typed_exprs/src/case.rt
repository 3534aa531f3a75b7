//! CASE.

ghost use Rattle.std.specs.Prelude.{◌≡◌, ◌++◌, ◌∷◌, [], IfOk, map, reverse};
ghost use Rattle.scalar_exprs.specs.Kinds.{when_bool as truth_kind};
ghost use Rattle.typed_exprs.specs.Answer as answer;
ghost use Rattle.typed_exprs.specs.Typed as typed;
ghost use Rattle.typed_exprs.specs.Case as spec;

use crate::refusal::{Refusal, Unbound};
use crate::typed::{Typed, or_mismatch, settle};
use crate::unify::{as_kind, common_with};
use dfx_value::{Kind, NoMemory};
use scalar_exprs::{Expr, when_bool};
use sqlite_items::{Boxed, Items};
use std::alloc::Global;

/// A bound arm: the place of its test, its test and its result.
#[derive(Debug, Drop)]
pub struct Arm {
    pub place: u32,
    pub test: Typed,
    pub result: Typed,
}

fn test_kind(place: u32, test: &Typed) -> Result<Kind, Refusal>
    ensures { result ≡ typed.or_mismatch place (truth_kind (typed.settled test.now).1) }
{
    match test {
        Typed::Null => or_mismatch(place, when_bool(Kind::Text)),
        Typed::Of(_, kind) => or_mismatch(place, when_bool(*kind)),
    }
}

/// The first test that is no truth is refused, at its place.
fn test_all(arms: &[Arm]) -> Result<(), Refusal>
    ensures { result ≡ spec.tests arms.now }
{
    for arm in arms {
        test_kind(arm.place, &arm.test)?;
    }
    Ok(())
}

/// The unified kind of all results, that of ELSE too.
fn common_results(arms: &[Arm], other: &Typed) -> Option<Kind>
    ensures { result ≡ typed.common (spec.results arms.now other.now) }
{
    let mut found = None;
    for arm in arms {
        match common_with(found, &arm.result) {
            Some(next) => found = next,
            None => return None,
        }
    }
    match common_with(found, other) {
        Some(Some(kind)) => Some(kind),
        Some(None) => Some(Kind::Text),
        None => None,
    }
}

fn arm_as(alloc: Global, kind: Kind, arm: Arm) -> Result<(Expr, Expr), NoMemory>
    ensures { IfOk result (λ a. a ≡ spec.arm_as kind arm) }
{
    let (test, _) = settle(arm.test);
    Ok((test, as_kind(alloc, kind, arm.result)?))
}

/// The arms in the other order.
fn reversed(alloc: Global, mut arms: Items<(Expr, Expr)>) -> Result<Items<(Expr, Expr)>, NoMemory>
    ensures { IfOk result (λ r. r ≡ reverse arms) }
{
    let mut all = Items::new(alloc);
    while let Some(arm) = arms.pop() {
        all.push(arm)?;
    }
    Ok(all)
}

fn arms_as(alloc: Global, kind: Kind, mut arms: Items<Arm>) -> Result<Items<(Expr, Expr)>, NoMemory>
    ensures { IfOk result (λ r. r ≡ map (spec.arm_as kind) arms) }
{
    let mut backwards = Items::new(alloc);
    while let Some(arm) = arms.pop() {
        backwards.push(arm_as(alloc, kind, arm)?)?;
    }
    reversed(alloc, backwards)
}

/// CASE at this place. Its tests are truths, which is tested first, and its results and that of ELSE have one unified kind.
pub fn chosen(alloc: Global, place: u32, arms: Items<Arm>, other: Typed) -> Result<Typed, Unbound>
    ensures { answer.Gives result (spec.chosen place arms other) }
{
    test_all(arms.as_slice())?;
    let kind = or_mismatch(place, common_results(arms.as_slice(), &other))?;
    let arms = arms_as(alloc, kind, arms)?;
    let other = as_kind(alloc, kind, other)?;
    Ok(Typed::Of(Expr::Case(arms, Boxed::new(alloc, other)?), kind))
}
