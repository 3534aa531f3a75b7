//! One kind for several expressions: the parts of COALESCE, the results of CASE, the columns of a union.

ghost use Rattle.std.specs.Prelude.{◌≡◌, ◌++◌, ◌∷◌, [], IfOk, map, reverse};
ghost use Rattle.typed_exprs.specs.Answer as answer;
ghost use Rattle.typed_exprs.specs.Typed as spec;

use crate::refusal::{Unbound, Why};
use crate::typed::{Typed, or_mismatch};
use dfx_value::{Kind, NoMemory, Value};
use scalar_exprs::{Expr, same, widest};
use sqlite_items::{Boxed, Items};
use std::alloc::Global;

/// Decimals with the greater scale, of two kinds of numbers.
fn widened(left: Kind, right: Kind) -> Option<Kind>
    ensures { result ≡ spec.widened left right }
{
    match left {
        Kind::Int => match right {
            Kind::Int => Some(Kind::Int),
            Kind::Dec {
                precision: _,
                scale,
            } => Some(widest(scale)),
            _ => None,
        },
        Kind::Dec {
            precision: _,
            scale: s,
        } => match right {
            Kind::Int => Some(widest(s)),
            Kind::Dec {
                precision: _,
                scale: t,
            } => Some(widest(s.max(t))),
            _ => None,
        },
        _ => None,
    }
}

/// The one kind of two: their own where it is one, and of other numbers decimals of 38 digits with the greater scale.
pub fn unified(left: Kind, right: Kind) -> Option<Kind>
    ensures { result ≡ spec.unified left right }
{
    if same(left, right) {
        Some(left)
    } else {
        widened(left, right)
    }
}

/// With the kind that those before have.
pub fn common_with(found: Option<Kind>, typed: &Typed) -> Option<Option<Kind>>
    ensures { result ≡ spec.common_with found typed.now }
{
    match typed {
        Typed::Null => Some(found),
        Typed::Of(_, kind) => match found {
            None => Some(Some(*kind)),
            Some(before) => match unified(before, *kind) {
                Some(kind) => Some(Some(kind)),
                None => None,
            },
        },
    }
}

fn common_after(before: Option<Kind>, parts: &[Typed]) -> Option<Option<Kind>>
    ensures { result ≡ spec.common_after before parts.now }
{
    let mut found = before;
    for part in parts {
        match common_with(found, part) {
            Some(next) => found = next,
            None => return None,
        }
    }
    Some(found)
}

/// The unified kind of those that are no lone NULL; that of texts where all are.
pub fn common(parts: &[Typed]) -> Option<Kind>
    ensures { result ≡ spec.common parts.now }
{
    match common_after(None, parts) {
        Some(Some(kind)) => Some(kind),
        Some(None) => Some(Kind::Text),
        None => None,
    }
}

/// The expression as one of this kind: with a CAST where its own is another. A lone NULL has any kind.
pub fn as_kind(alloc: Global, kind: Kind, typed: Typed) -> Result<Expr, NoMemory>
    ensures { IfOk result (λ e. e ≡ spec.as_kind kind typed) }
{
    match typed {
        Typed::Null => Ok(Expr::Const(Value::Null, kind)),
        Typed::Of(expr, own) => {
            if same(kind, own) {
                Ok(expr)
            } else {
                Ok(Expr::Cast(Boxed::new(alloc, expr)?, kind))
            }
        }
    }
}

/// The expressions in the other order.
fn reversed(alloc: Global, mut exprs: Items<Expr>) -> Result<Items<Expr>, NoMemory>
    ensures { IfOk result (λ r. r ≡ reverse exprs) }
{
    let mut all = Items::new(alloc);
    while let Some(expr) = exprs.pop() {
        all.push(expr)?;
    }
    Ok(all)
}

fn all_as(alloc: Global, kind: Kind, mut parts: Items<Typed>) -> Result<Items<Expr>, NoMemory>
    ensures { IfOk result (λ exprs. exprs ≡ map (spec.as_kind kind) parts) }
{
    let mut backwards = Items::new(alloc);
    while let Some(part) = parts.pop() {
        backwards.push(as_kind(alloc, kind, part)?)?;
    }
    reversed(alloc, backwards)
}

/// COALESCE, of one part at least.
pub fn coalesced(alloc: Global, place: u32, parts: Items<Typed>) -> Result<Typed, Unbound>
    ensures { answer.Gives result (spec.coalesced place parts) }
{
    if parts.is_empty() {
        return Err(Unbound::refused(Why::KindMismatch, place));
    }
    let kind = or_mismatch(place, common(parts.as_slice()))?;
    let parts = all_as(alloc, kind, parts)?;
    Ok(Typed::Of(Expr::Coalesce(parts), kind))
}
