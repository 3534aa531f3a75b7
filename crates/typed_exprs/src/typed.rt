//! Bound expressions, the kinds that lone NULLs take, and operators.

ghost use Rattle.std.specs.Prelude.{◌≡◌, IfOk};
ghost use Rattle.scalar_exprs.specs.Kinds as kinds;
ghost use Rattle.scalar_exprs.specs.declared.expr.Expr.TheVariants as expr;
ghost use Rattle.typed_exprs.specs.Answer as answer;
ghost use Rattle.typed_exprs.specs.Typed as spec;

use crate::refusal::{Refusal, Unbound, Why};
use dfx_value::{Kind, NoMemory, Op, Value};
use scalar_exprs::{Expr, binary_kind, cast_kind, length_kind, when_bool, when_number};
use sqlite_items::Boxed;
use std::alloc::Global;

/// A bound expression: a lone NULL, whose kind its neighbours give, or an expression with its kind.
#[derive(Debug, Drop)]
pub enum Typed {
    Null,
    Of(Expr, Kind),
}

/// An operator of one operand.
#[derive(Clone, Copy, Debug, Drop)]
pub enum Unary {
    /// NOT
    Not,
    /// `-` before a number.
    Neg,
    /// IS NULL
    IsNull,
    /// CAST
    Cast(Kind),
}

/// A lone NULL is of this kind.
fn given(kind: Kind, typed: Typed) -> (Expr, Kind)
    ensures { result ≡ spec.given kind typed }
{
    match typed {
        Typed::Null => (Expr::Const(Value::Null, kind), kind),
        Typed::Of(expr, own) => (expr, own),
    }
}

/// The expression with its kind. A lone NULL is a text.
pub fn settle(typed: Typed) -> (Expr, Kind)
    ensures { result ≡ spec.settled typed }
{
    given(Kind::Text, typed)
}

fn kind_or(kind: Kind, typed: &Typed) -> Kind
    ensures { result ≡ spec.kind_or kind typed.now }
{
    match typed {
        Typed::Null => kind,
        Typed::Of(_, own) => *own,
    }
}

/// The kind, or a mismatch at this place.
pub fn or_mismatch(place: u32, kind: Option<Kind>) -> Result<Kind, Refusal>
    ensures { result ≡ spec.or_mismatch place kind }
{
    match kind {
        Some(kind) => Ok(kind),
        None => Err(Refusal::new(Why::KindMismatch, place)),
    }
}

/// NOT.
fn negated(alloc: Global, place: u32, operand: Typed) -> Result<Typed, Unbound>
    ensures { answer.Gives result
        (spec.of_kind place expr.Not kinds.when_bool (spec.settled operand)) }
{
    let (inner, kind) = settle(operand);
    let kind = or_mismatch(place, when_bool(kind))?;
    Ok(Typed::Of(Expr::Not(Boxed::new(alloc, inner)?), kind))
}

/// `-` before a number.
fn opposite(alloc: Global, place: u32, operand: Typed) -> Result<Typed, Unbound>
    ensures { answer.Gives result
        (spec.of_kind place expr.Neg kinds.when_number (spec.settled operand)) }
{
    let (inner, kind) = settle(operand);
    let kind = or_mismatch(place, when_number(kind))?;
    Ok(Typed::Of(Expr::Neg(Boxed::new(alloc, inner)?), kind))
}

/// ABS.
pub fn absolute(alloc: Global, place: u32, operand: Typed) -> Result<Typed, Unbound>
    ensures { answer.Gives result
        (spec.of_kind place expr.Abs kinds.when_number (spec.settled operand)) }
{
    let (inner, kind) = settle(operand);
    let kind = or_mismatch(place, when_number(kind))?;
    Ok(Typed::Of(Expr::Abs(Boxed::new(alloc, inner)?), kind))
}

/// LENGTH.
pub fn length_of(alloc: Global, place: u32, operand: Typed) -> Result<Typed, Unbound>
    ensures { answer.Gives result
        (spec.of_kind place expr.Length kinds.length_kind (spec.settled operand)) }
{
    let (inner, kind) = settle(operand);
    let kind = or_mismatch(place, length_kind(kind))?;
    Ok(Typed::Of(Expr::Length(Boxed::new(alloc, inner)?), kind))
}

/// CAST.
fn cast(alloc: Global, place: u32, operand: Typed, to: Kind) -> Result<Typed, Unbound>
    ensures { answer.Gives result (spec.cast place to operand) }
{
    let (inner, kind) = settle(operand);
    let kind = or_mismatch(place, cast_kind(to, kind))?;
    Ok(Typed::Of(Expr::Cast(Boxed::new(alloc, inner)?, to), kind))
}

/// IS NULL.
fn null_test(alloc: Global, operand: Typed) -> Result<Typed, NoMemory>
    ensures { IfOk result (λ t. t ≡ spec.null_test operand) }
{
    let (inner, _) = settle(operand);
    Ok(Typed::Of(Expr::IsNull(Boxed::new(alloc, inner)?), Kind::Bool))
}

/// An operator of one operand.
pub fn apply_unary(
    alloc: Global,
    place: u32,
    operator: Unary,
    operand: Typed,
) -> Result<Typed, Unbound>
    ensures { answer.Gives result (spec.unary place operator operand) }
{
    match operator {
        Unary::Not => negated(alloc, place, operand),
        Unary::Neg => opposite(alloc, place, operand),
        Unary::IsNull => Ok(null_test(alloc, operand)?),
        Unary::Cast(to) => cast(alloc, place, operand, to),
    }
}

/// What two lone NULLs are between an operator: numbers in arithmetic.
fn alone(op: Op) -> Kind
    ensures { result ≡ spec.alone op }
{
    match op {
        Op::Add | Op::Sub | Op::Mul | Op::Div | Op::Rem => Kind::Int,
        _ => Kind::Text,
    }
}

fn is_number(kind: Kind) -> bool
    ensures { result ≡ spec.is_number kind }
{
    match kind {
        Kind::Int => true,
        Kind::Dec {
            precision: _,
            scale: _,
        } => true,
        _ => false,
    }
}

/// Why operands of these kinds have no operator: two numbers have `/` and `%` where both are whole alone.
fn mismatch(op: Op, left: Kind, right: Kind) -> Why
    ensures { result ≡ spec.mismatch op left right }
{
    match op {
        Op::Div | Op::Rem => {
            if is_number(left) && is_number(right) {
                Why::Unsupported
            } else {
                Why::KindMismatch
            }
        }
        _ => Why::KindMismatch,
    }
}

fn operator_kind(place: u32, op: Op, left: Kind, right: Kind) -> Result<Kind, Refusal>
    ensures { result ≡ spec.operator_kind place op left right }
{
    match binary_kind(op, left, right) {
        Some(kind) => Ok(kind),
        None => Err(Refusal::new(mismatch(op, left, right), place)),
    }
}

fn operated(
    alloc: Global,
    place: u32,
    op: Op,
    left: (Expr, Kind),
    right: (Expr, Kind),
) -> Result<Typed, Unbound>
    ensures { answer.Gives result (spec.operated place op left right) }
{
    let kind = operator_kind(place, op, left.1, right.1)?;
    let left = Boxed::new(alloc, left.0)?;
    let right = Boxed::new(alloc, right.0)?;
    Ok(Typed::Of(Expr::Binary(op, left, right), kind))
}

/// A binary operator. A lone NULL has the kind of the other operand.
pub fn binary(
    alloc: Global,
    place: u32,
    op: Op,
    left: Typed,
    right: Typed,
) -> Result<Typed, Unbound>
    ensures { answer.Gives result (spec.binary place op left right) }
{
    let left_kind = kind_or(alone(op), &right);
    let right_kind = kind_or(alone(op), &left);
    operated(
        alloc,
        place,
        op,
        given(left_kind, left),
        given(right_kind, right),
    )
}

/// A test at this place: KindMismatch where it is no truth.
pub fn tested(place: u32, typed: Typed) -> Result<Expr, Refusal>
    ensures { result ≡ spec.tested place typed }
{
    let (expr, kind) = settle(typed);
    match when_bool(kind) {
        Some(_) => Ok(expr),
        None => Err(Refusal::new(Why::KindMismatch, place)),
    }
}
