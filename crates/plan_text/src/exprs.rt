//! The text of an expression.

ghost use Rattle.std.specs.Prelude.{◌≡◌, ◌++◌, map, OnOk, codes};
ghost use Rattle.std.specs.String.{string_bytes};
ghost use Rattle.plan_text.specs.ExprText as spec;
ghost use Rattle.plan_text.specs.ListText.{separated};

use crate::constants::{push_column, push_constant, push_kind, push_op};
use dfx_value::NoMemory;
use scalar_exprs::Expr;

/// Appends an expression with what stands before and after it.
#[cycle(exprs)]
fn push_between(text: &mut String, before: &str, expr: &Expr, after: &str) -> Result<(), NoMemory>
    ensures { OnOk result (string_bytes text.new
        ≡ string_bytes text.old ++ (before.now ++ (spec.expr_text expr.now ++ after.now))) }
{
    text.push_str(before)?;
    push_expr(text, expr)?;
    Ok(text.push_str(after)?)
}

/// Appends expressions with a comma and a space between each two.
#[cycle(exprs)]
pub fn push_exprs(text: &mut String, exprs: &[Expr]) -> Result<(), NoMemory>
    ensures { OnOk result (string_bytes text.new
        ≡ string_bytes text.old ++ separated (map spec.expr_text exprs.now)) }
{
    let mut separator = "";
    for expr in exprs {
        text.push_str(separator)?;
        push_expr(text, expr)?;
        separator = ", ";
    }
    Ok(())
}

/// Appends the tests of a CASE with their results.
#[cycle(exprs)]
fn push_arms(text: &mut String, arms: &[(Expr, Expr)]) -> Result<(), NoMemory>
    ensures { OnOk result (string_bytes text.new
        ≡ string_bytes text.old ++ spec.arms_text arms.now) }
{
    for arm in arms {
        push_between(text, "", &arm.0, ": ")?;
        push_between(text, "", &arm.1, ", ")?;
    }
    Ok(())
}

/// Appends the text of an expression.
#[cycle(exprs)]
#[tactic(auto, using(crate::proofs::ExprSteps::expr_nodes))]
pub fn push_expr(text: &mut String, expr: &Expr) -> Result<(), NoMemory>
    ensures { OnOk result (string_bytes text.new
        ≡ string_bytes text.old ++ spec.expr_text expr.now) }
{
    match expr {
        Expr::Column(column) => push_column(text, *column),
        Expr::Const(value, _) => push_constant(text, value),
        Expr::Not(operand) => push_between(text, "NOT(", operand.get(), ")"),
        Expr::Neg(operand) => push_between(text, "NEG(", operand.get(), ")"),
        Expr::IsNull(operand) => push_between(text, "ISNULL(", operand.get(), ")"),
        Expr::Binary(op, left, right) => {
            push_between(text, "(", left.get(), " ")?;
            push_op(text, *op)?;
            push_between(text, " ", right.get(), ")")
        }
        Expr::Case(arms, other) => {
            text.push_str("CASE(")?;
            push_arms(text, arms.as_slice())?;
            push_between(text, "ELSE ", other.get(), ")")
        }
        Expr::Coalesce(parts) => {
            text.push_str("COALESCE(")?;
            push_exprs(text, parts.as_slice())?;
            Ok(text.push(')')?)
        }
        Expr::Cast(operand, kind) => {
            push_between(text, "CAST(", operand.get(), " AS ")?;
            push_kind(text, *kind)?;
            Ok(text.push(')')?)
        }
        Expr::Abs(operand) => push_between(text, "ABS(", operand.get(), ")"),
        Expr::Length(operand) => push_between(text, "LENGTH(", operand.get(), ")"),
    }
}
