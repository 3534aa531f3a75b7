//! Which inputs of a join an expression uses columns of.

ghost use Rattle.std.specs.Prelude.{◌≡◌, [], ◌∷◌};
ghost use Rattle.join_lowering.specs.Keys as spec;
ghost use Rattle.join_lowering.specs.SidesUsed as words;

use scalar_exprs::Expr;

/// Whether a column of the left input is used, and one of the right input.
#[derive(Clone, Copy)]
pub struct Uses {
    pub left: bool,
    pub right: bool,
}

#[tactic(auto, unfolding(crate::specs::SidesUsed::with_columns))]
fn with_column(column: u32, width: u32, before: Uses) -> Uses
    ensures { result ≡ words.with_columns width before (column ∷ []) }
{
    if column < width {
        Uses {
            left: true,
            right: before.right,
        }
    } else {
        Uses {
            left: before.left,
            right: true,
        }
    }
}

#[cycle(uses)]
fn uses_in_arms(arms: &[(Expr, Expr)], width: u32, before: Uses) -> Uses
    ensures { result ≡ words.with_columns width before (words.arm_columns arms.now) }
{
    let mut uses = before;
    for arm in arms {
        let tested = uses_of(&arm.0, width, uses);
        uses = uses_of(&arm.1, width, tested);
    }
    uses
}

#[cycle(uses)]
fn uses_in_all(exprs: &[Expr], width: u32, before: Uses) -> Uses
    ensures { result ≡ words.with_columns width before (words.all_columns exprs.now) }
{
    let mut uses = before;
    for expr in exprs {
        uses = uses_of(expr, width, uses);
    }
    uses
}

/// The sides that were used before, and those that an expression uses.
#[cycle(uses)]
#[tactic(auto, using(crate::proofs::Nodes::columns_by_node, crate::proofs::Sides::sides))]
fn uses_of(expr: &Expr, width: u32, before: Uses) -> Uses
    ensures { result ≡ words.with_columns width before (spec.columns expr.now) }
{
    match expr {
        Expr::Column(column) => with_column(*column, width, before),
        Expr::Const(_, _) => before,
        Expr::Not(inner) => uses_of(inner.get(), width, before),
        Expr::Neg(inner) => uses_of(inner.get(), width, before),
        Expr::IsNull(inner) => uses_of(inner.get(), width, before),
        Expr::Binary(_, left, right) => {
            let uses = uses_of(left.get(), width, before);
            uses_of(right.get(), width, uses)
        }
        Expr::Case(arms, other) => {
            let uses = uses_in_arms(arms.as_slice(), width, before);
            uses_of(other.get(), width, uses)
        }
        Expr::Coalesce(parts) => uses_in_all(parts.as_slice(), width, before),
        Expr::Cast(inner, _) => uses_of(inner.get(), width, before),
        Expr::Abs(inner) => uses_of(inner.get(), width, before),
        Expr::Length(inner) => uses_of(inner.get(), width, before),
    }
}

/// The sides that an expression uses columns of.
#[tactic(auto, unfolding(crate::specs::SidesUsed::with_columns))]
pub(crate) fn used_by(expr: &Expr, width: u32) -> Uses
    ensures left { result.left ≡ spec.uses_left width (spec.columns expr.now) }
    ensures right { result.right ≡ spec.uses_right width (spec.columns expr.now) }
{
    uses_of(
        expr,
        width,
        Uses {
            left: false,
            right: false,
        },
    )
}
