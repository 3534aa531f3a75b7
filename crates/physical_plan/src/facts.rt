//! What a filter's test says of every row that passes.

ghost use Rattle.std.specs.Prelude.{◌≡◌, ◌∷◌, [], ◌++◌, IfOk};
ghost use Rattle.physical_plan.specs.Facts as spec;

use dfx_value::{NoMemory, Op};
use scalar_exprs::Expr;
use sqlite_items::Items;
use std::alloc::Global;

/// What an expression is, and what holds of each row for which it is true.
#[derive(Drop)]
pub struct Fact {
    /// The column that it is.
    pub column: Option<u32>,
    /// Whether it is a constant.
    pub literal: bool,
    /// Pairs of columns that are equal and not NULL.
    pub same: Items<(u32, u32)>,
    /// Columns that have one value in all such rows.
    pub constants: Items<u32>,
}

fn nothing(alloc: Global) -> Fact
    ensures { result ≡ spec.nothing }
{
    Fact {
        column: None,
        literal: false,
        same: Items::new(alloc),
        constants: Items::new(alloc),
    }
}

fn of_column(alloc: Global, column: u32) -> Fact
    ensures { result ≡ spec.of_column column }
{
    Fact {
        column: Some(column),
        literal: false,
        same: Items::new(alloc),
        constants: Items::new(alloc),
    }
}

fn of_literal(alloc: Global) -> Fact
    ensures { result ≡ spec.of_literal }
{
    Fact {
        column: None,
        literal: true,
        same: Items::new(alloc),
        constants: Items::new(alloc),
    }
}

fn says(same: Items<(u32, u32)>, constants: Items<u32>) -> Fact
    ensures { result ≡ spec.says same constants }
{
    Fact {
        column: None,
        literal: false,
        same,
        constants,
    }
}

fn says_same(alloc: Global, left: u32, right: u32) -> Result<Fact, NoMemory>
    ensures { IfOk result (λ f. f ≡ spec.says ((left, right) ∷ []) []) }
{
    Ok(says(
        Items::from_slice(alloc, &[(left, right)])?,
        Items::new(alloc),
    ))
}

fn says_constant(alloc: Global, column: u32) -> Result<Fact, NoMemory>
    ensures { IfOk result (λ f. f ≡ spec.says [] (column ∷ [])) }
{
    Ok(says(Items::new(alloc), Items::from_slice(alloc, &[column])?))
}

/// What an equation between two parts says: of two columns, or of a column and a constant.
fn equals_at(alloc: Global, left: &Fact, right: &Fact) -> Result<Fact, NoMemory>
    ensures { IfOk result
        (λ f. f ≡ spec.equals_at left.now.column left.now.literal
        right.now.column right.now.literal) }
{
    match (left.column, right.column) {
        (Some(one), Some(other)) => says_same(alloc, one, other),
        (Some(column), None) => {
            if right.literal {
                says_constant(alloc, column)
            } else {
                Ok(nothing(alloc))
            }
        }
        (None, Some(column)) => {
            if left.literal {
                says_constant(alloc, column)
            } else {
                Ok(nothing(alloc))
            }
        }
        (None, None) => Ok(nothing(alloc)),
    }
}

fn is_null_at(alloc: Global, column: Option<u32>) -> Result<Fact, NoMemory>
    ensures { IfOk result (λ f. f ≡ spec.is_null_at column) }
{
    match column {
        Some(column) => says_constant(alloc, column),
        None => Ok(nothing(alloc)),
    }
}

fn says_both(left: Fact, right: Fact) -> Result<Fact, NoMemory>
    ensures { IfOk result
        (λ f. f ≡ spec.says (left.same ++ right.same) (left.constants ++ right.constants)) }
{
    let Fact {
        column: _,
        literal: _,
        mut same,
        mut constants,
    } = left;
    let Fact {
        column: _,
        literal: _,
        same: more,
        constants: others,
    } = right;
    same.append(more)?;
    constants.append(others)?;
    Ok(says(same, constants))
}

fn compared(alloc: Global, op: Op, left: Fact, right: Fact) -> Result<Fact, NoMemory>
    ensures { IfOk result (λ f. f ≡ spec.compared op left right) }
{
    match op {
        Op::Eq => equals_at(alloc, &left, &right),
        Op::And => says_both(left, right),
        _ => Ok(nothing(alloc)),
    }
}

/// What an expression is and says.
#[tactic(auto, using(crate::proofs::ExprFacts::fact_nodes))]
pub(crate) fn fact_of(alloc: Global, expr: &Expr) -> Result<Fact, NoMemory>
    ensures { IfOk result (λ f. f ≡ spec.fact_of expr.now) }
{
    match expr {
        Expr::Column(column) => Ok(of_column(alloc, *column)),
        Expr::Const(_, _) => Ok(of_literal(alloc)),
        Expr::IsNull(part) => {
            let part = fact_of(alloc, part.get())?;
            is_null_at(alloc, part.column)
        }
        Expr::Binary(op, left, right) => {
            let left = fact_of(alloc, left.get())?;
            let right = fact_of(alloc, right.get())?;
            compared(alloc, *op, left, right)
        }
        Expr::Not(_) => Ok(nothing(alloc)),
        Expr::Neg(_) => Ok(nothing(alloc)),
        Expr::Case(_, _) => Ok(nothing(alloc)),
        Expr::Coalesce(_) => Ok(nothing(alloc)),
        Expr::Cast(_, _) => Ok(nothing(alloc)),
        Expr::Abs(_) => Ok(nothing(alloc)),
        Expr::Length(_) => Ok(nothing(alloc)),
    }
}
