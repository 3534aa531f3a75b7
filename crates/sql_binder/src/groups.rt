//! The keys of GROUP BY.

ghost use Rattle.std.specs.Prelude.{◌≡◌};
ghost use Rattle.typed_exprs.specs.Answer.{Gives};
ghost use Rattle.sql_binder.specs.Grouped as spec;

use dfx_value::{Kind, Seq};
use expr_binder::{Column, Refusal, Unbound, Why, bind_expr, settle};
use scalar_exprs::Expr;
use sql_grammar::ast::{ExprAst, NodeAst};
use std::alloc::Global;

fn is_number(expr: &ExprAst) -> bool
    ensures { result ≡ spec.is_number expr.now }
{
    matches!(expr.node, NodeAst::Number(_))
}

/// A key with its kind. A number alone is Unsupported.
fn key(alloc: Global, columns: &[Column], expr: &ExprAst) -> Result<(Expr, Kind), Unbound>
    ensures { Gives result (spec.key columns.now expr.now) }
{
    if is_number(expr) {
        return Err(Unbound::from(Refusal::new(Why::Unsupported, expr.place)));
    }
    Ok(settle(bind_expr(alloc, columns, None, expr)?))
}

/// The keys with their kinds.
pub fn keys(
    alloc: Global,
    columns: &[Column],
    exprs: &[ExprAst],
) -> Result<Seq<(Expr, Kind)>, Unbound>
    ensures { Gives result (spec.keys columns.now exprs.now) }
{
    let mut done = Vec::new(alloc);
    for expr in exprs {
        done.push(key(alloc, columns, expr)?)?;
    }
    Ok(Seq::from_vec(done))
}
