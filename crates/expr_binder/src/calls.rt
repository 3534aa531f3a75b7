//! The aggregate calls of expressions.

ghost use Rattle.std.specs.Prelude.{◌≡◌, OnOk};
ghost use Rattle.expr_binder.specs.Calls as spec;

use crate::equality::place_among;
use dfx_value::NoMemory;
use sql_grammar::ast::{ExprAst, FnAst, NodeAst};
use sql_grammar::copy_expr;
use sqlite_items::{Boxed, Items};
use std::alloc::Global;
use typed_exprs::Column;

fn is_aggregate(function: FnAst) -> bool
    ensures { result ≡ spec.is_aggregate function }
{
    match function {
        FnAst::Coalesce | FnAst::Abs | FnAst::Length => false,
        _ => true,
    }
}

/// One more call, unless it is there.
fn add_call(
    alloc: Global,
    columns: &[Column],
    expr: &ExprAst,
    calls: &mut Items<ExprAst>,
) -> Result<(), NoMemory>
    ensures { OnOk result (calls.new ≡ spec.with_call columns.now calls.old expr.now) }
{
    if place_among(columns, expr, calls.as_slice()).is_none() {
        calls.push(copy_expr(alloc, expr)?)?;
    }
    Ok(())
}

#[cycle(calls)]
#[tactic(auto, using(crate::proofs::CallSteps::all_more))]
fn add_all(
    alloc: Global,
    columns: &[Column],
    exprs: &[ExprAst],
    calls: &mut Items<ExprAst>,
) -> Result<(), NoMemory>
    ensures { OnOk result
        (calls.new ≡ spec.with_calls columns.now calls.old (spec.calls_of_all exprs.now)) }
{
    for expr in exprs {
        add_calls_of(alloc, columns, expr, calls)?;
    }
    Ok(())
}

#[cycle(calls)]
#[tactic(auto, using(crate::proofs::CallSteps::arms_more))]
fn add_arms(
    alloc: Global,
    columns: &[Column],
    arms: &[(ExprAst, ExprAst)],
    calls: &mut Items<ExprAst>,
) -> Result<(), NoMemory>
    ensures { OnOk result
        (calls.new ≡ spec.with_calls columns.now calls.old (spec.calls_of_arms arms.now)) }
{
    for arm in arms {
        add_calls_of(alloc, columns, &arm.0, calls)?;
        add_calls_of(alloc, columns, &arm.1, calls)?;
    }
    Ok(())
}

#[cycle(calls)]
fn add_other(
    alloc: Global,
    columns: &[Column],
    other: &Option<Boxed<ExprAst>>,
    calls: &mut Items<ExprAst>,
) -> Result<(), NoMemory>
    ensures { OnOk result
        (calls.new ≡ spec.with_calls columns.now calls.old (spec.calls_of_other other.now)) }
{
    match other {
        None => Ok(()),
        Some(expr) => add_calls_of(alloc, columns, expr.get(), calls),
    }
}

#[cycle(calls)]
#[tactic(auto, using(crate::proofs::CallSteps::steps))]
fn add_calls_of(
    alloc: Global,
    columns: &[Column],
    expr: &ExprAst,
    calls: &mut Items<ExprAst>,
) -> Result<(), NoMemory>
    ensures { OnOk result (calls.new ≡ spec.with_expr columns.now calls.old expr.now) }
{
    match &expr.node {
        NodeAst::Number(_) => Ok(()),
        NodeAst::Str(_) => Ok(()),
        NodeAst::Null => Ok(()),
        NodeAst::Truth(_) => Ok(()),
        NodeAst::Name(_, _) => Ok(()),
        NodeAst::Call(function, parts) => {
            if is_aggregate(*function) {
                add_call(alloc, columns, expr, calls)
            } else {
                add_all(alloc, columns, parts.as_slice(), calls)
            }
        }
        NodeAst::CountAll => add_call(alloc, columns, expr, calls),
        NodeAst::Not(inner) => add_calls_of(alloc, columns, inner.get(), calls),
        NodeAst::Neg(inner) => add_calls_of(alloc, columns, inner.get(), calls),
        NodeAst::IsNull(inner) => add_calls_of(alloc, columns, inner.get(), calls),
        NodeAst::Binary(_, left, right) => {
            add_calls_of(alloc, columns, left.get(), calls)?;
            add_calls_of(alloc, columns, right.get(), calls)
        }
        NodeAst::Case(arms, other) => {
            add_arms(alloc, columns, arms.as_slice(), calls)?;
            add_other(alloc, columns, other, calls)
        }
        NodeAst::Cast(inner, _) => add_calls_of(alloc, columns, inner.get(), calls),
    }
}

/// Adds the aggregate calls of an expression, from the left, and equal ones once. A call isn't looked into.
///
/// After an error some of them may stand among the calls.
pub fn add_calls(
    alloc: Global,
    columns: &[Column],
    calls: &mut Items<ExprAst>,
    expr: &ExprAst,
) -> Result<(), NoMemory>
    ensures { OnOk result (calls.new ≡ spec.with_expr columns.now calls.old expr.now) }
{
    add_calls_of(alloc, columns, expr, calls)
}
