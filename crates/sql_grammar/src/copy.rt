//! Copies of expressions of the grammar.

ghost use Rattle.std.specs.Prelude.{◌≡◌, IfOk};

use crate::ast::{ExprAst, NodeAst};
use dfx_value::{NoMemory, Text};
use sqlite_items::{Boxed, Items};
use std::alloc::Global;

fn copy_qualifier(alloc: Global, qualifier: &Option<Text>) -> Result<Option<Text>, NoMemory>
    ensures { IfOk result (λ q. q ≡ qualifier.now) }
{
    match qualifier {
        Some(text) => Ok(Some(text.copy(alloc)?)),
        None => Ok(None),
    }
}

#[cycle(copy)]
fn copy_boxed(alloc: Global, expr: &Boxed<ExprAst>) -> Result<Boxed<ExprAst>, NoMemory>
    ensures { IfOk result (λ e. e ≡ expr.now) }
{
    let inner = copy_expr(alloc, expr.get())?;
    Ok(Boxed::new(alloc, inner)?)
}

#[cycle(copy)]
fn copy_items(alloc: Global, items: &Items<ExprAst>) -> Result<Items<ExprAst>, NoMemory>
    ensures { IfOk result (λ i. i ≡ items.now) }
{
    let mut copies = Items::new(alloc);
    for one in items.as_slice() {
        copies.push(copy_expr(alloc, one)?)?;
    }
    Ok(copies)
}

#[cycle(copy)]
fn copy_arms(
    alloc: Global,
    arms: &Items<(ExprAst, ExprAst)>,
) -> Result<Items<(ExprAst, ExprAst)>, NoMemory>
    ensures { IfOk result (λ i. i ≡ arms.now) }
{
    let mut copies = Items::new(alloc);
    for (test, value) in arms.as_slice() {
        copies.push((copy_expr(alloc, test)?, copy_expr(alloc, value)?))?;
    }
    Ok(copies)
}

#[cycle(copy)]
fn copy_node(alloc: Global, node: &NodeAst) -> Result<NodeAst, NoMemory>
    ensures { IfOk result (λ n. n ≡ node.now) }
{
    match node {
        NodeAst::Number(text) => Ok(NodeAst::Number(text.copy(alloc)?)),
        NodeAst::Str(text) => Ok(NodeAst::Str(text.copy(alloc)?)),
        NodeAst::Null => Ok(NodeAst::Null),
        NodeAst::Truth(truth) => Ok(NodeAst::Truth(*truth)),
        NodeAst::Name(qualifier, name) => {
            let qualifier = copy_qualifier(alloc, qualifier)?;
            Ok(NodeAst::Name(qualifier, name.copy(alloc)?))
        }
        NodeAst::Call(function, arguments) => {
            Ok(NodeAst::Call(*function, copy_items(alloc, arguments)?))
        }
        NodeAst::CountAll => Ok(NodeAst::CountAll),
        NodeAst::Not(inner) => Ok(NodeAst::Not(copy_boxed(alloc, inner)?)),
        NodeAst::Neg(inner) => Ok(NodeAst::Neg(copy_boxed(alloc, inner)?)),
        NodeAst::IsNull(inner) => Ok(NodeAst::IsNull(copy_boxed(alloc, inner)?)),
        NodeAst::Binary(op, left, right) => {
            let left = copy_boxed(alloc, left)?;
            Ok(NodeAst::Binary(*op, left, copy_boxed(alloc, right)?))
        }
        NodeAst::Case(arms, Some(other)) => {
            let arms = copy_arms(alloc, arms)?;
            Ok(NodeAst::Case(arms, Some(copy_boxed(alloc, other)?)))
        }
        NodeAst::Case(arms, None) => Ok(NodeAst::Case(copy_arms(alloc, arms)?, None)),
        NodeAst::Cast(inner, kind) => Ok(NodeAst::Cast(copy_boxed(alloc, inner)?, *kind)),
    }
}

/// A copy, equal to the expression.
#[cycle(copy)]
pub fn copy_expr(alloc: Global, expr: &ExprAst) -> Result<ExprAst, NoMemory>
    ensures { IfOk result (λ e. e ≡ expr.now) }
{
    let node = copy_node(alloc, &expr.node)?;
    Ok(ExprAst {
        place: expr.place,
        node,
    })
}
