//! Nodes of the tree.
ghost use Rattle.std.specs.Prelude.{◌≡◌, IfOk, option_map};
ghost use Rattle.sql_grammar.specs.Trees as tree;
ghost use Rattle.sql_grammar.specs.declared.ast.NodeAst.TheVariants as node;

use crate::cursor::Seen;
use dfx_value::{NoMemory, Op};
use sql_grammar::ast::{ExprAst, FnAst, NodeAst};
use sql_grammar::class::Class;
use sql_grammar::copy_expr;
use sqlite_items::Boxed;
use std::alloc::Global;

pub fn operator(class: Class) -> Op
    ensures { result ≡ tree.operator class }
{
    match class {
        Class::Plus => Op::Add,
        Class::Minus => Op::Sub,
        Class::Bars => Op::Concat,
        Class::Star => Op::Mul,
        Class::Slash => Op::Div,
        Class::Percent => Op::Rem,
        Class::Equal => Op::Eq,
        Class::Unequal => Op::Ne,
        Class::Less => Op::Lt,
        Class::AtMost => Op::Le,
        Class::Greater => Op::Gt,
        Class::AtLeast => Op::Ge,
        Class::And => Op::And,
        _ => Op::Or,
    }
}

pub fn function_of(class: Class) -> FnAst
    ensures { result ≡ tree.function_of class }
{
    match class {
        Class::Abs => FnAst::Abs,
        Class::Length => FnAst::Length,
        Class::Count => FnAst::Count,
        Class::Sum => FnAst::Sum,
        Class::Min => FnAst::Min,
        Class::Max => FnAst::Max,
        _ => FnAst::Avg,
    }
}

#[tactic(auto, unfolding(sql_grammar::specs::Trees::at))]
pub fn at(place: u32, node: NodeAst) -> ExprAst
    ensures { result ≡ tree.at place node }
{
    ExprAst { place, node }
}

pub fn constant(alloc: Global, token: &Seen<'_>) -> Result<ExprAst, NoMemory>
    ensures { IfOk result (λ e.
        e ≡ tree.at token.now.place (tree.constant_of token.now.class token.now.text)) }
{
    let node = match token.class() {
        Class::Number => NodeAst::Number(token.text(alloc)?),
        Class::Str => NodeAst::Str(token.text(alloc)?),
        Class::True => NodeAst::Truth(true),
        Class::False => NodeAst::Truth(false),
        _ => NodeAst::Null,
    };
    Ok(at(token.place(), node))
}

pub fn binary(
    alloc: Global,
    place: u32,
    op: Op,
    left: ExprAst,
    right: ExprAst,
) -> Result<ExprAst, NoMemory>
    ensures { IfOk result (λ e. e ≡ tree.binary place op left right) }
{
    let left = Boxed::new(alloc, left)?;
    Ok(at(place, NodeAst::Binary(op, left, Boxed::new(alloc, right)?)))
}

/// An operator between its operands.
pub fn operated(
    alloc: Global,
    token: &Seen<'_>,
    left: ExprAst,
    right: ExprAst,
) -> Result<ExprAst, NoMemory>
    ensures { IfOk result (λ e. e ≡ tree.operated token.now left right) }
{
    binary(alloc, token.place(), operator(token.class()), left, right)
}

pub fn is_null(alloc: Global, place: u32, left: ExprAst) -> Result<ExprAst, NoMemory>
    ensures { IfOk result (λ e. e ≡ tree.at place (node.IsNull left)) }
{
    Ok(at(place, NodeAst::IsNull(Boxed::new(alloc, left)?)))
}

pub fn unless_not(
    alloc: Global,
    negated: Option<&Seen<'_>>,
    place: u32,
    inner: ExprAst,
) -> Result<ExprAst, NoMemory>
    ensures { IfOk result (λ e.
        e ≡ tree.unless_not (option_map (λ t. t.now) negated.entry) place inner) }
{
    match negated {
        Some(_word) => Ok(at(place, NodeAst::Not(Boxed::new(alloc, inner)?))),
        None => Ok(inner),
    }
}

/// A copy of the left side compared with a member of IN.
pub fn equals(
    alloc: Global,
    place: u32,
    left: &ExprAst,
    member: ExprAst,
) -> Result<ExprAst, NoMemory>
    ensures { IfOk result (λ e. e ≡ tree.equals place left.now member) }
{
    let left = copy_expr(alloc, left)?;
    binary(alloc, place, Op::Eq, left, member)
}

pub fn or_equals(
    alloc: Global,
    place: u32,
    left: &ExprAst,
    found: ExprAst,
    member: ExprAst,
) -> Result<ExprAst, NoMemory>
    ensures { IfOk result (λ e. e ≡ tree.or_equals place left.now found member) }
{
    let equal = equals(alloc, place, left, member)?;
    binary(alloc, place, Op::Or, found, equal)
}

fn between(
    alloc: Global,
    place: u32,
    left: ExprAst,
    low: ExprAst,
    high: ExprAst,
) -> Result<ExprAst, NoMemory>
    ensures { IfOk result (λ e. e ≡ tree.between place left low high) }
{
    let copied = copy_expr(alloc, &left)?;
    let least = binary(alloc, place, Op::Ge, copied, low)?;
    let most = binary(alloc, place, Op::Le, left, high)?;
    binary(alloc, place, Op::And, least, most)
}

/// BETWEEN and its bounds, negated where NOT stands before it.
pub fn bounded(
    alloc: Global,
    negated: Option<&Seen<'_>>,
    place: u32,
    left: ExprAst,
    low: ExprAst,
    high: ExprAst,
) -> Result<ExprAst, NoMemory>
    ensures { IfOk result (λ e. e ≡ tree.unless_not
        (option_map (λ t. t.now) negated.entry) place (tree.between place left low high)) }
{
    let found = between(alloc, place, left, low, high)?;
    unless_not(alloc, negated, place, found)
}
