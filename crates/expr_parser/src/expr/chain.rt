//! Chains of binary operators, signs, and what is nested.
ghost use Rattle.std.specs.Prelude.{◌≡◌, ◌<◌};
ghost use Rattle.expr_parser.specs.Cursors as words;
ghost use Rattle.expr_parser.specs.Cursors.{Parses, at_depth, below};
ghost use Rattle.sql_grammar.specs.Grammar.{one};
ghost use Rattle.sql_grammar.specs.Reader.{inside};
ghost use Rattle.sql_grammar.specs.Reading as spec;
ghost use Rattle.sql_grammar.specs.declared.class.Class.TheVariants as class;

use super::OPERATORS;
use super::predicate::negation;
use super::primary::prim;
use crate::cursor::Cursor;
use crate::halt::Halt;
use crate::level::Level;
use crate::nodes::{at, operated};
use sql_grammar::ast::{ExprAst, NodeAst};
use sql_grammar::class::Class;
use sqlite_items::Boxed;
use std::alloc::Global;

/// What is nested, with room for a level less.
#[cycle(expr)]
pub(super) fn nested(alloc: Global, cursor: &mut Cursor<'_>, depth: usize) -> Result<ExprAst, Halt>
    requires { 0 < depth }
    ensures { Parses (below depth).expr cursor.old result cursor.new }
{
    expression(alloc, cursor, depth - 1)
}

#[cycle(expr)]
pub(super) fn nested_negation(
    alloc: Global,
    cursor: &mut Cursor<'_>,
    depth: usize,
) -> Result<ExprAst, Halt>
    requires { 0 < depth }
    ensures { Parses (below depth).negation cursor.old result cursor.new }
{
    negation(alloc, cursor, depth - 1)
}

#[cycle(expr)]
fn nested_unary(alloc: Global, cursor: &mut Cursor<'_>, depth: usize) -> Result<ExprAst, Halt>
    requires { 0 < depth }
    ensures { Parses (below depth).unary cursor.old result cursor.new }
{
    unary(alloc, cursor, depth - 1)
}

#[cycle(expr)]
#[tactic(auto, unfolding(sql_grammar::specs::Reading::negative))]
fn negative(alloc: Global, cursor: &mut Cursor<'_>, depth: usize) -> Result<ExprAst, Halt>
    ensures { Parses (inside (one class.Minus) depth (at_depth spec.negative depth))
        cursor.old result cursor.new }
{
    if depth == 0 {
        return Err(cursor.no_room(&[Class::Minus]).into());
    }
    let token = cursor.take(&[Class::Minus])?;
    let inner = nested_unary(alloc, cursor, depth)?;
    Ok(at(token.place(), NodeAst::Neg(Boxed::new(alloc, inner)?)))
}

#[cycle(expr)]
#[tactic(auto, unfolding(sql_grammar::specs::Reading::unary_of))]
fn unary(alloc: Global, cursor: &mut Cursor<'_>, depth: usize) -> Result<ExprAst, Halt>
    ensures { Parses (at_depth spec.unary_of depth) cursor.old result cursor.new }
{
    if cursor.starts(&[Class::Minus]) {
        return negative(alloc, cursor, depth);
    }
    prim(alloc, cursor, depth)
}

/// An operand of a level.
#[cycle(expr)]
#[tactic(auto, unfolding(sql_grammar::specs::Reading::product_of, sql_grammar::specs::Reading::conjunction))]
fn operand(
    alloc: Global,
    cursor: &mut Cursor<'_>,
    depth: usize,
    level: Level,
) -> Result<ExprAst, Halt>
    ensures { Parses (words.operand level depth) cursor.old result cursor.new }
{
    match level {
        Level::Product => unary(alloc, cursor, depth),
        Level::Sum => chain(alloc, cursor, depth, Level::Product),
        Level::And => negation(alloc, cursor, depth),
        Level::Or => chain(alloc, cursor, depth, Level::And),
    }
}

/// An operator of a level and its right operand, behind a left one.
#[cycle(expr)]
#[tactic(auto, unfolding(sql_grammar::specs::Reading::operation))]
fn operation(
    alloc: Global,
    cursor: &mut Cursor<'_>,
    depth: usize,
    level: Level,
    left: ExprAst,
) -> Result<ExprAst, Halt>
    ensures { Parses
        (at_depth spec.operation depth (words.operators level) (words.operand level depth) left)
        cursor.old result cursor.new }
{
    cursor.pay(OPERATORS, 1, level.operators())?;
    let token = cursor.take(level.operators())?;
    let right = operand(alloc, cursor, depth, level)?;
    Ok(operated(alloc, token, left, right)?)
}

/// Operators of a level between operands, grouped to the left.
#[cycle(expr)]
fn chain(
    alloc: Global,
    cursor: &mut Cursor<'_>,
    depth: usize,
    level: Level,
) -> Result<ExprAst, Halt>
    ensures { Parses (words.chain level depth) cursor.old result cursor.new }
{
    let mut left = operand(alloc, cursor, depth, level)?;
    for _turn in 0..cursor.left() {
        if !cursor.starts(level.operators()) {
            return Ok(left);
        }
        left = operation(alloc, cursor, depth, level, left)?;
    }
    Ok(left)
}

#[cycle(expr)]
#[tactic(auto, unfolding(sql_grammar::specs::Reading::sum_of))]
pub(super) fn sum(alloc: Global, cursor: &mut Cursor<'_>, depth: usize) -> Result<ExprAst, Halt>
    ensures { Parses (at_depth spec.sum_of depth) cursor.old result cursor.new }
{
    chain(alloc, cursor, depth, Level::Sum)
}

/// An expression, with room for so many levels.
#[cycle(expr)]
#[tactic(auto, unfolding(sql_grammar::specs::Reading::disjunction))]
pub(super) fn expression(
    alloc: Global,
    cursor: &mut Cursor<'_>,
    depth: usize,
) -> Result<ExprAst, Halt>
    ensures { Parses (at_depth spec.disjunction depth) cursor.old result cursor.new }
{
    chain(alloc, cursor, depth, Level::Or)
}
