//! Predicates: comparisons, IS NULL, IN, BETWEEN and NOT.
ghost use Rattle.std.specs.Prelude.{◌≡◌, ◌<◌, ◌≤◌, option_map};
ghost use Rattle.expr_parser.specs.Cursors.{Parses, at_depth, below, lim};
ghost use Rattle.sql_grammar.specs.Grammar.{comparing, one};
ghost use Rattle.sql_grammar.specs.Reader.{inside};
ghost use Rattle.sql_grammar.specs.Reading as spec;
ghost use Rattle.sql_grammar.specs.Reading.{expr_first};
ghost use Rattle.sql_grammar.specs.declared.class.Class.TheVariants as class;

use super::OPERATORS;
use super::chain::{nested, nested_negation, sum};
use crate::cursor::{Cursor, Seen};
use crate::halt::Halt;
use crate::list::{MORE, past};
use crate::nodes::{at, bounded, equals, is_null, operated, or_equals, unless_not};
use crate::sets::{COMPARING, EXPR_FIRST, TESTS};
use sql_grammar::ast::{ExprAst, NodeAst};
use sql_grammar::class::Class;
use sqlite_items::Boxed;
use std::alloc::Global;

#[cycle(expr)]
#[tactic(auto, unfolding(sql_grammar::specs::Reading::operation))]
fn compared(
    alloc: Global,
    cursor: &mut Cursor<'_>,
    depth: usize,
    left: ExprAst,
) -> Result<ExprAst, Halt>
    ensures { Parses (at_depth spec.operation depth comparing (at_depth spec.sum_of depth) left)
        cursor.old result cursor.new }
{
    cursor.pay(OPERATORS, 1, &COMPARING)?;
    let token = cursor.take(&COMPARING)?;
    let right = sum(alloc, cursor, depth)?;
    Ok(operated(alloc, token, left, right)?)
}

#[tactic(auto, unfolding(sql_grammar::specs::Reading::is_null))]
fn null_test(
    alloc: Global,
    cursor: &mut Cursor<'_>,
    depth: usize,
    left: ExprAst,
) -> Result<ExprAst, Halt>
    ensures { Parses (at_depth spec.is_null depth left) cursor.old result cursor.new }
{
    let token = cursor.take(&[Class::Is])?;
    let negated = cursor.maybe(&[Class::Not])?;
    cursor.take(&[Class::Null])?;
    let found = is_null(alloc, token.place(), left)?;
    Ok(unless_not(alloc, negated, token.place(), found)?)
}

/// A comma and a further member of IN. The left side has so many operators.
#[cycle(expr)]
#[tactic(auto, unfolding(sql_grammar::specs::Reading::member))]
fn next_member(
    alloc: Global,
    cursor: &mut Cursor<'_>,
    depth: usize,
    place: u32,
    left: &ExprAst,
    copied: usize,
    found: ExprAst,
) -> Result<ExprAst, Halt>
    requires deep { 0 < depth }
    requires few { copied ≤ 1024 }
    ensures { Parses (spec.behind (at_depth spec.member depth place left.now copied) found)
        cursor.old result cursor.new }
{
    cursor.take(&[Class::Comma])?;
    cursor.pay(OPERATORS, 2 + copied, &EXPR_FIRST)?;
    let next = nested(alloc, cursor, depth)?;
    Ok(or_equals(alloc, place, left, found, next)?)
}

#[cycle(expr)]
fn more_members(
    alloc: Global,
    cursor: &mut Cursor<'_>,
    depth: usize,
    place: u32,
    left: &ExprAst,
    copied: usize,
    mut found: ExprAst,
) -> Result<ExprAst, Halt>
    requires deep { 0 < depth }
    requires few { copied ≤ 1024 }
    ensures { Parses
        (spec.listing expr_first (at_depth spec.member depth place left.now copied) lim.more found)
        cursor.old result cursor.new }
{
    for _turn in 0..MORE {
        if !cursor.starts(&[Class::Comma]) {
            return Ok(found);
        }
        found = next_member(alloc, cursor, depth, place, left, copied, found)?;
    }
    if !cursor.starts(&[Class::Comma]) {
        return Ok(found);
    }
    Err(past(cursor, &EXPR_FIRST).into())
}

/// The members of IN in their parentheses.
#[cycle(expr)]
#[tactic(auto, unfolding(sql_grammar::specs::Reading::members))]
fn members(
    alloc: Global,
    cursor: &mut Cursor<'_>,
    depth: usize,
    place: u32,
    left: &ExprAst,
    copied: usize,
) -> Result<ExprAst, Halt>
    requires { copied ≤ 1024 }
    ensures { Parses
        (inside (one class.Open) depth (at_depth spec.members depth place left.now copied))
        cursor.old result cursor.new }
{
    if depth == 0 {
        return Err(cursor.no_room(&[Class::Open]).into());
    }
    cursor.take(&[Class::Open])?;
    cursor.pay(OPERATORS, 1, &EXPR_FIRST)?;
    let first = nested(alloc, cursor, depth)?;
    let first = equals(alloc, place, left, first)?;
    let found = more_members(alloc, cursor, depth, place, left, copied, first)?;
    cursor.take(&[Class::Close])?;
    Ok(found)
}

#[cycle(expr)]
#[tactic(auto, unfolding(sql_grammar::specs::Reading::among_of))]
fn among_of(
    alloc: Global,
    cursor: &mut Cursor<'_>,
    depth: usize,
    left: ExprAst,
    copied: usize,
    negated: Option<&Seen<'_>>,
) -> Result<ExprAst, Halt>
    requires { copied ≤ 1024 }
    ensures { Parses
        (at_depth spec.among_of depth left copied (option_map (λ t. t.now) negated.entry))
        cursor.old result cursor.new }
{
    let token = cursor.take(&[Class::In])?;
    let found = members(alloc, cursor, depth, token.place(), &left, copied)?;
    Ok(unless_not(alloc, negated, token.place(), found)?)
}

#[cycle(expr)]
#[tactic(auto, unfolding(sql_grammar::specs::Reading::between_of))]
fn between_of(
    alloc: Global,
    cursor: &mut Cursor<'_>,
    depth: usize,
    left: ExprAst,
    copied: usize,
    negated: Option<&Seen<'_>>,
) -> Result<ExprAst, Halt>
    requires { copied ≤ 1024 }
    ensures { Parses
        (at_depth spec.between_of depth left copied (option_map (λ t. t.now) negated.entry))
        cursor.old result cursor.new }
{
    cursor.pay(OPERATORS, 3 + copied, &[Class::Between])?;
    let token = cursor.take(&[Class::Between])?;
    let low = sum(alloc, cursor, depth)?;
    cursor.take(&[Class::And])?;
    let high = sum(alloc, cursor, depth)?;
    Ok(bounded(alloc, negated, token.place(), left, low, high)?)
}

#[cycle(expr)]
#[tactic(auto, unfolding(sql_grammar::specs::Reading::within))]
fn within(
    alloc: Global,
    cursor: &mut Cursor<'_>,
    depth: usize,
    left: ExprAst,
    copied: usize,
) -> Result<ExprAst, Halt>
    requires { copied ≤ 1024 }
    ensures { Parses (at_depth spec.within depth left copied) cursor.old result cursor.new }
{
    let negated = cursor.maybe(&[Class::Not])?;
    if cursor.starts(&[Class::In]) {
        return among_of(alloc, cursor, depth, left, copied, negated);
    }
    between_of(alloc, cursor, depth, left, copied, negated)
}

/// What may follow the left side of a test, which has so many operators.
#[cycle(expr)]
#[tactic(auto, unfolding(sql_grammar::specs::Reading::suffix))]
fn suffix(
    alloc: Global,
    cursor: &mut Cursor<'_>,
    depth: usize,
    left: ExprAst,
    copied: usize,
) -> Result<ExprAst, Halt>
    requires { copied ≤ 1024 }
    ensures { Parses (at_depth spec.suffix depth left copied) cursor.old result cursor.new }
{
    if cursor.starts(&COMPARING) {
        return compared(alloc, cursor, depth, left);
    }
    if cursor.starts(&[Class::Is]) {
        return null_test(alloc, cursor, depth, left);
    }
    if cursor.starts(&TESTS) {
        return within(alloc, cursor, depth, left, copied);
    }
    Ok(left)
}

#[cycle(expr)]
#[tactic(auto, unfolding(sql_grammar::specs::Reading::test_of))]
fn test(alloc: Global, cursor: &mut Cursor<'_>, depth: usize) -> Result<ExprAst, Halt>
    ensures { Parses (at_depth spec.test_of depth) cursor.old result cursor.new }
{
    let before = cursor.counted();
    let left = sum(alloc, cursor, depth)?;
    let copied = cursor.counted().saturating_sub(before);
    suffix(alloc, cursor, depth, left, copied)
}

#[cycle(expr)]
#[tactic(auto, unfolding(sql_grammar::specs::Reading::negated))]
fn negated(alloc: Global, cursor: &mut Cursor<'_>, depth: usize) -> Result<ExprAst, Halt>
    ensures { Parses (inside (one class.Not) depth (at_depth spec.negated depth))
        cursor.old result cursor.new }
{
    if depth == 0 {
        return Err(cursor.no_room(&[Class::Not]).into());
    }
    let token = cursor.take(&[Class::Not])?;
    let inner = nested_negation(alloc, cursor, depth)?;
    Ok(at(token.place(), NodeAst::Not(Boxed::new(alloc, inner)?)))
}

#[cycle(expr)]
#[tactic(auto, unfolding(sql_grammar::specs::Reading::negation_of))]
pub(super) fn negation(
    alloc: Global,
    cursor: &mut Cursor<'_>,
    depth: usize,
) -> Result<ExprAst, Halt>
    ensures { Parses (at_depth spec.negation_of depth) cursor.old result cursor.new }
{
    if cursor.starts(&[Class::Not]) {
        return negated(alloc, cursor, depth);
    }
    test(alloc, cursor, depth)
}
