//! Primary expressions: constants, names, calls, CASE, CAST and parentheses.
ghost use Rattle.std.specs.Prelude.{◌≡◌, ◌<◌};
ghost use Rattle.expr_parser.specs.Cursors.{Parses, at_depth, below, lim};
ghost use Rattle.sql_grammar.specs.Grammar.{calls, one};
ghost use Rattle.sql_grammar.specs.Reader.{inside};
ghost use Rattle.sql_grammar.specs.Reading as spec;
ghost use Rattle.sql_grammar.specs.Reading.{expr_first};
ghost use Rattle.sql_grammar.specs.declared.class.Class.TheVariants as class;

use super::chain::nested;
use crate::cursor::{Cursor, Seen};
use crate::halt::Halt;
use crate::kind::type_name;
use crate::list::{MORE, past};
use crate::nodes::{at, constant, function_of};
use crate::sets::{CONSTANTS, EXPR_FIRST, NAMES};
use sql_grammar::ast::{ExprAst, FnAst, NodeAst};
use sql_grammar::class::Class;
use sqlite_items::{Boxed, Items};
use std::alloc::Global;

#[cycle(expr)]
#[tactic(auto, unfolding(sql_grammar::specs::Reading::parenthesized))]
fn parenthesized(alloc: Global, cursor: &mut Cursor<'_>, depth: usize) -> Result<ExprAst, Halt>
    ensures { Parses (inside (one class.Open) depth (at_depth spec.parenthesized depth))
        cursor.old result cursor.new }
{
    if depth == 0 {
        return Err(cursor.no_room(&[Class::Open]).into());
    }
    cursor.take(&[Class::Open])?;
    let inner = nested(alloc, cursor, depth)?;
    cursor.take(&[Class::Close])?;
    Ok(inner)
}

#[cycle(expr)]
#[tactic(auto, unfolding(sql_grammar::specs::Reading::arm))]
fn arm(
    alloc: Global,
    cursor: &mut Cursor<'_>,
    depth: usize,
    mut arms: Items<(ExprAst, ExprAst)>,
) -> Result<Items<(ExprAst, ExprAst)>, Halt>
    requires { 0 < depth }
    ensures { Parses (at_depth spec.arm depth arms) cursor.old result cursor.new }
{
    cursor.take(&[Class::When])?;
    let test = nested(alloc, cursor, depth)?;
    cursor.take(&[Class::Then])?;
    let value = nested(alloc, cursor, depth)?;
    arms.push((test, value))?;
    Ok(arms)
}

/// The arms behind the first.
#[cycle(expr)]
fn more_arms(
    alloc: Global,
    cursor: &mut Cursor<'_>,
    depth: usize,
    mut arms: Items<(ExprAst, ExprAst)>,
) -> Result<Items<(ExprAst, ExprAst)>, Halt>
    requires { 0 < depth }
    ensures { Parses (at_depth spec.arms depth arms) cursor.old result cursor.new }
{
    for _turn in 0..cursor.left() {
        if !cursor.starts(&[Class::When]) {
            return Ok(arms);
        }
        arms = arm(alloc, cursor, depth, arms)?;
    }
    Ok(arms)
}

#[cycle(expr)]
#[tactic(auto, unfolding(sql_grammar::specs::Reading::other))]
fn otherwise(
    alloc: Global,
    cursor: &mut Cursor<'_>,
    depth: usize,
) -> Result<Option<Boxed<ExprAst>>, Halt>
    requires { 0 < depth }
    ensures { Parses (at_depth spec.otherwise depth) cursor.old result cursor.new }
{
    if !cursor.starts(&[Class::Else]) {
        return Ok(None);
    }
    cursor.take(&[Class::Else])?;
    let value = nested(alloc, cursor, depth)?;
    Ok(Some(Boxed::new(alloc, value)?))
}

#[cycle(expr)]
#[tactic(auto, unfolding(sql_grammar::specs::Reading::case_of))]
fn case_of(alloc: Global, cursor: &mut Cursor<'_>, depth: usize) -> Result<ExprAst, Halt>
    ensures { Parses (inside (one class.Case) depth (at_depth spec.case_of depth))
        cursor.old result cursor.new }
{
    if depth == 0 {
        return Err(cursor.no_room(&[Class::Case]).into());
    }
    let word = cursor.take(&[Class::Case])?;
    let arms = arm(alloc, cursor, depth, Items::new(alloc))?;
    let arms = more_arms(alloc, cursor, depth, arms)?;
    let other = otherwise(alloc, cursor, depth)?;
    cursor.take(&[Class::End])?;
    Ok(at(word.place(), NodeAst::Case(arms, other)))
}

#[cycle(expr)]
#[tactic(auto, unfolding(sql_grammar::specs::Reading::converted))]
fn converted(
    alloc: Global,
    cursor: &mut Cursor<'_>,
    depth: usize,
    word: &Seen<'_>,
) -> Result<ExprAst, Halt>
    ensures { Parses (inside (one class.Open) depth (at_depth spec.converted depth word.now))
        cursor.old result cursor.new }
{
    if depth == 0 {
        return Err(cursor.no_room(&[Class::Open]).into());
    }
    cursor.take(&[Class::Open])?;
    let inner = nested(alloc, cursor, depth)?;
    cursor.take(&[Class::As])?;
    let kind = type_name(alloc, cursor)?;
    cursor.take(&[Class::Close])?;
    Ok(at(word.place(), NodeAst::Cast(Boxed::new(alloc, inner)?, kind)))
}

#[cycle(expr)]
#[tactic(auto, unfolding(sql_grammar::specs::Reading::cast))]
fn cast(alloc: Global, cursor: &mut Cursor<'_>, depth: usize) -> Result<ExprAst, Halt>
    ensures { Parses (at_depth spec.cast depth) cursor.old result cursor.new }
{
    let word = cursor.take(&[Class::Cast])?;
    converted(alloc, cursor, depth, word)
}

/// A comma and an argument, behind those that were found.
#[cycle(expr)]
fn next_argument(
    alloc: Global,
    cursor: &mut Cursor<'_>,
    depth: usize,
    mut found: Items<ExprAst>,
) -> Result<Items<ExprAst>, Halt>
    requires { 0 < depth }
    ensures { Parses (spec.behind (spec.item_of (below depth).expr) found)
        cursor.old result cursor.new }
{
    cursor.take(&[Class::Comma])?;
    let next = nested(alloc, cursor, depth)?;
    found.push(next)?;
    Ok(found)
}

#[cycle(expr)]
fn more_arguments(
    alloc: Global,
    cursor: &mut Cursor<'_>,
    depth: usize,
    mut found: Items<ExprAst>,
) -> Result<Items<ExprAst>, Halt>
    requires { 0 < depth }
    ensures { Parses (spec.listing expr_first (spec.item_of (below depth).expr) lim.more found)
        cursor.old result cursor.new }
{
    for _turn in 0..MORE {
        if !cursor.starts(&[Class::Comma]) {
            return Ok(found);
        }
        found = next_argument(alloc, cursor, depth, found)?;
    }
    if !cursor.starts(&[Class::Comma]) {
        return Ok(found);
    }
    Err(past(cursor, &EXPR_FIRST).into())
}

#[cycle(expr)]
#[tactic(auto, unfolding(sql_grammar::specs::Reading::arguments))]
fn arguments(alloc: Global, cursor: &mut Cursor<'_>, depth: usize) -> Result<Items<ExprAst>, Halt>
    ensures { Parses (inside (one class.Open) depth (at_depth spec.arguments depth))
        cursor.old result cursor.new }
{
    if depth == 0 {
        return Err(cursor.no_room(&[Class::Open]).into());
    }
    cursor.take(&[Class::Open])?;
    let first = nested(alloc, cursor, depth)?;
    let mut found = Items::new(alloc);
    found.push(first)?;
    let found = more_arguments(alloc, cursor, depth, found)?;
    cursor.take(&[Class::Close])?;
    Ok(found)
}

#[cycle(expr)]
#[tactic(auto, unfolding(sql_grammar::specs::Reading::coalesce))]
fn coalesce(alloc: Global, cursor: &mut Cursor<'_>, depth: usize) -> Result<ExprAst, Halt>
    ensures { Parses (at_depth spec.coalesce depth) cursor.old result cursor.new }
{
    let word = cursor.take(&[Class::Coalesce])?;
    let found = arguments(alloc, cursor, depth)?;
    Ok(at(word.place(), NodeAst::Call(FnAst::Coalesce, found)))
}

#[tactic(auto, unfolding(sql_grammar::specs::Reading::qualified))]
fn qualified(
    alloc: Global,
    cursor: &mut Cursor<'_>,
    depth: usize,
    token: &Seen<'_>,
) -> Result<ExprAst, Halt>
    ensures { Parses (at_depth spec.qualified depth token.now) cursor.old result cursor.new }
{
    cursor.take(&[Class::Dot])?;
    let name = cursor.take(&NAMES)?;
    let qualifier = token.text(alloc)?;
    Ok(at(
        token.place(),
        NodeAst::Name(Some(qualifier), name.text(alloc)?),
    ))
}

#[tactic(auto, unfolding(sql_grammar::specs::Reading::plain, sql_grammar::specs::Reading::bare))]
fn plain(
    alloc: Global,
    cursor: &mut Cursor<'_>,
    depth: usize,
    token: &Seen<'_>,
) -> Result<ExprAst, Halt>
    ensures { Parses (at_depth spec.plain depth token.now) cursor.old result cursor.new }
{
    if cursor.starts(&[Class::Dot]) {
        return qualified(alloc, cursor, depth, token);
    }
    Ok(at(token.place(), NodeAst::Name(None, token.text(alloc)?)))
}

#[cycle(expr)]
#[tactic(auto, unfolding(sql_grammar::specs::Reading::call))]
fn call(
    alloc: Global,
    cursor: &mut Cursor<'_>,
    depth: usize,
    token: &Seen<'_>,
) -> Result<ExprAst, Halt>
    requires { 0 < depth }
    ensures { Parses (at_depth spec.call depth token.now) cursor.old result cursor.new }
{
    let inner = nested(alloc, cursor, depth)?;
    let mut parts = Items::new(alloc);
    parts.push(inner)?;
    Ok(at(
        token.place(),
        NodeAst::Call(function_of(token.class()), parts),
    ))
}

#[cycle(expr)]
#[tactic(auto, unfolding(sql_grammar::specs::Reading::argument))]
fn argument(
    alloc: Global,
    cursor: &mut Cursor<'_>,
    depth: usize,
    token: &Seen<'_>,
) -> Result<ExprAst, Halt>
    ensures { Parses (inside (one class.Open) depth (at_depth spec.argument depth token.now))
        cursor.old result cursor.new }
{
    if depth == 0 {
        return Err(cursor.no_room(&[Class::Open]).into());
    }
    cursor.take(&[Class::Open])?;
    let found = call(alloc, cursor, depth, token)?;
    cursor.take(&[Class::Close])?;
    Ok(found)
}

#[cycle(expr)]
#[tactic(auto, unfolding(sql_grammar::specs::Reading::star_or, sql_grammar::specs::Reading::count_all))]
fn star_or(
    alloc: Global,
    cursor: &mut Cursor<'_>,
    depth: usize,
    token: &Seen<'_>,
) -> Result<ExprAst, Halt>
    requires { 0 < depth }
    ensures { Parses (at_depth spec.star_or depth token.now) cursor.old result cursor.new }
{
    if cursor.starts(&[Class::Star]) {
        cursor.take(&[Class::Star])?;
        return Ok(at(token.place(), NodeAst::CountAll));
    }
    call(alloc, cursor, depth, token)
}

#[cycle(expr)]
#[tactic(auto, unfolding(sql_grammar::specs::Reading::counted))]
fn counted(
    alloc: Global,
    cursor: &mut Cursor<'_>,
    depth: usize,
    token: &Seen<'_>,
) -> Result<ExprAst, Halt>
    ensures { Parses (inside (one class.Open) depth (at_depth spec.counted depth token.now))
        cursor.old result cursor.new }
{
    if depth == 0 {
        return Err(cursor.no_room(&[Class::Open]).into());
    }
    cursor.take(&[Class::Open])?;
    let found = star_or(alloc, cursor, depth, token)?;
    cursor.take(&[Class::Close])?;
    Ok(found)
}

#[cycle(expr)]
#[tactic(auto, unfolding(sql_grammar::specs::Reading::after))]
fn after(
    alloc: Global,
    cursor: &mut Cursor<'_>,
    depth: usize,
    token: &Seen<'_>,
) -> Result<ExprAst, Halt>
    ensures { Parses (at_depth spec.after depth (calls token.now.class) token.now)
        cursor.old result cursor.new }
{
    match token.class() {
        Class::Abs | Class::Length | Class::Sum | Class::Min | Class::Max | Class::Avg => {
            if cursor.starts(&[Class::Open]) {
                return argument(alloc, cursor, depth, token);
            }
            plain(alloc, cursor, depth, token)
        }
        Class::Count => {
            if cursor.starts(&[Class::Open]) {
                return counted(alloc, cursor, depth, token);
            }
            plain(alloc, cursor, depth, token)
        }
        _ => plain(alloc, cursor, depth, token),
    }
}

#[cycle(expr)]
#[tactic(auto, unfolding(sql_grammar::specs::Reading::named))]
fn named(alloc: Global, cursor: &mut Cursor<'_>, depth: usize) -> Result<ExprAst, Halt>
    ensures { Parses (at_depth spec.named depth) cursor.old result cursor.new }
{
    let token = cursor.take(&NAMES)?;
    after(alloc, cursor, depth, token)
}

#[tactic(auto, unfolding(sql_grammar::specs::Reading::constant))]
fn literal(alloc: Global, cursor: &mut Cursor<'_>, depth: usize) -> Result<ExprAst, Halt>
    ensures { Parses (at_depth spec.constant depth) cursor.old result cursor.new }
{
    let token = cursor.take(&CONSTANTS)?;
    Ok(constant(alloc, token)?)
}

#[cycle(expr)]
#[tactic(auto, unfolding(sql_grammar::specs::Reading::prim))]
pub(super) fn prim(alloc: Global, cursor: &mut Cursor<'_>, depth: usize) -> Result<ExprAst, Halt>
    ensures { Parses (at_depth spec.prim depth) cursor.old result cursor.new }
{
    if cursor.starts(&[Class::Open]) {
        return parenthesized(alloc, cursor, depth);
    }
    if cursor.starts(&[Class::Case]) {
        return case_of(alloc, cursor, depth);
    }
    if cursor.starts(&[Class::Cast]) {
        return cast(alloc, cursor, depth);
    }
    if cursor.starts(&[Class::Coalesce]) {
        return coalesce(alloc, cursor, depth);
    }
    if cursor.starts(&CONSTANTS) {
        return literal(alloc, cursor, depth);
    }
    named(alloc, cursor, depth)
}
