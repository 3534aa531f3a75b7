//! Expressions.
ghost use Rattle.std.specs.Prelude.{◌≡◌};
ghost use Rattle.expr_parser.specs.Cursors.{Parses, at_depth};
ghost use Rattle.sql_grammar.specs.Reading as spec;

mod chain;
mod predicate;
mod primary;

use crate::cursor::Cursor;
use crate::halt::Halt;
use chain::expression;
use sql_grammar::ast::ExprAst;
use std::alloc::Global;

/// How many operators an expression may have that is no part of another.
const OPERATORS: usize = 1024;

/// An expression that is no part of another: its operators are counted by themselves.
#[tactic(auto, unfolding(sql_grammar::specs::Reading::whole_expr))]
pub fn whole_expr(alloc: Global, cursor: &mut Cursor<'_>, depth: usize) -> Result<ExprAst, Halt>
    ensures { Parses (at_depth spec.whole_expr depth) cursor.old result cursor.new }
{
    let counted = cursor.counted();
    cursor.count_from(0);
    let found = expression(alloc, cursor, depth)?;
    cursor.count_from(counted);
    Ok(found)
}
