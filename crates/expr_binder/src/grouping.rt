//! What the items of a grouped select are over.

use dfx_value::Kind;
use sql_grammar::ast::ExprAst;
use std::marker::Model;

/// What the items of a grouped select are over: the rows of its keys, and then of its aggregates.
#[derive(Drop)]
pub struct Grouping<'a> {
    /// The expressions of GROUP BY.
    pub keys: &'a [ExprAst],
    /// Their kinds.
    pub kinds: &'a [Kind],
    /// The aggregate calls of the items and then of HAVING, in the order in which they are met, equal ones once.
    pub calls: &'a [ExprAst],
}

impl<'a> Model for Grouping<'a> {
    ghost use Rattle.std.specs.Coded.{codes};
    ghost use Rattle.sql_grammar.specs.contracts.ast.ExprAst as tree;
    ghost use Rattle.expr_binder.specs.Groups.{Groups};

    ghost Value = { Groups };

    ghost coded = { Prim.hlevel (codes, tree.the_row.coded) };

    ghost view = { λ g. record { keys = g.keys.now; kinds = g.kinds.now; calls = g.calls.now } };
}
