//! When two expressions of a select are equal.

ghost use Rattle.std.specs.Prelude.{◌≡◌, false, map, nat_eq};
ghost use Rattle.typed_exprs.specs.Scopes.{Columns};
ghost use Rattle.expr_binder.specs.Alike as written;
ghost use Rattle.expr_binder.specs.Same as spec;

use dfx_value::{Kind, Op, Text};
use scalar_exprs::same as same_kind;
use sql_grammar::ast::{ExprAst, FnAst, NodeAst};
use sqlite_items::Boxed;
use typed_exprs::{Column, column_of};

/// Whether two aliases, where both are written, are one.
fn may_be_under(alias: &Option<Text>, other: &Option<Text>) -> bool
    ensures { result ≡ written.may_be_under alias.now other.now }
{
    match (alias, other) {
        (Some(alias), Some(other)) => *alias == *other,
        _ => true,
    }
}

/// Whether two names are written so that they may name one column. No column is looked at.
fn may_be_one(
    alias: &Option<Text>,
    name: &Text,
    other_alias: &Option<Text>,
    other_name: &Text,
) -> bool
    ensures { result ≡ written.may_be_one alias.now name.now other_alias.now other_name.now }
{
    *name == *other_name && may_be_under(alias, other_alias)
}

/// Whether both names name one column, which each names alone.
#[tactic(auto, using(crate::proofs::NameLemmas::unlike))]
fn same_name(
    columns: &[Column],
    alias: &Option<Text>,
    name: &Text,
    other_alias: &Option<Text>,
    other_name: &Text,
) -> bool
    ensures { result
        ≡ spec.same_name columns.now alias.now name.now other_alias.now other_name.now }
{
    // Most names are unlike, and are told apart without a look at the columns.
    if !may_be_one(alias, name, other_alias, other_name) {
        return false;
    }
    match (
        column_of(columns, 0, alias, name),
        column_of(columns, 0, other_alias, other_name),
    ) {
        (Ok(left), Ok(right)) => left == right,
        _ => false,
    }
}

fn same_function(left: FnAst, right: FnAst) -> bool
    ensures { result ≡ nat_eq (spec.function_rank left) (spec.function_rank right) }
{
    left as u8 == right as u8
}

fn same_op(left: Op, right: Op) -> bool
    ensures { result ≡ nat_eq (spec.op_rank left) (spec.op_rank right) }
{
    left as u8 == right as u8
}

#[cycle(same)]
fn all_same(columns: &[Column], left: &[ExprAst], right: &[ExprAst]) -> bool
    ensures { result ≡ spec.all_same (map (spec.same columns.now) left.now) right.now }
{
    if left.len() != right.len() {
        return false;
    }
    for at in 0..left.len() {
        if !same(columns, &left[at], &right[at]) {
            return false;
        }
    }
    true
}

#[cycle(same)]
fn arms_same(columns: &[Column], left: &[(ExprAst, ExprAst)], right: &[(ExprAst, ExprAst)]) -> bool
    ensures { result ≡ spec.arms_same (map (spec.same_arm columns.now) left.now) right.now }
{
    if left.len() != right.len() {
        return false;
    }
    for at in 0..left.len() {
        if !same(columns, &left[at].0, &right[at].0) || !same(columns, &left[at].1, &right[at].1) {
            return false;
        }
    }
    true
}

#[cycle(same)]
fn other_same(
    columns: &[Column],
    left: &Option<Boxed<ExprAst>>,
    right: &Option<Boxed<ExprAst>>,
) -> bool
    ensures { result ≡ spec.other_same (spec.same_other columns.now left.now) right.now }
{
    match (left, right) {
        (None, None) => true,
        (Some(left), Some(right)) => same(columns, left.get(), right.get()),
        _ => false,
    }
}

#[cycle(same)]
fn same_node(columns: &[Column], left: &NodeAst, right: &NodeAst) -> bool
    ensures { result ≡ spec.same_nodes columns.now left.now right.now }
{
    match (left, right) {
        (NodeAst::Number(a), NodeAst::Number(b)) => *a == *b,
        (NodeAst::Str(a), NodeAst::Str(b)) => *a == *b,
        (NodeAst::Null, NodeAst::Null) => true,
        (NodeAst::Truth(a), NodeAst::Truth(b)) => *a == *b,
        (NodeAst::Name(p, a), NodeAst::Name(q, b)) => same_name(columns, p, a, q, b),
        (NodeAst::Call(f, a), NodeAst::Call(g, b)) => {
            same_function(*f, *g) && all_same(columns, a.as_slice(), b.as_slice())
        }
        (NodeAst::CountAll, NodeAst::CountAll) => true,
        (NodeAst::Not(a), NodeAst::Not(b)) => same(columns, a.get(), b.get()),
        (NodeAst::Neg(a), NodeAst::Neg(b)) => same(columns, a.get(), b.get()),
        (NodeAst::IsNull(a), NodeAst::IsNull(b)) => same(columns, a.get(), b.get()),
        (NodeAst::Binary(o, a, b), NodeAst::Binary(p, c, d)) => {
            same_op(*o, *p) && same(columns, a.get(), c.get()) && same(columns, b.get(), d.get())
        }
        (NodeAst::Case(a, p), NodeAst::Case(b, q)) => {
            arms_same(columns, a.as_slice(), b.as_slice()) && other_same(columns, p, q)
        }
        (NodeAst::Cast(a, j), NodeAst::Cast(b, k)) => {
            same_kind(*j, *k) && same(columns, a.get(), b.get())
        }
        _ => false,
    }
}

/// Whether two expressions of a select are equal: their trees are, places aside, once each name is read as the column that it
/// names. A name that doesn't name exactly one column is equal to no other, not to itself either.
#[cycle(same)]
pub fn same(columns: &[Column], left: &ExprAst, right: &ExprAst) -> bool
    ensures { result ≡ spec.same columns.now left.now right.now }
{
    same_node(columns, &left.node, &right.node)
}

#[cycle(alike)]
fn all_alike(left: &[ExprAst], right: &[ExprAst]) -> bool
    ensures { result ≡ false → (columns : Columns)
        → false ≡ spec.all_same (map (spec.same columns) left.now) right.now }
{
    if left.len() != right.len() {
        return false;
    }
    for at in 0..left.len() {
        if !alike(&left[at], &right[at]) {
            return false;
        }
    }
    true
}

#[cycle(alike)]
fn alike_node(left: &NodeAst, right: &NodeAst) -> bool
    ensures { result ≡ false → (columns : Columns)
        → false ≡ spec.same_nodes columns left.now right.now }
{
    match (left, right) {
        (NodeAst::Number(a), NodeAst::Number(b)) => *a == *b,
        (NodeAst::Str(a), NodeAst::Str(b)) => *a == *b,
        (NodeAst::Null, NodeAst::Null) => true,
        (NodeAst::Truth(a), NodeAst::Truth(b)) => *a == *b,
        (NodeAst::Name(p, a), NodeAst::Name(q, b)) => may_be_one(p, a, q, b),
        (NodeAst::Call(f, a), NodeAst::Call(g, b)) => {
            same_function(*f, *g) && all_alike(a.as_slice(), b.as_slice())
        }
        (NodeAst::CountAll, NodeAst::CountAll) => true,
        (NodeAst::Not(a), NodeAst::Not(b)) => alike(a.get(), b.get()),
        (NodeAst::Neg(a), NodeAst::Neg(b)) => alike(a.get(), b.get()),
        (NodeAst::IsNull(a), NodeAst::IsNull(b)) => alike(a.get(), b.get()),
        (NodeAst::Binary(o, a, b), NodeAst::Binary(p, c, d)) => {
            same_op(*o, *p) && alike(a.get(), c.get()) && alike(b.get(), d.get())
        }
        (NodeAst::Case(_, _), NodeAst::Case(_, _)) => true,
        (NodeAst::Cast(a, j), NodeAst::Cast(b, k)) => {
            same_kind(*j, *k) && alike(a.get(), b.get())
        }
        _ => false,
    }
}

/// Whether two expressions may be equal, by how they are written. No column is looked at.
#[cycle(alike)]
fn alike(left: &ExprAst, right: &ExprAst) -> bool
    ensures { result ≡ false → (columns : Columns) → false ≡ spec.same columns left.now right.now }
{
    alike_node(&left.node, &right.node)
}

/// The first place, from 0, of an expression that is this one.
pub fn place_among(columns: &[Column], expr: &ExprAst, among: &[ExprAst]) -> Option<usize>
    ensures { result ≡ spec.place_among columns.now expr.now among.now }
{
    for (place, other) in among.iter().enumerate() {
        if alike(expr, other) && same(columns, expr, other) {
            return Some(place);
        }
    }
    None
}
