//! Expressions over the columns of a select, or over its groups.

ghost use Rattle.std.specs.Prelude.{◌≡◌, IfOk, IfSome};
ghost use Rattle.std.specs.Option.{option_copied};
ghost use Rattle.typed_exprs.specs.Answer.{Gives};
ghost use Rattle.typed_exprs.specs.Literals.{literal as literal_of};
ghost use Rattle.expr_binder.specs.Meaning as spec;
ghost use Rattle.typed_exprs.specs.Scopes as scopes;

use crate::equality::place_among;
use crate::grouping::Grouping;
use dfx_value::{AggCall, Kind, NoMemory, Text, Value};
use scalar_exprs::{Expr, agg_kind};
use sql_grammar::ast::{ExprAst, FnAst, NodeAst};
use sqlite_items::{Boxed, Items};
use std::alloc::Global;
use typed_exprs::{
    Arm, Column, Typed, Unary, Unbound, Why, absolute, apply_unary, binary, chosen, coalesced,
    column_of, length_of, literal, or_mismatch, settle,
};

/// A column with this number. More columns than `u32` counts fill more memory than there is.
fn column(number: usize, kind: Kind) -> Result<Typed, NoMemory>
    ensures { IfOk result (λ t. t ≡ spec.column number kind) }
{
    match u32::try_from(number) {
        Ok(number) => Ok(Typed::Of(Expr::Column(number), kind)),
        Err(_) => Err(NoMemory),
    }
}

fn kind_at(kinds: &[Kind], number: usize) -> Kind
    ensures { result ≡ spec.column_kind kinds.now number }
{
    match kinds.get(number) {
        Some(kind) => *kind,
        None => Kind::Text,
    }
}

/// Over groups, the column of the first key that the expression is.
fn key_of(
    columns: &[Column],
    over: Option<&Grouping<'_>>,
    expr: &ExprAst,
) -> Result<Option<Typed>, NoMemory>
    ensures { IfOk result
        (λ key. key ≡ spec.key_of columns.now (option_copied over.entry) expr.now) }
{
    match over {
        None => Ok(None),
        Some(groups) => match place_among(columns, expr, groups.keys) {
            None => Ok(None),
            Some(place) => Ok(Some(column(place, kind_at(groups.kinds, place))?)),
        },
    }
}

fn kind_of_column(columns: &[Column], number: usize) -> Kind
    ensures { result ≡ spec.kind_of_column columns.now number }
{
    match columns.get(number) {
        Some(column) => column.kind,
        None => Kind::Text,
    }
}

/// The column that a name names. Over groups no column stands outside a key.
fn named(
    columns: &[Column],
    over: Option<&Grouping<'_>>,
    place: u32,
    alias: &Option<Text>,
    name: &Text,
) -> Result<Typed, Unbound>
    ensures { Gives result
        (spec.named columns.now (option_copied over.entry) place
        (scopes.column_of columns.now place alias.now name.now)) }
{
    let number = column_of(columns, place, alias, name)?;
    match over {
        None => Ok(column(number, kind_of_column(columns, number))?),
        Some(_) => Err(Unbound::refused(Why::NotGrouped, place)),
    }
}

fn call_of(function: FnAst) -> AggCall
    ensures { result ≡ spec.call_of function }
{
    match function {
        FnAst::Sum => AggCall::Sum(0),
        FnAst::Min => AggCall::Min(0),
        FnAst::Max => AggCall::Max(0),
        FnAst::Avg => AggCall::Avg(0),
        _ => AggCall::Count(0),
    }
}

/// The number of a call's column, behind those of the keys.
fn call_column(columns: &[Column], groups: &Grouping<'_>, expr: &ExprAst) -> Option<usize>
    ensures { IfSome result (λ k. k ≡ spec.call_column columns.now groups.now expr.now) }
{
    let place = match place_among(columns, expr, groups.calls) {
        Some(place) => place,
        None => groups.calls.len(),
    };
    groups.keys.len().checked_add(place)
}

/// The column of a call, of this kind.
fn call(
    columns: &[Column],
    groups: &Grouping<'_>,
    expr: &ExprAst,
    kind: Kind,
) -> Result<Typed, NoMemory>
    ensures { IfOk result
        (λ t. t ≡ spec.column (spec.call_column columns.now groups.now expr.now) kind) }
{
    match call_column(columns, groups, expr) {
        Some(number) => column(number, kind),
        None => Err(NoMemory),
    }
}

/// An aggregate of a bound argument.
fn aggregate(
    columns: &[Column],
    over: Option<&Grouping<'_>>,
    expr: &ExprAst,
    function: FnAst,
    argument: Typed,
) -> Result<Typed, Unbound>
    ensures { Gives result
        (spec.aggregate columns.now (option_copied over.entry) expr.now
        (spec.place_of expr.now) function argument) }
{
    match over {
        None => Err(Unbound::refused(Why::NotGrouped, expr.place)),
        Some(groups) => {
            let (_, kind) = settle(argument);
            let kind = or_mismatch(expr.place, agg_kind(call_of(function), kind))?;
            Ok(call(columns, groups, expr, kind)?)
        }
    }
}

/// COUNT(*).
fn counted(
    columns: &[Column],
    over: Option<&Grouping<'_>>,
    expr: &ExprAst,
) -> Result<Typed, Unbound>
    ensures { Gives result
        (spec.counted columns.now (option_copied over.entry) expr.now (spec.place_of expr.now)) }
{
    match over {
        None => Err(Unbound::refused(Why::NotGrouped, expr.place)),
        Some(groups) => Ok(call(columns, groups, expr, Kind::Int)?),
    }
}

fn number(alloc: Global, place: u32, text: &Text) -> Result<Typed, Unbound>
    ensures { Gives result (spec.number place (literal_of text.now)) }
{
    match literal(alloc, text.bytes())? {
        Some((value, kind)) => Ok(Typed::Of(Expr::Const(value, kind), kind)),
        None => Err(Unbound::refused(Why::Unsupported, place)),
    }
}

#[tactic(auto, using(dfx_value::proofs::ParseLemmas::utf8_tests))]
fn text(alloc: Global, place: u32, text: &Text) -> Result<Typed, NoMemory>
    ensures { IfOk result (λ t. Ok t ≡ spec.text place text.now) }
{
    let copy = text.copy(alloc)?;
    Ok(Typed::Of(Expr::Const(Value::Text(copy), Kind::Text), Kind::Text))
}

fn truth(value: bool) -> Typed
    ensures { result ≡ spec.truth value }
{
    Typed::Of(Expr::Const(Value::Bool(value), Kind::Bool), Kind::Bool)
}

/// Where the operands of a function stand: that of an aggregate over the columns.
fn operands_over<'a>(function: FnAst, over: Option<&'a Grouping<'a>>) -> Option<&'a Grouping<'a>>
    ensures { option_copied result ≡ spec.operands_over function (option_copied over.entry) }
{
    match function {
        FnAst::Coalesce | FnAst::Abs | FnAst::Length => over,
        _ => None,
    }
}

fn single(mut operands: Items<Typed>) -> Option<Typed>
    ensures { result ≡ spec.single operands }
{
    if operands.len() == 1 {
        operands.pop()
    } else {
        None
    }
}

/// A function of one bound operand, or an aggregate.
fn applied_to_one(
    alloc: Global,
    columns: &[Column],
    over: Option<&Grouping<'_>>,
    expr: &ExprAst,
    function: FnAst,
    operand: Typed,
) -> Result<Typed, Unbound>
    ensures { Gives result
        (spec.applied_to_one columns.now (option_copied over.entry) expr.now
        (spec.place_of expr.now) function operand) }
{
    match function {
        FnAst::Abs => absolute(alloc, expr.place, operand),
        FnAst::Length => length_of(alloc, expr.place, operand),
        _ => aggregate(columns, over, expr, function, operand),
    }
}

/// A function of its bound operands.
fn applied(
    alloc: Global,
    columns: &[Column],
    over: Option<&Grouping<'_>>,
    expr: &ExprAst,
    function: FnAst,
    operands: Items<Typed>,
) -> Result<Typed, Unbound>
    ensures { Gives result
        (spec.applied columns.now (option_copied over.entry) expr.now
        (spec.place_of expr.now) function operands) }
{
    match function {
        FnAst::Coalesce => coalesced(alloc, expr.place, operands),
        _ => match single(operands) {
            Some(operand) => applied_to_one(alloc, columns, over, expr, function, operand),
            None => Err(Unbound::refused(Why::KindMismatch, expr.place)),
        },
    }
}

#[cycle(bind)]
fn bind_all(
    alloc: Global,
    columns: &[Column],
    over: Option<&Grouping<'_>>,
    exprs: &[ExprAst],
) -> Result<Items<Typed>, Unbound>
    ensures { Gives result (spec.meanings columns.now (option_copied over.entry) exprs.now) }
{
    let mut bound = Items::new(alloc);
    for expr in exprs {
        bound.push(bind_expr(alloc, columns, over, expr)?)?;
    }
    Ok(bound)
}

#[cycle(bind)]
fn bind_arms(
    alloc: Global,
    columns: &[Column],
    over: Option<&Grouping<'_>>,
    arms: &[(ExprAst, ExprAst)],
) -> Result<Items<Arm>, Unbound>
    ensures { Gives result (spec.arms_meaning columns.now (option_copied over.entry) arms.now) }
{
    let mut bound = Items::new(alloc);
    for arm in arms {
        let test = bind_expr(alloc, columns, over, &arm.0)?;
        let result = bind_expr(alloc, columns, over, &arm.1)?;
        bound.push(Arm {
            place: arm.0.place,
            test,
            result,
        })?;
    }
    Ok(bound)
}

/// The result of ELSE: a lone NULL where there is none.
#[cycle(bind)]
fn bind_other(
    alloc: Global,
    columns: &[Column],
    over: Option<&Grouping<'_>>,
    other: &Option<Boxed<ExprAst>>,
) -> Result<Typed, Unbound>
    ensures { Gives result (spec.other_meaning columns.now (option_copied over.entry) other.now) }
{
    match other {
        None => Ok(Typed::Null),
        Some(expr) => bind_expr(alloc, columns, over, expr.get()),
    }
}

#[cycle(bind)]
fn bind_unary(
    alloc: Global,
    columns: &[Column],
    over: Option<&Grouping<'_>>,
    place: u32,
    operator: Unary,
    operand: &Boxed<ExprAst>,
) -> Result<Typed, Unbound>
    ensures { Gives result
        (spec.unary_meaning columns.now (option_copied over.entry) place operator operand.now) }
{
    let operand = bind_expr(alloc, columns, over, operand.get())?;
    apply_unary(alloc, place, operator, operand)
}

/// An expression that is no key.
#[cycle(bind)]
#[tactic(auto, using(crate::proofs::MeaningSteps::nodes))]
fn bind_node(
    alloc: Global,
    columns: &[Column],
    over: Option<&Grouping<'_>>,
    expr: &ExprAst,
) -> Result<Typed, Unbound>
    ensures { Gives result
        (spec.of_node columns.now (spec.node_of expr.now) expr.now (spec.place_of expr.now)
        (option_copied over.entry)) }
{
    let place = expr.place;
    match &expr.node {
        NodeAst::Number(digits) => number(alloc, place, digits),
        NodeAst::Str(string) => Ok(text(alloc, place, string)?),
        NodeAst::Null => Ok(Typed::Null),
        NodeAst::Truth(value) => Ok(truth(*value)),
        NodeAst::Name(alias, name) => named(columns, over, place, alias, name),
        NodeAst::Call(function, parts) => {
            let over_parts = operands_over(*function, over);
            let operands = bind_all(alloc, columns, over_parts, parts.as_slice())?;
            applied(alloc, columns, over, expr, *function, operands)
        }
        NodeAst::CountAll => counted(columns, over, expr),
        NodeAst::Not(part) => bind_unary(alloc, columns, over, place, Unary::Not, part),
        NodeAst::Neg(part) => bind_unary(alloc, columns, over, place, Unary::Neg, part),
        NodeAst::IsNull(part) => bind_unary(alloc, columns, over, place, Unary::IsNull, part),
        NodeAst::Binary(op, left, right) => {
            let left = bind_expr(alloc, columns, over, left.get())?;
            let right = bind_expr(alloc, columns, over, right.get())?;
            binary(alloc, place, *op, left, right)
        }
        NodeAst::Case(arms, other) => {
            let arms = bind_arms(alloc, columns, over, arms.as_slice())?;
            let other = bind_other(alloc, columns, over, other)?;
            chosen(alloc, place, arms, other)
        }
        NodeAst::Cast(part, to) => bind_unary(alloc, columns, over, place, Unary::Cast(*to), part),
    }
}

/// The expression over columns that a tree is, or the first refusal: operands before their operator and from the left.
///
/// Over groups the topmost subexpression that equals a key is that key's column, and an aggregate is the column of its call, whose
/// argument stands over the columns themselves. NotGrouped is a column or an aggregate elsewhere.
#[cycle(bind)]
#[tactic(auto, using(crate::proofs::MeaningSteps::meaning_is))]
pub fn bind_expr(
    alloc: Global,
    columns: &[Column],
    over: Option<&Grouping<'_>>,
    expr: &ExprAst,
) -> Result<Typed, Unbound>
    ensures { Gives result (spec.meaning columns.now expr.now (option_copied over.entry)) }
{
    match key_of(columns, over, expr)? {
        Some(key) => Ok(key),
        None => bind_node(alloc, columns, over, expr),
    }
}
