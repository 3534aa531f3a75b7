//! ORDER BY, LIMIT and OFFSET.

ghost use Rattle.std.specs.Prelude.{◌≡◌, ◌<◌, ◌+◌, ◌∷◌, suc, drop, Some, None, IfOk, IfSome, length, option_map};
ghost use Rattle.typed_exprs.specs.Literals.{has_point as has_point_in};
ghost use Rattle.typed_exprs.specs.Answer.{Gives};
ghost use Rattle.sql_binder.specs.Orders as spec;

use crate::items::{is_column, width_of};
use crate::sources::is_under;
use dfx_value::{Kind, NoMemory, ParseRefused, Seq, SortKey, Text, Value, parse_value};
use expr_binder::{Column, Refusal, Unbound, Why, same};
use logical_build::as_u32;
use sql_grammar::ast::{ExprAst, ItemAst, KeyAst, NodeAst, NumberAst};
use std::alloc::Global;

/// The one select that is ordered, whose items a key may equal.
#[derive(Clone, Copy)]
pub struct Single<'a> {
    /// The columns that it reads.
    pub columns: &'a [Column],
    pub items: &'a [ItemAst],
}

/// The number of the column that a key is among all columns.
#[tactic(auto, using(crate::proofs::AllGiven::all_columns))]
fn number_among_all(columns: &[Column], key: &ExprAst) -> Option<usize>
    ensures { result ≡ spec.first_from 0 (spec.column_tests columns.now None) key.now }
{
    for number in 0..columns.len() {
        if is_column(columns, number, key) {
            return Some(number);
        }
    }
    None
}

/// The number of the column that a key is among those under an alias.
fn number_under(columns: &[Column], alias: &Text, key: &ExprAst) -> Option<usize>
    ensures { result ≡ spec.first_from 0 (spec.column_tests columns.now (Some alias.now)) key.now }
{
    let mut before = 0;
    for number in 0..columns.len() {
        if is_under(alias, &columns[number]) {
            if is_column(columns, number, key) {
                return Some(before);
            }
            before += 1;
        }
    }
    None
}

/// The first of an item's columns that a key equals.
#[tactic(auto, unfolding(crate::specs::Orders::number_in))]
fn number_in(columns: &[Column], item: &ItemAst, key: &ExprAst) -> Option<usize>
    ensures { result ≡ spec.number_in columns.now item.now key.now }
{
    match item {
        ItemAst::All { place: _ } => number_among_all(columns, key),
        ItemAst::AllOf { name, place: _ } => number_under(columns, name, key),
        ItemAst::One { expr, name: _ } => {
            if same(columns, key, expr) {
                Some(0)
            } else {
                None
            }
        }
    }
}

/// The sum, where it fits; that many columns fill more memory than there is.
fn sum(left: usize, right: usize) -> Result<usize, NoMemory>
    ensures { IfOk result (λ sum. sum ≡ left + right) }
{
    match left.checked_add(right) {
        Some(sum) => Ok(sum),
        None => Err(NoMemory),
    }
}

/// The first column of the items that a key equals.
#[tactic(auto, using(crate::proofs::FirstNumbers::numbers))]
fn number_in_items(single: Single<'_>, key: &ExprAst) -> Result<Option<usize>, NoMemory>
    ensures { IfOk result
        (λ number. number
        ≡ spec.number_from single.entry.columns.now 0 single.entry.items.now key.now) }
{
    let mut behind = 0;
    for item in single.items {
        if let Some(number) = number_in(single.columns, item, key) {
            return Ok(Some(sum(behind, number)?));
        }
        behind = sum(behind, width_of(single.columns, item))?;
    }
    Ok(None)
}

/// The first item that a key equals. Unsupported where there is none, or no single select.
fn item_of(single: Option<Single<'_>>, key: &ExprAst) -> Result<usize, Unbound>
    ensures { Gives result (spec.item_of (option_map spec.viewed single.entry) key.now) }
{
    let number = match single {
        None => None,
        Some(single) => number_in_items(single, key)?,
    };
    match number {
        Some(number) => Ok(number),
        None => Err(Unbound::from(Refusal::new(Why::Unsupported, key.place))),
    }
}

/// The number of the first column of a name, from `first` on.
fn number_of_name(names: &[Text], name: &Text, first: usize) -> Option<usize>
    ensures number { result ≡ spec.head_of (spec.named_from first name.now (drop first names.now)) }
    ensures within { IfSome result (λ number. number < length names.now) }
    ensures rest { IfSome result
        (λ number. spec.named_from first name.now (drop first names.now)
        ≡ number ∷ spec.named_from (suc number) name.now (drop (suc number) names.now)) }
{
    for number in first..names.len() {
        if names[number] == *name {
            return Some(number);
        }
    }
    None
}

/// A whole number below 2^63.
#[tactic(auto, unfolding(dfx_value::specs::Parse::int_of, dfx_value::specs::Parse::natural))]
fn whole_number(alloc: Global, text: &Text) -> Result<Option<u64>, NoMemory>
    ensures { IfOk result (λ n. n ≡ spec.whole_number text.now) }
{
    match parse_value(alloc, text.bytes(), Kind::Int) {
        Ok(Value::Int(number)) => Ok(u64::try_from(number).ok()),
        Ok(_) => Ok(None),
        Err(ParseRefused::NotAValue) => Ok(None),
        Err(ParseRefused::NoMemory) => Err(NoMemory),
    }
}

/// A position, from 1.
fn position(alloc: Global, width: usize, text: &Text, place: u32) -> Result<usize, Unbound>
    ensures { Gives result (spec.position width place (spec.whole_number text.now)) }
{
    match whole_number(alloc, text)? {
        Some(number) if number > 0 && number <= width as u64 => Ok(number as usize - 1),
        _ => Err(Unbound::from(Refusal::new(Why::UnknownColumn, place))),
    }
}

fn has_point(text: &[u8]) -> bool
    ensures { result ≡ has_point_in text.now }
{
    for byte in text {
        if *byte == b'.' {
            return true;
        }
    }
    false
}

/// The number of a name's column, where no later column has it.
fn only_number(names: &[Text], name: &Text, first: usize, place: u32) -> Result<usize, Unbound>
    requires { first < length names.now }
    ensures { Gives result
        (spec.only first
        (spec.named_from (suc first) name.now (drop (suc first) names.now)) place) }
{
    match number_of_name(names, name, first + 1) {
        None => Ok(first),
        Some(_) => Err(Unbound::from(Refusal::new(Why::Ambiguous, place))),
    }
}

/// The column that a key is: a position, the one column of its name, or the first item that it equals.
fn column_of_key(
    alloc: Global,
    names: &[Text],
    single: Option<Single<'_>>,
    key: &ExprAst,
) -> Result<usize, Unbound>
    ensures { Gives result
        (spec.column_of_key names.now (option_map spec.viewed single.entry) key.now) }
{
    match &key.node {
        NodeAst::Number(text) if !has_point(text.bytes()) => position(
            alloc,
            names.len(),
            text,
            key.place,
        ),
        NodeAst::Name(None, name) => match number_of_name(names, name, 0) {
            None => item_of(single, key),
            Some(number) => only_number(names, name, number, key.place),
        },
        _ => item_of(single, key),
    }
}

fn sort_key(
    alloc: Global,
    names: &[Text],
    single: Option<Single<'_>>,
    key: &KeyAst,
) -> Result<SortKey, Unbound>
    ensures { Gives result (spec.key_of names.now (option_map spec.viewed single.entry) key.now) }
{
    let column = column_of_key(alloc, names, single, &key.expr)?;
    Ok(SortKey {
        column: as_u32(column)?,
        descending: key.descending,
        nulls_first: key.nulls_first,
    })
}

/// The keys of an order over columns of these names.
pub fn order(
    alloc: Global,
    names: &[Text],
    single: Option<Single<'_>>,
    keys: &[KeyAst],
) -> Result<Seq<SortKey>, Unbound>
    ensures { Gives result (spec.order names.now (option_map spec.viewed single.entry) keys.now) }
{
    let mut done = Vec::new(alloc);
    for key in keys {
        done.push(sort_key(alloc, names, single, key)?)?;
    }
    Ok(Seq::from_vec(done))
}

/// A number of rows. LimitRange where it is no whole number below 2^63.
fn number(alloc: Global, number: &NumberAst) -> Result<u64, Unbound>
    ensures { Gives result (spec.number number.now) }
{
    match whole_number(alloc, &number.text)? {
        Some(rows) => Ok(rows),
        None => Err(Unbound::from(Refusal::new(Why::LimitRange, number.place))),
    }
}

pub fn limit(alloc: Global, limit: &Option<NumberAst>) -> Result<Option<u64>, Unbound>
    ensures { Gives result (spec.limit limit.now) }
{
    match limit {
        None => Ok(None),
        Some(rows) => Ok(Some(number(alloc, rows)?)),
    }
}

/// A missing OFFSET is 0.
pub fn offset(alloc: Global, offset: &Option<NumberAst>) -> Result<u64, Unbound>
    ensures { Gives result (spec.offset offset.now) }
{
    match offset {
        None => Ok(0),
        Some(rows) => number(alloc, rows),
    }
}
