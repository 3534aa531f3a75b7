//! The texts of columns, calls and keys, in lists between brackets.

ghost use Rattle.std.specs.Prelude.{◌≡◌, ◌++◌, map, OnOk};
ghost use Rattle.std.specs.String.{string_bytes};
ghost use Rattle.plan_text.specs.ExprText.{column_text, call_of};
ghost use Rattle.plan_text.specs.ListText.{bracketed};
ghost use Rattle.plan_text.specs.NodeText as spec;

use crate::constants::push_column;
use dfx_value::{AggCall, NoMemory, SortKey};
use std::fmt::Write;

/// Appends columns.
pub fn push_columns(text: &mut String, columns: &[u32]) -> Result<(), NoMemory>
    ensures { OnOk result (string_bytes text.new
        ≡ string_bytes text.old ++ spec.columns_text columns.now) }
{
    text.push('[')?;
    let mut separator = "";
    for column in columns {
        text.push_str(separator)?;
        push_column(text, *column)?;
        separator = ", ";
    }
    Ok(text.push(']')?)
}

fn push_named(text: &mut String, name: &str, column: u32) -> Result<(), NoMemory>
    ensures { OnOk result (string_bytes text.new
        ≡ string_bytes text.old ++ call_of name.now (column_text column)) }
{
    Ok(write!(text, "{name}(#{column})")?)
}

fn push_call(text: &mut String, call: &AggCall) -> Result<(), NoMemory>
    ensures { OnOk result (string_bytes text.new
        ≡ string_bytes text.old ++ spec.call_text call.now) }
{
    match call {
        AggCall::CountAll => Ok(text.push_str("COUNT(*)")?),
        AggCall::Count(column) => push_named(text, "COUNT", *column),
        AggCall::Sum(column) => push_named(text, "SUM", *column),
        AggCall::Min(column) => push_named(text, "MIN", *column),
        AggCall::Max(column) => push_named(text, "MAX", *column),
        AggCall::Avg(column) => push_named(text, "AVG", *column),
    }
}

/// Appends the calls of a grouping.
pub fn push_calls(text: &mut String, calls: &[AggCall]) -> Result<(), NoMemory>
    ensures { OnOk result (string_bytes text.new
        ≡ string_bytes text.old ++ bracketed (map spec.call_text calls.now)) }
{
    text.push('[')?;
    let mut separator = "";
    for call in calls {
        text.push_str(separator)?;
        push_call(text, call)?;
        separator = ", ";
    }
    Ok(text.push(']')?)
}

fn push_direction(text: &mut String, descending: bool) -> Result<(), NoMemory>
    ensures { OnOk result (string_bytes text.new
        ≡ string_bytes text.old ++ spec.direction_text descending) }
{
    let direction = if descending { " DESC" } else { " ASC" };
    Ok(text.push_str(direction)?)
}

fn push_nulls(text: &mut String, first: bool) -> Result<(), NoMemory>
    ensures { OnOk result (string_bytes text.new ≡ string_bytes text.old ++ spec.nulls_text first) }
{
    let place = if first { " NULLS FIRST" } else { " NULLS LAST" };
    Ok(text.push_str(place)?)
}

fn push_key(text: &mut String, key: &SortKey) -> Result<(), NoMemory>
    ensures { OnOk result (string_bytes text.new ≡ string_bytes text.old ++ spec.key_text key.now) }
{
    push_column(text, key.column)?;
    push_direction(text, key.descending)?;
    push_nulls(text, key.nulls_first)
}

/// Appends the keys of an order.
pub fn push_keys(text: &mut String, keys: &[SortKey]) -> Result<(), NoMemory>
    ensures { OnOk result (string_bytes text.new
        ≡ string_bytes text.old ++ bracketed (map spec.key_text keys.now)) }
{
    text.push('[')?;
    let mut separator = "";
    for key in keys {
        text.push_str(separator)?;
        push_key(text, key)?;
        separator = ", ";
    }
    Ok(text.push(']')?)
}

fn push_pair(text: &mut String, pair: (u32, u32)) -> Result<(), NoMemory>
    ensures { OnOk result (string_bytes text.new ≡ string_bytes text.old ++ spec.pair_text pair) }
{
    let (left, right) = pair;
    Ok(write!(text, "#{left}=#{right}")?)
}

/// Appends the keys of a join: a column of the left input and one of the right each.
pub fn push_pairs(text: &mut String, pairs: &[(u32, u32)]) -> Result<(), NoMemory>
    ensures { OnOk result (string_bytes text.new
        ≡ string_bytes text.old ++ bracketed (map spec.pair_text pairs.now)) }
{
    text.push('[')?;
    let mut separator = "";
    for pair in pairs {
        text.push_str(separator)?;
        push_pair(text, *pair)?;
        separator = ", ";
    }
    Ok(text.push(']')?)
}
