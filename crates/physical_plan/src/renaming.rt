//! Columns and their new places.

ghost use Rattle.std.specs.Prelude.{◌≡◌, ◌≤◌, ◌^◌, ◌++◌, IfOk, length};
ghost use Rattle.std.specs.List.{filter_map};
ghost use Rattle.physical_plan.specs.Properties as spec;

use crate::facts::fact_of;
use dfx_value::{NoMemory, SortKey};
use plan_props::Partitioning;
use scalar_exprs::Expr;
use sqlite_items::Items;
use std::alloc::Global;

/// The number, where it fits.
pub(crate) fn small(count: usize) -> Result<u32, NoMemory>
    ensures { IfOk result (λ n. n ≡ count) }
{
    match u32::try_from(count) {
        Ok(small) => Ok(small),
        Err(_) => Err(NoMemory),
    }
}

fn is_column(item: Option<u32>, column: u32) -> bool
    ensures { result ≡ spec.is_column item column }
{
    match item {
        None => false,
        Some(one) => one == column,
    }
}

/// The place of the first item that is the column.
fn place_in(items: &[Option<u32>], column: u32) -> Option<u32>
    requires { length items.now ≤ 2 ^ 32 }
    ensures { result ≡ spec.place_in items.now column }
{
    for at in 0..items.len() {
        if is_column(items[at], column) {
            return Some(at as u32);
        }
    }
    None
}

/// The columns that items are.
pub(crate) fn item_columns(alloc: Global, items: &[Expr]) -> Result<Vec<Option<u32>>, NoMemory>
    ensures { IfOk result (λ v. v.items ≡ spec.item_columns items.now) }
{
    let mut columns = Vec::with_capacity(alloc, items.len())?;
    for item in items {
        let fact = fact_of(alloc, item)?;
        columns.push(fact.column)?;
    }
    Ok(columns)
}

pub(crate) fn kept_columns(alloc: Global, keys: &[u32]) -> Result<Vec<Option<u32>>, NoMemory>
    ensures { IfOk result (λ v. v.items ≡ spec.kept_columns keys.now) }
{
    let mut columns = Vec::with_capacity(alloc, keys.len())?;
    for key in keys {
        columns.push(Some(*key))?;
    }
    Ok(columns)
}

/// Appends the places of the constants among items.
pub(crate) fn push_literals(
    alloc: Global,
    items: &[Expr],
    mut places: Items<u32>,
) -> Result<Items<u32>, NoMemory>
    requires { length items.now ≤ 2 ^ 32 }
    ensures { IfOk result (λ v. v ≡ places ++ spec.literals_from 0 items.now) }
{
    for at in 0..items.len() {
        let fact = fact_of(alloc, &items[at])?;
        if fact.literal {
            places.push(at as u32)?;
        }
    }
    Ok(places)
}

/// All columns at their new places, where each has one.
fn all_renamed(
    alloc: Global,
    items: &[Option<u32>],
    columns: &[u32],
) -> Result<Option<Items<u32>>, NoMemory>
    requires { length items.now ≤ 2 ^ 32 }
    ensures { IfOk result (λ o. o ≡ spec.all_renamed (spec.place_in items.now) columns.now) }
{
    let mut renamed = Items::new(alloc);
    for column in columns {
        match place_in(items, *column) {
            Some(place) => renamed.push(place)?,
            None => return Ok(None),
        }
    }
    Ok(Some(renamed))
}

pub(crate) fn partitioning_renamed(
    alloc: Global,
    items: &[Option<u32>],
    partitioning: Partitioning,
) -> Result<Partitioning, NoMemory>
    requires { length items.now ≤ 2 ^ 32 }
    ensures { IfOk result
        (λ p. p ≡ spec.partitioning_renamed (spec.place_in items.now) partitioning) }
{
    match partitioning {
        Partitioning::Hash(columns, count) => {
            match all_renamed(alloc, items, columns.as_slice())? {
                Some(renamed) => Ok(Partitioning::Hash(renamed, count)),
                None => Ok(Partitioning::Unknown(count)),
            }
        }
        Partitioning::Single => Ok(Partitioning::Single),
        Partitioning::RoundRobin(count) => Ok(Partitioning::RoundRobin(count)),
        Partitioning::Unknown(count) => Ok(Partitioning::Unknown(count)),
    }
}

/// The longest front of keys whose columns have new places.
pub(crate) fn keys_renamed(
    alloc: Global,
    items: &[Option<u32>],
    keys: &[SortKey],
) -> Result<Items<SortKey>, NoMemory>
    requires { length items.now ≤ 2 ^ 32 }
    ensures { IfOk result (λ v. v ≡ spec.keys_renamed (spec.place_in items.now) keys.now) }
{
    let mut renamed = Items::new(alloc);
    for key in keys {
        match place_in(items, key.column) {
            Some(column) => renamed.push(SortKey { column, ..*key })?,
            None => return Ok(renamed),
        }
    }
    Ok(renamed)
}

pub(crate) fn pairs_renamed(
    alloc: Global,
    items: &[Option<u32>],
    pairs: &[(u32, u32)],
) -> Result<Items<(u32, u32)>, NoMemory>
    requires { length items.now ≤ 2 ^ 32 }
    ensures { IfOk result (λ v. v ≡ spec.pairs_renamed (spec.place_in items.now) pairs.now) }
{
    let mut renamed = Items::new(alloc);
    for pair in pairs {
        if let Some(left) = place_in(items, pair.0) {
            if let Some(right) = place_in(items, pair.1) {
                renamed.push((left, right))?;
            }
        }
    }
    Ok(renamed)
}

pub(crate) fn columns_renamed(
    alloc: Global,
    items: &[Option<u32>],
    columns: &[u32],
) -> Result<Items<u32>, NoMemory>
    requires { length items.now ≤ 2 ^ 32 }
    ensures { IfOk result (λ v. v ≡ filter_map (spec.place_in items.now) columns.now) }
{
    let mut renamed = Items::new(alloc);
    for column in columns {
        if let Some(place) = place_in(items, *column) {
            renamed.push(place)?;
        }
    }
    Ok(renamed)
}
