//! A table of columns that stand for all that are the same.

ghost use Rattle.std.specs.Prelude.{◌≡◌, ◌<◌, ◌≤◌, ◌^◌, ℕ, IfOk, length, slice_index};
ghost use Rattle.plan_props.specs.Same as same;
ghost use Rattle.plan_props.specs.Leaders.{AllBelow, IsTable, replaced};

use dfx_value::NoMemory;
use std::alloc::Global;

/// Gives every column that has the one leader the other one.
fn relead(table: &mut [u32], from: u32, to: u32)
    ensures { (k : ℕ) → k < length table.old
        → slice_index table.new k ≡ replaced from to (slice_index table.old k) }
{
    for leader in table.iter_mut() {
        if *leader == from {
            *leader = to;
        }
    }
}

fn relead_all(table: &mut Vec<u32>, from: u32, to: u32)
    ensures len { length table.new.items ≡ length table.old.items }
    ensures at { (k : ℕ) → k < length table.old.items
        → slice_index table.new.items k ≡ replaced from to (slice_index table.old.items k) }
{
    relead(table, from, to);
}

/// One more than the greatest column.
fn width_of(pairs: &[(u32, u32)]) -> usize
    ensures below { AllBelow result pairs.now }
    ensures small { result ≤ 2 ^ 32 }
{
    let mut width: usize = 0;
    for pair in pairs {
        width = width.max(pair.0 as usize + 1).max(pair.1 as usize + 1);
    }
    width
}

/// Each column alone.
fn alone(alloc: Global, width: usize) -> Result<Vec<u32>, NoMemory>
    requires { width ≤ 2 ^ 32 }
    ensures len { IfOk result (λ t. length t.items ≡ width) }
    ensures at { IfOk result (λ t. (k : ℕ) → k < width → slice_index t.items k ≡ k) }
{
    let mut table = Vec::with_capacity(alloc, width)?;
    for column in 0..width {
        table.push(column as u32)?;
    }
    Ok(table)
}

/// The leaders of the columns that stand in pairs.
#[tactic(auto, using(crate::proofs::Tables::leader_step, crate::proofs::Tables::leader_all, crate::proofs::Tables::leader_past, crate::proofs::Tables::leader_below, crate::proofs::Tables::leader_first))]
pub(crate) fn leaders_of(alloc: Global, pairs: &[(u32, u32)]) -> Result<Vec<u32>, NoMemory>
    ensures { IfOk result (λ t. IsTable pairs.now t.items) }
{
    let width = width_of(pairs);
    let mut table = alone(alloc, width)?;
    for at in (0..pairs.len()).rev() {
        let (left, right) = pairs[at];
        let to = table[left as usize];
        let from = table[right as usize];
        relead_all(&mut table, from, to);
    }
    Ok(table)
}

fn leader_at(pairs: &[(u32, u32)], table: &[u32], column: u32) -> u32
    requires { IsTable pairs.now table.now }
    ensures { result ≡ same.leader pairs.now column }
{
    if (column as usize) < table.len() {
        table[column as usize]
    } else {
        column
    }
}

/// Whether one column is the other, or a chain of pairs leads to it.
pub(crate) fn is_same(pairs: &[(u32, u32)], table: &[u32], left: u32, right: u32) -> bool
    requires { IsTable pairs.now table.now }
    ensures { result ≡ same.is_same pairs.now left right }
{
    leader_at(pairs, table, left) == leader_at(pairs, table, right)
}

pub(crate) fn is_same_as_some(
    pairs: &[(u32, u32)],
    table: &[u32],
    keys: &[u32],
    column: u32,
) -> bool
    requires { IsTable pairs.now table.now }
    ensures { result ≡ same.is_same_as_some pairs.now keys.now column }
{
    for key in keys {
        if is_same(pairs, table, *key, column) {
            return true;
        }
    }
    false
}

pub(crate) fn are_each_some(
    pairs: &[(u32, u32)],
    table: &[u32],
    keys: &[u32],
    columns: &[u32],
) -> bool
    requires { IsTable pairs.now table.now }
    ensures { result ≡ same.are_each_some pairs.now keys.now columns.now }
{
    for column in columns {
        if !is_same_as_some(pairs, table, keys, *column) {
            return false;
        }
    }
    true
}

#[tactic(auto, using(crate::proofs::Tables::places_differ))]
pub(crate) fn are_same_in_place(
    pairs: &[(u32, u32)],
    table: &[u32],
    keys: &[u32],
    columns: &[u32],
) -> bool
    requires { IsTable pairs.now table.now }
    ensures { result ≡ same.are_same_in_place pairs.now keys.now columns.now }
{
    if keys.len() != columns.len() {
        return false;
    }
    for at in 0..keys.len() {
        if !is_same(pairs, table, keys[at], columns[at]) {
            return false;
        }
    }
    true
}
