//! Whether a declared order meets the keys of another.

ghost use Rattle.std.specs.Prelude.{◌≡◌, [], IfOk};
ghost use Rattle.plan_props.specs.Leaders.{IsTable};
ghost use Rattle.plan_props.specs.Satisfies as spec;

use crate::leaders::{is_same, is_same_as_some, leaders_of};
use crate::properties::Props;
use dfx_value::{NoMemory, SortKey};
use std::alloc::Global;

fn has(columns: &[u32], column: u32) -> bool
    ensures { result ≡ spec.has columns.now column }
{
    for one in columns {
        if *one == column {
            return true;
        }
    }
    false
}

fn is_fixed(props: &Props, table: &[u32], seen: &[u32], column: u32) -> bool
    requires { IsTable props.now.same table.now }
    ensures { result ≡ spec.is_fixed props.now seen.now column }
{
    has(props.constants.as_slice(), column)
        || is_same_as_some(props.same.as_slice(), table, seen, column)
}

/// The keys without those that decide nothing.
fn struck(
    alloc: Global,
    props: &Props,
    table: &[u32],
    keys: &[SortKey],
) -> Result<Vec<SortKey>, NoMemory>
    requires { IsTable props.now.same table.now }
    ensures { IfOk result (λ v. v.items ≡ spec.struck props.now [] keys.now) }
{
    let mut kept = Vec::new(alloc);
    let mut seen = Vec::new(alloc);
    for key in keys {
        if !is_fixed(props, table, &seen, key.column) {
            kept.push(*key)?;
        }
        seen.push(key.column)?;
    }
    Ok(kept)
}

fn same_key(props: &Props, table: &[u32], left: &SortKey, right: &SortKey) -> bool
    requires { IsTable props.now.same table.now }
    ensures { result ≡ spec.same_key props.now left.now right.now }
{
    is_same(props.same.as_slice(), table, left.column, right.column)
        && left.descending == right.descending
        && left.nulls_first == right.nulls_first
}

/// Whether the first list begins the second.
#[tactic(auto, using(crate::proofs::Prefixes::front_too_short))]
fn is_front(props: &Props, table: &[u32], front: &[SortKey], whole: &[SortKey]) -> bool
    requires { IsTable props.now.same table.now }
    ensures { result ≡ spec.is_front props.now front.now whole.now }
{
    for at in 0..front.len() {
        if at >= whole.len() {
            return false;
        }
        if !same_key(props, table, &front[at], &whole[at]) {
            return false;
        }
    }
    true
}

/// Whether rows that stand in the declared order stand in the order of the keys.
#[tactic(auto, unfolding(crate::specs::Satisfies::satisfies_order))]
pub fn satisfies_order(alloc: Global, props: &Props, keys: &[SortKey]) -> Result<bool, NoMemory>
    ensures { IfOk result (λ b. b ≡ spec.satisfies_order props.now keys.now) }
{
    let table = leaders_of(alloc, props.same.as_slice())?;
    let need = struck(alloc, props, &table, keys)?;
    let given = struck(alloc, props, &table, props.ordering.as_slice())?;
    Ok(is_front(props, &table, &need, &given))
}
