//! Whether declared properties meet a need of distribution.

ghost use Rattle.std.specs.Prelude.{◌≡◌, ◌==◌, IfOk};
ghost use Rattle.plan_props.specs.Satisfies as spec;

use crate::leaders::{are_each_some, are_same_in_place, leaders_of};
use crate::properties::{Distribution, Partitioning, Props};
use dfx_value::NoMemory;
use std::alloc::Global;

/// How many partitions there are.
pub fn partition_count(partitioning: &Partitioning) -> u32
    ensures { result ≡ spec.partition_count partitioning.now }
{
    match partitioning {
        Partitioning::Single => 1,
        Partitioning::RoundRobin(count) => *count,
        Partitioning::Hash(_, count) => *count,
        Partitioning::Unknown(count) => *count,
    }
}

fn has_count(partitioning: &Partitioning, count: u32) -> bool
    ensures { result ≡ spec.partition_count partitioning.now == count }
{
    partition_count(partitioning) == count
}

fn hashed_by_some(
    alloc: Global,
    pairs: &[(u32, u32)],
    keys: &[u32],
    partitioning: &Partitioning,
) -> Result<bool, NoMemory>
    ensures { IfOk result (λ b. b ≡ spec.hashed_by_some pairs.now keys.now partitioning.now) }
{
    match partitioning {
        Partitioning::Single => Ok(true),
        Partitioning::RoundRobin(_) => Ok(false),
        Partitioning::Hash(columns, _) => {
            let table = leaders_of(alloc, pairs)?;
            Ok(are_each_some(pairs, &table, keys, columns.as_slice()))
        }
        Partitioning::Unknown(_) => Ok(false),
    }
}

fn hashed_by_each(
    alloc: Global,
    pairs: &[(u32, u32)],
    keys: &[u32],
    partitioning: &Partitioning,
) -> Result<bool, NoMemory>
    ensures { IfOk result (λ b. b ≡ spec.hashed_by_each pairs.now keys.now partitioning.now) }
{
    match partitioning {
        Partitioning::Single => Ok(true),
        Partitioning::Hash(columns, _) => {
            let table = leaders_of(alloc, pairs)?;
            Ok(are_same_in_place(pairs, &table, keys, columns.as_slice()))
        }
        Partitioning::RoundRobin(_) | Partitioning::Unknown(_) => Ok(false),
    }
}

/// Whether the properties satisfy the need.
#[tactic(auto, unfolding(crate::specs::Satisfies::satisfies_distribution))]
pub fn satisfies_distribution(
    alloc: Global,
    props: &Props,
    need: &Distribution,
) -> Result<bool, NoMemory>
    ensures { IfOk result (λ b. b ≡ spec.satisfies_distribution props.now need.now) }
{
    let same = props.same.as_slice();
    match need {
        Distribution::Unspecified => Ok(true),
        Distribution::Single => Ok(partition_count(&props.partitioning) == 1),
        Distribution::Hash(keys, count) => {
            if !has_count(&props.partitioning, *count) {
                return Ok(false);
            }
            hashed_by_some(alloc, same, keys.as_slice(), &props.partitioning)
        }
        Distribution::JoinHash(keys, count) => {
            if !has_count(&props.partitioning, *count) {
                return Ok(false);
            }
            hashed_by_each(alloc, same, keys.as_slice(), &props.partitioning)
        }
    }
}
