//! What a join declares of its rows.

ghost use Rattle.std.specs.Prelude.{◌≡◌, ◌++◌, IfOk, map};
ghost use Rattle.physical_plan.specs.Properties as spec;

use crate::properties::{Declared, or_single, sum_of};
use dfx_value::{JoinKind, NoMemory};
use plan_props::{Partitioning, Props, partition_count};
use sqlite_items::Items;
use std::alloc::Global;

/// The left keys of a join.
pub fn left_keys(alloc: Global, keys: &[(u32, u32)]) -> Result<Items<u32>, NoMemory>
    ensures { IfOk result (λ v. v ≡ spec.left_keys keys.now) }
{
    let mut columns = Items::new(alloc);
    for key in keys {
        columns.push(key.0)?;
    }
    Ok(columns)
}

/// The right keys of a join.
pub fn right_keys(alloc: Global, keys: &[(u32, u32)]) -> Result<Items<u32>, NoMemory>
    ensures { IfOk result (λ v. v ≡ spec.right_keys keys.now) }
{
    let mut columns = Items::new(alloc);
    for key in keys {
        columns.push(key.1)?;
    }
    Ok(columns)
}

/// The right input's columns behind the left input's.
fn shifted_columns(alloc: Global, width: u32, columns: &[u32]) -> Result<Items<u32>, NoMemory>
    ensures { IfOk result (λ v. v ≡ spec.shifted_columns width columns.now) }
{
    let mut shifted = Items::new(alloc);
    for column in columns {
        shifted.push(sum_of(width, *column)?)?;
    }
    Ok(shifted)
}

fn shifted(alloc: Global, width: u32, pairs: &[(u32, u32)]) -> Result<Items<(u32, u32)>, NoMemory>
    ensures { IfOk result (λ v. v ≡ spec.shifted width pairs.now) }
{
    let mut shifted = Items::new(alloc);
    for pair in pairs {
        shifted.push((sum_of(width, pair.0)?, sum_of(width, pair.1)?))?;
    }
    Ok(shifted)
}

fn joined_pairs(
    alloc: Global,
    width: u32,
    keys: &[(u32, u32)],
) -> Result<Items<(u32, u32)>, NoMemory>
    ensures { IfOk result (λ v. v ≡ spec.joined_pairs width keys.now) }
{
    let mut pairs = Items::new(alloc);
    for key in keys {
        pairs.push((key.0, sum_of(width, key.1)?))?;
    }
    Ok(pairs)
}

fn join_partitioning(
    alloc: Global,
    kind: JoinKind,
    width: u32,
    keys: &[(u32, u32)],
    count: u32,
) -> Result<Partitioning, NoMemory>
    ensures { IfOk result (λ p. p ≡ spec.join_partitioning kind width keys.now count) }
{
    match kind {
        JoinKind::Inner => Ok(Partitioning::Hash(left_keys(alloc, keys)?, count)),
        JoinKind::Left => Ok(Partitioning::Hash(left_keys(alloc, keys)?, count)),
        JoinKind::Right => {
            let rights = right_keys(alloc, keys)?;
            Ok(Partitioning::Hash(shifted_columns(alloc, width, rights.as_slice())?, count))
        }
        JoinKind::Full => Ok(Partitioning::Unknown(count)),
    }
}

/// The pairs of the sides that aren't padded, and the keys where neither is.
fn join_same(
    alloc: Global,
    kind: JoinKind,
    width: u32,
    keys: &[(u32, u32)],
    left: Items<(u32, u32)>,
    right: Items<(u32, u32)>,
) -> Result<Items<(u32, u32)>, NoMemory>
    ensures { IfOk result (λ v. v ≡ spec.join_same kind width keys.now left right) }
{
    match kind {
        JoinKind::Inner => {
            let mut same = left;
            let mut more = shifted(alloc, width, right.as_slice())?;
            more.append(joined_pairs(alloc, width, keys)?)?;
            same.append(more)?;
            Ok(same)
        }
        JoinKind::Left => Ok(left),
        JoinKind::Right => shifted(alloc, width, right.as_slice()),
        JoinKind::Full => Ok(Items::new(alloc)),
    }
}

/// The constants of the sides that aren't padded.
fn join_constants(
    alloc: Global,
    kind: JoinKind,
    width: u32,
    left_constants: Items<u32>,
    right_constants: Items<u32>,
) -> Result<Items<u32>, NoMemory>
    ensures { IfOk result (λ v. v ≡ spec.join_constants kind width left_constants right_constants) }
{
    match kind {
        JoinKind::Inner => {
            let mut constants = left_constants;
            constants.append(shifted_columns(alloc, width, right_constants.as_slice())?)?;
            Ok(constants)
        }
        JoinKind::Left => Ok(left_constants),
        JoinKind::Right => shifted_columns(alloc, width, right_constants.as_slice()),
        JoinKind::Full => Ok(Items::new(alloc)),
    }
}

pub(crate) fn hash_joined(
    alloc: Global,
    kind: JoinKind,
    keys: &[(u32, u32)],
    left: Declared,
    right: Declared,
) -> Result<Declared, NoMemory>
    ensures { IfOk result (λ d. d ≡ spec.hash_joined kind keys.now left right) }
{
    let Declared { width, props } = left;
    let Props {
        partitioning,
        ordering: _,
        same,
        constants,
    } = props;
    let Declared { width: more, props } = right;
    let Props {
        partitioning: _,
        ordering: _,
        same: right_same,
        constants: right_constants,
    } = props;
    let count = partition_count(&partitioning);
    Ok(Declared {
        width: sum_of(width, more)?,
        props: Props {
            partitioning: or_single(join_partitioning(alloc, kind, width, keys, count)?),
            ordering: Items::new(alloc),
            same: join_same(alloc, kind, width, keys, same, right_same)?,
            constants: join_constants(alloc, kind, width, constants, right_constants)?,
        },
    })
}
