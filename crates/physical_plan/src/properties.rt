//! What a plan declares of its rows.

ghost use Rattle.std.specs.Prelude.{◌≡◌, ◌+◌, IfOk, length, map, sum, []};
ghost use Rattle.physical_plan.specs.Properties as spec;

use crate::facts::{Fact, fact_of};
use crate::joins::hash_joined;
use crate::plan::Plan;
use crate::renaming::{
    columns_renamed, item_columns, kept_columns, keys_renamed, pairs_renamed, partitioning_renamed,
    push_literals, small,
};
use dfx_value::{AggCall, Kind, NoMemory, SortKey};
use plan_props::{Partitioning, Props, partition_count};
use scalar_exprs::Expr;
use sqlite_items::Items;
use std::alloc::Global;

/// How many columns rows have, and what is declared of them.
#[derive(Drop)]
pub struct Declared {
    pub width: u32,
    pub props: Props,
}

/// One partition is always Single.
pub(crate) fn or_single(partitioning: Partitioning) -> Partitioning
    ensures { result ≡ spec.or_single partitioning }
{
    if partition_count(&partitioning) == 1 {
        Partitioning::Single
    } else {
        partitioning
    }
}

pub(crate) fn copy_partitioning(
    alloc: Global,
    partitioning: &Partitioning,
) -> Result<Partitioning, NoMemory>
    ensures { IfOk result (λ p. p ≡ partitioning.now) }
{
    match partitioning {
        Partitioning::Single => Ok(Partitioning::Single),
        Partitioning::RoundRobin(count) => Ok(Partitioning::RoundRobin(*count)),
        Partitioning::Hash(columns, count) => {
            Ok(Partitioning::Hash(Items::from_slice(alloc, columns.as_slice())?, *count))
        }
        Partitioning::Unknown(count) => Ok(Partitioning::Unknown(*count)),
    }
}

/// The sum, where it fits.
pub(crate) fn sum_of(left: u32, right: u32) -> Result<u32, NoMemory>
    ensures { IfOk result (λ n. n ≡ spec.plus left right) }
{
    match left.checked_add(right) {
        Some(sum) => Ok(sum),
        None => Err(NoMemory),
    }
}

/// Columns of which nothing is known but their number, and how many partitions there are.
fn scattered(alloc: Global, width: u32, partitions: u32) -> Declared
    ensures { result ≡ spec.scattered width partitions }
{
    Declared {
        width,
        props: Props {
            partitioning: or_single(Partitioning::Unknown(partitions)),
            ordering: Items::new(alloc),
            same: Items::new(alloc),
            constants: Items::new(alloc),
        },
    }
}

fn scanned(alloc: Global, kinds: &[Kind], partitions: u32) -> Result<Declared, NoMemory>
    ensures { IfOk result (λ d. d ≡ spec.scattered (length kinds.now) partitions) }
{
    Ok(scattered(alloc, small(kinds.len())?, partitions))
}

fn filtered(alloc: Global, test: &Expr, input: Declared) -> Result<Declared, NoMemory>
    ensures { IfOk result (λ d. d ≡ spec.filtered test.now input) }
{
    let Fact {
        column: _,
        literal: _,
        same: pairs,
        constants: columns,
    } = fact_of(alloc, test)?;
    let Declared { width, props } = input;
    let Props {
        partitioning,
        ordering,
        mut same,
        mut constants,
    } = props;
    same.append(pairs)?;
    constants.append(columns)?;
    Ok(Declared {
        width,
        props: Props {
            partitioning,
            ordering,
            same,
            constants,
        },
    })
}

fn projected(alloc: Global, items: &[Expr], input: Declared) -> Result<Declared, NoMemory>
    ensures { IfOk result (λ d. d ≡ spec.projected items.now input) }
{
    let width = small(items.len())?;
    let places = item_columns(alloc, items)?;
    let Declared { width: _, props } = input;
    let Props {
        partitioning,
        ordering,
        same,
        constants,
    } = props;
    let kept = columns_renamed(alloc, &places, constants.as_slice())?;
    Ok(Declared {
        width,
        props: Props {
            partitioning: partitioning_renamed(alloc, &places, partitioning)?,
            ordering: keys_renamed(alloc, &places, ordering.as_slice())?,
            same: pairs_renamed(alloc, &places, same.as_slice())?,
            constants: push_literals(alloc, items, kept)?,
        },
    })
}

fn state_width(call: &AggCall) -> u32
    ensures { result ≡ spec.state_width call.now }
{
    match call {
        AggCall::CountAll => 2,
        AggCall::Count(_) => 2,
        AggCall::Sum(_) => 4,
        AggCall::Avg(_) => 4,
        AggCall::Min(_) => 1,
        AggCall::Max(_) => 1,
    }
}

fn states_width(calls: &[AggCall]) -> Result<u32, NoMemory>
    ensures { IfOk result (λ n. n ≡ sum (map spec.state_width calls.now)) }
{
    let mut width = 0;
    for call in calls {
        width = sum_of(width, state_width(call))?;
    }
    Ok(width)
}

fn grouped(alloc: Global, width: u32, keys: &[u32], input: Declared) -> Result<Declared, NoMemory>
    ensures { IfOk result (λ d. d ≡ spec.grouped width keys.now input) }
{
    small(keys.len())?;
    let places = kept_columns(alloc, keys)?;
    let Declared { width: _, props } = input;
    let Props {
        partitioning,
        ordering: _,
        same,
        constants,
    } = props;
    Ok(Declared {
        width,
        props: Props {
            partitioning: partitioning_renamed(alloc, &places, partitioning)?,
            ordering: Items::new(alloc),
            same: pairs_renamed(alloc, &places, same.as_slice())?,
            constants: columns_renamed(alloc, &places, constants.as_slice())?,
        },
    })
}

fn first_phase(
    alloc: Global,
    keys: &[u32],
    calls: &[AggCall],
    input: Declared,
) -> Result<Declared, NoMemory>
    ensures { IfOk result
        (λ d. d ≡ spec.grouped
        (length keys.now + sum (map spec.state_width calls.now)) keys.now input) }
{
    let width = sum_of(small(keys.len())?, states_width(calls)?)?;
    grouped(alloc, width, keys, input)
}

fn last_phase(
    alloc: Global,
    keys: &[u32],
    calls: &[AggCall],
    input: Declared,
) -> Result<Declared, NoMemory>
    ensures { IfOk result
        (λ d. d ≡ spec.grouped (length keys.now + length calls.now) keys.now input) }
{
    let width = sum_of(small(keys.len())?, small(calls.len())?)?;
    grouped(alloc, width, keys, input)
}

fn sorted(alloc: Global, keys: &[SortKey], input: Declared) -> Result<Declared, NoMemory>
    ensures { IfOk result (λ d. d ≡ spec.sorted keys.now input) }
{
    let Declared { width, props } = input;
    let Props {
        partitioning,
        ordering: _,
        same,
        constants,
    } = props;
    let ordering = Items::from_slice(alloc, keys)?;
    Ok(Declared {
        width,
        props: Props {
            partitioning,
            ordering,
            same,
            constants,
        },
    })
}

fn merged(alloc: Global, keys: &[SortKey], input: Declared) -> Result<Declared, NoMemory>
    ensures { IfOk result (λ d. d ≡ spec.merged keys.now input) }
{
    let Declared { width, props } = input;
    let Props {
        partitioning: _,
        ordering: _,
        same,
        constants,
    } = props;
    let ordering = Items::from_slice(alloc, keys)?;
    Ok(Declared {
        width,
        props: Props {
            partitioning: Partitioning::Single,
            ordering,
            same,
            constants,
        },
    })
}

fn coalesced(alloc: Global, input: Declared) -> Result<Declared, NoMemory>
    ensures { IfOk result (λ d. d ≡ spec.merged [] input) }
{
    merged(alloc, &[], input)
}

/// The order, where it was that of one partition.
fn kept_order(
    alloc: Global,
    partitioning: &Partitioning,
    ordering: Items<SortKey>,
) -> Items<SortKey>
    ensures { result ≡ spec.kept_order partitioning.now ordering }
{
    if partition_count(partitioning) == 1 {
        ordering
    } else {
        Items::new(alloc)
    }
}

fn repartitioned(alloc: Global, to: &Partitioning, input: Declared) -> Result<Declared, NoMemory>
    ensures { IfOk result (λ d. d ≡ spec.repartitioned to.now input) }
{
    let Declared { width, props } = input;
    let Props {
        partitioning,
        ordering,
        same,
        constants,
    } = props;
    let ordering = kept_order(alloc, &partitioning, ordering);
    let partitioning = or_single(copy_partitioning(alloc, to)?);
    Ok(Declared {
        width,
        props: Props {
            partitioning,
            ordering,
            same,
            constants,
        },
    })
}

fn first_or(first: Option<u32>, width: u32) -> Option<u32>
    ensures { result ≡ spec.first_or first width }
{
    match first {
        Some(known) => Some(known),
        None => Some(width),
    }
}

fn known_or(first: Option<u32>) -> u32
    ensures { result ≡ spec.width_after first [] }
{
    match first {
        Some(known) => known,
        None => 0,
    }
}

#[cycle(declare)]
#[tactic(auto, using(crate::proofs::Sums::sum_rest))]
fn united(alloc: Global, inputs: &[Plan]) -> Result<Declared, NoMemory>
    ensures { IfOk result (λ d. d ≡ spec.united (map spec.declared_of inputs.now)) }
{
    let mut first = None;
    let mut total = 0;
    for input in inputs {
        let Declared { width, props } = declared_of(alloc, input)?;
        first = first_or(first, width);
        total = sum_of(total, partition_count(&props.partitioning))?;
    }
    Ok(scattered(alloc, known_or(first), total))
}

/// What a plan declares of its rows, and how many columns these have.
#[cycle(declare)]
#[tactic(auto, using(crate::proofs::Nodes::declared_nodes))]
fn declared_of(alloc: Global, plan: &Plan) -> Result<Declared, NoMemory>
    ensures { IfOk result (λ d. d ≡ spec.declared_of plan.now) }
{
    match plan {
        Plan::Scan {
            table: _,
            kinds,
            files: _,
            partitions,
        } => { scanned(alloc, kinds.as_slice(), *partitions) }
        Plan::Filter { input, test } => {
            let input = declared_of(alloc, input.get())?;
            filtered(alloc, test, input)
        }
        Plan::Project { input, items } => {
            let input = declared_of(alloc, input.get())?;
            projected(alloc, items.as_slice(), input)
        }
        Plan::PartialGroup { input, keys, calls } => {
            let input = declared_of(alloc, input.get())?;
            first_phase(alloc, keys.as_slice(), calls.as_slice(), input)
        }
        Plan::FinalGroup { input, keys, calls } => {
            let input = declared_of(alloc, input.get())?;
            last_phase(alloc, keys.as_slice(), calls.as_slice(), input)
        }
        Plan::HashJoin {
            kind,
            left,
            right,
            keys,
            rest: _,
        } => {
            let left = declared_of(alloc, left.get())?;
            let right = declared_of(alloc, right.get())?;
            hash_joined(alloc, *kind, keys.as_slice(), left, right)
        }
        Plan::Sort { input, keys } => {
            let input = declared_of(alloc, input.get())?;
            sorted(alloc, keys.as_slice(), input)
        }
        Plan::Merge { input, keys } => {
            let input = declared_of(alloc, input.get())?;
            merged(alloc, keys.as_slice(), input)
        }
        Plan::Coalesce { input } => {
            let input = declared_of(alloc, input.get())?;
            coalesced(alloc, input)
        }
        Plan::Repartition { input, to } => {
            let input = declared_of(alloc, input.get())?;
            repartitioned(alloc, to, input)
        }
        Plan::UnionAll { inputs } => united(alloc, inputs.as_slice()),
        Plan::Limit {
            input,
            skip: _,
            fetch: _,
        } => declared_of(alloc, input.get()),
    }
}

/// What a plan declares of its rows.
pub fn props(alloc: Global, plan: &Plan) -> Result<Props, NoMemory>
    ensures { IfOk result (λ p. p ≡ spec.props plan.now) }
{
    let Declared { width: _, props } = declared_of(alloc, plan)?;
    Ok(props)
}
