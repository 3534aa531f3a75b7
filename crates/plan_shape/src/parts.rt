//! The partitions of a node.

ghost use Rattle.std.specs.Prelude.{◌≡◌, ◌≤◌, ◌++◌, IfOk, OnOk, length, map, drop, replicate};
ghost use Rattle.plan_shape.specs.Layout as spec;

use crate::numbers::numbers_from;
use dfx_value::NoMemory;
use sqlite_items::Items;
use std::alloc::Global;
use std::marker::Model;

/// What one partition of a node needs: the channels that it receives from, by group, then channel, and for each of its
/// consumers of memory whether it can spill, node before inputs.
#[derive(Drop)]
pub(crate) struct Part {
    receives: Items<(u32, u32)>,
    consumers: Items<bool>,
}

impl Model for Part {
    ghost use Rattle.plan_shape.specs.Layout.{Part};

    ghost Value = { Part };

    ghost view = { λ p. record { receives = p.receives; consumers = p.consumers } };
}

impl Part {
    pub(crate) fn receives(&self) -> &[(u32, u32)]
        ensures { result.now ≡ self.now.receives }
    {
        self.receives.as_slice()
    }

    pub(crate) fn consumers(&self) -> &[bool]
        ensures { result.now ≡ self.now.consumers }
    {
        self.consumers.as_slice()
    }
}

/// A part that receives from nobody and consumes nothing.
fn bare(alloc: Global) -> Part
    ensures { result ≡ spec.bare }
{
    Part {
        receives: Items::new(alloc),
        consumers: Items::new(alloc),
    }
}

#[tactic(auto, using(crate::proofs::Steps::bare_step, crate::proofs::Steps::bare_end))]
pub(crate) fn bare_parts(alloc: Global, count: u32) -> Result<Items<Part>, NoMemory>
    ensures { IfOk result (λ ps. ps ≡ replicate count spec.bare) }
{
    let mut all = Items::new(alloc);
    for _at in 0..count {
        all.push(bare(alloc))?;
    }
    Ok(all)
}

/// A part that receives from one channel of a group.
fn reader(alloc: Global, group: u32, channel: u32) -> Result<Part, NoMemory>
    ensures { IfOk result (λ p. p ≡ spec.reader group channel) }
{
    let receives = Items::from_slice(alloc, &[(group, channel)])?;
    Ok(Part {
        receives,
        consumers: Items::new(alloc),
    })
}

/// A part for each channel of a group.
pub(crate) fn readers(alloc: Global, group: u32, count: u32) -> Result<Items<Part>, NoMemory>
    ensures { IfOk result (λ ps. ps ≡ spec.readers group count) }
{
    let channels = numbers_from(alloc, 0, count)?;
    let mut all = Items::new(alloc);
    for channel in channels.as_slice() {
        all.push(reader(alloc, group, *channel)?)?;
    }
    Ok(all)
}

/// A part that receives from all channels of a group.
pub(crate) fn merger(alloc: Global, group: u32, count: u32) -> Result<Part, NoMemory>
    ensures { IfOk result (λ p. p ≡ spec.merger group count) }
{
    let channels = numbers_from(alloc, 0, count)?;
    let mut receives = Items::new(alloc);
    for channel in channels.as_slice() {
        receives.push((group, *channel))?;
    }
    Ok(Part {
        receives,
        consumers: Items::new(alloc),
    })
}

fn copied_channels(alloc: Global, part: &Part) -> Result<Items<(u32, u32)>, NoMemory>
    ensures { IfOk result (λ v. v ≡ part.now.receives) }
{
    Ok(Items::from_slice(alloc, part.receives())?)
}

fn copied_consumers(alloc: Global, part: &Part) -> Result<Items<bool>, NoMemory>
    ensures { IfOk result (λ v. v ≡ part.now.consumers) }
{
    Ok(Items::from_slice(alloc, part.consumers())?)
}

/// The part with one more consumer, in front.
fn consuming(alloc: Global, spillable: bool, part: &Part) -> Result<Part, NoMemory>
    ensures { IfOk result (λ p. p ≡ spec.consuming spillable part.now) }
{
    let mut consumers = Items::from_slice(alloc, &[spillable])?;
    consumers.append(copied_consumers(alloc, part)?)?;
    let receives = copied_channels(alloc, part)?;
    Ok(Part {
        receives,
        consumers,
    })
}

pub(crate) fn all_consuming(
    alloc: Global,
    spillable: bool,
    parts: &[Part],
) -> Result<Items<Part>, NoMemory>
    ensures { IfOk result (λ ps. ps ≡ map (spec.consuming spillable) parts.now) }
{
    let mut all = Items::new(alloc);
    for part in parts {
        all.push(consuming(alloc, spillable, part)?)?;
    }
    Ok(all)
}

fn copied(alloc: Global, part: &Part) -> Result<Part, NoMemory>
    ensures { IfOk result (λ p. p ≡ part.now) }
{
    let receives = copied_channels(alloc, part)?;
    let consumers = copied_consumers(alloc, part)?;
    Ok(Part {
        receives,
        consumers,
    })
}

fn side_by_side(alloc: Global, left: &Part, right: &Part) -> Result<Part, NoMemory>
    ensures { IfOk result (λ p. p ≡ spec.side_by_side left.now right.now) }
{
    let mut receives = copied_channels(alloc, left)?;
    receives.append(copied_channels(alloc, right)?)?;
    let mut consumers = copied_consumers(alloc, left)?;
    consumers.append(copied_consumers(alloc, right)?)?;
    Ok(Part {
        receives,
        consumers,
    })
}

/// Appends the parts from one on.
fn append_from(
    alloc: Global,
    all: &mut Items<Part>,
    parts: &[Part],
    from: usize,
) -> Result<(), NoMemory>
    requires { from ≤ length parts.now }
    ensures { OnOk result (all.new ≡ all.old ++ drop from parts.now) }
{
    for at in from..parts.len() {
        all.push(copied(alloc, &parts[at])?)?;
    }
    Ok(())
}

/// Partition by partition; what is left over stands alone.
#[tactic(auto, using(crate::proofs::Steps::beside_end))]
pub(crate) fn beside(alloc: Global, left: &[Part], right: &[Part]) -> Result<Items<Part>, NoMemory>
    ensures { IfOk result (λ ps. ps ≡ spec.beside left.now right.now) }
{
    let both = left.len().min(right.len());
    let mut all = Items::new(alloc);
    for at in 0..both {
        all.push(side_by_side(alloc, &left[at], &right[at])?)?;
    }
    append_from(alloc, &mut all, left, both)?;
    append_from(alloc, &mut all, right, both)?;
    Ok(all)
}
