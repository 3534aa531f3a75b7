//! A subtree's partitions and stages.

ghost use Rattle.std.specs.Prelude.{◌≡◌, ◌+◌, ◌∷◌, [], IfOk, length, map};
ghost use Rattle.physical_plan.specs.Numbers.{numbers};
ghost use Rattle.plan_shape.specs.Layout as spec;

use crate::numbers::{numbers_from, small, sum_of};
use crate::parts::{Part, all_consuming, bare_parts, beside, merger, readers};
use dfx_value::NoMemory;
use physical_plan::Plan;
use plan_props::partition_count;
use sqlite_items::Items;
use std::alloc::Global;
use std::marker::Model;

/// A stage: the partitions of its top node, for each task the channels that it sends to, and how many channels its group has.
#[derive(Drop)]
pub(crate) struct Stage {
    parts: Items<Part>,
    targets: Items<Items<u32>>,
    width: u32,
}

impl Model for Stage {
    ghost use Rattle.plan_shape.specs.Layout.{Stage};

    ghost Value = { Stage };

    ghost view = { λ s. record { parts = s.parts; targets = s.targets; width = s.width } };
}

impl Stage {
    pub(crate) fn parts(&self) -> &[Part]
        ensures { result.now ≡ self.now.parts }
    {
        self.parts.as_slice()
    }

    pub(crate) fn targets(&self) -> &[Items<u32>]
        ensures { result.now ≡ self.now.targets }
    {
        self.targets.as_slice()
    }

    pub(crate) fn width(&self) -> u32
        ensures { result ≡ self.now.width }
    {
        self.width
    }
}

/// A subtree: its partitions, and the stages that open in it, in order.
#[derive(Drop)]
pub(crate) struct Laid {
    parts: Items<Part>,
    stages: Items<Stage>,
}

impl Model for Laid {
    ghost use Rattle.plan_shape.specs.Layout.{Laid};

    ghost Value = { Laid };

    ghost view = { λ l. record { parts = l.parts; stages = l.stages } };
}

/// The input of an exchange is a stage of its own.
fn opened(
    alloc: Global,
    above: Items<Part>,
    targets: Items<Items<u32>>,
    width: u32,
    below: Laid,
) -> Result<Laid, NoMemory>
    ensures { IfOk result (λ l. l ≡ spec.opened above targets width below) }
{
    let Laid {
        parts,
        stages: inner,
    } = below;
    let mut stages = Items::new(alloc);
    stages.push(Stage {
        parts,
        targets,
        width,
    })?;
    stages.append(inner)?;
    Ok(Laid {
        parts: above,
        stages,
    })
}

/// Each task sends to all channels.
fn to_all(alloc: Global, parts: &[Part], count: u32) -> Result<Items<Items<u32>>, NoMemory>
    ensures { IfOk result (λ ts. ts ≡ map (λ p. numbers count) parts.now) }
{
    let mut all = Items::new(alloc);
    for _part in parts {
        all.push(numbers_from(alloc, 0, count)?)?;
    }
    Ok(all)
}

/// Each task sends to the only channel.
fn to_first(alloc: Global, parts: &[Part]) -> Result<Items<Items<u32>>, NoMemory>
    ensures { IfOk result (λ ts. ts ≡ map (λ p. 0 ∷ []) parts.now) }
{
    let mut all = Items::new(alloc);
    for _part in parts {
        all.push(Items::from_slice(alloc, &[0])?)?;
    }
    Ok(all)
}

/// Each task sends to the channel of its own number.
fn to_own(alloc: Global, count: u32) -> Result<Items<Items<u32>>, NoMemory>
    ensures { IfOk result (λ ts. ts ≡ map (λ c. c ∷ []) (numbers count)) }
{
    let channels = numbers_from(alloc, 0, count)?;
    let mut all = Items::new(alloc);
    for channel in channels.as_slice() {
        all.push(Items::from_slice(alloc, &[*channel])?)?;
    }
    Ok(all)
}

fn exchanged(alloc: Global, count: u32, stage: u32, below: Laid) -> Result<Laid, NoMemory>
    ensures { IfOk result (λ l. l ≡ spec.exchanged count stage below) }
{
    let above = readers(alloc, stage, count)?;
    let targets = to_all(alloc, below.parts.as_slice(), count)?;
    opened(alloc, above, targets, count, below)
}

fn coalesced(alloc: Global, stage: u32, below: Laid) -> Result<Laid, NoMemory>
    ensures { IfOk result (λ l. l ≡ spec.coalesced stage below) }
{
    let above = readers(alloc, stage, 1)?;
    let targets = to_first(alloc, below.parts.as_slice())?;
    opened(alloc, above, targets, 1, below)
}

fn merging(alloc: Global, stage: u32, below: Laid) -> Result<Laid, NoMemory>
    ensures { IfOk result (λ l. l ≡ spec.merging stage below) }
{
    let count = small(below.parts.len())?;
    let mut above = Items::new(alloc);
    above.push(merger(alloc, stage, count)?)?;
    let targets = to_own(alloc, count)?;
    opened(alloc, above, targets, count, below)
}

fn with_consumer(alloc: Global, spillable: bool, below: Laid) -> Result<Laid, NoMemory>
    ensures { IfOk result (λ l. l ≡ spec.with_consumer spillable below) }
{
    let Laid { parts, stages } = below;
    let parts = all_consuming(alloc, spillable, parts.as_slice())?;
    Ok(Laid { parts, stages })
}

fn laid_beside(alloc: Global, left: Laid, right: Laid) -> Result<Laid, NoMemory>
    ensures { IfOk result (λ l. l ≡ spec.laid_beside left right) }
{
    let both = beside(alloc, left.parts.as_slice(), right.parts.as_slice())?;
    let parts = all_consuming(alloc, false, both.as_slice())?;
    let Laid {
        parts: _,
        mut stages,
    } = left;
    let Laid {
        parts: _,
        stages: more,
    } = right;
    stages.append(more)?;
    Ok(Laid { parts, stages })
}

/// The number of the stage behind those that open in a subtree.
fn behind(next: u32, below: &Laid) -> Result<u32, NoMemory>
    ensures { IfOk result (λ k. k ≡ next + length below.now.stages) }
{
    sum_of(next, small(below.stages.len())?)
}

fn laid_after(left: Laid, right: Laid) -> Result<Laid, NoMemory>
    ensures { IfOk result (λ l. l ≡ spec.laid_after left right) }
{
    let Laid {
        mut parts,
        mut stages,
    } = left;
    let Laid {
        parts: more_parts,
        stages: more_stages,
    } = right;
    parts.append(more_parts)?;
    stages.append(more_stages)?;
    Ok(Laid { parts, stages })
}

/// The inputs of a union, end to end.
#[cycle(lay)]
fn lay_all(alloc: Global, plans: &[Plan], next: u32) -> Result<Laid, NoMemory>
    ensures { IfOk result (λ l. l ≡ spec.end_to_end (map spec.layout plans.now) next) }
{
    let mut all = Laid {
        parts: Items::new(alloc),
        stages: Items::new(alloc),
    };
    for plan in plans {
        let at = behind(next, &all)?;
        all = laid_after(all, lay(alloc, plan, at)?)?;
    }
    Ok(all)
}

/// A subtree, from the number of the next stage that opens.
#[cycle(lay)]
#[tactic(auto, using(crate::proofs::Nodes::layout_nodes))]
pub(crate) fn lay(alloc: Global, plan: &Plan, next: u32) -> Result<Laid, NoMemory>
    ensures { IfOk result (λ l. l ≡ spec.layout plan.now next) }
{
    match plan {
        Plan::Scan {
            table: _,
            kinds: _,
            files: _,
            partitions,
        } => {
            let parts = bare_parts(alloc, *partitions)?;
            Ok(Laid {
                parts,
                stages: Items::new(alloc),
            })
        }
        Plan::Filter { input, test: _ } => lay(alloc, input.get(), next),
        Plan::Project { input, items: _ } => lay(alloc, input.get(), next),
        Plan::PartialGroup {
            input,
            keys: _,
            calls: _,
        } => with_consumer(alloc, true, lay(alloc, input.get(), next)?),
        Plan::FinalGroup {
            input,
            keys: _,
            calls: _,
        } => with_consumer(alloc, false, lay(alloc, input.get(), next)?),
        Plan::HashJoin {
            kind: _,
            left,
            right,
            keys: _,
            rest: _,
        } => {
            let left = lay(alloc, left.get(), next)?;
            let at = behind(next, &left)?;
            laid_beside(alloc, left, lay(alloc, right.get(), at)?)
        }
        Plan::Sort { input, keys: _ } => with_consumer(alloc, true, lay(alloc, input.get(), next)?),
        Plan::Merge { input, keys: _ } => merging(
            alloc,
            next,
            lay_below(alloc, input.get(), next)?,
        ),
        Plan::Coalesce { input } => coalesced(alloc, next, lay_below(alloc, input.get(), next)?),
        Plan::Repartition { input, to } => {
            let below = lay_below(alloc, input.get(), next)?;
            exchanged(alloc, partition_count(to), next, below)
        }
        Plan::UnionAll { inputs } => lay_all(alloc, inputs.as_slice(), next),
        Plan::Limit {
            input,
            skip: _,
            fetch: _,
        } => lay(alloc, input.get(), next),
    }
}

/// The input of an exchange, whose stage has the number.
#[cycle(lay)]
fn lay_below(alloc: Global, input: &Plan, stage: u32) -> Result<Laid, NoMemory>
    ensures { IfOk result (λ l. l ≡ spec.layout input.now (stage + 1)) }
{
    lay(alloc, input, sum_of(stage, 1)?)
}

/// The stages of a plan: the root's, whose group has no channels, and those that open below it.
pub(crate) fn stages_of(alloc: Global, plan: &Plan) -> Result<Items<Stage>, NoMemory>
    ensures { IfOk result (λ ss. ss ≡ spec.stages_of (spec.layout plan.now 1)) }
{
    let Laid {
        parts,
        stages: inner,
    } = lay(alloc, plan, 1)?;
    let mut stages = Items::new(alloc);
    stages.push(Stage {
        parts,
        targets: Items::new(alloc),
        width: 0,
    })?;
    stages.append(inner)?;
    Ok(stages)
}
