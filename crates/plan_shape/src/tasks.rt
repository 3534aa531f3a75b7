//! The tasks of a stage.

ghost use Rattle.std.specs.Prelude.{◌≡◌, ◌++◌, OnOk, IfOk, drop};
ghost use Rattle.plan_shape.specs.Layout as spec;
ghost use Rattle.plan_shape.specs.Tasked.{tasked};

use crate::numbers::{numbers_from, small, sum_of};
use crate::parts::Part;
use dfx_value::NoMemory;
use sqlite_items::Items;
use std::alloc::Global;
use std::marker::Model;

/// One task: a partition of a stage.
#[derive(Drop)]
pub struct TaskShape {
    stage: u32,
    sends: Option<u32>,
    targets: Items<u32>,
    receives: Items<(u32, u32)>,
    consumers: Items<u32>,
}

impl Model for TaskShape {
    ghost use Rattle.task_shape.specs.Shape.{TaskShape};

    ghost Value = { TaskShape };

    ghost view = { λ t. record {
      stage = t.stage;
      sends = t.sends;
      targets = t.targets;
      receives = t.receives;
      consumers = t.consumers;
    } };
}

impl TaskShape {
    /// The number of its stage; 0 is the root's.
    pub fn stage(&self) -> u32
        ensures { result ≡ self.now.stage }
    {
        self.stage
    }

    /// The group that it sends to; the root's task sends to none.
    pub fn sends(&self) -> Option<u32>
        ensures { result ≡ self.now.sends }
    {
        self.sends
    }

    /// The channels of that group that it may send to, ascending.
    pub fn targets(&self) -> &[u32]
        ensures { result.now ≡ self.now.targets }
    {
        self.targets.as_slice()
    }

    /// The group and the channel of each channel that it receives from.
    pub fn receives(&self) -> &[(u32, u32)]
        ensures { result.now ≡ self.now.receives }
    {
        self.receives.as_slice()
    }

    /// The numbers of its consumers of memory, node before inputs.
    pub fn consumers(&self) -> &[u32]
        ensures { result.now ≡ self.now.consumers }
    {
        self.consumers.as_slice()
    }
}

/// Stage 0 is the root's, and sends to no group.
fn group_of(stage: u32) -> Option<u32>
    ensures { result ≡ spec.group_of stage }
{
    if stage == 0 { None } else { Some(stage) }
}

/// The targets of a task, none where none are listed.
fn targets_at(alloc: Global, targets: &[Items<u32>], at: usize) -> Result<Items<u32>, NoMemory>
    ensures { IfOk result (λ ts. ts ≡ spec.head_or (drop at targets.now)) }
{
    match targets.get(at) {
        Some(found) => Ok(Items::from_slice(alloc, found.as_slice())?),
        None => Ok(Items::new(alloc)),
    }
}

/// The task of a part, whose first consumer has the number.
fn task_of(
    alloc: Global,
    stage: u32,
    first: u32,
    part: &Part,
    targets: Items<u32>,
) -> Result<TaskShape, NoMemory>
    ensures { IfOk result (λ t. t ≡ tasked stage first part.now targets) }
{
    let receives = Items::from_slice(alloc, part.receives())?;
    let consumers = numbers_from(alloc, first, small(part.consumers().len())?)?;
    Ok(TaskShape {
        stage,
        sends: group_of(stage),
        targets,
        receives,
        consumers,
    })
}

/// Appends the tasks of a stage, whose first consumer has the number.
#[tactic(auto, using(crate::proofs::Steps::tasks_step, crate::proofs::Steps::tasks_end))]
pub(crate) fn push_tasks(
    alloc: Global,
    stage: u32,
    first: u32,
    parts: &[Part],
    targets: &[Items<u32>],
    tasks: &mut Items<TaskShape>,
) -> Result<(), NoMemory>
    ensures { OnOk result
        (tasks.new ≡ tasks.old ++ spec.tasks_of stage first parts.now targets.now) }
{
    let mut consumer = first;
    for at in 0..parts.len() {
        let part = &parts[at];
        let own = targets_at(alloc, targets, at)?;
        tasks.push(task_of(alloc, stage, consumer, part, own)?)?;
        consumer = sum_of(consumer, small(part.consumers().len())?)?;
    }
    Ok(())
}

/// Appends for each consumer of a stage whether it can spill.
pub(crate) fn push_spills(parts: &[Part], spillable: &mut Items<bool>) -> Result<(), NoMemory>
    ensures { OnOk result (spillable.new ≡ spillable.old ++ spec.spills_of parts.now) }
{
    for part in parts {
        push_truths(part.consumers(), spillable)?;
    }
    Ok(())
}

fn push_truths(truths: &[bool], all: &mut Items<bool>) -> Result<(), NoMemory>
    ensures { OnOk result (all.new ≡ all.old ++ truths.now) }
{
    for truth in truths {
        all.push(*truth)?;
    }
    Ok(())
}
