//! The shape of a plan.

ghost use Rattle.std.specs.Prelude.{◌≡◌, IfOk};
ghost use Rattle.plan_shape.specs.Layout as spec;

use crate::layout::{Stage, stages_of};
use crate::numbers::small;
use crate::tasks::{TaskShape, push_spills, push_tasks};
use dfx_value::NoMemory;
use physical_plan::Plan;
use sqlite_items::Items;
use std::alloc::Global;
use std::marker::Model;

/// The tasks of a plan, the channels of its groups, and which of its consumers of memory can spill.
#[derive(Drop)]
pub struct PlanShape {
    tasks: Items<TaskShape>,
    widths: Items<u32>,
    spillable: Items<bool>,
}

impl Model for PlanShape {
    ghost use Rattle.task_shape.specs.Shape.{Shape};

    ghost Value = { Shape };

    ghost view = { λ p. record { tasks = p.tasks; widths = p.widths; spillable = p.spillable } };
}

impl PlanShape {
    /// The tasks, by stage, then partition. Task 0 is the root's.
    pub fn tasks(&self) -> &[TaskShape]
        ensures { result.now ≡ self.now.tasks }
    {
        self.tasks.as_slice()
    }

    /// How many channels each group has. Group 0, of the root's stage, has none.
    pub fn widths(&self) -> &[u32]
        ensures { result.now ≡ self.now.widths }
    {
        self.widths.as_slice()
    }

    /// For each consumer whether it can spill.
    pub fn spillable(&self) -> &[bool]
        ensures { result.now ≡ self.now.spillable }
    {
        self.spillable.as_slice()
    }
}

fn shape_from(alloc: Global, stages: &[Stage]) -> Result<PlanShape, NoMemory>
    ensures { IfOk result (λ p. p ≡ spec.shape_from stages.now) }
{
    let mut tasks = Items::new(alloc);
    let mut widths = Items::new(alloc);
    let mut spillable = Items::new(alloc);
    for at in 0..stages.len() {
        let stage = &stages[at];
        let first = small(spillable.len())?;
        push_tasks(
            alloc,
            small(at)?,
            first,
            stage.parts(),
            stage.targets(),
            &mut tasks,
        )?;
        push_spills(stage.parts(), &mut spillable)?;
        widths.push(stage.width())?;
    }
    Ok(PlanShape {
        tasks,
        widths,
        spillable,
    })
}

/// The tasks of a plan, with the channels that each sends to and receives from and its consumers of memory.
///
/// Stage 0 holds the root. Node before inputs, left to right, each Repartition, Coalesce and Merge opens the next stage below it,
/// whose group has the number of that stage. A plan of 2^32 stages, partitions or consumers counts as want of memory.
#[tactic(auto, unfolding(crate::specs::Layout::shape))]
pub fn shape(alloc: Global, plan: &Plan) -> Result<PlanShape, NoMemory>
    ensures { IfOk result (λ p. p ≡ spec.shape plan.now) }
{
    let stages = stages_of(alloc, plan)?;
    shape_from(alloc, stages.as_slice())
}
