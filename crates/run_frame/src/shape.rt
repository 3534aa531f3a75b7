//! The shape of a plan.

ghost use Rattle.std.specs.Prelude.{◌≡◌, ℕ, ◌<◌, length, slice_index_or, false, Some};
ghost use Rattle.task_shape.specs.Shape.{task_at};

use dfx_value::Seq;
use std::marker::Model;

/// One task of a plan: who it sends to, whom it receives from, and what it reserves memory for.
#[derive(Drop)]
pub struct TaskShape {
    pub stage: u32,
    /// The group that it sends to.
    pub sends: Option<u32>,
    /// The channels of that group that it may send to, ascending.
    pub targets: Seq<u32>,
    /// The group and channel of each channel that it receives from, ascending.
    pub receives: Seq<(u32, u32)>,
    pub consumers: Seq<u32>,
}

impl Model for TaskShape {
    ghost use Rattle.task_shape.specs.Shape.{TaskShape};

    ghost Value = { TaskShape };

    ghost view = { λ t. record {
      stage = t.stage;
      sends = t.sends;
      targets = t.targets;
      receives = t.receives;
      consumers = t.consumers;
    } };
}

/// The tasks of a plan, how many channels each group has, and which consumers can spill.
#[derive(Drop)]
pub struct Shape {
    pub tasks: Seq<TaskShape>,
    pub widths: Seq<u32>,
    pub spillable: Seq<bool>,
}

impl Model for Shape {
    ghost use Rattle.task_shape.specs.Shape.{Shape};

    ghost Value = { Shape };

    ghost view = { λ p. record { tasks = p.tasks; widths = p.widths; spillable = p.spillable } };
}

// The shape of a task.
pub fn task_of(shape: &Shape, task: u32) -> &TaskShape
    requires inside { task < length shape.now.tasks }
    ensures { result.now ≡ task_at shape.now task }
{
    &shape.tasks.as_slice()[task as usize]
}

// The group that the task sends to.
pub fn group_of(shape: &Shape, task: u32) -> u32
    requires inside { task < length shape.now.tasks }
    requires sends { (g : ℕ) × ((task_at shape.now task).sends ≡ Some g) }
    ensures { (task_at shape.now task).sends ≡ Some result }
{
    match task_of(shape, task).sends {
        Some(group) => group,
        None => unreachable!(),
    }
}

// The consumer can spill.
pub fn can_spill(shape: &Shape, consumer: u32) -> bool
    requires inside { consumer < length shape.now.spillable }
    ensures { result ≡ slice_index_or shape.now.spillable consumer false }
{
    shape.spillable.as_slice()[consumer as usize]
}
