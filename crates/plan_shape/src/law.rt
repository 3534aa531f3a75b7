//! The law of shapes: the tasks of a plan, their channels and their consumers.

ghost use Rattle.std.specs.Prelude.{◌≡◌, ℕ, length, map};
ghost use Rattle.std.specs.List.{flat_map};
ghost use Rattle.task_shape.specs.Shape.{Ascends, HasOwners, IsShape, TaskShape as ATask, task_at};
ghost use Rattle.physical_plan.specs.declared.plan.Plan.{Plan as APlan};
ghost use Rattle.physical_plan.specs.Numbers.{numbers};
ghost use Rattle.plan_shape.specs.Layout.{Stage as AStage, layout, shape, stages};
ghost use Rattle.plan_shape.specs.Counts.{counts_of};
ghost use Rattle.plan_shape.specs.declared.counting.StageTask.{StageTask as Place};

/// In the shape of every plan each channel has one receiver, stages grow from receivers to senders, and targets are distinct.
/// Its tasks have the stages of those of `stages`, in the same order. The channels that a task receives from ascend. Each consumer is one task's:
/// the tasks' consumers, one after the other, are all consumers in their order. The layout has as many partitions as are counted,
/// and so has each of its stages.
pub fn shape_law()
    ensures lawful { (p : APlan) → IsShape (shape p) }
    ensures stages { (p : APlan) → map (λ (t : ATask). t.stage) (shape p).tasks
        ≡ map (λ (t : Place). t.stage) (stages p) }
    ensures ascending { (p : APlan) (t : ℕ) → Ascends (task_at (shape p) t).receives }
    ensures owners { (p : APlan) → HasOwners (shape p) }
    ensures numbered { (p : APlan) → flat_map (λ (t : ATask). t.consumers) (shape p).tasks
        ≡ numbers (length (shape p).spillable) }
    ensures laid { (p : APlan) (k : ℕ) → length (layout p k).parts ≡ (counts_of p).parts }
    ensures opened { (p : APlan) (k : ℕ)
        → map (λ (s : AStage). length s.parts) (layout p k).stages ≡ (counts_of p).stages }
{}
