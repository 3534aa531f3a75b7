//! The law of the crate.
ghost use Rattle.std.specs.Prelude.{◌≡◌, true};
ghost use Rattle.task_shape.specs.Shape.{Shape, IsShape};
ghost use Rattle.task_shape.specs.ShapeTest.{shape_test};

/// Where the test of a shape computes to true, it is the shape of a plan: each channel has one
/// receiver, a task's targets are distinct, and stages grow from a receiver to its senders.
pub fn shape_test_law()
    ensures tested { (shape : Shape) → shape_test shape ≡ true → IsShape shape }
{}
