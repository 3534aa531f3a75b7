//! Batches, by the rows that they stand for.

ghost use Rattle.std.specs.Prelude.{List};
ghost use Rattle.logical_plan.specs.Items.{Cells};

/// A batch.
pub trait Rows {
    // The rows that it stands for.
    ghost rows: { Self → List Cells };
}
