//! Batches one behind the other.

ghost use Rattle.std.specs.Prelude.{◌≡◌, ◌+◌, ◌^◌, ◌<◌, ◌++◌, length, IfOk};

use crate::batch::Batch;
use crate::builder::Builder;
use dfx_value::NoMemory;
use std::alloc::Global;

impl Batch {
    /// The rows of both, the other's last. For more than two batches use `Builder::extend`.
    pub fn concat(&self, alloc: Global, other: &Batch) -> Result<Batch, NoMemory>
        requires kinds { other.now.kinds ≡ self.now.kinds }
        requires few { length self.now.rows + length other.now.rows < 2 ^ 32 }
        ensures kinds { IfOk result (λ whole. whole.kinds ≡ self.now.kinds) }
        ensures rows { IfOk result (λ whole. whole.rows ≡ self.now.rows ++ other.now.rows) }
    {
        let mut builder = Builder::alike(alloc, self)?;
        builder.extend(self)?;
        builder.extend(other)?;
        builder.finish(alloc)
    }
}
