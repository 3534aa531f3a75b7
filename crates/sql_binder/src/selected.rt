//! Bound selects.

use dfx_value::{Kind, Seq, Text};
use expr_binder::Column;
use logical_plan::Logical;

/// A bound select: the columns that it reads, and the names, kinds and body of those that it gives.
#[derive(Debug, Drop)]
pub struct Selected {
    pub columns: Seq<Column>,
    pub names: Seq<Text>,
    pub kinds: Seq<Kind>,
    pub body: Logical,
}
