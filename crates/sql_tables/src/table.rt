//! A table that selects can read.

use dfx_value::{Kind, Seq, Text};

/// A table that selects can read.
#[derive(Debug, Drop)]
pub struct Table {
    pub name: Text,
    /// Those of its columns.
    pub names: Seq<Text>,
    pub kinds: Seq<Kind>,
}
