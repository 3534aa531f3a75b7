//! What preparing a script gives.

use dfx_value::{Seq, Text};
use logical_plan::Query;
use physical_plan::Plan;

/// A script's query with its finished plan, and the tables' files.
#[derive(Drop)]
pub struct Prepared {
    pub query: Query,
    pub plan: Plan,
    /// The names of the tables, in the order of the statements.
    pub tables: Seq<Text>,
    /// The files of each table, in the same order.
    pub paths: Seq<Seq<Text>>,
    /// For each table whether its files are Arrow files.
    pub arrow: Seq<bool>,
}
