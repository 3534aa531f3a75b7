//! Laws on the plans of queries: they are finished, and all their columns are in range.
#![tactic(auto)]

mod planned;
mod ranges;

pub use planned::{finished_law, limit_law, plain_law, planned_law, spread_law};
pub use ranges::{column_law, pass_law, range_law};
