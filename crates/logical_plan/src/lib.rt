//! Queries and their bodies: the kinds of a body's columns, and what a query means over whole tables.
#![tactic(auto)]

mod kinds;
mod plan;
mod query;

pub use dfx_value::{AggCall, JoinKind};
pub use kinds::kinds_of;
pub use plan::Logical;
pub use query::Query;
