//! Laws: the kinds of a query's finished plan are those of the query.
#![tactic(auto)]

mod law;

pub use law::{phases_law, query_law};
