//! The tables that a script declares: their names and columns.
#![tactic(auto)]

mod schema;
mod statements;
mod table;

pub use schema::Schema;
pub use statements::{columns_under, tables};
pub use table::Table;
