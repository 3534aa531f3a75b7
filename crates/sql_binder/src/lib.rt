//! The meaning of scripts: names, kinds and groups, down to a query.
#![tactic(auto)]

mod aggregates;
mod binding;
mod clauses;
mod groups;
mod items;
mod orders;
mod scope;
mod selected;
mod selects;
mod sources;
mod unions;

pub use binding::bind;
pub use sql_tables::Schema;
pub use typed_exprs::BindRefused;
