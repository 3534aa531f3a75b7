//! Operators that keep nothing: filters, limits, and one that hands on what it takes.
#![tactic(auto)]

mod asked;
mod filter;
mod limit;
mod pass;
mod project;

pub use filter::FilterOp;
pub use limit::LimitOp;
pub use pass::PassOp;
pub use project::ProjectOp;
