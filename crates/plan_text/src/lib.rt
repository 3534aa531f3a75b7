//! The text of a physical plan: a line for each node, with its expressions.
#![tactic(auto)]

mod constants;
mod exprs;
mod lines;
mod lists;
mod nodes;

pub use lines::plan_text;
