//! The kinds of the columns that each node of a plan gives, the state columns of first phases among them.
#![tactic(auto)]

mod kinds;
mod phases;
mod refused;

pub use kinds::{kinds_of, projected_kinds, same_kinds};
pub use phases::{final_kinds, partial_kinds};
pub use refused::KindsRefused;
