//! The join of two bodies on a test: its keys, what is left of the test, and the columns that the keys need.
#![tactic(auto)]

mod appended;
mod lower;
mod renumber;
mod split;
mod uses;

pub use lower::{Side, lower_join};
