//! Laws of kinds: well-kinded bodies over tables of the scans' kinds give rows of their kinds, and what that comes to.
#![tactic(auto)]

mod law;

pub use law::{kinds_law, tables_law};
