//! What a physical plan declares of its rows, and when that satisfies what a node above needs.
#![tactic(auto)]

mod distribution;
mod laws;
mod leaders;
mod ordering;
mod properties;

pub use distribution::{partition_count, satisfies_distribution};
pub use laws::{chains_law, distribution_law, order_law};
pub use ordering::satisfies_order;
pub use properties::{Distribution, Partitioning, Props};
