//! Physical plans: their nodes, copies of them, and what they declare of their rows.
#![tactic(auto)]

mod copy;
mod counting;
mod facts;
mod joins;
mod plan;
mod properties;
mod renaming;

pub use copy::{copy_exprs, copy_plan, copy_rest};
pub use counting::partitions;
pub use joins::{left_keys, right_keys};
pub use plan::Plan;
pub use properties::props;
