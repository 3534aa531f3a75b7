//! Laws on the nodes of physical plans: what a node declares follows from what its inputs declare.
#![tactic(auto)]

mod law;

pub use law::{needs_law, node_laws, range_test_law, whole_law};
