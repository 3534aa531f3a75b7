//! Shapes of the tasks of a plan: who sends to whom, and who consumes memory.
#![tactic(auto)]

mod law;

pub use law::shape_test_law;
