//! The stages of a plan and the shape of its tasks: who sends to whom, and who consumes memory.
#![tactic(auto)]

mod counting;
mod law;
mod layout;
mod numbers;
mod parts;
mod shapes;
mod tasks;

pub use counting::{StageTask, stages};
pub use law::shape_law;
pub use shapes::{PlanShape, shape};
pub use tasks::TaskShape;
