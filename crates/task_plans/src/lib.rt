//! The tasks of a plan before a run: for each the stations of its tree, and where its batches go.
#![tactic(auto)]

mod built;
mod numbers;
mod partition;
mod refused;
mod scans;
mod station;
mod tasks;

pub use built::is_built;
pub use refused::PlanRefused;
pub use station::{Node, OperatorPlan, ScanFile, Sending, StationPlan, TaskPlan};
pub use tasks::task_plans;
