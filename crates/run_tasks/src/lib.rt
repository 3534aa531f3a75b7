//! Tasks of a run as code: traits of batches and of tasks, which compute until they ask, and are answered.
#![tactic(auto)]

mod rows;
mod task;

pub use rows::Rows;
pub use task::{Answer, Ask, RunTask};
