//! What every run of a prepared script's query is and answers.
#![tactic(auto)]

mod law;

pub use law::query_runs_law;
