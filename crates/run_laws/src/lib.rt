//! Laws of a run over batches: the told run over it, who has a task, and what a run keeps by each act.
#![tactic(auto)]

mod law;

pub use law::{
    job_law, kept_law, kept_told_law, loan_law, others_law, owner_law, start_law, told_law,
};
