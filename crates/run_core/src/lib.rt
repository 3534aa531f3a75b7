//! A run as code, handed from worker to worker, that stands for a legal history.
#![tactic(auto)]

mod claiming;
mod job;
mod needs;
mod opens;
mod parking;
mod run;
mod serving;
mod slots;

pub use job::Job;
pub use opens::Opens;
pub use run::{Parts, Run};
