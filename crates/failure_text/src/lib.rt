//! How a command fails: its failures, their statuses and their texts.
#![tactic(auto)]

mod failure;

pub use failure::{Failure, failure_line, fault_text, status_of};
