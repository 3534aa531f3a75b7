//! From the text of a script to its query, its finished plan and its tables' files.
#![tactic(auto)]

mod declared;
mod prepared;
mod preparing;
mod tables;

pub use failure_text::{Failure, failure_line, fault_text, status_of};
pub use plan_text::plan_text;
pub use prepared::Prepared;
pub use preparing::prepare;
