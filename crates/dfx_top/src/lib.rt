//! The command: from its words and the files to the answer and the status.
#![tactic(auto)]

mod causes;
mod command;
mod explain;
mod files;
mod query;
mod words;

pub use command::{Finished, command_here};
pub use dfx_prepare::{Failure, fault_text};
