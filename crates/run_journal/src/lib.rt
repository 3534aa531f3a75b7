//! The entries of a run's journal, and its text.
#![tactic(auto)]

mod cause;
mod entry;
mod journal;
mod text;

pub use cause::Cause;
pub use entry::{Entry, EntryKind};
pub use journal::Journal;
pub use text::journal_text;
