//! Entries by keys: what a table from key lists to states holds after each row.
#![tactic(auto)]

mod law;

pub use law::entries_law;
