//! Whole contents of a run's channels: what would have been sent and taken, had everybody gone on.
#![tactic(auto)]

mod law;

pub use law::{bag_law, exchange_law, full_law, received_law, senders_law, test_law};
