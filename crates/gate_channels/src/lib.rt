//! Channels of one exchange behind a gate that closes when every live channel holds a batch.
#![tactic(auto)]

mod channel;
mod group;
mod woken;

pub use group::{Group, Receiving, Sending};
pub use woken::Woken;
