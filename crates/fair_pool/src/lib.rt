//! Reservations of one memory limit, which the consumers of a plan share.
#![tactic(auto)]

mod pool;

pub use pool::{Exhausted, Pool};
