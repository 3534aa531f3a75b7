//! The loop of one worker, and many workers over one cell.
#![tactic(auto)]

mod pool;
#[cfg(test)]
mod tests;
mod work;

pub use pool::{run_all, run_worker};
pub use work::{Claim, Poll, Served, Work};
