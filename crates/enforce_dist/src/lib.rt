//! The exchanges that a physical plan's needs ask for.
#![tactic(auto)]

mod distribute;
mod needs;

pub use distribute::enforce_distribution;
