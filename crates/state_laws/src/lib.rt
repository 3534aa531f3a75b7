//! What holds of every state that a plan's run reaches.
#![tactic(auto)]

mod law;

pub use law::good_law;
