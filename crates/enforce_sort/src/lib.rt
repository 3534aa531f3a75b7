//! The sorts that a physical plan's orders ask for.
#![tactic(auto)]

mod arrange;

pub use arrange::enforce_sorting;
