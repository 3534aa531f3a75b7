//! The frame of a run as a machine over the entries of its journal: its gates, its pool, and where each task is.
#![tactic(auto)]

mod law;
mod place;

pub use law::{carried_law, chain_law, frame_law, lawful_opening, lawful_step, sent_law};
pub use place::Place;
