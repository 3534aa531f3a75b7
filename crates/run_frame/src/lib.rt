//! The frame of a run in code: its groups, its pool, its queue and its places. Each call is one step of the frame.
#![tactic(auto)]

mod entries;
mod finish;
mod frame;
mod shape;
mod start;

pub use frame::RunFrame;
pub use shape::{Shape, TaskShape};
