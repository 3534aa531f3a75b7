//! Histories of a run: what each task asked and was answered, and what channels and consumers hold by them.
#![tactic(auto)]

mod law;

pub use law::{
    carried_runs_law, held_opening, held_step, histories_law, recorded_opening, recorded_step,
    taken_law,
};
