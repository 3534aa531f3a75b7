//! Queries whose bodies are Filters and Projects over one Scan of CSV files: their answers, written file after file.
#![tactic(auto)]

mod batches;
mod chain;
mod columns;
mod front;
mod opened;
mod pass;
mod refused;
mod run;

pub use chain::{ChainScan, chain_scan, has_sound_kinds, is_chain};
pub use refused::RunRefused;
pub use run::run_chain;
