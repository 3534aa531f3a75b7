//! Tests of run_frame: runs of a plan of two tasks.
#![tactic(auto)]

#[cfg(test)]
mod runs;
