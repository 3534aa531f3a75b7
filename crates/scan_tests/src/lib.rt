//! Tests of queries over one Scan, run over files in memory.
#![tactic(auto)]

#[cfg(test)]
mod tests;
