//! Tests of the statuses, the texts and the lines of failures.
#![tactic(auto)]

#[cfg(test)]
mod failures;
