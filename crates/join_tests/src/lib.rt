//! Tests of joins on a test: which parts are keys, what is left, and what is appended.
#![tactic(auto)]

#[cfg(test)]
mod lowered;
