//! Tests of expressions and of the kinds of query bodies.
#![tactic(auto)]

#[cfg(test)]
mod tests;
