//! Tests of the kinds of plans that are made by hand.
#![tactic(auto)]

#[cfg(test)]
mod plans;
