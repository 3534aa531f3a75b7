//! Tests of the texts of plans and expressions that are made by hand.
#![tactic(auto)]

#[cfg(test)]
mod texts;
