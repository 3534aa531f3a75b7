//! Tests of operators: each is fed by hand, and what it gives is compared with what was worked by hand.
#![tactic(auto)]

#[cfg(test)]
mod fed;
#[cfg(test)]
mod rows;
