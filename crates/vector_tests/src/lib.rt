//! Tests of expressions over columns: each row is as `eval` gives it.
#![tactic(auto)]

#[cfg(test)]
mod lengths;
#[cfg(test)]
mod rows;
#[cfg(test)]
mod worked;
