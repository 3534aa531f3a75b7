//! Tests of physical plans by hand: needs, what plans declare, and the shapes of their tasks.
#![tactic(auto)]

#[cfg(test)]
mod needs;
#[cfg(test)]
mod shapes;
