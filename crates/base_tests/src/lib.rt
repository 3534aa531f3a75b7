//! Tests of the crates at the base: values, the outside, formats, tokens, and what a run is made of.
#![tactic(auto)]

#[cfg(test)]
mod gates;
#[cfg(test)]
mod journal;
#[cfg(test)]
mod lines;
#[cfg(test)]
mod outside;
#[cfg(test)]
mod pool;
#[cfg(test)]
mod scans;
#[cfg(test)]
mod tokens;
#[cfg(test)]
mod values;
