//! Tests of the CSV readers: records in blocks, and files as columns.
#![tactic(auto)]

#[cfg(test)]
mod columns;
#[cfg(test)]
mod records;
