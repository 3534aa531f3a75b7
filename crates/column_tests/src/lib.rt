//! Tests of columns and of batches over them: cells of each kind, parts of columns, rows through batches and back.
#![tactic(auto)]

#[cfg(test)]
mod batches;
#[cfg(test)]
mod cells;
#[cfg(test)]
mod columns;
#[cfg(test)]
mod lengths;
