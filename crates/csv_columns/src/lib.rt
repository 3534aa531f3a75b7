//! Rows of a CSV file as columns, a batch at a time, read as they are asked for (RFC 4180, as the crate `csv` reads it
//! with its default reader).
#![tactic(auto)]

mod cells;
mod columns;
mod decimals;
mod numbers;
mod progress;
mod reading;
mod scan;

pub use csv_source::CsvRefused;
pub use scan::{CsvScan, Front};
