//! Rows of a CSV file, a batch at a time (RFC 4180, as the crate `csv` reads it with its default reader).
#![tactic(auto)]

mod progress;
mod reading;
mod records;
mod refused;
mod rows;
mod scan;

pub use refused::CsvRefused;
pub use scan::CsvScan;
