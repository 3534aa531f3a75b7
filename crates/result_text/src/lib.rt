//! The text of an answer: a header and rows, as the crate `csv` writes them with its default writer.
#![tactic(auto)]

mod fields;
mod header;
mod row_lines;

pub use header::header_text;
pub use row_lines::RowLines;
