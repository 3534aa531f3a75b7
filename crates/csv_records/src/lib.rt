//! The records of a source's bytes, read a block at a time (RFC 4180, as the crate `csv` reads with its default reader).
#![tactic(auto)]

mod cursor;
mod machine;
mod reader;
mod span;
mod window;

pub use reader::RecordReader;
