//! What a file of cases says.

use crate::refused::Refused;
use dfx_value::Text;

/// What a group of sections says, and the number of its first line.
#[derive(Debug, Drop)]
pub struct Step {
    pub line: u32,
    pub says: Says,
}

/// What a group of sections says.
#[derive(Debug, Drop)]
pub enum Says {
    /// A file that lies there for each record behind it, in place of an earlier one at its path.
    Common(File),
    /// A command, and what it must leave.
    Record(Record),
    /// What is no record, and counts as one that failed.
    Refused(Refused),
}

/// A file's path and bytes.
#[derive(Debug, Drop)]
pub struct File {
    pub path: Text,
    pub bytes: Vec<u8>,
}

/// A command, and what it must leave.
#[derive(Debug, Drop)]
pub struct Record {
    /// The number of its first line.
    pub line: u32,
    pub words: Vec<Text>,
    /// The files of this record alone, in place of common ones at their paths; its script is one of them.
    pub files: Vec<File>,
    /// The common files that aren't there.
    pub absent: Vec<Text>,
    pub failing: Failing,
    pub expected: Expected,
}

/// The numbers of the calls that fail, counted from 1: reads of each file but the script, and writes of
/// standard output.
#[derive(Debug, Drop)]
pub struct Failing {
    pub reads: Vec<u32>,
    pub writes: Vec<u32>,
}

/// What a command must leave.
#[derive(Debug, Drop)]
pub struct Expected {
    pub status: u8,
    pub output: Output,
    /// Standard error, exactly.
    pub error: Vec<u8>,
}

/// What standard output must have.
#[derive(Debug, Drop)]
pub enum Output {
    /// Exactly these bytes.
    Exactly(Vec<u8>),
    /// The first row of these, and then the others in any order.
    InAnyOrder(Vec<u8>),
}
