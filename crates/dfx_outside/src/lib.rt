//! The world outside, as traits: files, sources and sinks with counts of faults, and their forms in memory.
#![tactic(auto)]

pub mod files;
pub mod gate;
pub mod memory;
pub mod sink;
pub mod source;

pub use files::{Files, FilesRefused};
pub use gate::{KernelGate, NoGate};
pub use memory::files::{MemFiles, are_distinct};
pub use memory::sink::MemSink;
pub use memory::source::MemSource;
pub use sink::{Sink, write_all};
pub use source::{Failed, OutsideRefused, Source, read_all};
