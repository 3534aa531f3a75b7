//! The events of a run in order, with its settings.

use crate::entry::Entry;
use dfx_value::Seq;

/// The events of a run in order, and the settings of the run.
#[derive(Debug, Drop)]
pub struct Journal {
    /// How many partitions a plan's exchanges have.
    pub partitions: u32,
    /// How many rows a batch has at most.
    pub batch: u32,
    /// How many bytes may be reserved at one time.
    pub limit: u64,
    pub entries: Seq<Entry>,
}
