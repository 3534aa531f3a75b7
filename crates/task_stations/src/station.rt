//! Stations: node before inputs, so that those of a tree are a slice.

use crate::scan::Scan;
use crate::seat::Seat;
use column_batch::Batch;

/// A channel.
#[derive(Drop)]
pub struct Inlet {
    pub group: u32,
    pub channel: u32,
    /// Its last batch, until it is given.
    pub unread: Option<Batch>,
    /// It has ended.
    pub over: bool,
}

/// A node of a task's tree.
#[derive(Drop)]
pub enum Station<T, F> {
    /// A channel.
    Leaf(Inlet),
    /// A scan.
    Scans(Scan<F>),
    /// An operator. The stations of its inputs follow it.
    Inner(Seat<T>),
}
