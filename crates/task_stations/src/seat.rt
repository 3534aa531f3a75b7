//! Seats: operators with the batch that waits for them.

use crate::needs::Step;
use column_batch::Batch;

/// An operator in its task.
#[derive(Drop)]
pub struct Seat<T> {
    pub operator: T,
    /// A batch of its wanted input that it hasn't taken yet.
    pub waiting: Option<Batch>,
    /// The reservation of the waiting batch was refused.
    pub refused: bool,
    /// How many bytes are reserved by its consumer.
    pub held: u64,
    /// The consumer that reserves, where it has one.
    pub consumer: Option<u32>,
    /// How many of the stations below it are those of each input, in order.
    pub sizes: Vec<usize>,
}

/// What an operator does by itself, or the input that it asks.
#[derive(Drop)]
pub enum Own {
    Done(Step),
    Wants(u32),
}
