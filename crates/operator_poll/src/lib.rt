//! Operators over batches: what each of them asks, takes and gives, and a queue of what one has still to give.
#![tactic(auto)]

mod operator;
mod queue;
mod refused;

pub use operator::Operator;
pub use queue::Queue;
pub use refused::OpRefused;
