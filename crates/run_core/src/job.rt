//! A task in a worker's hand.

ghost use Rattle.run_tasks.specs.Moved.{Moved, IsReady};

use run_tasks::{Rows, RunTask};
use std::marker::PhantomData;
use work_pool::Poll;

/// A task in a worker's hand.
pub struct Job<B, T> {
    pub(crate) task: T,
    // How many progress entries it has made since it was claimed.
    pub(crate) progress: u64,
    pub(crate) batches: PhantomData<B>,
}

impl<B: Rows + Send, T: RunTask<B> + Send> Poll for Job<B, T> {
    ghost number = { λ j. T.number j.task };

    ghost moves = { λ i j. Moved T.number T.suits T.need T.stands i.task j.task };

    ghost ready = { λ j. IsReady (T.need j.task) };

    fn task(&self) -> u32 {
        self.task.number()
    }

    fn advance(&mut self) {
        self.task.advance();
    }
}
