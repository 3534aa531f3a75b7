//! A task of a run, as a trait.

ghost use Rattle.std.specs.Prelude.{◌≡◌, ℕ, List, Option, Some};
ghost use Rattle.task_shape.specs.Shape.{Shape};
ghost use Rattle.core_frame.specs.Step.{Need, Send};
ghost use Rattle.core_frame.specs.Good.{IsOwn};
ghost use Rattle.logical_plan.specs.Items.{Cells};
ghost use Rattle.tree_laws.specs.Tasks.{Task};
ghost use Rattle.run_tasks.specs.Asked.{IsAsk, reply_is};
ghost use Rattle.run_tasks.specs.Moved.{IsReady, Moved, Answered, Same};

use crate::rows::Rows;
use run_journal::Cause;

/// What a task asks next.
#[derive(Clone, Copy, Debug, PartialEq, Eq)]
pub enum Ask {
    /// It has scanned.
    Scan,
    /// It takes a batch from a channel.
    Receive { group: u32, channel: u32 },
    /// It sends its part to this channel of the group that it sends to.
    Send(u32),
    /// A consumer of its reserves more bytes.
    Grow { consumer: u32, bytes: u64 },
    /// A consumer of its gives back all that it holds.
    Free(u32),
    /// It has written.
    Write,
    /// It ends.
    Finish,
    /// It can't go on.
    Fail(Cause),
}

/// What a task is answered.
pub enum Answer<B> {
    /// It is done: it scanned, sent, was granted, gave back or wrote.
    Go,
    /// The batch that it received.
    Batch(B),
    /// No batch comes through the channel any more.
    Ended,
    /// It wasn't granted what it asked.
    Refused,
    /// Nobody receives from the channel that it sends to; `last`: from no channel of the group.
    Gone { last: bool },
}

/// A task that computes until it asks something, and then waits until it is answered. Its batches are of type `B`.
pub trait RunTask<B: Rows> {
    ghost number: { Self → ℕ };
    // It is the task of its number in this shape.
    ghost suits: { Self → Shape → Type 0 };
    // What it asks, if it does.
    ghost need: { Self → Option (Need (List Cells)) };
    // With batches of at most so many rows, it stands for this task.
    ghost stands: { Self → ℕ → Task → Type 0 };
    // The second is the first without the part that it sends.
    ghost lent: { Self → Self → Type 0 };

    /// The number of the task.
    fn number(&self) -> u32
        ensures { result ≡ number self.now };

    /// What it asks: of channels and consumers of its own alone.
    fn asks(&self) -> Ask
        requires ready { IsReady (need self.now) }
        ensures ask { IsAsk result (need self.now) }
        ensures own { (p : Shape) (n : Need (List Cells)) → suits self.now p
            → need self.now ≡ Some n → IsOwn p (number self.now) n };

    /// Computes until it asks something. It does nothing where it asks already.
    fn advance(&mut self)
        ensures { Moved number suits need stands self.old self.new };

    /// What it asks is answered.
    fn reply(&mut self, answer: Answer<B>)
        ensures { Answered number suits need stands (reply_is B.rows answer) self.old self.new };

    /// Hands out the part that it sends. The part then comes back, or is answered.
    fn take_part(&mut self) -> B
        requires sends { (c : ℕ) × (part : List Cells) × (need self.old ≡ Some (Send c part)) }
        ensures part { (c : ℕ) (part : List Cells) → need self.old ≡ Some (Send c part)
            → B.rows result ≡ part }
        ensures lent { lent self.old self.new };

    /// The part comes back, and all is as it was.
    fn put_part(&mut self, part: B)
        ensures { (x : Self) (c : ℕ) → lent x self.old → need x ≡ Some (Send c (B.rows part))
            → Same number suits need stands x self.new };

    /// The part that was handed out was sent, or nobody receives it.
    fn part_answered(&mut self, answer: Answer<B>)
        ensures { (x : Self) → lent x self.old
            → Answered number suits need stands (reply_is B.rows answer) x self.new };
}
