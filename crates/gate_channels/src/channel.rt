//! One channel of an exchange: its batches, and who is done with it.

ghost use Rattle.std.specs.Prelude.{◌≡◌, ℕ, ◌<◌, IfOk, IfErr};
ghost use Rattle.gate_channels.specs.Gate.{after_send, after_end, after_drop, woken_by_end, some_live, some_free, is_open};
ghost use Rattle.gate_channels.specs.Answers.{Takes};

use crate::group::Receiving;
use std::collections::VecDeque;
use std::marker::Model;

// One channel of a group: its batches, whether its receiver still takes, its senders that have not ended, and the
// receiver that waits.
#[derive(Drop)]
pub struct Channel<B> {
    pub batches: VecDeque<B>,
    pub live: bool,
    pub unended: u32,
    pub waiting: Option<u32>,
}

impl<B> Model for Channel<B> {
    ghost use Rattle.gate_channels.specs.Gate.{Channel};

    ghost Value = { Channel B };

    ghost view = { λ c. record {
      batches = c.batches.items;
      live = c.live;
      unended = c.unended;
      waiting = c.waiting;
    } };
}

impl<B> Channel<B> {
    // Puts a batch at the end, and takes the receiver that waits.
    pub fn put(&mut self, batch: B) -> Result<Option<u32>, B>
        ensures ok { IfOk result
            (λ waiting. (waiting ≡ self.old.waiting) × (self.new ≡ after_send self.old batch)) }
        ensures err { IfErr result (λ b. (b ≡ batch) × (self.new ≡ self.old)) }
    {
        match self.batches.push_back(batch) {
            Ok(()) => Ok(self.waiting.take()),
            Err(failed) => Err(failed.value),
        }
    }

    // Takes the first batch, and says whether it was the last one. Where there is none, the task waits, or all
    // senders have ended.
    pub fn take(&mut self, task: u32) -> (Receiving<B>, bool)
        ensures { Takes self.old task result.0 result.1 self.new }
    {
        match self.batches.pop_front() {
            Some(batch) => {
                let last = self.batches.is_empty();
                (Receiving::Batch(batch), last)
            }
            None => {
                if self.unended == 0 {
                    (Receiving::Ended, false)
                } else {
                    self.waiting = Some(task);
                    (Receiving::Empty, false)
                }
            }
        }
    }

    // Ends one sender, and takes the receiver that then waits for nothing.
    pub fn end(&mut self) -> Option<u32>
        requires unended { 0 < self.old.unended }
        ensures channel { self.new ≡ after_end self.old }
        ensures woken { result ≡ woken_by_end self.old }
    {
        self.unended -= 1;
        if self.unended == 0 && self.batches.is_empty() {
            self.waiting.take()
        } else {
            None
        }
    }

    // Drops the receiver, and the batches that it would have taken.
    pub fn close(&mut self)
    where
        B: Drop,
        ensures { self.new ≡ after_drop self.old }
    {
        self.live = false;
        self.batches.clear();
    }
}

// Some channel is live.
pub fn any_live<B>(channels: &[Channel<B>]) -> bool
    ensures { result ≡ some_live channels.now }
{
    for channel in channels {
        if channel.live {
            return true;
        }
    }
    false
}

// Some live channel is empty.
fn any_free<B>(channels: &[Channel<B>]) -> bool
    ensures { result ≡ some_free channels.now }
{
    for channel in channels {
        if channel.live && channel.batches.is_empty() {
            return true;
        }
    }
    false
}

// No channel is live, or some live channel is empty.
pub fn opened<B>(channels: &[Channel<B>]) -> bool
    ensures { result ≡ is_open channels.now }
{
    any_free(channels) || !any_live(channels)
}
