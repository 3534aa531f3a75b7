//! The channels of one exchange behind one gate.

ghost use Rattle.std.specs.Prelude.{◌≡◌, ℕ, ◌<◌, List, [], ◌++◌, length, IfOk, Some, map};
ghost use Rattle.task_shape.specs.Numbers.{count};
ghost use Rattle.gate_channels.specs.Gate.{channel_at, one_of, ended, dropped};
ghost use Rattle.gate_channels.specs.Group.{WaitApart, KeepsSize, opened_gate};
ghost use Rattle.gate_channels.specs.Answers.{Moves, Sends, Receives};

use crate::channel::{Channel, any_live, opened};
use crate::woken::Woken;
use dfx_value::NoMemory;
use std::alloc::Global;
use std::collections::VecDeque;
use std::marker::Model;

/// What a send answers.
#[derive(Drop)]
pub enum Sending<B> {
    /// The batch is in the channel.
    Sent,
    /// The gate is closed: the task waits at it, and has its batch back.
    Held(B),
    /// Nobody receives from the channel any more; `last` says that nobody receives from any channel of the group.
    Dropped { batch: B, last: bool },
    /// Memory was wanting, and nothing has changed.
    NoMemory(B),
}

/// What a receive answers.
#[derive(Drop)]
pub enum Receiving<B> {
    Batch(B),
    /// There is no batch now, and some sender has not ended: the task waits at the channel.
    Empty,
    /// There is no batch, and every sender has ended.
    Ended,
}

/// The channels of one exchange, behind one gate.
///
/// The gate is open where no channel is live, or some live channel is empty. A channel is live until its receiver is
/// dropped.
#[derive(Drop)]
pub struct Group<B> {
    channels: Vec<Channel<B>>,
    queue: Woken,
}

impl<B> Model for Group<B> {
    ghost use Rattle.gate_channels.specs.Group.{Grouped, AreBelow};

    ghost Value = { Grouped B };

    ghost view = { λ g. record {
      gate = record { channels = g.channels.items; queue = g.queue.tasks };
      room = g.queue.room;
    } };

    ghost invariant = { λ g. AreBelow g.channels.items g.queue.room };
}

// Wakes the receiver that waits, if any.
fn wake(waiting: Option<u32>, woken: &mut Woken)
    requires below { (t : ℕ) → waiting ≡ Some t → t < woken.old.room }
    requires fresh { (t : ℕ) → waiting ≡ Some t → count t woken.old.tasks ≡ 0 }

    ensures tasks { woken.new.tasks ≡ woken.old.tasks ++ one_of waiting }
    ensures room { woken.new.room ≡ woken.old.room }
{
    match waiting {
        Some(receiver) => woken.push(receiver),
        None => {}
    }
}

impl<B> Group<B> {
    /// A group with one channel for each number in `senders`, which is how many senders the channel has, for the
    /// tasks below `tasks`.
    pub fn new(alloc: Global, senders: &[u32], tasks: u32) -> Result<Group<B>, NoMemory>
    where
        B: Drop,
        ensures gate { IfOk result (λ group. group.gate ≡ opened_gate senders.now) }
        ensures room { IfOk result (λ group. group.room ≡ tasks) }
    {
        let queue = Woken::new(alloc, tasks)?;
        let mut channels = Vec::with_capacity(alloc, senders.len())?;
        for unended in senders {
            channels.push(Channel {
                batches: VecDeque::new(alloc),
                live: true,
                unended: *unended,
                waiting: None,
            })?;
        }
        Ok(Group { channels, queue })
    }

    /// Sends a batch to a channel, and wakes the receiver that waits there; or puts the task to those that wait at
    /// the gate.
    pub fn try_send(&mut self, task: u32, channel: u32, batch: B, woken: &mut Woken) -> Sending<B>
        requires inside { channel < length self.old.gate.channels }
        requires task { task < self.old.room }
        requires idle { count task self.old.gate.queue ≡ 0 }
        requires apart { WaitApart self.old woken.old }

        ensures answer { Sends self.old.gate task channel batch
            result self.new.gate woken.old.tasks woken.new.tasks }
        ensures size { KeepsSize self.old self.new woken.old woken.new }
    {
        let at = channel as usize;
        if !self.channels[at].live {
            let last = !any_live(&self.channels);
            return Sending::Dropped { batch, last };
        }
        if !opened(&self.channels) {
            self.queue.push(task);
            return Sending::Held(batch);
        }
        match self.channels[at].put(batch) {
            Ok(waiting) => {
                wake(waiting, woken);
                Sending::Sent
            }
            Err(batch) => Sending::NoMemory(batch),
        }
    }

    /// Takes the first batch of a channel, where it was the last one waking all tasks at the gate; or lets the task
    /// wait at the channel. It takes no memory.
    pub fn try_recv(&mut self, task: u32, channel: u32, woken: &mut Woken) -> Receiving<B>
        requires inside { channel < length self.old.gate.channels }
        requires task { task < self.old.room }
        requires apart { WaitApart self.old woken.old }

        ensures answer { Receives self.old.gate task channel
            result self.new.gate woken.old.tasks woken.new.tasks }
        ensures size { KeepsSize self.old self.new woken.old woken.new }
    {
        let (answer, last) = self.channels[channel as usize].take(task);
        if last {
            woken.append(&mut self.queue);
        }
        answer
    }

    /// Ends one sender of a channel. The last one of an empty channel wakes the receiver that waits there. It takes
    /// no memory.
    pub fn end_sender(&mut self, channel: u32, woken: &mut Woken)
        requires inside { channel < length self.old.gate.channels }
        requires unended { 0 < (channel_at self.old.gate channel).unended }
        requires apart { WaitApart self.old woken.old }

        ensures moves { Moves
            (ended self.old.gate channel) self.new.gate woken.old.tasks woken.new.tasks }
        ensures size { KeepsSize self.old self.new woken.old woken.new }
    {
        let waiting = self.channels[channel as usize].end();
        wake(waiting, woken);
    }

    /// Drops the receiver of a channel: its batches are discarded, and all tasks at the gate are woken. It takes no
    /// memory.
    pub fn drop_receiver(&mut self, channel: u32, woken: &mut Woken)
    where
        B: Drop,
        requires inside { channel < length self.old.gate.channels }
        requires apart { WaitApart self.old woken.old }

        ensures moves { Moves
            (dropped self.old.gate channel) self.new.gate woken.old.tasks woken.new.tasks }
        ensures size { KeepsSize self.old self.new woken.old woken.new }
    {
        self.channels[channel as usize].close();
        woken.append(&mut self.queue);
    }
}
