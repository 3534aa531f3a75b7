//! The calls that make an entry.

ghost use Rattle.std.specs.Prelude.{◌≡◌, ℕ, ◌<◌, length, slice_index, slice_index_or, nat_eq, not, ◌&&◌, false, true, None, Some};
ghost use Rattle.run_journal.specs.declared.cause.Cause.TheVariants.{NoMemory};
ghost use Rattle.run_journal.specs.declared.cause.Cause.TheVariants as TheCauses;
ghost use Rattle.run_journal.specs.declared.entry.EntryKind.TheVariants.{Claimed, Scanned, Freed, Wrote, Yielded, Finished, Failed};
ghost use Rattle.task_shape.specs.Shape.{task_at, has, receives_at};
ghost use Rattle.core_frame.specs.Frame.{owns, place_of, unfinished};
ghost use Rattle.core_frame.specs.declared.place.Place.TheVariants.{OwnedBy};
ghost use Rattle.core_frame.specs.Step.{Need, Scan, Recv, Send, Grow, Free, Writes, Finish, Fail, frame_step, may_fail, claimed, yielded, failed};
ghost use Rattle.core_frame.specs.Good.{IsOwn};
ghost use Rattle.run_frame.specs.Answers.{entry, IsServed, ServesSend, ServesReceive};

use crate::finish::leave;
use crate::frame::RunFrame;
use crate::shape::{can_spill, group_of};
use core_frame::Place;
use fair_pool::Exhausted;
use gate_channels::{Receiving, Sending};
use run_journal::{Cause, EntryKind};

// A consumer that can spill and holds something can give it back.
fn gives_back(spills: bool, held: u64) -> bool
    ensures { result ≡ spills && not (nat_eq held 0) }
{
    spills && held != 0
}

// The cause of a run that ends on a request past the share.
fn past_share(refused: Exhausted) -> Cause
    ensures { result ≡ TheCauses.Exhausted refused.requested refused.held refused.share }
{
    Cause::Exhausted {
        requested: refused.requested,
        held: refused.held,
        share: refused.share,
    }
}

impl<B> RunFrame<B> {
    /// Gives the woken task at a place of the queue, counted from 0, to a worker that owns none: the entry is Claimed. At
    /// the front it takes the same time however many tasks are woken.
    pub fn claim_at(&mut self, worker: u32, at: u32) -> u32
        requires alive { self.old.frame.failure ≡ None }
        requires inside { at < length self.old.frame.queue }
        requires free { owns worker self.old.frame.places ≡ false }

        ensures task { result ≡ slice_index self.old.frame.queue at }
        ensures frame { self.new.frame ≡ claimed self.old.frame result worker }
        ensures step { (need : Need B)
            → frame_step self.old.shape self.old.frame (entry worker result Claimed) need
            ≡ Some self.new.frame }
        ensures shape { self.new.shape ≡ self.old.shape }
    {
        let task = self.woken.take(at);
        self.places[task as usize] = Place::OwnedBy(worker);
        self.progress[task as usize] = false;
        task
    }

    /// The run fails, since memory was wanting for a claim of the woken task at a place of the queue by a worker that
    /// owns none: the entry is Failed.
    pub fn fail_claim(&mut self, worker: u32, at: u32) -> u32
        requires alive { self.old.frame.failure ≡ None }
        requires inside { at < length self.old.frame.queue }
        requires free { owns worker self.old.frame.places ≡ false }

        ensures task { result ≡ slice_index self.old.frame.queue at }
        ensures frame { self.new.frame ≡ failed self.old.frame NoMemory }
        ensures step { (need : Need B)
            → frame_step self.old.shape self.old.frame (entry worker result (Failed NoMemory)) need
            ≡ Some self.new.frame }
        ensures shape { self.new.shape ≡ self.old.shape }
    {
        let task = self.woken.get(at);
        self.failure = Some(Cause::NoMemory);
        task
    }

    /// The owner has scanned, or has written a piece of the answer, and goes on: the entry is Scanned or Wrote.
    pub fn go_on(&mut self, worker: u32, task: u32)
        requires alive { self.old.frame.failure ≡ None }
        requires owned { place_of self.old.frame task ≡ OwnedBy worker }

        ensures scanned { IsServed self.old self.new worker task Scan Scanned }
        ensures wrote { IsServed self.old self.new worker task Writes Wrote }
    {
        self.progress[task as usize] = true;
    }

    /// The owner gives the task to the end of the queue, after a progress entry: the entry is Yielded.
    pub fn yield_back(&mut self, worker: u32, task: u32)
        requires alive { self.old.frame.failure ≡ None }
        requires owned { place_of self.old.frame task ≡ OwnedBy worker }
        requires progress { slice_index_or self.old.frame.progress task false ≡ true }

        ensures frame { self.new.frame ≡ yielded self.old.frame task }
        ensures step { (need : Need B)
            → frame_step self.old.shape self.old.frame (entry worker task Yielded) need
            ≡ Some self.new.frame }
        ensures shape { self.new.shape ≡ self.old.shape }
    {
        self.places[task as usize] = Place::Woken;
        self.woken.push(task);
    }

    // The group that a task that has not ended sends to.
    fn group_of(&self, task: u32) -> u32
        requires unfinished { unfinished (place_of self.now.frame task) ≡ true }
        requires sends { (g : ℕ) × ((task_at self.now.shape task).sends ≡ Some g) }
        ensures { (task_at self.now.shape task).sends ≡ Some result }
    {
        group_of(&self.shape, task)
    }

    // Sends a batch to a channel of the group that the task sends to.
    fn send_to(&mut self, worker: u32, task: u32, group: u32, channel: u32, batch: B) -> Sending<B>
        requires alive { self.old.frame.failure ≡ None }
        requires owned { place_of self.old.frame task ≡ OwnedBy worker }
        requires sends { (task_at self.old.shape task).sends ≡ Some group }
        requires inside { has (task_at self.old.shape task).targets channel ≡ true }

        ensures answer { ServesSend self.old worker task channel batch result self.new }
    {
        let answer = self.groups[group as usize].try_send(task, channel, batch, &mut self.woken);
        match &answer {
            Sending::Sent => self.progress[task as usize] = true,
            Sending::Dropped { batch: _, last: _ } => self.progress[task as usize] = true,
            Sending::Held(_) => self.places[task as usize] = Place::AtGate(group),
            Sending::NoMemory(_) => {}
        }
        answer
    }

    /// The owner sends a batch to a channel of the group that it sends to: the entry is Sent, or Held or Dropped with the
    /// batch. For want of memory, in place of Sent, there is no entry, and all is as it was.
    pub fn send(&mut self, worker: u32, task: u32, channel: u32, batch: B) -> Sending<B>
        requires alive { self.old.frame.failure ≡ None }
        requires owned { place_of self.old.frame task ≡ OwnedBy worker }
        requires own { IsOwn self.old.shape task (Send channel batch) }

        ensures answer { ServesSend self.old worker task channel batch result self.new }
    {
        let group = self.group_of(task);
        self.send_to(worker, task, group, channel, batch)
    }

    /// The owner takes a batch from a channel that it receives from: the entry is Received, Empty or Ended. It takes no
    /// memory.
    pub fn receive(&mut self, worker: u32, task: u32, group: u32, channel: u32) -> Receiving<B>
        requires alive { self.old.frame.failure ≡ None }
        requires owned { place_of self.old.frame task ≡ OwnedBy worker }
        requires own { receives_at self.old.shape task group channel ≡ true }

        ensures answer { ServesReceive self.old worker task group channel result self.new }
    {
        let answer = self.groups[group as usize].try_recv(task, channel, &mut self.woken);
        match &answer {
            Receiving::Batch(_) => self.progress[task as usize] = true,
            Receiving::Ended => self.progress[task as usize] = true,
            Receiving::Empty => self.places[task as usize] = Place::AtChannel(group, channel),
        }
        answer
    }

    /// The owner's consumer reserves more bytes: the entry is Granted. Past its share it is Refused where the consumer can
    /// spill and holds something, and else the run has Failed, as the entry's kind tells. It takes no memory.
    pub fn grow(&mut self, worker: u32, task: u32, consumer: u32, bytes: u64) -> EntryKind
        requires alive { self.old.frame.failure ≡ None }
        requires owned { place_of self.old.frame task ≡ OwnedBy worker }
        requires own { has (task_at self.old.shape task).consumers consumer ≡ true }

        ensures { IsServed self.old self.new worker task (Grow consumer bytes) result }
    {
        let spills = can_spill(&self.shape, consumer);
        match self.pool.try_grow(consumer, bytes) {
            Ok(()) => {
                self.progress[task as usize] = true;
                EntryKind::Granted
            }
            Err(refused) => {
                let gives = gives_back(spills, refused.held);
                if gives {
                    self.progress[task as usize] = true;
                    EntryKind::Refused
                } else {
                    let cause = past_share(refused);
                    self.failure = Some(cause);
                    EntryKind::Failed(cause)
                }
            }
        }
    }

    /// The owner's consumer gives back all that it holds: the entry is Freed. It takes no memory.
    pub fn free(&mut self, worker: u32, task: u32, consumer: u32)
        requires alive { self.old.frame.failure ≡ None }
        requires owned { place_of self.old.frame task ≡ OwnedBy worker }
        requires own { has (task_at self.old.shape task).consumers consumer ≡ true }

        ensures { (bytes : ℕ) → IsServed self.old self.new worker task (Free consumer bytes) Freed }
    {
        let held = self.pool.held(consumer);
        self.pool.shrink(consumer, held);
        self.progress[task as usize] = true;
    }

    /// The task ends: its receivers are dropped by group, then channel; it ends as a sender by channel; and its consumers
    /// hold nothing any more. The entry is Finished. It takes no memory.
    pub fn finish(&mut self, worker: u32, task: u32)
    where
        B: Drop,
        requires alive { self.old.frame.failure ≡ None }
        requires owned { place_of self.old.frame task ≡ OwnedBy worker }

        ensures { IsServed self.old self.new worker task Finish Finished }
    {
        leave(
            &mut self.groups,
            &mut self.woken,
            &mut self.pool,
            &self.shape,
            task,
        );
        self.places[task as usize] = Place::Done;
        self.unfinished -= 1;
    }

    /// The run fails: the entry is Failed, for the cause that the owner's need names, or since a device or memory failed in
    /// place of an entry.
    pub fn fail(&mut self, worker: u32, task: u32, cause: Cause)
        requires alive { self.old.frame.failure ≡ None }
        requires owned { place_of self.old.frame task ≡ OwnedBy worker }

        ensures need { IsServed self.old self.new worker task (Fail cause) (Failed cause) }
        ensures device { may_fail (Failed cause) ≡ true → (need : Need B)
            → frame_step self.old.shape self.old.frame (entry worker task (Failed cause)) need
            ≡ Some self.new.frame }
    {
        self.failure = Some(cause);
    }
}
