//! The frame of a run, and what can be asked of it.

ghost use Rattle.std.specs.Prelude.{◌≡◌, ℕ, ◌<◌, length, slice_index_or, false, IfOk};
ghost use Rattle.core_frame.specs.Frame.{opening, all_done, place_of};
ghost use Rattle.core_frame.specs.Step.{is_over};
ghost use Rattle.core_frame.specs.Good.{IsGood};
ghost use Rattle.core_frame.specs.Lawful.{IsLawful};
ghost use Rattle.fair_pool.specs.Share.{held_by};
ghost use Rattle.run_frame.specs.Running.{IsRunnable, owner_at};

use crate::shape::Shape;
use crate::start::{all_woken, count_senders, open_groups, small};
use core_frame::Place;
use dfx_value::NoMemory;
use fair_pool::Pool;
use gate_channels::{Group, Woken};
use run_journal::Cause;
use std::alloc::Global;
use std::marker::Model;

/// The groups, the pool, the woken tasks and the places of a run, with the shape of its plan.
///
/// Each call that changes it is one step of the frame. None of them takes time that grows with the number of tasks, but
/// for the tasks that it wakes, and the channels of a task that ends.
#[derive(Drop)]
pub struct RunFrame<B> {
    pub(crate) shape: Shape,
    pub(crate) groups: Vec<Group<B>>,
    pub(crate) pool: Pool,
    pub(crate) woken: Woken,
    // Where each task was put last. Who is in the queue since then is woken.
    pub(crate) places: Vec<Place>,
    pub(crate) progress: Vec<bool>,
    pub(crate) failure: Option<Cause>,
    // How many tasks have not ended.
    pub(crate) unfinished: usize,
}

impl<B> Model for RunFrame<B> {
    ghost use Rattle.run_frame.specs.Running.{Running, IsRunning, frame_of};

    ghost Value = { Running B };

    ghost view = { λ m. record {
      shape = m.shape;
      frame = frame_of m.groups.items m.pool m.woken.tasks m.places.items
          m.progress.items m.failure;
    } };

    ghost invariant = { λ m. IsRunning m.shape m.groups.items m.pool m.woken.tasks m.woken.room
        m.places.items m.progress.items m.failure m.unfinished };
}

// The worker that owns a task at this place.
fn owner_of(place: Place) -> Option<u32>
    ensures { result ≡ owner_at place }
{
    match place {
        Place::OwnedBy(worker) => Some(worker),
        _ => None,
    }
}

impl<B> RunFrame<B> {
    /// Opens the run of a plan's tasks under a memory limit in bytes: every task is woken, in order, every channel is
    /// live and empty, and nothing is held. The shape of each plan is one that may be run.
    ///
    /// For want of memory nothing is left; 2^32 tasks count as want of memory.
    pub fn start(alloc: Global, shape: Shape, limit: u64) -> Result<RunFrame<B>, NoMemory>
    where
        B: Drop,
        requires plan { IsRunnable shape }

        ensures shape { IfOk result (λ machine. machine.shape ≡ shape) }
        ensures frame { IfOk result (λ machine. machine.frame ≡ opening shape limit) }
    {
        let tasks = small(shape.tasks.len())?;
        let senders = count_senders(alloc, &shape)?;
        let groups = open_groups(alloc, &senders, tasks)?;
        let pool = Pool::new(alloc, limit, shape.spillable.as_slice())?;
        let woken = all_woken(alloc, tasks)?;
        let places = vec![in alloc; Place::Woken; tasks as usize]?;
        let progress = vec![in alloc; false; tasks as usize]?;
        Ok(RunFrame {
            shape,
            groups,
            pool,
            woken,
            places,
            progress,
            failure: None,
            unfinished: tasks as usize,
        })
    }

    /// The shape of the plan.
    pub fn shape(&self) -> &Shape
        ensures { result.now ≡ self.now.shape }
    {
        &self.shape
    }

    /// How many tasks are woken.
    pub fn woken(&self) -> u32
        ensures { result ≡ length self.now.frame.queue }
    {
        self.woken.len()
    }

    /// All tasks have ended.
    pub fn is_finished(&self) -> bool
        ensures { result ≡ all_done self.now.frame.places }
    {
        self.unfinished == 0
    }

    /// No entry follows: all tasks have ended, or the run has failed.
    pub fn is_over(&self) -> bool
        ensures { result ≡ is_over self.now.frame }
    {
        self.is_finished() || self.failure.is_some()
    }

    /// Why the run has failed, if it has.
    pub fn failed(&self) -> Option<Cause>
        ensures { result ≡ self.now.frame.failure }
    {
        self.failure
    }

    /// The worker that owns the task, if one does.
    pub fn owner(&self, task: u32) -> Option<u32>
        requires inside { task < length self.now.frame.places }
        ensures { result ≡ owner_at (place_of self.now.frame task) }
    {
        owner_of(self.places[task as usize])
    }

    /// The owner has made a progress entry since it claimed the task.
    pub fn has_progress(&self, task: u32) -> bool
        requires inside { task < length self.now.frame.places }
        ensures { result ≡ slice_index_or self.now.frame.progress task false }
    {
        self.progress[task as usize]
    }

    /// What a consumer of memory holds, in bytes.
    pub fn held(&self, consumer: u32) -> u64
        requires inside { consumer < length self.now.shape.spillable }
        ensures { result ≡ held_by self.now.frame.pool consumer }
    {
        self.pool.held(consumer)
    }

    /// The frame is lawful, and so good: the limit holds, each task is in one place, no batch is lost behind a closed
    /// gate, and while a task is unfinished some task is woken or owned. The call does nothing.
    pub fn vouch(&self)
        ensures plan { IsRunnable self.now.shape }
        ensures lawful { IsLawful self.now.shape self.now.frame }
        ensures good { IsGood self.now.shape self.now.frame }

        // Each task has a mark of its progress.
        ensures marks { length self.now.frame.progress ≡ length self.now.frame.places }
    {
        let _unfinished = self.unfinished;
    }
}
