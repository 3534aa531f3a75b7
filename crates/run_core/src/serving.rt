//! A worker comes back with its job.

ghost use Rattle.std.specs.Prelude.{◌≡◌, ◌+◌, ◌≤◌, ℕ, List, Some, None, true, false, length, slice_index_or, vec_len, vec_capacity};
ghost use Rattle.turn_cell.specs.Acts.{Adds};
ghost use Rattle.turn_cell.specs.Loans.{loan_of};
ghost use Rattle.work_pool.specs.Answers.{OnServed};
ghost use Rattle.run_tasks.specs.Moved.{IsReady};
ghost use Rattle.run_core.specs.Given.{Given};
ghost use Rattle.run_core.specs.Fits.{Fits};
ghost use Rattle.run_core.specs.Holds.{Holds};
ghost use Rattle.run_core.specs.Room.{HasRoom};
ghost use Rattle.run_core.specs.Serves.{GoesOn, OnNext};

use crate::job::Job;
use crate::needs::{free_with, grow_with, receive_with, scan_with, send_with, write_with};
use crate::opens::Opens;
use crate::parking::{end_with, fail_with, return_to, yield_with};
use crate::slots::make_room;
use run_frame::RunFrame;
use run_journal::Cause;
use run_tasks::{Ask, Rows, RunTask};
use std::marker::PhantomData;
use turn_cell::Act;
use work_pool::Served;

/// What the task asks is met: it goes on, or waits, or has ended, or the run has failed.
pub(crate) fn meet<O: Opens, B: Rows + Drop, T: RunTask<B>>(
    opening: &O,
    frame: &mut RunFrame<B>,
    tasks: &mut Vec<Option<T>>,
    acts: &mut Vec<Act>,
    worker: u32,
    task: T,
) -> Option<T>
    requires holds { Holds B.rows T.number T.suits T.need T.stands (O.given opening.now)
        frame.old.shape frame.old.frame tasks.old.items acts.old.items }
    requires room { HasRoom frame.old.frame.failure tasks.old.items
        (vec_len acts.old) (vec_capacity acts.old) }
    requires fits { Fits (O.given opening.now) (T.suits task (O.given opening.now).shape)
        (T.stands task (O.given opening.now).size) (T.need task) (T.number task)
        worker acts.old.items }
    requires more { vec_len acts.old + (length tasks.old.items + 2) ≤ vec_capacity acts.old }
    requires going { frame.old.frame.failure ≡ None }
    requires ready { IsReady (T.need task) }

    ensures holds { Holds B.rows T.number T.suits T.need T.stands (O.given opening.now)
        frame.new.shape frame.new.frame tasks.new.items acts.new.items }
    ensures room { HasRoom frame.new.frame.failure tasks.new.items
        (vec_len acts.new) (vec_capacity acts.new) }
    ensures acts { Adds worker acts.old.items acts.new.items }
    ensures next { OnNext result
        (GoesOn T.number T.suits T.need T.stands (O.given opening.now) frame.new.frame
        worker acts.new.items task)
        (loan_of worker acts.new.items ≡ None) }
{
    match task.asks() {
        Ask::Scan => Some(scan_with(opening, frame, tasks, acts, worker, task)),
        Ask::Write => Some(write_with(opening, frame, tasks, acts, worker, task)),
        Ask::Receive { group, channel } => {
            receive_with(opening, frame, tasks, acts, worker, task, group, channel)
        }
        Ask::Send(channel) => send_with(opening, frame, tasks, acts, worker, task, channel),
        Ask::Grow { consumer, bytes } => {
            grow_with(opening, frame, tasks, acts, worker, task, consumer, bytes)
        }
        Ask::Free(consumer) => Some(free_with(opening, frame, tasks, acts, worker, task, consumer)),
        Ask::Finish => {
            end_with(opening, frame, tasks, acts, worker, task);
            None
        }
        Ask::Fail(cause) => {
            fail_with(opening, frame, tasks, acts, worker, task, cause);
            None
        }
    }
}

/// The worker goes on, or yields after so many progress entries.
pub(crate) fn keep_on<O: Opens, B: Rows + Drop, T: RunTask<B>>(
    opening: &O,
    frame: &mut RunFrame<B>,
    tasks: &mut Vec<Option<T>>,
    acts: &mut Vec<Act>,
    worker: u32,
    task: T,
    progress: u64,
    turns: u64,
) -> Served<Job<B, T>>
    requires holds { Holds B.rows T.number T.suits T.need T.stands (O.given opening.now)
        frame.old.shape frame.old.frame tasks.old.items acts.old.items }
    requires room { HasRoom frame.old.frame.failure tasks.old.items
        (vec_len acts.old) (vec_capacity acts.old) }
    requires fits { Fits (O.given opening.now) (T.suits task (O.given opening.now).shape)
        (T.stands task (O.given opening.now).size) (T.need task) (T.number task)
        worker acts.old.items }
    requires going { frame.old.frame.failure ≡ None }
    requires need { T.need task ≡ None }
    requires marked { slice_index_or frame.old.frame.progress (T.number task) false ≡ true }

    ensures holds { Holds B.rows T.number T.suits T.need T.stands (O.given opening.now)
        frame.new.shape frame.new.frame tasks.new.items acts.new.items }
    ensures room { HasRoom frame.new.frame.failure tasks.new.items
        (vec_len acts.new) (vec_capacity acts.new) }
    ensures acts { Adds worker acts.old.items acts.new.items }
    ensures answer { OnServed result
        (λ next. (T.number next.task ≡ T.number task)
        × Fits (O.given opening.now)
        (T.suits next.task (O.given opening.now).shape)
        (T.stands next.task (O.given opening.now).size) (T.need next.task)
        (T.number next.task) worker acts.new.items)
        (loan_of worker acts.new.items ≡ None) }
{
    let made = progress.saturating_add(1);
    if made >= turns {
        yield_with(opening, frame, tasks, acts, worker, task);
        return Served::Parked;
    }
    Served::Again(Job {
        task,
        progress: made,
        batches: PhantomData,
    })
}

/// A worker comes back with its job.
pub(crate) fn serve_with<O: Opens, B: Rows + Drop, T: RunTask<B>>(
    opening: &O,
    frame: &mut RunFrame<B>,
    tasks: &mut Vec<Option<T>>,
    acts: &mut Vec<Act>,
    worker: u32,
    job: Job<B, T>,
    turns: u64,
) -> Served<Job<B, T>>
    requires holds { Holds B.rows T.number T.suits T.need T.stands (O.given opening.now)
        frame.old.shape frame.old.frame tasks.old.items acts.old.items }
    requires room { HasRoom frame.old.frame.failure tasks.old.items
        (vec_len acts.old) (vec_capacity acts.old) }
    requires fits { Fits (O.given opening.now) (T.suits job.task (O.given opening.now).shape)
        (T.stands job.task (O.given opening.now).size) (T.need job.task) (T.number job.task)
        worker acts.old.items }
    requires ready { IsReady (T.need job.task) }

    ensures holds { Holds B.rows T.number T.suits T.need T.stands (O.given opening.now)
        frame.new.shape frame.new.frame tasks.new.items acts.new.items }
    ensures room { HasRoom frame.new.frame.failure tasks.new.items
        (vec_len acts.new) (vec_capacity acts.new) }
    ensures acts { Adds worker acts.old.items acts.new.items }
    ensures answer { OnServed result
        (λ next. (T.number next.task ≡ T.number job.task)
        × (loan_of worker acts.new.items ≡ loan_of worker acts.old.items)
        × Fits (O.given opening.now) (T.suits next.task (O.given opening.now).shape)
        (T.stands next.task (O.given opening.now).size) (T.need next.task)
        (T.number next.task) worker acts.new.items)
        (loan_of worker acts.new.items ≡ None) }
{
    let Job {
        task,
        progress,
        batches: _,
    } = job;
    if frame.failed().is_some() {
        return_to(opening, frame, tasks, acts, worker, task);
        return Served::Parked;
    }
    if !make_room(acts, tasks.len(), 2) {
        fail_with(opening, frame, tasks, acts, worker, task, Cause::NoMemory);
        return Served::Parked;
    }
    match meet(opening, frame, tasks, acts, worker, task) {
        Some(task) => keep_on(opening, frame, tasks, acts, worker, task, progress, turns),
        None => Served::Parked,
    }
}
