//! A need of an owner is met.

ghost use Rattle.std.specs.Prelude.{◌≡◌, ◌+◌, ◌≤◌, ℕ, List, Some, None, true, length, vec_len, vec_capacity};
ghost use Rattle.turn_cell.specs.Acts.{Adds};
ghost use Rattle.turn_cell.specs.Loans.{loan_of};
ghost use Rattle.core_frame.specs.Step.{Need, Scan, Recv, Send, Grow, Free, Writes};
ghost use Rattle.core_frame.specs.Good.{IsOwn};
ghost use Rattle.logical_plan.specs.Items.{Cells};
ghost use Rattle.run_core.specs.Given.{Given};
ghost use Rattle.run_core.specs.Fits.{Fits};
ghost use Rattle.run_core.specs.Holds.{Holds};
ghost use Rattle.run_core.specs.Room.{HasRoom};
ghost use Rattle.run_core.specs.Serves.{GoesOn, OnNext};

use crate::opens::Opens;
use crate::parking::fail_with;
use crate::slots::{note, put_at};
use gate_channels::{Receiving, Sending};
use run_frame::RunFrame;
use run_journal::{Cause, Entry, EntryKind};
use run_tasks::{Answer, Rows, RunTask};
use turn_cell::Act;

/// The task has scanned.
pub(crate) fn scan_with<O: Opens, B: Rows, T: RunTask<B>>(
    opening: &O,
    frame: &mut RunFrame<B>,
    tasks: &mut Vec<Option<T>>,
    acts: &mut Vec<Act>,
    worker: u32,
    mut task: T,
) -> T
    requires holds { Holds B.rows T.number T.suits T.need T.stands (O.given opening.now)
        frame.old.shape frame.old.frame tasks.old.items acts.old.items }
    requires more { vec_len acts.old + (length tasks.old.items + 2) ≤ vec_capacity acts.old }
    requires fits { Fits (O.given opening.now) (T.suits task (O.given opening.now).shape)
        (T.stands task (O.given opening.now).size) (T.need task) (T.number task)
        worker acts.old.items }
    requires going { frame.old.frame.failure ≡ None }
    requires need { T.need task ≡ Some Scan }

    ensures holds { Holds B.rows T.number T.suits T.need T.stands (O.given opening.now)
        frame.new.shape frame.new.frame tasks.new.items acts.new.items }
    ensures room { HasRoom frame.new.frame.failure tasks.new.items
        (vec_len acts.new) (vec_capacity acts.new) }
    ensures acts { Adds worker acts.old.items acts.new.items }
    ensures next { GoesOn T.number T.suits T.need T.stands (O.given opening.now) frame.new.frame
        worker acts.new.items task result }
{
    frame.vouch();
    let number = task.number();
    frame.go_on(worker, number);
    let kind = EntryKind::Scanned;
    note(
        acts,
        Act::Made(Entry {
            worker,
            task: number,
            kind,
        }),
    );
    task.reply(Answer::Go);
    task
}

/// The task has written.
pub(crate) fn write_with<O: Opens, B: Rows, T: RunTask<B>>(
    opening: &O,
    frame: &mut RunFrame<B>,
    tasks: &mut Vec<Option<T>>,
    acts: &mut Vec<Act>,
    worker: u32,
    mut task: T,
) -> T
    requires holds { Holds B.rows T.number T.suits T.need T.stands (O.given opening.now)
        frame.old.shape frame.old.frame tasks.old.items acts.old.items }
    requires more { vec_len acts.old + (length tasks.old.items + 2) ≤ vec_capacity acts.old }
    requires fits { Fits (O.given opening.now) (T.suits task (O.given opening.now).shape)
        (T.stands task (O.given opening.now).size) (T.need task) (T.number task)
        worker acts.old.items }
    requires going { frame.old.frame.failure ≡ None }
    requires need { T.need task ≡ Some Writes }

    ensures holds { Holds B.rows T.number T.suits T.need T.stands (O.given opening.now)
        frame.new.shape frame.new.frame tasks.new.items acts.new.items }
    ensures room { HasRoom frame.new.frame.failure tasks.new.items
        (vec_len acts.new) (vec_capacity acts.new) }
    ensures acts { Adds worker acts.old.items acts.new.items }
    ensures next { GoesOn T.number T.suits T.need T.stands (O.given opening.now) frame.new.frame
        worker acts.new.items task result }
{
    frame.vouch();
    let number = task.number();
    frame.go_on(worker, number);
    let kind = EntryKind::Wrote;
    note(
        acts,
        Act::Made(Entry {
            worker,
            task: number,
            kind,
        }),
    );
    task.reply(Answer::Go);
    task
}

/// A consumer of the task has given back all that it held.
pub(crate) fn free_with<O: Opens, B: Rows, T: RunTask<B>>(
    opening: &O,
    frame: &mut RunFrame<B>,
    tasks: &mut Vec<Option<T>>,
    acts: &mut Vec<Act>,
    worker: u32,
    mut task: T,
    consumer: u32,
) -> T
    requires holds { Holds B.rows T.number T.suits T.need T.stands (O.given opening.now)
        frame.old.shape frame.old.frame tasks.old.items acts.old.items }
    requires more { vec_len acts.old + (length tasks.old.items + 2) ≤ vec_capacity acts.old }
    requires fits { Fits (O.given opening.now) (T.suits task (O.given opening.now).shape)
        (T.stands task (O.given opening.now).size) (T.need task) (T.number task)
        worker acts.old.items }
    requires going { frame.old.frame.failure ≡ None }
    requires need { (bytes : ℕ) × (T.need task ≡ Some (Free consumer bytes)) }
    requires own { (n : Need (List Cells)) → T.need task ≡ Some n
        → IsOwn (O.given opening.now).shape (T.number task) n }

    ensures holds { Holds B.rows T.number T.suits T.need T.stands (O.given opening.now)
        frame.new.shape frame.new.frame tasks.new.items acts.new.items }
    ensures room { HasRoom frame.new.frame.failure tasks.new.items
        (vec_len acts.new) (vec_capacity acts.new) }
    ensures acts { Adds worker acts.old.items acts.new.items }
    ensures next { GoesOn T.number T.suits T.need T.stands (O.given opening.now) frame.new.frame
        worker acts.new.items task result }
{
    frame.vouch();
    let number = task.number();
    frame.free(worker, number, consumer);
    let kind = EntryKind::Freed;
    note(
        acts,
        Act::Made(Entry {
            worker,
            task: number,
            kind,
        }),
    );
    task.reply(Answer::Go);
    task
}

/// The task takes a batch from a channel, or is told of its end, or waits there.
pub(crate) fn receive_with<O: Opens, B: Rows, T: RunTask<B>>(
    opening: &O,
    frame: &mut RunFrame<B>,
    tasks: &mut Vec<Option<T>>,
    acts: &mut Vec<Act>,
    worker: u32,
    mut task: T,
    group: u32,
    channel: u32,
) -> Option<T>
    requires holds { Holds B.rows T.number T.suits T.need T.stands (O.given opening.now)
        frame.old.shape frame.old.frame tasks.old.items acts.old.items }
    requires room { HasRoom frame.old.frame.failure tasks.old.items
        (vec_len acts.old) (vec_capacity acts.old) }
    requires more { vec_len acts.old + (length tasks.old.items + 2) ≤ vec_capacity acts.old }
    requires fits { Fits (O.given opening.now) (T.suits task (O.given opening.now).shape)
        (T.stands task (O.given opening.now).size) (T.need task) (T.number task)
        worker acts.old.items }
    requires going { frame.old.frame.failure ≡ None }
    requires need { T.need task ≡ Some (Recv group channel) }
    requires own { (n : Need (List Cells)) → T.need task ≡ Some n
        → IsOwn (O.given opening.now).shape (T.number task) n }

    ensures holds { Holds B.rows T.number T.suits T.need T.stands (O.given opening.now)
        frame.new.shape frame.new.frame tasks.new.items acts.new.items }
    ensures room { HasRoom frame.new.frame.failure tasks.new.items
        (vec_len acts.new) (vec_capacity acts.new) }
    ensures acts { Adds worker acts.old.items acts.new.items }
    ensures next { OnNext result
        (GoesOn T.number T.suits T.need T.stands (O.given opening.now) frame.new.frame
        worker acts.new.items task)
        (loan_of worker acts.new.items ≡ None) }
{
    frame.vouch();
    let number = task.number();
    match frame.receive(worker, number, group, channel) {
        Receiving::Batch(batch) => {
            let kind = EntryKind::Received;
            note(
                acts,
                Act::Made(Entry {
                    worker,
                    task: number,
                    kind,
                }),
            );
            task.reply(Answer::Batch(batch));
            Some(task)
        }
        Receiving::Ended => {
            let kind = EntryKind::Ended;
            note(
                acts,
                Act::Made(Entry {
                    worker,
                    task: number,
                    kind,
                }),
            );
            task.reply(Answer::Ended);
            Some(task)
        }
        Receiving::Empty => {
            let kind = EntryKind::Empty;
            note(
                acts,
                Act::Made(Entry {
                    worker,
                    task: number,
                    kind,
                }),
            );
            put_at(tasks, number, task);
            None
        }
    }
}

/// A consumer of the task reserves more bytes, or is refused them, or the run fails.
pub(crate) fn grow_with<O: Opens, B: Rows, T: RunTask<B>>(
    opening: &O,
    frame: &mut RunFrame<B>,
    tasks: &mut Vec<Option<T>>,
    acts: &mut Vec<Act>,
    worker: u32,
    mut task: T,
    consumer: u32,
    bytes: u64,
) -> Option<T>
    requires holds { Holds B.rows T.number T.suits T.need T.stands (O.given opening.now)
        frame.old.shape frame.old.frame tasks.old.items acts.old.items }
    requires room { HasRoom frame.old.frame.failure tasks.old.items
        (vec_len acts.old) (vec_capacity acts.old) }
    requires more { vec_len acts.old + (length tasks.old.items + 2) ≤ vec_capacity acts.old }
    requires fits { Fits (O.given opening.now) (T.suits task (O.given opening.now).shape)
        (T.stands task (O.given opening.now).size) (T.need task) (T.number task)
        worker acts.old.items }
    requires going { frame.old.frame.failure ≡ None }
    requires need { T.need task ≡ Some (Grow consumer bytes) }
    requires own { (n : Need (List Cells)) → T.need task ≡ Some n
        → IsOwn (O.given opening.now).shape (T.number task) n }

    ensures holds { Holds B.rows T.number T.suits T.need T.stands (O.given opening.now)
        frame.new.shape frame.new.frame tasks.new.items acts.new.items }
    ensures room { HasRoom frame.new.frame.failure tasks.new.items
        (vec_len acts.new) (vec_capacity acts.new) }
    ensures acts { Adds worker acts.old.items acts.new.items }
    ensures next { OnNext result
        (GoesOn T.number T.suits T.need T.stands (O.given opening.now) frame.new.frame
        worker acts.new.items task)
        (loan_of worker acts.new.items ≡ None) }
{
    frame.vouch();
    let number = task.number();
    match frame.grow(worker, number, consumer, bytes) {
        EntryKind::Granted => {
            let kind = EntryKind::Granted;
            note(
                acts,
                Act::Made(Entry {
                    worker,
                    task: number,
                    kind,
                }),
            );
            task.reply(Answer::Go);
            Some(task)
        }
        EntryKind::Refused => {
            let kind = EntryKind::Refused;
            note(
                acts,
                Act::Made(Entry {
                    worker,
                    task: number,
                    kind,
                }),
            );
            task.reply(Answer::Refused);
            Some(task)
        }
        EntryKind::Failed(cause) => {
            let kind = EntryKind::Failed(cause);
            note(
                acts,
                Act::Made(Entry {
                    worker,
                    task: number,
                    kind,
                }),
            );
            put_at(tasks, number, task);
            None
        }
        _ => unreachable!(),
    }
}

/// The task's part is sent, or nobody receives it, or the task waits with it.
pub(crate) fn send_with<O: Opens, B: Rows + Drop, T: RunTask<B>>(
    opening: &O,
    frame: &mut RunFrame<B>,
    tasks: &mut Vec<Option<T>>,
    acts: &mut Vec<Act>,
    worker: u32,
    mut task: T,
    channel: u32,
) -> Option<T>
    requires holds { Holds B.rows T.number T.suits T.need T.stands (O.given opening.now)
        frame.old.shape frame.old.frame tasks.old.items acts.old.items }
    requires room { HasRoom frame.old.frame.failure tasks.old.items
        (vec_len acts.old) (vec_capacity acts.old) }
    requires more { vec_len acts.old + (length tasks.old.items + 2) ≤ vec_capacity acts.old }
    requires fits { Fits (O.given opening.now) (T.suits task (O.given opening.now).shape)
        (T.stands task (O.given opening.now).size) (T.need task) (T.number task)
        worker acts.old.items }
    requires going { frame.old.frame.failure ≡ None }
    requires need { (part : List Cells) × (T.need task ≡ Some (Send channel part)) }
    requires own { (n : Need (List Cells)) → T.need task ≡ Some n
        → IsOwn (O.given opening.now).shape (T.number task) n }

    ensures holds { Holds B.rows T.number T.suits T.need T.stands (O.given opening.now)
        frame.new.shape frame.new.frame tasks.new.items acts.new.items }
    ensures room { HasRoom frame.new.frame.failure tasks.new.items
        (vec_len acts.new) (vec_capacity acts.new) }
    ensures acts { Adds worker acts.old.items acts.new.items }
    ensures next { OnNext result
        (GoesOn T.number T.suits T.need T.stands (O.given opening.now) frame.new.frame
        worker acts.new.items task)
        (loan_of worker acts.new.items ≡ None) }
{
    frame.vouch();
    let number = task.number();
    let part = task.take_part();
    match frame.send(worker, number, channel, part) {
        Sending::Sent => {
            let kind = EntryKind::Sent;
            note(
                acts,
                Act::Made(Entry {
                    worker,
                    task: number,
                    kind,
                }),
            );
            task.part_answered(Answer::Go);
            Some(task)
        }
        Sending::Dropped { batch, last } => {
            drop(batch);
            let kind = EntryKind::Dropped;
            note(
                acts,
                Act::Made(Entry {
                    worker,
                    task: number,
                    kind,
                }),
            );
            task.part_answered(Answer::Gone { last });
            Some(task)
        }
        Sending::Held(part) => {
            task.put_part(part);
            let kind = EntryKind::Held;
            note(
                acts,
                Act::Made(Entry {
                    worker,
                    task: number,
                    kind,
                }),
            );
            put_at(tasks, number, task);
            None
        }
        Sending::NoMemory(part) => {
            task.put_part(part);
            fail_with(opening, frame, tasks, acts, worker, task, Cause::NoMemory);
            None
        }
    }
}
