//! An owner gives its task back.

ghost use Rattle.std.specs.Prelude.{◌≡◌, ◌⊎◌, ℕ, Some, None, true, false, is_some, slice_index_or, vec_len, vec_capacity};
ghost use Rattle.run_journal.specs.declared.entry.EntryKind.TheVariants.{Failed};
ghost use Rattle.turn_cell.specs.Acts.{Adds};
ghost use Rattle.turn_cell.specs.Loans.{loan_of};
ghost use Rattle.core_frame.specs.Step.{Fail, Finish, may_fail};
ghost use Rattle.run_core.specs.Given.{Given};
ghost use Rattle.run_core.specs.Fits.{Fits};
ghost use Rattle.run_core.specs.Holds.{Holds};
ghost use Rattle.run_core.specs.Room.{HasRoom};

use crate::opens::Opens;
use crate::slots::{note, put_at};
use run_frame::RunFrame;
use run_journal::{Cause, Entry, EntryKind};
use run_tasks::{Rows, RunTask};
use turn_cell::Act;

/// A run that has failed takes the task back.
pub(crate) fn return_to<O: Opens, B: Rows, T: RunTask<B>>(
    opening: &O,
    frame: &mut RunFrame<B>,
    tasks: &mut Vec<Option<T>>,
    acts: &mut Vec<Act>,
    worker: u32,
    task: T,
)
    requires holds { Holds B.rows T.number T.suits T.need T.stands (O.given opening.now)
        frame.old.shape frame.old.frame tasks.old.items acts.old.items }
    requires room { HasRoom frame.old.frame.failure tasks.old.items
        (vec_len acts.old) (vec_capacity acts.old) }
    requires fits { Fits (O.given opening.now) (T.suits task (O.given opening.now).shape)
        (T.stands task (O.given opening.now).size) (T.need task) (T.number task)
        worker acts.old.items }
    requires failed { is_some frame.old.frame.failure ≡ true }

    ensures holds { Holds B.rows T.number T.suits T.need T.stands (O.given opening.now)
        frame.new.shape frame.new.frame tasks.new.items acts.new.items }
    ensures room { HasRoom frame.new.frame.failure tasks.new.items
        (vec_len acts.new) (vec_capacity acts.new) }
    ensures acts { Adds worker acts.old.items acts.new.items }
    ensures free { loan_of worker acts.new.items ≡ None }
{
    frame.vouch();
    let number = task.number();
    note(
        acts,
        Act::Returned {
            worker,
            task: number,
        },
    );
    put_at(tasks, number, task);
}

/// The run fails, for want of a device or of memory, or as the task asks.
pub(crate) fn fail_with<O: Opens, B: Rows, T: RunTask<B>>(
    opening: &O,
    frame: &mut RunFrame<B>,
    tasks: &mut Vec<Option<T>>,
    acts: &mut Vec<Act>,
    worker: u32,
    task: T,
    cause: Cause,
)
    requires holds { Holds B.rows T.number T.suits T.need T.stands (O.given opening.now)
        frame.old.shape frame.old.frame tasks.old.items acts.old.items }
    requires room { HasRoom frame.old.frame.failure tasks.old.items
        (vec_len acts.old) (vec_capacity acts.old) }
    requires fits { Fits (O.given opening.now) (T.suits task (O.given opening.now).shape)
        (T.stands task (O.given opening.now).size) (T.need task) (T.number task)
        worker acts.old.items }
    requires going { frame.old.frame.failure ≡ None }
    requires cause { (may_fail (Failed cause) ≡ true) ⊎ (T.need task ≡ Some (Fail cause)) }

    ensures holds { Holds B.rows T.number T.suits T.need T.stands (O.given opening.now)
        frame.new.shape frame.new.frame tasks.new.items acts.new.items }
    ensures room { HasRoom frame.new.frame.failure tasks.new.items
        (vec_len acts.new) (vec_capacity acts.new) }
    ensures acts { Adds worker acts.old.items acts.new.items }
    ensures free { loan_of worker acts.new.items ≡ None }
{
    frame.vouch();
    let number = task.number();
    frame.fail(worker, number, cause);
    let kind = EntryKind::Failed(cause);
    note(
        acts,
        Act::Made(Entry {
            worker,
            task: number,
            kind,
        }),
    );
    put_at(tasks, number, task);
}

/// The task has ended.
pub(crate) fn end_with<O: Opens, B: Rows + Drop, T: RunTask<B>>(
    opening: &O,
    frame: &mut RunFrame<B>,
    tasks: &mut Vec<Option<T>>,
    acts: &mut Vec<Act>,
    worker: u32,
    task: T,
)
    requires holds { Holds B.rows T.number T.suits T.need T.stands (O.given opening.now)
        frame.old.shape frame.old.frame tasks.old.items acts.old.items }
    requires room { HasRoom frame.old.frame.failure tasks.old.items
        (vec_len acts.old) (vec_capacity acts.old) }
    requires fits { Fits (O.given opening.now) (T.suits task (O.given opening.now).shape)
        (T.stands task (O.given opening.now).size) (T.need task) (T.number task)
        worker acts.old.items }
    requires going { frame.old.frame.failure ≡ None }
    requires need { T.need task ≡ Some Finish }

    ensures holds { Holds B.rows T.number T.suits T.need T.stands (O.given opening.now)
        frame.new.shape frame.new.frame tasks.new.items acts.new.items }
    ensures room { HasRoom frame.new.frame.failure tasks.new.items
        (vec_len acts.new) (vec_capacity acts.new) }
    ensures acts { Adds worker acts.old.items acts.new.items }
    ensures free { loan_of worker acts.new.items ≡ None }
{
    frame.vouch();
    let number = task.number();
    frame.finish(worker, number);
    let kind = EntryKind::Finished;
    note(
        acts,
        Act::Made(Entry {
            worker,
            task: number,
            kind,
        }),
    );
    put_at(tasks, number, task);
}

/// The task goes back to the queue.
pub(crate) fn yield_with<O: Opens, B: Rows, T: RunTask<B>>(
    opening: &O,
    frame: &mut RunFrame<B>,
    tasks: &mut Vec<Option<T>>,
    acts: &mut Vec<Act>,
    worker: u32,
    task: T,
)
    requires holds { Holds B.rows T.number T.suits T.need T.stands (O.given opening.now)
        frame.old.shape frame.old.frame tasks.old.items acts.old.items }
    requires room { HasRoom frame.old.frame.failure tasks.old.items
        (vec_len acts.old) (vec_capacity acts.old) }
    requires fits { Fits (O.given opening.now) (T.suits task (O.given opening.now).shape)
        (T.stands task (O.given opening.now).size) (T.need task) (T.number task)
        worker acts.old.items }
    requires going { frame.old.frame.failure ≡ None }
    requires need { T.need task ≡ None }
    requires marked { slice_index_or frame.old.frame.progress (T.number task) false ≡ true }

    ensures holds { Holds B.rows T.number T.suits T.need T.stands (O.given opening.now)
        frame.new.shape frame.new.frame tasks.new.items acts.new.items }
    ensures room { HasRoom frame.new.frame.failure tasks.new.items
        (vec_len acts.new) (vec_capacity acts.new) }
    ensures acts { Adds worker acts.old.items acts.new.items }
    ensures free { loan_of worker acts.new.items ≡ None }
{
    frame.vouch();
    let number = task.number();
    frame.yield_back(worker, number);
    let kind = EntryKind::Yielded;
    note(
        acts,
        Act::Made(Entry {
            worker,
            task: number,
            kind,
        }),
    );
    put_at(tasks, number, task);
}
