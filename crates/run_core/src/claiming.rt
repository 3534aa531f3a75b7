//! A claim.

ghost use Rattle.std.specs.Prelude.{◌≡◌, ◌<◌, if◌then◌else◌, nat_lt, slice_index, ℕ, Some, None, true, vec_len, vec_capacity};
ghost use Rattle.turn_cell.specs.Acts.{Adds};
ghost use Rattle.turn_cell.specs.Loans.{loan_of};
ghost use Rattle.core_frame.specs.Step.{is_over};
ghost use Rattle.work_pool.specs.Answers.{OnClaim};
ghost use Rattle.run_core.specs.Given.{Given};
ghost use Rattle.run_core.specs.Fits.{Fits};
ghost use Rattle.run_core.specs.Holds.{Holds};
ghost use Rattle.run_core.specs.Room.{HasRoom};
ghost use Rattle.run_core.specs.RunView.{place_in};

use crate::job::Job;
use crate::opens::Opens;
use crate::slots::{make_room, note, take_at};
use run_frame::RunFrame;
use run_journal::{Cause, Entry, EntryKind};
use run_tasks::{Rows, RunTask};
use std::marker::PhantomData;
use turn_cell::Act;
use work_pool::Claim;

// The place, or the front where there are no more than so many.
fn place_in(places: u32, at: u32) -> u32
    requires { 0 < places }
    ensures inside { result < places }
    ensures place { result ≡ (if nat_lt at places then at else 0) }
{
    if at < places { at } else { 0 }
}

/// A worker without a loan takes the woken task at this place of the queue, or at its front where the queue isn't so long.
pub(crate) fn claim_from<O: Opens, B: Rows, T: RunTask<B>>(
    opening: &O,
    frame: &mut RunFrame<B>,
    tasks: &mut Vec<Option<T>>,
    acts: &mut Vec<Act>,
    worker: u32,
    at: u32,
) -> Claim<Job<B, T>>
    requires holds { Holds B.rows T.number T.suits T.need T.stands (O.given opening.now)
        frame.old.shape frame.old.frame tasks.old.items acts.old.items }
    requires room { HasRoom frame.old.frame.failure tasks.old.items
        (vec_len acts.old) (vec_capacity acts.old) }
    requires free { loan_of worker acts.old.items ≡ None }

    ensures holds { Holds B.rows T.number T.suits T.need T.stands (O.given opening.now)
        frame.new.shape frame.new.frame tasks.new.items acts.new.items }
    ensures room { HasRoom frame.new.frame.failure tasks.new.items
        (vec_len acts.new) (vec_capacity acts.new) }
    ensures acts { Adds worker acts.old.items acts.new.items }
    ensures answer { OnClaim result
        (λ job. (loan_of worker acts.new.items ≡ Some (T.number job.task))
        × Fits (O.given opening.now) (T.suits job.task (O.given opening.now).shape)
        (T.stands job.task (O.given opening.now).size) (T.need job.task) (T.number job.task)
        worker acts.new.items)
        (loan_of worker acts.new.items ≡ None)
        ((loan_of worker acts.new.items ≡ None) × (is_over frame.new.frame ≡ true)) }

    // The task is the one at this place.
    ensures task { OnClaim result
        (λ job. T.number job.task ≡ slice_index frame.old.frame.queue (place_in frame.old.frame at))
        (Unit {0}) (Unit {0}) }

    // Idle comes only where some worker has a task in hand.
    ensures idle { OnClaim result (λ _. Unit {0})
        ((w : ℕ) × (t : ℕ) × (loan_of w acts.new.items ≡ Some t)) (Unit {0}) }
{
    frame.vouch();
    if frame.is_over() {
        return Claim::Over;
    }
    let woken = frame.woken();
    if woken == 0 {
        return Claim::Idle;
    }
    let place = place_in(woken, at);
    if !make_room(acts, tasks.len(), 2) {
        let task = frame.fail_claim(worker, place);
        let kind = EntryKind::Failed(Cause::NoMemory);
        note(acts, Act::Made(Entry { worker, task, kind }));
        return Claim::Over;
    }
    let number = frame.claim_at(worker, place);
    let task = take_at(tasks, number);
    let kind = EntryKind::Claimed;
    note(
        acts,
        Act::Made(Entry {
            worker,
            task: number,
            kind,
        }),
    );
    Claim::Job(Job {
        task,
        progress: 0,
        batches: PhantomData,
    })
}
