//! A run, handed from worker to worker.

ghost use Rattle.std.specs.Prelude.{◌≡◌, ℕ, List, [], Some, None, true, IfOk, IfErr, length, slice_index, vec_len};
ghost use Rattle.turn_cell.specs.Acts.{Adds, journal_of};
ghost use Rattle.turn_cell.specs.Loans.{loan_of};
ghost use Rattle.core_frame.specs.Step.{is_over};
ghost use Rattle.work_pool.specs.Answers.{OnClaim, OnServed};
ghost use Rattle.run_core.specs.Given.{Given};
ghost use Rattle.run_core.specs.Fits.{Sound, Fits};
ghost use Rattle.run_core.specs.Over.{Over, stays_over};
ghost use Rattle.run_core.specs.StaysFit.{stays_fit, advance_fits};
ghost use Rattle.run_core.specs.Holds.{Holds};
ghost use Rattle.run_core.specs.RunView.{place_in};
ghost use Rattle.run_core.specs.Starts.{Starts, AllHere};

use crate::claiming::claim_from;
use crate::job::Job;
use crate::opens::Opens;
use crate::serving::serve_with;
use run_frame::RunFrame;
use run_tasks::{Rows, RunTask};
use std::marker::Model;
use turn_cell::{Act, Kept};
use work_pool::{Claim, Served, Work};

/// A run: its frame, its tasks, and what its workers did.
pub struct Run<O: Opens, B: Rows, T: RunTask<B>> {
    opening: O,
    frame: RunFrame<B>,
    // By number, those that nobody has.
    tasks: Vec<Option<T>>,
    acts: Vec<Act>,
    // How many progress entries an owner makes before it yields.
    turns: u64,
}

impl<O: Opens, B: Rows, T: RunTask<B>> Model for Run<O, B, T> {
    ghost use Rattle.std.specs.Prelude.{vec_len, vec_capacity};
    ghost use Rattle.run_core.specs.RunView.{RunView};
    ghost use Rattle.run_core.specs.Holds.{Holds};
    ghost use Rattle.run_core.specs.Room.{HasRoom};

    ghost Value = { RunView O B };

    ghost view = { λ r. record {
      opening = r.opening;
      acts = r.acts.items;
      frame = r.frame.frame;
    } };

    ghost invariant = { λ r. Holds B.rows T.number T.suits T.need T.stands (O.given r.opening)
        r.frame.shape r.frame.frame r.tasks.items r.acts.items
        × HasRoom r.frame.frame.failure r.tasks.items (vec_len r.acts) (vec_capacity r.acts) };
}

/// What a run is made of: its opening, its frame, its tasks by number, and its acts.
pub struct Parts<O, B, T> {
    pub opening: O,
    pub frame: RunFrame<B>,
    pub tasks: Vec<Option<T>>,
    pub acts: Vec<Act>,
}

impl<O: Opens, B: Rows, T: RunTask<B>> Run<O, B, T> {
    /// A run at its start, whose owners yield after so many progress entries; or its parts again, for want of memory.
    /// There are no acts yet.
    pub fn start(mut parts: Parts<O, B, T>, turns: u64) -> Result<Run<O, B, T>, Parts<O, B, T>>
        requires starts { Starts T.number T.suits T.need T.stands (O.given parts.opening)
            parts.frame.shape parts.frame.frame parts.tasks.items }
        requires no_acts { (parts.acts.items ≡ []) × (vec_len parts.acts ≡ 0) }

        ensures begun { IfOk result (λ r. (r.opening ≡ parts.opening) × (r.acts ≡ [])) }
        ensures refused { IfErr result (λ q. (q.opening ≡ parts.opening)
            × (q.frame ≡ parts.frame) × (q.tasks ≡ parts.tasks)) }
    {
        let Ok(()) = parts.acts.reserve(1) else {
            return Err(parts);
        };
        let Parts {
            opening,
            frame,
            tasks,
            acts,
        } = parts;
        Ok(Run {
            opening,
            frame,
            tasks,
            acts,
            turns,
        })
    }

    /// How many tasks are woken.
    pub fn woken(&self) -> u32
        ensures { result ≡ length self.now.frame.queue }
    {
        self.frame.woken()
    }

    /// A worker without a loan claims the woken task at this place of the queue, counted from 0, or the one at its
    /// front where it isn't so long. The other answers are those of `claim`.
    pub fn claim_at(&mut self, worker: u32, at: u32) -> Claim<Job<B, T>>
        requires free { loan_of worker self.old.acts ≡ None }

        ensures opening { self.new.opening ≡ self.old.opening }
        ensures acts { Adds worker self.old.acts self.new.acts }

        // A job is the worker's loan, is the task at this place, and fits.
        ensures answer { OnClaim result
            (λ job. (loan_of worker self.new.acts ≡ Some (T.number job.task))
            × Fits (O.given self.new.opening) (T.suits job.task (O.given self.new.opening).shape)
            (T.stands job.task (O.given self.new.opening).size) (T.need job.task)
            (T.number job.task) worker self.new.acts)
            (loan_of worker self.new.acts ≡ None)
            ((loan_of worker self.new.acts ≡ None) × (is_over self.new.frame ≡ true)) }
        ensures task { OnClaim result
            (λ job. T.number job.task
            ≡ slice_index self.old.frame.queue (place_in self.old.frame at))
            (Unit {0}) (Unit {0}) }

        // Idle comes only where some worker has a task in hand.
        ensures idle { OnClaim result (λ _. Unit {0})
            ((w : ℕ) × (t : ℕ) × (loan_of w self.new.acts ≡ Some t)) (Unit {0}) }
    {
        claim_from(
            &self.opening,
            &mut self.frame,
            &mut self.tasks,
            &mut self.acts,
            worker,
            at,
        )
    }

    /// The end of a run in which nobody has a task: all tasks by number, and the acts.
    pub fn finish(self) -> Parts<O, B, T>
        requires free { (w : ℕ) → loan_of w self.acts ≡ None }

        ensures opening { result.opening ≡ self.opening }
        ensures acts { result.acts.items ≡ self.acts }
        ensures all { AllHere result.tasks.items }
        ensures holds { Holds B.rows T.number T.suits T.need T.stands (O.given result.opening)
            result.frame.shape result.frame.frame result.tasks.items result.acts.items }
    {
        let Run {
            opening,
            frame,
            tasks,
            acts,
            turns: _,
        } = self;
        Parts {
            opening,
            frame,
            tasks,
            acts,
        }
    }
}

impl<O: Opens + Send, B: Rows + Send, T: RunTask<B> + Send> Kept for Run<O, B, T> {
    type Opening = O;

    ghost opened = { λ r. r.opening };

    ghost acts = { λ r. r.acts };
}

impl<O: Opens + Send, B: Rows + Drop + Send, T: RunTask<B> + Send> Work for Run<O, B, T> {
    type Job = Job<B, T>;

    ghost over = { λ o entries. Over (O.given o) entries };

    ghost fits = { λ job worker o acts. Fits (O.given o) (T.suits job.task (O.given o).shape)
        (T.stands job.task (O.given o).size) (T.need job.task) (T.number job.task) worker acts };

    ghost sound = { λ o acts. Sound B (O.given o) acts };

    fn vouch(&self) {
        let _turns = self.turns;
    }

    fn claim(&mut self, worker: u32) -> Claim<Job<B, T>> {
        claim_from(
            &self.opening,
            &mut self.frame,
            &mut self.tasks,
            &mut self.acts,
            worker,
            0,
        )
    }

    fn serve(&mut self, worker: u32, job: Job<B, T>) -> Served<Job<B, T>> {
        let turns = self.turns;
        serve_with(
            &self.opening,
            &mut self.frame,
            &mut self.tasks,
            &mut self.acts,
            worker,
            job,
            turns,
        )
    }

    ghost stays_over = { λ o before after over p. stays_over (O.given o) before after over p };

    ghost stays_fit = { λ job worker o before now fits sound follows.
        stays_fit B (O.given o) (T.suits job.task (O.given o).shape)
        (T.stands job.task (O.given o).size) (T.need job.task) (T.number job.task)
        worker before now fits sound follows };

    ghost advances = { λ before after worker o acts fits moves.
        advance_fits T.number T.suits T.need T.stands (O.given o) before.task after.task
        worker acts fits moves };
}
