//! A small run: jobs that are served for some rounds each, and may meet another job meanwhile.

ghost use Rattle.std.specs.Prelude.{◌≡◌, ℕ, ◌≤◌, [], List, Some, IfOk};
ghost use Rattle.std.proofs.Common.{ap, sym, ◌∙◌};
ghost use Rattle.turn_cell.specs.Loans.{loan_of, loan_follows};
ghost use Rattle.turn_cell.specs.Acts.{journal_of};
ghost use Rattle.work_pool.specs.Jobs.{ends_task, finished, finished_more};

use crate::work::{Claim, Poll, Served, Work};
use run_journal::{Entry, EntryKind};
use std::alloc::{AllocError, Global};
use std::sync::Arc;
use std::sync::atomic::{AtomicBool, Ordering};
use std::thread;
use turn_cell::{Act, Kept};

// How often a job looks for the other.
const LOOKS: u32 = 1_000_000_000;

// A flag of its own, which it sets, and another's, for which it looks then.
#[derive(Drop)]
pub(crate) struct Meeting {
    mine: Arc<AtomicBool, Global>,
    other: Arc<AtomicBool, Global>,
    met: bool,
}

impl Meeting {
    fn meet(&mut self) {
        self.mine.store(true, Ordering::SeqCst);
        for _ in 0..LOOKS {
            if self.other.load(Ordering::SeqCst) {
                self.met = true;
                return;
            }
        }
    }
}

#[derive(Drop)]
pub(crate) struct Job {
    task: u32,
    rounds: u32,
    pauses: u32,
    meeting: Option<Meeting>,
}

impl Job {
    fn has_met(&self) -> bool {
        match &self.meeting {
            Some(meeting) => meeting.met,
            None => true,
        }
    }
}

// Gives the time slice up so many times.
fn pause(times: u32) {
    for _ in 0..times {
        thread::yield_now();
    }
}

impl Poll for Job {
    ghost number = { λ s. s.task };

    ghost moves = { λ s t. t.task ≡ s.task };

    ghost ready = { λ s. Unit {0} };

    fn task(&self) -> u32 {
        self.task
    }

    fn advance(&mut self) {
        pause(self.pauses);
        if let Some(meeting) = &mut self.meeting {
            meeting.meet();
        }
    }
}

// It is over when as many tasks have finished as there were jobs.
#[derive(Drop)]
pub(crate) struct Jobs {
    all: u64,
    pub(crate) log: Vec<Act>,
    waiting: Vec<Job>,
    pub(crate) claims: u64,
    pub(crate) all_met: bool,
}

impl Kept for Jobs {
    type Opening = u64;

    ghost opened = { λ s. s.all };

    ghost acts = { λ s. s.log.items };
}

fn ends(act: &Act) -> bool
    ensures { result ≡ ends_task act.now }
{
    match act {
        Act::Made(entry) => matches!(entry.kind, EntryKind::Finished),
        Act::Returned { worker: _, task: _ } => false,
    }
}

// How many tasks have ended.
#[tactic(auto, using(crate::proofs::Ends::finished_among))]
fn count_ends(log: &[Act]) -> usize
    ensures { result ≡ finished (journal_of log.now) }
{
    log.iter().filter(|a| ends(a)).count()
}

impl Work for Jobs {
    type Job = Job;

    ghost over = { λ o entries. o ≤ finished entries };

    ghost fits = { λ job worker o acts. loan_of worker acts ≡ Some job.task };

    ghost sound = { λ o acts. Unit {0} };

    fn vouch(&self) {}

    fn claim(&mut self, worker: u32) -> Claim<Job> {
        self.claims = self.claims.saturating_add(1);
        if count_ends(self.log.as_slice()) as u64 >= self.all {
            return Claim::Over;
        }
        let Some(job) = self.waiting.pop() else {
            return Claim::Idle;
        };
        let entry = Entry {
            worker,
            task: job.task,
            kind: EntryKind::Claimed,
        };
        match self.log.push(Act::Made(entry)) {
            Ok(()) => Claim::Job(job),
            Err(_) => Claim::Idle,
        }
    }

    fn serve(&mut self, worker: u32, mut job: Job) -> Served<Job> {
        let task = job.task;
        if job.rounds > 0 {
            let entry = Entry {
                worker,
                task,
                kind: EntryKind::Scanned,
            };
            match self.log.push(Act::Made(entry)) {
                Ok(()) => {
                    job.rounds -= 1;
                    Served::Again(job)
                }
                Err(_) => Served::Again(job),
            }
        } else {
            let entry = Entry {
                worker,
                task,
                kind: EntryKind::Finished,
            };
            let all_met = self.all_met && job.has_met();
            match self.log.push(Act::Made(entry)) {
                Ok(()) => {
                    self.all_met = all_met;
                    Served::Parked
                }
                Err(_) => Served::Again(job),
            }
        }
    }

    ghost stays_over = { finished_more };

    ghost stays_fit = { λ job worker o before now fits sound follows.
        loan_follows worker before now follows ∙ fits };

    ghost advances = { λ before after worker o acts fits moves.
        (fits ∙ ap Some (sym moves), tt, moves) };
}

// Jobs that meet nobody. Each round of a job pauses so many times.
pub(crate) fn lone_jobs(
    alloc: Global,
    jobs: u32,
    rounds: u32,
    pauses: u32,
) -> Result<Jobs, AllocError>
    ensures { IfOk result (λ w. w.log.items ≡ []) }
{
    let mut waiting = Vec::new(alloc);
    for task in 0..jobs {
        waiting.push(Job {
            task,
            rounds,
            pauses,
            meeting: None,
        })?;
    }
    Ok(Jobs {
        all: jobs as u64,
        log: Vec::new(alloc),
        waiting,
        claims: 0,
        all_met: true,
    })
}

// Two jobs that meet each other.
pub(crate) fn meeting_jobs(alloc: Global) -> Result<Jobs, AllocError>
    ensures { IfOk result (λ w. w.log.items ≡ []) }
{
    let first = Arc::new(alloc, AtomicBool::new(false))?;
    let second = Arc::new(alloc, AtomicBool::new(false))?;
    let mut waiting = Vec::new(alloc);
    waiting.push(Job {
        task: 0,
        rounds: 0,
        pauses: 0,
        meeting: Some(Meeting {
            mine: Arc::try_clone(&first)?,
            other: Arc::try_clone(&second)?,
            met: false,
        }),
    })?;
    waiting.push(Job {
        task: 1,
        rounds: 0,
        pauses: 0,
        meeting: Some(Meeting {
            mine: second,
            other: first,
            met: false,
        }),
    })?;
    Ok(Jobs {
        all: 2,
        log: Vec::new(alloc),
        waiting,
        claims: 0,
        all_met: true,
    })
}
