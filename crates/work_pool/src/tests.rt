//! Tests of the pool: every job is served, and workers meet outside the cell.

mod jobs;
mod notes;

use crate::pool::run_all;
use crate::tests::jobs::{lone_jobs, meeting_jobs};
use crate::tests::notes::{Notes, is_claim};
use dfx_outside::NoGate;
use std::test::Fail;
use turn_cell::Act;

// How often each run is repeated.
const RUNS: u32 = 100;

const WORKERS: u32 = 4;

const JOBS: u32 = 40;

const ROUNDS: u32 = 3;

// In a worker's acts each claim is followed by the acts of that task, up to its end, before the next claim.
fn in_blocks(log: &[Act], worker: u32) -> bool {
    let mut task = None;
    let mut left = 0;
    for act in log {
        if act.worker() != worker {
            continue;
        }
        if is_claim(act) {
            if left != 0 {
                return false;
            }
            task = Some(act.task());
            left = ROUNDS + 1;
        } else {
            if left == 0 || task != Some(act.task()) {
                return false;
            }
            left -= 1;
        }
    }
    left == 0
}

// Each job was claimed once.
fn each_once(log: &[Act]) -> bool {
    for job in 0..JOBS {
        let claims = log.iter().filter(|a| is_claim(a) && a.task() == job);
        if claims.count() != 1 {
            return false;
        }
    }
    true
}

#[test]
fn two_advances(rt: HostRuntime) -> Result<(), Fail> {
    for _ in 0..RUNS {
        let work = meeting_jobs(rt.alloc())?;
        let Ok(done) = run_all(&rt, rt.alloc(), work, 2, &NoGate) else {
            panic!(rt; "no memory")
        };
        assert!(rt; done.all_met, "the jobs did not run beside one another");
        assert!(rt; done.log.len() == 4);
    }
    Ok(())
}

#[test]
fn four_workers(rt: HostRuntime) -> Result<(), Fail> {
    for _ in 0..RUNS {
        let work = lone_jobs(rt.alloc(), JOBS, ROUNDS, 0)?;
        let notes = Notes::new(rt.alloc(), WORKERS, JOBS * (ROUNDS + 1))?;
        let Ok(done) = run_all(&rt, rt.alloc(), work, WORKERS, &notes) else {
            panic!(rt; "no memory")
        };
        let log = done.log.as_slice();
        assert!(rt; log.len() == 200, "an act was lost or doubled");
        assert!(rt; each_once(log), "a job was not claimed once");
        assert!(rt;
            notes.match_acts(log),
            "the acts of a worker are not its own"
        );
        for worker in 0..WORKERS {
            assert!(rt; in_blocks(log, worker), "a worker's acts are out of order");
        }
    }
    Ok(())
}

// While one worker has the only job, the others rest. Nine rings (of the claim, of four entries, of four workers at the end)
// reach three others at most, and each worker claims at first and finds the end.
#[test]
fn idle_workers_rest(rt: HostRuntime) -> Result<(), Fail> {
    let work = lone_jobs(rt.alloc(), 1, ROUNDS, 20_000)?;
    let Ok(done) = run_all(&rt, rt.alloc(), work, WORKERS, &NoGate) else {
        panic!(rt; "no memory")
    };
    assert!(rt; done.log.len() == 5);
    assert!(rt; done.claims <= 40, "{} claims for one job", done.claims);
    Ok(())
}
