//! The loop of a worker.

ghost use Rattle.std.specs.Prelude.{◌≡◌, ℕ, ◌≤◌, ◌<◌, [], List, length, slice_index_or, Some, None, IfOk, IfErr};
ghost use Rattle.turn_cell.specs.Acts.{IsPrefix, journal_of};
ghost use Rattle.turn_cell.specs.Loans.{loan_of};
ghost use Rattle.turn_cell.specs.Cells.{first_value, IsSeatOf, IsSameSeat, IsIdle, IsNew, number_of, opening_of, seen_of};
ghost use Rattle.work_pool.specs.Ended.{HasEnded};
ghost use Rattle.work_pool.specs.Answers.{OnClaim, OnServed};

use crate::work::{Claim, Poll, Served, Work};
use dfx_outside::KernelGate;
use std::alloc::Global;
use std::sync::Wait;
use std::thread;
use std::thread::Threads;
use turn_cell::{Seat, TurnCell};

// One turn, in which the worker claims. Beside the answer stands how often the cell had been rung in that turn.
fn claim_once<R: Wait, W: Work>(
    rt: &R,
    cell: &TurnCell<W>,
    seat: &mut Seat<W>,
) -> (Claim<W::Job>, u64)
    requires cell { IsSeatOf cell.now seat.old }
    requires idle { IsIdle seat.old }
    requires free { loan_of (number_of seat.old) (seen_of seat.old) ≡ None }
    ensures same { IsSameSeat seat.old seat.new }
    ensures idle { IsIdle seat.new }
    ensures grows { IsPrefix (seen_of seat.old) (seen_of seat.new) }
    ensures answer { (o : W.Opening) × (opening_of seat.new ≡ Some o) × OnClaim result.0
        (λ job. W.fits job (number_of seat.new) o (seen_of seat.new))
        (loan_of (number_of seat.new) (seen_of seat.new) ≡ None)
        ((loan_of (number_of seat.new) (seen_of seat.new) ≡ None)
        × W.over o (journal_of (seen_of seat.new))) }
{
    let mut work = cell.take(rt, seat);
    let answer = work.claim(seat.number());
    let heard = cell.rings();
    cell.put(seat, work);
    (answer, heard)
}

// The job advances outside the cell, and is served in one turn.
fn serve_once<R: Wait, W: Work, G: KernelGate>(
    rt: &R,
    cell: &TurnCell<W>,
    seat: &mut Seat<W>,
    gate: &G,
    mut job: W::Job,
) -> Served<W::Job>
    requires cell { IsSeatOf cell.now seat.old }
    requires idle { IsIdle seat.old }
    requires fits { (o : W.Opening) × (opening_of seat.old ≡ Some o)
        × W.fits job (number_of seat.old) o (seen_of seat.old) }
    ensures same { IsSameSeat seat.old seat.new }
    ensures idle { IsIdle seat.new }
    ensures grows { IsPrefix (seen_of seat.old) (seen_of seat.new) }
    ensures answer { (o : W.Opening) × (opening_of seat.new ≡ Some o) × OnServed result
        (λ next. W.fits next (number_of seat.new) o (seen_of seat.new))
        (loan_of (number_of seat.new) (seen_of seat.new) ≡ None) }
{
    let number = seat.number();
    let task = job.task();
    gate.enter(number, task);
    job.advance();
    gate.leave(number, task);
    let mut work = cell.take(rt, seat);
    work.vouch();
    let answer = work.serve(number, job);
    cell.put(seat, work);
    cell.ring();
    answer
}

// Serves a job until the worker has given it back.
fn serve_out<R: Wait, W: Work, G: KernelGate>(
    rt: &R,
    cell: &TurnCell<W>,
    seat: &mut Seat<W>,
    gate: &G,
    mut job: W::Job,
)
    requires cell { IsSeatOf cell.now seat.old }
    requires idle { IsIdle seat.old }
    requires fits { (o : W.Opening) × (opening_of seat.old ≡ Some o)
        × W.fits job (number_of seat.old) o (seen_of seat.old) }
    ensures same { IsSameSeat seat.old seat.new }
    ensures idle { IsIdle seat.new }
    ensures grows { IsPrefix (seen_of seat.old) (seen_of seat.new) }
    ensures free { loan_of (number_of seat.new) (seen_of seat.new) ≡ None }
{
    for _ in rt.forever() {
        match serve_once(rt, cell, seat, gate, job) {
            Served::Again(next) => job = next,
            Served::Parked => return,
        }
    }
    unreachable!()
}

/// One worker's loop: it claims, lets the job advance outside the cell, serves, and ends where a claim answers Over.
///
/// A worker that finds nothing to claim rests. Whoever claims a job, has been served or finds the end wakes one of those who
/// rest, and that one, where it claims a job or finds the end, the next.
pub fn run_worker<R: Wait, W: Work, G: KernelGate>(
    rt: &R,
    cell: &TurnCell<W>,
    seat: &mut Seat<W>,
    gate: &G,
)
    requires cell { IsSeatOf cell.now seat.old }
    requires idle { IsIdle seat.old }
    requires free { loan_of (number_of seat.old) (seen_of seat.old) ≡ None }
    ensures same { IsSameSeat seat.old seat.new }
    ensures idle { IsIdle seat.new }
    ensures grows { IsPrefix (seen_of seat.old) (seen_of seat.new) }
    ensures free { loan_of (number_of seat.new) (seen_of seat.new) ≡ None }
    ensures over { (o : W.Opening) × (opening_of seat.new ≡ Some o)
        × W.over o (journal_of (seen_of seat.new)) }
{
    for _ in rt.forever() {
        match claim_once(rt, cell, seat) {
            (Claim::Job(job), _) => {
                cell.ring();
                serve_out(rt, cell, seat, gate, job);
            }
            (Claim::Idle, heard) => cell.rest(rt, heard),
            (Claim::Over, _) => {
                cell.ring();
                return;
            }
        }
    }
    unreachable!()
}

// A worker in a thread of its own at each seat.
fn run_each<R: Threads + Wait + Sync, W: Work, G: KernelGate>(
    rt: &R,
    cell: &TurnCell<W>,
    mut seats: Vec<Seat<W>>,
    gate: &G,
) -> Vec<Seat<W>>
    requires some { 1 ≤ length seats.items }
    requires new { (k : ℕ) (d : _) → k < length seats.items
        → IsNew cell.now (W.opened (first_value cell.now)) k (slice_index_or seats.items k d) }
    ensures len { length result.items ≡ length seats.items }
    ensures each { (k : ℕ) (d : _) → k < length seats.items
        → HasEnded W.over cell.now (W.opened (first_value cell.now)) k
        (slice_index_or result.items k d) }
{
    let run = |at: usize, seat: &mut Seat<W>|
        requires { IsNew cell.now (W.opened (first_value cell.now)) at seat.now }
        ensures { HasEnded W.over cell.entry.now
            (W.opened (first_value cell.entry.now)) at seat.exit.now }
    { run_worker(rt, cell, seat, gate) };
    let workers = seats.len();
    thread::for_each_mut(rt, seats.as_mut_slice(), workers, &run);
    seats
}

/// Runs a worker in a thread of its own for each number below `workers`, and gives the value back once each has ended: it is
/// over then, and no worker has a loan. Without memory the value comes back unused, before any claim.
pub fn run_all<R: Threads + Wait + Sync, W: Work, G: KernelGate>(
    rt: &R,
    alloc: Global,
    work: W,
    workers: u32,
    gate: &G,
) -> Result<W, W>
    requires some { 1 ≤ workers }
    requires unused { W.acts work ≡ [] }
    ensures opening { IfOk result (λ w. W.opened w ≡ W.opened work) }
    ensures over { IfOk result (λ w. W.over (W.opened w) (journal_of (W.acts w))) }
    ensures free { IfOk result (λ w. (n : ℕ) → loan_of n (W.acts w) ≡ None) }
    ensures refused { IfErr result (λ w. w ≡ work) }
{
    let (cell, seats) = match TurnCell::new(alloc, work, workers) {
        Ok(made) => made,
        Err(work) => return Err(work),
    };
    let ended = run_each(rt, &cell, seats, gate);
    Ok(cell.close(ended))
}
