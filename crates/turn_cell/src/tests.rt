//! Tests of turns: seats on threads take turns at one log.

ghost use Rattle.std.specs.Prelude.{◌≡◌, ◌≤◌, ◌<◌, [], All, length};
ghost use Rattle.turn_cell.specs.Acts.{Adds};
ghost use Rattle.turn_cell.specs.Cells.{IsSeatOf, IsIdle, IsSameSeat};

use crate::act::Act;
use crate::holders::{Seat, TurnCell};
use crate::kept::Kept;
use run_journal::{Entry, EntryKind};
use std::alloc::Global;
use std::sync::Wait;
use std::test::Fail;
use std::thread;
use std::thread::Threads;

const SEATS: u32 = 8;

const TURNS: u32 = 500;

// How often a seat gives its time slice up within a turn, so that those who wait go to sleep.
const PAUSES: u32 = 20;

#[derive(Drop)]
struct Log {
    acts: Vec<Act>,
}

impl Kept for Log {
    type Opening = u64;

    ghost opened = { λ s. 7 };

    ghost acts = { λ s. s.acts.items };
}

impl Log {
    // Without memory it adds nothing.
    #[tactic(auto, using(crate::proofs::Loans::adds_one, crate::proofs::Loans::adds_none))]
    fn add(&mut self, worker: u32, task: u32)
        ensures { Adds worker self.old.acts.items self.new.acts.items }
    {
        let entry = Entry {
            worker,
            task,
            kind: EntryKind::Scanned,
        };
        let _ = self.acts.push(Act::Made(entry));
    }
}

fn pause() {
    for _ in 0..PAUSES {
        thread::yield_now();
    }
}

// The tasks of a seat's acts are its turns, counted from 0.
fn take_turns<R: Wait>(rt: &R, cell: &TurnCell<Log>, seat: &mut Seat<Log>)
    requires cell { IsSeatOf cell.now seat.old }
    requires idle { IsIdle seat.old }
    ensures same { IsSameSeat seat.old seat.new }
    ensures idle { IsIdle seat.new }
{
    for turn in 0..TURNS {
        let mut log = cell.take(rt, seat);
        log.add(seat.number(), turn);
        if turn % 100 == 0 {
            pause();
        }
        cell.put(seat, log);
    }
}

fn take_each<R: Threads + Wait + Sync>(
    rt: &R,
    cell: &TurnCell<Log>,
    mut seats: Vec<Seat<Log>>,
    threads: usize,
) -> Vec<Seat<Log>>
    requires threads { 1 ≤ threads }
    requires idle { All (λ s. IsSeatOf cell.now s × IsIdle s) seats.items }
    ensures len { length result.items ≡ length seats.items }
    ensures idle { All (λ s. IsSeatOf cell.now s × IsIdle s) result.items }
{
    let run = |_: usize, seat: &mut Seat<Log>|
        requires { IsSeatOf cell.now seat.now × IsIdle seat.now }
        ensures { IsSeatOf cell.entry.now seat.exit.now × IsIdle seat.exit.now }
    { take_turns(rt, cell, seat) };
    thread::for_each_mut(rt, seats.as_mut_slice(), threads, &run);
    seats
}

fn log_of<R: Threads + Wait + Sync>(rt: &R, alloc: Global, threads: usize) -> Option<Log>
    requires { 1 ≤ threads }
{
    let log = Log {
        acts: Vec::new(alloc),
    };
    let Ok((cell, seats)) = TurnCell::new(alloc, log, SEATS) else {
        return None;
    };
    let seats = take_each(rt, &cell, seats, threads);
    Some(cell.close(seats))
}

// The acts of this worker are about the tasks 0, 1, 2 and so on, one for each turn.
fn counts_up(acts: &[Act], worker: u32) -> bool {
    let mut turn = 0;
    for act in acts {
        if act.worker() == worker {
            if turn >= TURNS || act.task() != turn {
                return false;
            }
            turn += 1;
        }
    }
    turn == TURNS
}

#[test]
fn each_act_once(rt: HostRuntime) -> Result<(), Fail> {
    for threads in [1, 2, 8] {
        let Some(log) = log_of(&rt, rt.alloc(), threads) else {
            panic!(rt; "no memory")
        };
        let acts = log.acts.as_slice();
        assert!(rt;
            acts.len() == 4000,
            "an act was lost or doubled by {threads} threads"
        );
        for worker in 0..SEATS {
            assert!(rt;
                counts_up(acts, worker),
                "the acts of {worker} are not its own"
            );
        }
    }
    Ok(())
}

// A ring that comes first is heard.
#[test]
fn rest_ends(rt: HostRuntime) -> Result<(), Fail> {
    let log = Log {
        acts: Vec::new(rt.alloc()),
    };
    let Ok((cell, seats)) = TurnCell::new(rt.alloc(), log, 1) else {
        panic!(rt; "no memory")
    };
    let heard = cell.rings();
    thread::join(
        &rt,
        || {
            pause();
            cell.ring();
        },
        || cell.rest(&rt, heard),
    );
    assert!(rt; heard == 0 && cell.rings() == 1);
    let log = cell.close(seats);
    assert!(rt; log.acts.is_empty());
    Ok(())
}
