//! Counts the turns that workers take at one cell.

ghost use Rattle.std.specs.Prelude.{◌≡◌, ◌≤◌, [], All, length};
ghost use Rattle.turn_cell.specs.Cells.{IsSeatOf, IsIdle, IsSameSeat};

use std::alloc::Global;
use std::sync::Wait;
use std::thread;
use std::thread::Threads;
use turn_cell::{Kept, Seat, TurnCell};

// How many turns were taken.
#[derive(Drop)]
struct Tally {
    turns: u64,
}

impl Kept for Tally {
    type Opening = u64;

    ghost opened = { λ s. 0 };

    ghost acts = { λ s. [] };
}

// Takes turns until `limit` were taken in all.
fn take_turns<R: Wait>(rt: &R, cell: &TurnCell<Tally>, seat: &mut Seat<Tally>, limit: u64)
    requires cell { IsSeatOf cell.now seat.old }
    requires idle { IsIdle seat.old }
    ensures same { IsSameSeat seat.old seat.new }
    ensures idle { IsIdle seat.new }
{
    for _ in rt.forever() {
        let mut tally = cell.take(rt, seat);
        let left = tally.turns < limit;
        if left {
            tally.turns += 1;
        }
        cell.put(seat, tally);
        if !left {
            return;
        }
    }
    unreachable!()
}

// A thread at each seat.
fn take_each<R: Threads + Wait + Sync>(
    rt: &R,
    cell: &TurnCell<Tally>,
    mut seats: Vec<Seat<Tally>>,
    limit: u64,
) -> Vec<Seat<Tally>>
    requires some { 1 ≤ length seats.items }
    requires idle { All (λ s. IsSeatOf cell.now s × IsIdle s) seats.items }
    ensures len { length result.items ≡ length seats.items }
    ensures idle { All (λ s. IsSeatOf cell.now s × IsIdle s) result.items }
{
    let run = |_: usize, seat: &mut Seat<Tally>|
        requires { IsSeatOf cell.now seat.now × IsIdle seat.now }
        ensures { IsSeatOf cell.entry.now seat.exit.now × IsIdle seat.exit.now }
    { take_turns(rt, cell, seat, limit) };
    let workers = seats.len();
    thread::for_each_mut(rt, seats.as_mut_slice(), workers, &run);
    seats
}

/// Lets so many workers take so many turns at one cell, and answers how many were taken. None: there was no memory.
pub fn count_turns<R: Threads + Wait + Sync>(
    rt: &R,
    alloc: Global,
    workers: u32,
    turns: u64,
) -> Option<u64>
    requires { 1 ≤ workers }
{
    let Ok((cell, seats)) = TurnCell::new(alloc, Tally { turns: 0 }, workers) else {
        return None;
    };
    let seats = take_each(rt, &cell, seats, turns);
    Some(cell.close(seats).turns)
}
