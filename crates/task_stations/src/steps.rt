//! Steps of stations, and replies to them.

ghost use Rattle.std.specs.Prelude.{◌≡◌, ◌==◌, ◌+◌, ◌≤◌, ◌<◌, ℕ, List, [], ◌∷◌, length, IfOk, OnOk, Bool, true, false, drop};
ghost use Rattle.tree_laws.specs.Operators.{Op, Told, with_rows};
ghost use Rattle.tree_laws.specs.Trees.{Desk, Tree, Node, Poll, poll, node_poll, offer_poll, amount_of, with_offered, holding};
ghost use Rattle.task_stations.specs.Stands.{IsInlet, IsSeat, IsSeatOf, IsSeatAsking, StepIs, OwnIs, HandedIs, piece, Replied, bytes_asked, need_of, reply_of};
ghost use Rattle.task_stations.specs.Names.{is_seat_named, is_named, is_own_named};
ghost use Rattle.task_stations.specs.Clauses.{Polls, Replies, AsksOwn, KeepsNames};

use crate::needs::{Answer, Need, Step, StepRefused};
use crate::operator::{Given, Operator};
use crate::scan::{RowFile, cause_of, scan_reply, scan_step};
use crate::seat::{Own, Seat};
use crate::slots::{is_none, take_rows};
use crate::station::{Inlet, Station};
use std::alloc::Global;

/// A channel's step. It takes no memory.
fn inlet_step(inlet: &mut Inlet) -> Step
    ensures is { (most : ℕ) (t : Tree) → IsInlet inlet.old t
        → StepIs (IsInlet inlet.new) (IsInlet inlet.new) t (poll most t) result }
    ensures own { (r : ℕ → ℕ → Bool) (h : ℕ → Bool)
        → r inlet.old.group inlet.old.channel ≡ true
        → (r inlet.new.group inlet.new.channel ≡ true) × (is_named r h result ≡ true) }
{
    if let Some(batch) = take_rows(&mut inlet.unread) {
        return Step::Gives(batch);
    }
    if inlet.over {
        return Step::Ends;
    }
    Step::Asks(Need::Recv {
        group: inlet.group,
        channel: inlet.channel,
    })
}

/// So many bytes more are held. A sum past 64 bits, which no pool grants, is answered as want of memory.
fn held_with(held: u64, more: u64) -> Result<u64, StepRefused>
    ensures { IfOk result (λ all. all ≡ held + more) }
{
    match held.checked_add(more) {
        Some(all) => Ok(all),
        None => Err(StepRefused::NoMemory),
    }
}

/// The rows that wait are taken, with so many bytes more reserved.
fn take_waiting<T: Operator>(
    seat: &mut Seat<T>,
    alloc: Global,
    more: u64,
) -> Result<(), StepRefused>
    ensures is { (op : Op) (t : Told) (d : Desk) → IsSeat T.stands seat.old op t d
        → drop (length d.gave) (op.items t) ≡ [] → op.is_complete t ≡ false
        → ¬ (d.offered ≡ [])
        → OnOk result (IsSeat T.stands seat.new op (with_rows t (op.wanted t) d.offered)
        (holding (with_offered d []) false (d.held + more))) }
    ensures sizes { seat.new.sizes.items ≡ seat.old.sizes.items }
    ensures consumer { seat.new.consumer ≡ seat.old.consumer }
{
    let held = held_with(seat.held, more)?;
    let Some(batch) = take_rows(&mut seat.waiting) else {
        return Ok(());
    };
    let input = seat.operator.wanted();
    seat.operator.accept(alloc, input, batch)?;
    seat.refused = false;
    seat.held = held;
    Ok(())
}

/// What the wanted input answered is handed to the operator.
fn hand_up<T: Operator>(seat: &mut Seat<T>, alloc: Global, asked: Step) -> Result<Step, StepRefused>
    ensures is { (op : Op) (t : Told) (d : Desk) → IsSeat T.stands seat.old op t d
        → drop (length d.gave) (op.items t) ≡ [] → op.is_complete t ≡ false
        → IfOk result (HandedIs T.stands op t d seat.new asked) }
    ensures sizes { seat.new.sizes.items ≡ seat.old.sizes.items }
    ensures consumer { seat.new.consumer ≡ seat.old.consumer }
    ensures own { (r : ℕ → ℕ → Bool) (h : ℕ → Bool) → is_named r h asked ≡ true
        → IfOk result (λ s. is_named r h s ≡ true) }
{
    match asked {
        Step::Gives(batch) => {
            seat.waiting = Some(batch);
            Ok(Step::Moves)
        }
        Step::Ends => {
            let input = seat.operator.wanted();
            seat.operator.end(alloc, input)?;
            Ok(Step::Moves)
        }
        Step::Moves => Ok(Step::Moves),
        Step::Asks(need) => Ok(Step::Asks(need)),
    }
}

/// What the batch that waits must reserve: only one of input 0 does. What comes to 2^64 - 1 bytes or more, which no
/// pool grants, is answered as want of memory.
fn amount_of_waiting<T: Operator>(seat: &mut Seat<T>, alloc: Global) -> Result<u64, StepRefused>
    ensures asks { (op : Op) (t : Told) (d : Desk) → IsSeat T.stands seat.old op t d
        → drop (length d.gave) (op.items t) ≡ [] → op.is_complete t ≡ false
        → ¬ (d.offered ≡ [])
        → IfOk result (λ bytes. bytes ≡ amount_of op t d.offered) }
    ensures stays { (op : Op) (t : Told) (d : Desk) → IsSeat T.stands seat.old op t d
        → OnOk result (IsSeat T.stands seat.new op t d) }
    ensures sizes { seat.new.sizes.items ≡ seat.old.sizes.items }
    ensures consumer { seat.new.consumer ≡ seat.old.consumer }
{
    if seat.operator.wanted() != 0 {
        return Ok(0);
    }
    let Some(batch) = &seat.waiting else {
        return Ok(0);
    };
    let bytes = seat.operator.amount(alloc, batch)?;
    if bytes == u64::MAX {
        return Err(StepRefused::NoMemory);
    }
    Ok(bytes)
}

/// Rows wait: they are taken, or the task needs something first.
fn offer<T: Operator>(seat: &mut Seat<T>, alloc: Global) -> Result<Step, StepRefused>
    ensures is { (op : Op) (t : Told) (d : Desk) (inputs : ℕ → Tree)
        → IsSeat T.stands seat.old op t d
        → drop (length d.gave) (op.items t) ≡ [] → op.is_complete t ≡ false
        → ¬ (d.offered ≡ [])
        → IfOk result (StepIs (IsSeatOf T.stands seat.new inputs)
        (IsSeatAsking T.stands seat.new inputs) (Node op t d inputs)
        (offer_poll op t d inputs op.consumer (amount_of op t d.offered) d.refused
        (amount_of op t d.offered == 0))) }
    ensures sizes { seat.new.sizes.items ≡ seat.old.sizes.items }
    ensures consumer { seat.new.consumer ≡ seat.old.consumer }
    ensures own { (r : ℕ → ℕ → Bool) (h : ℕ → Bool) → is_seat_named h seat.old ≡ true
        → IfOk result (λ s. is_named r h s ≡ true) }
{
    match seat.consumer {
        None => {
            take_waiting(seat, alloc, 0)?;
            Ok(Step::Moves)
        }
        Some(consumer) => {
            if seat.refused {
                return Ok(Step::Asks(Need::Free {
                    consumer,
                    bytes: seat.held,
                }));
            }
            let bytes = amount_of_waiting(seat, alloc)?;
            if bytes == 0 {
                take_waiting(seat, alloc, 0)?;
                return Ok(Step::Moves);
            }
            Ok(Step::Asks(Need::Grow { consumer, bytes }))
        }
    }
}

/// What the operator does by itself, or the input that it asks.
fn seat_step<T: Operator>(seat: &mut Seat<T>, alloc: Global, most: u32) -> Result<Own, StepRefused>
    requires { 0 < most }

    ensures is { (op : Op) (t : Told) (d : Desk) (inputs : ℕ → Tree) (asked : Poll)
        → IsSeat T.stands seat.old op t d
        → IfOk result (OwnIs (IsSeatOf T.stands seat.new inputs)
        (IsSeatAsking T.stands seat.new inputs) (Node op t d inputs)
        (node_poll most op t d inputs (drop (length d.gave) (op.items t)) asked)) }
    ensures sizes { seat.new.sizes.items ≡ seat.old.sizes.items }
    ensures consumer { seat.new.consumer ≡ seat.old.consumer }
    ensures own { (r : ℕ → ℕ → Bool) (h : ℕ → Bool) → is_seat_named h seat.old ≡ true
        → IfOk result (λ s. is_own_named r h s ≡ true) }
{
    match seat.operator.give(alloc, most)? {
        Given::Rows(rows) => return Ok(Own::Done(Step::Gives(rows))),
        Given::Fault(fault) => return Ok(Own::Done(Step::Asks(Need::Fail(cause_of(0, fault))))),
        Given::Nothing => {}
    }
    if seat.operator.is_complete() {
        return Ok(Own::Done(Step::Ends));
    }
    if is_none(&seat.waiting) {
        return Ok(Own::Wants(seat.operator.wanted()));
    }
    let offered = offer(seat, alloc)?;
    Ok(Own::Done(offered))
}

/// One step of the stations of a tree: down along the wanted inputs to the first station that has something to do.
#[cycle(step)]
pub fn step<T: Operator, F: RowFile>(
    stations: &mut [Station<T, F>],
    alloc: Global,
    most: u32,
) -> Result<Step, StepRefused>
    requires { 0 < most }

    ensures is { Polls T.stands F.source F.left most stations.old stations.new result }
    ensures own { AsksOwn stations.old stations.new result }
{
    if stations.is_empty() {
        return Ok(Step::Ends);
    }
    let (first, below) = stations.split_at_mut(1);
    match &mut first[0] {
        Station::Leaf(inlet) => Ok(inlet_step(inlet)),
        Station::Scans(scan) => scan_step(scan, alloc, most),
        Station::Inner(seat) => {
            match seat_step(seat, alloc, most)? {
                Own::Done(done) => Ok(done),
                Own::Wants(input) => {
                    let asked = step_below(below, seat.sizes.as_slice(), input, alloc, most)?;
                    hand_up(seat, alloc, asked)
                }
            }
        }
    }
}

/// One step of the stations of this input, among those below an operator.
#[cycle(step)]
fn step_below<T: Operator, F: RowFile>(
    stations: &mut [Station<T, F>],
    sizes: &[usize],
    input: u32,
    alloc: Global,
    most: u32,
) -> Result<Step, StepRefused>
    requires { 0 < most }

    ensures is { Polls T.stands F.source F.left most (piece sizes.now stations.old input)
        (piece sizes.now stations.new input) result }
    ensures others { (j : ℕ) → ¬ (j ≡ input)
        → piece sizes.now stations.new j ≡ piece sizes.now stations.old j }
    ensures own { AsksOwn stations.old stations.new result }
{
    if sizes.is_empty() {
        return Ok(Step::Ends);
    }
    let (front, back) = stations.split_at_mut(sizes[0].min(stations.len()));
    if input == 0 {
        step(front, alloc, most)
    } else {
        step_below(back, &sizes[1..], input - 1, alloc, most)
    }
}

/// How many bytes a need asks to reserve.
fn bytes_of(need: &Need) -> u64
    ensures { result ≡ bytes_asked (need_of need.now) }
{
    match need {
        Need::Grow { bytes, .. } => *bytes,
        _ => 0,
    }
}

/// A channel is answered.
fn inlet_reply(inlet: &mut Inlet, need: &Need, answer: Answer)
    ensures is { (most : ℕ) (t : Tree) → IsInlet inlet.old t
        → Replied (IsInlet inlet.new) (need_of need.now) (poll most t) (reply_of answer) }
    ensures group { inlet.new.group ≡ inlet.old.group }
    ensures channel { inlet.new.channel ≡ inlet.old.channel }
{
    match answer {
        Answer::Batch(batch) => inlet.unread = Some(batch),
        Answer::Ended => inlet.over = true,
        _ => {}
    }
}

/// An operator whose rows wait is answered.
fn seat_reply<T: Operator>(
    seat: &mut Seat<T>,
    alloc: Global,
    need: &Need,
    answer: Answer,
) -> Result<(), StepRefused>
    ensures is { (most : ℕ) (op : Op) (t : Told) (d : Desk) (inputs : ℕ → Tree) (asked : Poll)
        → IsSeat T.stands seat.old op t d → ¬ (d.offered ≡ [])
        → OnOk result (Replied (IsSeatOf T.stands seat.new inputs) (need_of need.now)
        (node_poll most op t d inputs (drop (length d.gave) (op.items t)) asked)
        (reply_of answer)) }
    ensures sizes { seat.new.sizes.items ≡ seat.old.sizes.items }
    ensures consumer { seat.new.consumer ≡ seat.old.consumer }
{
    match answer {
        Answer::Go => {
            if seat.refused {
                seat.refused = false;
                seat.held = 0;
                Ok(())
            } else {
                take_waiting(seat, alloc, bytes_of(need))
            }
        }
        Answer::Refused => {
            if !seat.refused {
                seat.operator.flush(alloc)?;
                seat.refused = true;
            }
            Ok(())
        }
        _ => Ok(()),
    }
}

/// The station that asked is answered: it is found as `step` found it.
#[cycle(reply)]
pub fn reply<T: Operator, F: RowFile>(
    stations: &mut [Station<T, F>],
    alloc: Global,
    need: &Need,
    answer: Answer,
) -> Result<(), StepRefused>
    ensures is { Replies T.stands F.source F.left stations.old stations.new (need_of need.now)
        (reply_of answer) result }
    ensures own { KeepsNames stations.old stations.new }
{
    if stations.is_empty() {
        return Ok(());
    }
    let (first, below) = stations.split_at_mut(1);
    match &mut first[0] {
        Station::Leaf(inlet) => {
            inlet_reply(inlet, need, answer);
            Ok(())
        }
        Station::Scans(scan) => {
            scan_reply(scan, need);
            Ok(())
        }
        Station::Inner(seat) => {
            if !is_none(&seat.waiting) {
                return seat_reply(seat, alloc, need, answer);
            }
            let input = seat.operator.wanted();
            reply_below(below, seat.sizes.as_slice(), input, alloc, need, answer)
        }
    }
}

/// The station that asked, among those of this input, is answered.
#[cycle(reply)]
fn reply_below<T: Operator, F: RowFile>(
    stations: &mut [Station<T, F>],
    sizes: &[usize],
    input: u32,
    alloc: Global,
    need: &Need,
    answer: Answer,
) -> Result<(), StepRefused>
    ensures is { Replies T.stands F.source F.left (piece sizes.now stations.old input)
        (piece sizes.now stations.new input) (need_of need.now) (reply_of answer) result }
    ensures others { (j : ℕ) → ¬ (j ≡ input)
        → piece sizes.now stations.new j ≡ piece sizes.now stations.old j }
    ensures own { KeepsNames stations.old stations.new }
{
    if sizes.is_empty() {
        return Ok(());
    }
    let (front, back) = stations.split_at_mut(sizes[0].min(stations.len()));
    if input == 0 {
        reply(front, alloc, need, answer)
    } else {
        reply_below(back, &sizes[1..], input - 1, alloc, need, answer)
    }
}
