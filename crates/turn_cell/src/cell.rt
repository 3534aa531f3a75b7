//! Opening a cell, taking a turn at its value, and closing it.

ghost use Rattle.std.specs.Prelude.{◌≡◌, ◌≢◌, ℕ, ◌<◌, ◌≤◌, ◌++◌, [], ◌∷◌, List, Some, None, IfOk, IfErr, length, slice_index_or, All, vec_capacity};
ghost use Rattle.turn_cell.specs.declared.act.Act.{Act};
ghost use Rattle.turn_cell.specs.Acts.{acts_by, journal_of, Adds, Follows, JournalFollows};
ghost use Rattle.turn_cell.specs.Loans.{loan_of};
ghost use Rattle.turn_cell.specs.Views.{hand, resting, fresh};
ghost use Rattle.turn_cell.specs.Turns.{AllFollow};
ghost use Rattle.turn_cell.specs.Seats.{named_in};
ghost use Rattle.turn_cell.specs.Cells.{seats_of, first_value, IsSeatOf, IsSameSeat, IsIdle, HasTicket, HasTurn, IsDealt, IsNew, number_of, opening_of, seen_of};

use crate::bell::Bell;
use crate::holders::{Seat, TurnCell};
use crate::kept::Kept;
use crate::patience::{Patience, low_half};
use crate::plays::{Draw, FirstNumber, Look, Pass, Start, Together, Turns};
use crate::view::View;
use atomic_table::{Refused, Table};
use std::alloc::Global;
use std::snapshot::Snapshot;
use std::sync::Wait;

impl<T: Kept> Seat<T> {
    pub fn number(&self) -> u32
        ensures { result ≡ number_of self.now }
    {
        self.number
    }
}

// Splits a seat for each number below `seats` off the first one, which is the last of them.
fn seat_all<T: Kept>(
    table: &Table<Option<T>, View<T::Opening>, Start<T>, Turns, Global>,
    mut root: atomic_table::Seat<Option<T>, View<T::Opening>>,
    mut row: Vec<Seat<T>>,
    seats: u32,
) -> Vec<Seat<T>>
    requires some { 1 ≤ seats }
    requires table { (root.table_id ≡ table.now.shared.table_id)
        × (0 < table.now.shared.table_id.words) }
    requires root { root.me ≡ (resting (named_in root.me) (fresh 0 seats), []) }
    requires row { (row.items ≡ []) × (seats ≤ vec_capacity row) }
    ensures len { length result.items ≡ seats }
    ensures each { (k : ℕ) (d : _) → k < seats
        → IsDealt (named_in root.me) root.table_id k (slice_index_or result.items k d) }
{
    for number in 1..seats {
        let place = table.shared.split_seat::<FirstNumber>(&mut root);
        row.push_reserved(Seat {
            number: number - 1,
            place,
        });
    }
    row.push_reserved(Seat {
        number: seats - 1,
        place: root,
    });
    row
}

// Joins all seats into one.
fn gather<T: Kept>(
    table: &Table<Option<T>, View<T::Opening>, Start<T>, Turns, Global>,
    mut seats: Vec<Seat<T>>,
) -> atomic_table::Seat<Option<T>, View<T::Opening>>
    requires some { 1 ≤ length seats.items }
    requires table { 0 < table.now.shared.table_id.words }
    requires idle { All
        (λ s. (s.place.table_id ≡ table.now.shared.table_id) × IsIdle s) seats.items }
    ensures table { result.table_id ≡ table.now.shared.table_id }
    ensures idle { result.me ≡ (resting (named_in result.me) result.me.0.hands, []) }
    ensures count { length result.me.0.hands ≡ length seats.items }
    ensures each { (log : List Act) → AllFollow log result.me.0.hands
        → All (λ s. Follows (number_of s) (seen_of s) log) seats.items }
{
    let Some(last) = seats.pop() else {
        unreachable!()
    };
    let Seat {
        number: _,
        place: mut all,
    } = last;
    while let Some(seat) = seats.pop() {
        let Seat { number: _, place } = seat;
        table.shared.join_seat::<Together>(&mut all, place);
    }
    seats.destroy_empty();
    all
}

// The value that is at home, where the seat has every number.
fn settle<T: Kept>(
    table: Table<Option<T>, View<T::Opening>, Start<T>, Turns, Global>,
    place: atomic_table::Seat<Option<T>, View<T::Opening>>,
) -> T
    requires table { place.table_id ≡ table.shared.table_id }
    requires slot { table.shared.table_id.slots ≡ 1 }
    requires idle { place.me ≡ (resting (named_in place.me) place.me.0.hands, []) }
    requires all { length place.me.0.hands ≡ table.shared.key.seats }
    requires some { 1 ≤ table.shared.key.seats }
    ensures opening { T.opened result ≡ T.opened table.shared.key.value.value }
    ensures follow { AllFollow (T.acts result) place.me.0.hands }
    ensures others { (n : ℕ) → table.shared.key.seats ≤ n → acts_by n (T.acts result) ≡ [] }
{
    let mut closed = table.close_with(place);
    let value = closed.take(0);
    closed.free();
    value.unwrap()
}

impl<T: Kept> TurnCell<T> {
    /// A cell with this value, and a seat for each number below `seats`. Without memory the value comes back.
    pub fn new(alloc: Global, value: T, seats: u32) -> Result<(TurnCell<T>, Vec<Seat<T>>), T>
        requires some { 1 ≤ seats }
        requires unused { T.acts value ≡ [] }
        ensures cell { IfOk result
            (λ r. (seats_of r.0 ≡ seats) × (T.opened (first_value r.0) ≡ T.opened value)) }
        ensures seats { IfOk result (λ r. length r.1.items ≡ seats) }
        ensures each { IfOk result (λ r. (k : ℕ) (d : _) → k < seats
            → IsNew r.0 (T.opened value) k (slice_index_or r.1.items k d)) }
        ensures refused { IfErr result (λ v. v ≡ value) }
    {
        let Ok(mut row) = Vec::with_capacity(alloc, seats as usize) else {
            return Err(value);
        };
        let Ok(mut slots) = Vec::with_capacity(alloc, 1) else {
            return Err(value);
        };
        let start = Start {
            value: Snapshot::of(&value),
            seats,
        };
        slots.push_reserved(Some(value));
        match Table::new(alloc, &[0, 0], slots, &start) {
            Ok((table, root)) => {
                let row = seat_all(&table, root, row, seats);
                let cell = TurnCell {
                    table,
                    seats,
                    bell: Bell::new(),
                };
                Ok((cell, row))
            }
            Err(Refused { mut slots }) => {
                let Some(Some(value)) = slots.pop() else {
                    unreachable!()
                };
                slots.destroy_empty();
                Err(value)
            }
        }
    }

    fn draw(&self, seat: &mut Seat<T>) -> u64
        requires cell { IsSeatOf self.now seat.old }
        requires idle { IsIdle seat.old }
        ensures same { IsSameSeat seat.old seat.new × (seen_of seat.new ≡ seen_of seat.old) }
        ensures ticket { HasTicket result seat.new }
    {
        self.table.shared.fetch_add::<Draw>(&mut seat.place, 0, 1)
    }

    // Where the ticket is served, the turn begins with the value.
    fn look(&self, seat: &mut Seat<T>, ticket: u64) -> Result<T, u64>
        requires cell { IsSeatOf self.now seat.old }
        requires ticket { HasTicket ticket seat.old }
        ensures same { (seat.new.number ≡ seat.old.number)
            × (seat.new.place.table_id ≡ seat.old.place.table_id) }
        ensures turn { IfOk result (λ value. HasTurn seat.new
            × (opening_of seat.new ≡ opening_of seat.old)
            × (seen_of seat.new ≡ T.acts value) × (opening_of seat.old ≡ Some (T.opened value))
            × Follows (number_of seat.old) (seen_of seat.old) (T.acts value)) }
        ensures not { IfErr result (λ _. seat.new.place.me ≡ seat.old.place.me) }
    {
        let serving = self.table.shared.load::<Look>(&mut seat.place, 1);
        if serving == ticket {
            Ok(
                self.table
                    .shared
                    .exchange(&mut seat.place, 0, None)
                    .unwrap(),
            )
        } else {
            Err(serving)
        }
    }

    /// Waits for a turn, and takes the value. It has the opening that the seat names and begins with all acts that the seat
    /// has seen, and of the seat's own number it has no others. So the seat's loan is the one that its own acts give.
    ///
    /// A seat whose turn doesn't come looks again some times, then gives its time slice up between two looks, and then sleeps
    /// until a turn ends.
    pub fn take<R: Wait>(&self, rt: &R, seat: &mut Seat<T>) -> T
        requires cell { IsSeatOf self.now seat.old }
        requires idle { IsIdle seat.old }
        ensures same { IsSameSeat seat.old seat.new }
        ensures turn { HasTurn seat.new }
        ensures opening { opening_of seat.old ≡ Some (T.opened result) }
        ensures follows { Follows (number_of seat.old) (seen_of seat.old) (T.acts result) }
        ensures loan { loan_of (number_of seat.old) (T.acts result)
            ≡ loan_of (number_of seat.old) (seen_of seat.old) }
        ensures seen { seen_of seat.new ≡ T.acts result }
    {
        let ticket = self.draw(seat);
        let mut patience = Patience::new();
        for _ in rt.forever() {
            match self.look(seat, ticket) {
                Ok(value) => return value,
                Err(serving) => {
                    if !patience.try_wait() {
                        self.table.shared.park(rt, 1, low_half(serving));
                    }
                }
            }
        }
        unreachable!()
    }

    /// Puts the value back, with more acts of the seat's own number alone, and ends the turn. It waits for nobody.
    pub fn put(&self, seat: &mut Seat<T>, value: T)
        requires cell { IsSeatOf self.now seat.old }
        requires turn { HasTurn seat.old }
        requires opening { opening_of seat.old ≡ Some (T.opened value) }
        requires acts { Adds (number_of seat.old) (seen_of seat.old) (T.acts value) }
        ensures same { IsSameSeat seat.old seat.new }
        ensures idle { IsIdle seat.new }
        ensures seen { seen_of seat.new ≡ T.acts value }
    {
        let nothing = self.table.shared.exchange(&mut seat.place, 0, Some(value));
        let None = nothing else { unreachable!() };
        let served = self.table.shared.fetch_add::<Pass>(&mut seat.place, 1, 1);
        if self.table.shared.peek(0) != served.wrapping_add(1) {
            self.table.shared.wake_all(1);
        }
    }

    /// How often the cell has been rung, modulo 2^64.
    pub fn rings(&self) -> u64 {
        self.bell.rings()
    }

    /// Tells those who rest that there is news, and wakes one of them.
    pub fn ring(&self) {
        self.bell.ring();
    }

    /// Rests until the cell has been rung more often than `heard`.
    pub fn rest<R: Wait>(&self, rt: &R, heard: u64) {
        self.bell.rest(rt, heard);
    }

    /// The value, once every seat is back. It has all that each seat has seen, and of a seat's number nothing that this seat
    /// hasn't seen. The same holds of its journal, and the loans are those that the seats' own acts give.
    pub fn close(self, seats: Vec<Seat<T>>) -> T
        requires all { length seats.items ≡ seats_of self }
        requires idle { All (λ s. IsSeatOf self s × IsIdle s) seats.items }
        ensures opening { T.opened result ≡ T.opened (first_value self) }
        ensures each { All (λ s. Follows (number_of s) (seen_of s) (T.acts result)) seats.items }
        ensures journal { All (λ s. JournalFollows (number_of s) (journal_of (seen_of s))
            (journal_of (T.acts result)))
            seats.items }
        ensures loans { All (λ s. loan_of (number_of s) (T.acts result)
            ≡ loan_of (number_of s) (seen_of s))
            seats.items }
        ensures others { (n : ℕ) → seats_of self ≤ n → acts_by n (T.acts result) ≡ [] }
    {
        let place = gather(&self.table, seats);
        let TurnCell {
            table,
            seats: _,
            bell: _,
        } = self;
        settle(table, place)
    }
}
