//! The cell that seats share, and the right to take turns at it.

ghost use Rattle.std.specs.Prelude.{◌≡◌, ◌≤◌};

use crate::bell::Bell;
use crate::kept::Kept;
use crate::plays::{Start, Turns};
use crate::view::View;
use atomic_table::Table;
use std::alloc::Global;

/// One value, which goes from seat to seat in turns. Who wants a turn draws a ticket, and the tickets are served in order.
pub struct TurnCell<T: Kept> {
    pub(crate) table: Table<Option<T>, View<T::Opening>, Start<T>, Turns, Global>,
    pub(crate) seats: u32,
    pub(crate) bell: Bell,
    ghost counts: { (table.shared.table_id.words ≡ 2) × (table.shared.table_id.slots ≡ 1)
        × (table.shared.key.seats ≡ seats) × (1 ≤ seats) },
}

/// The right to take turns at a cell, under a number of its own. A cell can't be closed without each of its seats, so none is
/// to be dropped.
#[derive(Drop)]
pub struct Seat<T: Kept> {
    pub(crate) number: u32,
    pub(crate) place: atomic_table::Seat<Option<T>, View<T::Opening>>,
}
