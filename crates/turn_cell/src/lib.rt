//! One value handed from seat to seat, turn by turn, with what each seat did in it.
#![tactic(auto)]

mod act;
mod bell;
mod cell;
mod holders;
mod kept;
mod patience;
mod plays;
#[cfg(test)]
mod tests;
mod view;

pub use act::Act;
pub use holders::{Seat, TurnCell};
pub use kept::Kept;
pub use plays::Turns;
pub use view::{Hand, View};
