//! Columns of values of one kind, and looks at their cells.
#![tactic(auto)]

mod cell;
mod cells;
mod column;
mod masked;
mod print;
mod strings;
mod texts;

pub use cell::{Cell, compare, look, own};
pub use column::Column;
pub use masked::Masked;
pub use print::push_printed;
