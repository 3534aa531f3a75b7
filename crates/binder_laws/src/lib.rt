//! Laws of binding: the columns of every query that a script means are in range.
#![tactic(auto)]

mod law;

pub use law::binder_law;
