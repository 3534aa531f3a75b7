//! Laws of binding: a query that a script means is well-kinded.
#![tactic(auto)]

mod law;

pub use law::kinded_law;
