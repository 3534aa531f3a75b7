//! Expressions over whole columns: what `eval` gives row by row, up to the first fault.
#![tactic(auto)]

mod binary;
mod columns;
mod evaluate;
mod items;
mod lanes;
mod law;
mod level;
mod looks;
mod numbers;
mod places;
mod truths;
mod unary;
mod vector;

pub use columns::{Evaluated, eval_column};
pub use evaluate::{Tests, eval_batch, eval_tests};
pub use lanes::Lane;
pub use law::front_law;
pub use vector::{Part, Vector};
