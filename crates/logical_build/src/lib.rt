//! Bodies of queries built from bound parts: groups, outputs, and inputs of a union.
#![tactic(auto)]

mod calls;
mod groups;
mod number;
mod outputs;
mod unions;

pub use calls::{argument, numbered};
pub use groups::{aggregated, kept, key_kinds};
pub use number::as_u32;
pub use outputs::{Output, project};
pub use unions::{all_unified, with_kinds};
