//! Laws: what is printed of a value reads back as that value, and rounding gives the nearest number.
#![tactic(auto)]

mod law;

pub use law::{reading_law, rounding_law};
