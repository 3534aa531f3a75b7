//! Laws: what a well-kinded query is over tables of the scans' kinds is what the laws of finished plans ask.
#![tactic(auto)]

mod law;

pub use law::known_law;
