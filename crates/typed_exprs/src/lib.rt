//! What binding works with, without trees: columns and their names, expressions with their kinds, and refusals.
#![tactic(auto)]

mod case;
mod literals;
mod refusal;
mod refused;
mod scope;
mod typed;
mod unify;

pub use case::{Arm, chosen};
pub use literals::literal;
pub use refusal::{Refusal, Unbound, Why};
pub use refused::BindRefused;
pub use scope::{Column, column_of};
pub use typed::{
    Typed, Unary, absolute, apply_unary, binary, length_of, or_mismatch, settle, tested,
};
pub use unify::{as_kind, coalesced, unified};
