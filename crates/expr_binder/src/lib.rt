//! Expressions over the columns of a select: names, kinds, groups.
#![tactic(auto)]

mod bind;
mod calls;
mod equality;
mod grouping;

pub use bind::bind_expr;
pub use calls::add_calls;
pub use equality::{place_among, same};
pub use grouping::Grouping;
pub use typed_exprs::{
    Column, Refusal, Typed, Unbound, Why, as_kind, column_of, settle, tested, unified,
};
