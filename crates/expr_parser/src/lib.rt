//! A cursor over the tokens of a script, and the parser of expressions.
#![tactic(auto)]

pub mod cursor;
pub mod expr;
pub mod halt;
pub mod kind;
mod level;
pub mod list;
mod nodes;
pub mod sets;
