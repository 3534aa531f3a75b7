//! The grammar of SQL scripts: trees, the classes of tokens, and which script tokens spell.
#![tactic(auto)]

pub mod ast;
pub mod class;
mod copy;
pub mod refused;
pub mod words;

pub use copy::copy_expr;
pub use refused::SyntaxRefused;
