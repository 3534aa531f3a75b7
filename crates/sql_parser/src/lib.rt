//! The parser of SQL scripts.
#![tactic(auto)]

mod create;
mod script;
mod select;

pub use script::parse_script;
pub use sql_grammar::SyntaxRefused;
pub use sql_grammar::ast::{
    ExprAst, FnAst, FromAst, ItemAst, JoinAst, KeyAst, NodeAst, NumberAst, Script, SelectAst,
    TableAst,
};
