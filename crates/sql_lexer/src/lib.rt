//! Tokens of an SQL script.
#![tactic(auto)]

mod bytes;
mod cut;
mod lexer;
pub mod refused;
mod texts;
pub mod token;

pub use lexer::tokens;
pub use refused::LexRefused;
pub use texts::token_text;
pub use token::{Token, TokenKind};
