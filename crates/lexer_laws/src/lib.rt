//! Laws of the lexer: tokens, and white space and comments between them, are the whole text.
#![tactic(auto)]

mod law;

pub use law::{covers_law, cut_law, quote_law, turn_law};
