//! The tokens of a script.

ghost use Rattle.std.specs.Prelude.{◌≡◌, ◌≢◌, ◌≤◌, ℕ, length, IfOk, All, Err};
ghost use Rattle.std.specs.Str.{IsValidUpTo};
ghost use Rattle.sql_lexer.specs.Tokens as spec;
ghost use Rattle.sql_lexer.specs.Refusals.{Answers};
ghost use Rattle.sql_lexer.specs.Parts.{IsToken};
ghost use Rattle.sql_lexer.specs.declared.refused.LexRefused.TheVariants.{NotUtf8};

use crate::cut::{Cut, next_cut};
use crate::refused::LexRefused;
use crate::token::Token;
use std::alloc::Global;

const MOST: usize = 1_048_576;

/// The tokens of a script, in their order. A script is UTF-8 and has at most 1,048,576 bytes.
///
/// The length is tested first, then the whole text as UTF-8, then the tokens from the left.
#[tactic(auto, unfolding(crate::specs::Tokens::Tokens))]
pub fn tokens(alloc: Global, text: &[u8]) -> Result<Vec<Token>, LexRefused>
    ensures value { Answers (λ v. v.items) result (spec.Tokens text.now) }

    // Each token is a part of the text, which is cut between characters.
    ensures each { IfOk result (λ v. All (IsToken text.now) v.items) }

    // NotUtf8 stands behind the longest front that is UTF-8.
    ensures front { (place : ℕ) → result ≡ Err (NotUtf8 place) → IsValidUpTo text.now place }
{
    if text.len() > MOST {
        return Err(LexRefused::TooLong {
            length: text.len() as u64,
        });
    }
    match std::str::from_utf8(text) {
        Ok(_) => cuts(alloc, text),
        Err(error) => Err(LexRefused::NotUtf8 {
            place: error.valid_up_to() as u32,
        }),
    }
}

/// The tokens from the left.
fn cuts(alloc: Global, text: &[u8]) -> Result<Vec<Token>, LexRefused>
    requires { length text.now ≤ spec.most }
    ensures value { Answers (λ v. v.items) result (spec.tokens_from (length text.now) 0 text.now) }
    ensures utf8 { (place : ℕ) → result ≢ Err (NotUtf8 place) }
{
    let mut found = Vec::new(alloc);
    let mut at = 0;
    for _turn in 0..text.len() {
        if at >= text.len() {
            return Ok(found);
        }
        let (_passed, rest) = text.split_at(at);
        match next_cut(rest) {
            Cut::Blank(n) => at += n,
            Cut::Found(kind, n) => {
                found.push(Token {
                    kind,
                    from: at as u32,
                    to: (at + n) as u32,
                })?;
                at += n;
            }
            Cut::Bad(n) => {
                return Err(LexRefused::BadCharacter {
                    place: (at + n) as u32,
                });
            }
            Cut::Wide => return Err(LexRefused::WideNumber { place: at as u32 }),
            Cut::Open => return Err(LexRefused::OpenQuote { place: at as u32 }),
        }
    }
    Ok(found)
}
