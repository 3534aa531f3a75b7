//! The texts of tokens.

ghost use Rattle.std.specs.Prelude.{◌≡◌, ◌<◌, ◌≤◌, ◌-◌, false, IfOk, IsUtf8, length, take, drop};
ghost use Rattle.std.specs.Str.{str_to_ascii_lowercase};
ghost use Rattle.sql_lexer.specs.Parts.{IsToken, bytes_of};
ghost use Rattle.sql_lexer.specs.Texts as spec;

use crate::token::{Token, TokenKind};
use dfx_value::{NoMemory, Text};
use std::alloc::Global;

fn as_written(alloc: Global, bytes: &[u8]) -> Result<Text, NoMemory>
    requires { IsUtf8 bytes.now }
    ensures { IfOk result (λ t. t ≡ bytes.now) }
{
    match std::str::from_utf8(bytes) {
        Ok(text) => Ok(Text::from_string(String::from_str(alloc, text)?)),
        Err(_) => unreachable!(),
    }
}

fn in_lower_case(alloc: Global, bytes: &[u8]) -> Result<Text, NoMemory>
    requires { IsUtf8 bytes.now }
    ensures { IfOk result (λ t. t ≡ str_to_ascii_lowercase bytes.now) }
{
    match std::str::from_utf8(bytes) {
        Ok(text) => Ok(Text::from_string(text.to_ascii_lowercase(alloc)?)),
        Err(_) => unreachable!(),
    }
}

/// The bytes without the second of two quotes in a row.
fn undoubled(alloc: Global, bytes: &[u8], quote: u8) -> Result<Vec<u8>, NoMemory>
    ensures { IfOk result (λ v. v.items ≡ spec.undoubled quote false bytes.now) }
{
    let mut kept = Vec::new(alloc);
    let mut seen = false;
    for byte in bytes {
        if seen && *byte == quote {
            seen = false;
        } else {
            kept.push(*byte)?;
            seen = *byte == quote;
        }
    }
    Ok(kept)
}

fn unquoted(alloc: Global, bytes: &[u8], quote: u8) -> Result<Text, NoMemory>
    requires long { 2 ≤ length bytes.now }
    requires utf8 { IsUtf8 (spec.between_quotes bytes.now) }
    requires ascii { quote < 128 }
    ensures { IfOk result (λ t. t ≡ spec.undoubled quote false (spec.between_quotes bytes.now)) }
{
    let kept = undoubled(alloc, &bytes[1..bytes.len() - 1], quote)?;
    match String::from_utf8(kept) {
        Ok(text) => Ok(Text::from_string(text)),
        Err(_) => unreachable!(),
    }
}

/// The text of a token: a word in lower case (ASCII letters), a quoted name or text without its quotes and with
/// one quote for each doubled one, and any other token as written.
pub fn token_text(alloc: Global, text: &[u8], token: &Token) -> Result<Text, NoMemory>
    requires { IsToken text.now token.now }
    ensures { IfOk result (λ t. t ≡ spec.token_text text.now token.now) }
{
    let bytes = &text[token.from as usize..token.to as usize];
    match token.kind {
        TokenKind::Word => in_lower_case(alloc, bytes),
        TokenKind::Quoted => unquoted(alloc, bytes, b'"'),
        TokenKind::Str => unquoted(alloc, bytes, b'\''),
        TokenKind::Number | TokenKind::Symbol => as_written(alloc, bytes),
    }
}
