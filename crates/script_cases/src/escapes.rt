//! Escaped texts: `\n`, `\r`, `\t`, `\\` and `\xHH` stand for bytes, and a backslash at a line's end for no line feed.

ghost use Rattle.std.specs.Prelude.{◌≡◌, ◌<◌, ◌⊎◌, Some, None, Err, IfOk, IfErr, IfSome};
ghost use Rattle.script_cases.specs.Escapes as spec;
ghost use Rattle.script_cases.specs.declared.refused.Why.TheVariants as why;

use crate::refused::Why;
use std::alloc::{AllocError, Global};

/// What was read of an escape.
#[derive(Clone, Copy, Debug, PartialEq, Eq)]
enum Seen {
    /// Nothing.
    Plain,
    /// Its backslash.
    Backslash,
    /// `\x`.
    Hex,
    /// `\x` and what stands in place of the first digit.
    Digit(u8),
}

/// What a byte of the text gives behind what was seen.
#[derive(Clone, Copy, Debug, PartialEq, Eq)]
enum Gives {
    /// A byte that the text stands for.
    Byte(u8),
    /// More of an escape, or nothing.
    Seen(Seen),
}

/// The value of a hexadecimal digit.
fn digit_of(byte: u8) -> Option<u8>
    ensures value { result ≡ spec.digit_of byte }
    ensures small { IfSome result (λ digit. digit < 16) }
{
    match byte {
        b'0'..=b'9' => Some(byte - b'0'),
        b'a'..=b'f' => Some(byte - b'a' + 10),
        b'A'..=b'F' => Some(byte - b'A' + 10),
        _ => None,
    }
}

/// The byte that two hexadecimal digits write.
fn byte_of_digits(high: u8, low: u8) -> Option<u8>
    ensures { result ≡ spec.byte_of_digits (spec.digit_of high) (spec.digit_of low) }
{
    match (digit_of(high), digit_of(low)) {
        (Some(high), Some(low)) => Some(high * 16 + low),
        _ => None,
    }
}

/// The byte that one letter behind a backslash stands for.
fn byte_of_letter(letter: u8) -> Option<u8>
    ensures { result ≡ spec.byte_of_letter letter }
{
    match letter {
        b'n' => Some(b'\n'),
        b'r' => Some(b'\r'),
        b't' => Some(b'\t'),
        b'\\' => Some(b'\\'),
        _ => None,
    }
}

/// What stands for a byte, if any.
fn given_byte(byte: Option<u8>) -> Option<Gives>
    ensures { result ≡ spec.given_byte byte }
{
    match byte {
        Some(byte) => Some(Gives::Byte(byte)),
        None => None,
    }
}

/// What a byte of the text gives; none where it is no part of an escape that began.
fn given(seen: Seen, byte: u8) -> Option<Gives>
    ensures { result ≡ spec.given seen byte }
{
    match seen {
        Seen::Plain => {
            if byte == b'\\' {
                Some(Gives::Seen(Seen::Backslash))
            } else {
                Some(Gives::Byte(byte))
            }
        }
        Seen::Backslash => {
            if byte == b'x' {
                Some(Gives::Seen(Seen::Hex))
            } else if byte == b'\n' {
                Some(Gives::Seen(Seen::Plain))
            } else {
                given_byte(byte_of_letter(byte))
            }
        }
        Seen::Hex => Some(Gives::Seen(Seen::Digit(byte))),
        Seen::Digit(high) => given_byte(byte_of_digits(high, byte)),
    }
}

/// The bytes that an escaped text stands for.
#[tactic(auto, using(crate::proofs::EscapeSteps::behind_steps))]
pub fn unescaped(alloc: Global, text: &[u8]) -> Result<Vec<u8>, Why>
    ensures value { IfOk result (λ bytes. spec.unescaped text.now ≡ Some bytes.items) }
    ensures bad { result ≡ Err why.BadEscape → spec.unescaped text.now ≡ None }
    ensures only { IfErr result (λ e. (e ≡ why.BadEscape) ⊎ (e ≡ why.NoMemory)) }
{
    let mut bytes = Vec::new(alloc);
    let mut seen = Seen::Plain;
    for byte in text {
        match given(seen, *byte) {
            None => return Err(Why::BadEscape),
            Some(Gives::Seen(now)) => {
                seen = now;
            }
            Some(Gives::Byte(byte)) => {
                seen = Seen::Plain;
                if bytes.push(byte).is_err() {
                    return Err(Why::NoMemory);
                }
            }
        }
    }
    match seen {
        Seen::Plain | Seen::Backslash => Ok(bytes),
        Seen::Hex | Seen::Digit(_) => Err(Why::BadEscape),
    }
}

/// The hexadecimal digit of a value below 16.
fn hex_digit(value: u8) -> char {
    match value {
        0..=9 => char::from(b'0' + value),
        10..=15 => char::from(b'a' + (value - 10)),
        _ => '?',
    }
}

/// An escaped text that stands for these bytes, each line behind four spaces.
pub fn shown(alloc: Global, bytes: &[u8]) -> Result<String, AllocError> {
    let mut text = String::new(alloc);
    let mut begins = true;
    for byte in bytes {
        if begins {
            text.push_str("    ")?;
        }
        begins = *byte == b'\n';
        match *byte {
            b'\n' => text.push('\n')?,
            b'\\' => text.push_str("\\\\")?,
            b' '..=b'~' => text.push(char::from(*byte))?,
            other => {
                text.push_str("\\x")?;
                text.push(hex_digit(other / 16))?;
                text.push(hex_digit(other % 16))?;
            }
        }
    }
    if !begins {
        text.push_str("\\\n")?;
    }
    Ok(text)
}
