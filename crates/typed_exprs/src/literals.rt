//! The constants that numbers as written are.

ghost use Rattle.std.specs.Prelude.{◌≡◌, true, IfOk, IfSome};
ghost use Rattle.dfx_value.specs.Kinds.{is_kind as is_kind_test};
ghost use Rattle.dfx_value.specs.Parse as parse;
ghost use Rattle.typed_exprs.specs.Literals as spec;

use dfx_value::{Kind, NoMemory, ParseRefused, Value, parse_value};
use std::alloc::Global;

fn has_point(text: &[u8]) -> bool
    ensures { result ≡ spec.has_point text.now }
{
    for byte in text {
        if *byte == b'.' {
            return true;
        }
    }
    false
}

/// What stands before the first point, and after it.
fn halves(text: &[u8]) -> (&[u8], &[u8])
    ensures whole { result.0.now ≡ parse.whole text.now }
    ensures fraction { result.1.now ≡ parse.fraction text.now }
{
    for (place, byte) in text.iter().enumerate() {
        if *byte == b'.' {
            return (&text[..place], &text[place + 1..]);
        }
    }
    (text, &text[text.len()..])
}

fn without_zeros(digits: &[u8]) -> &[u8]
    ensures { result.now ≡ spec.without_zeros digits.now }
{
    for (place, byte) in digits.iter().enumerate() {
        if *byte != b'0' {
            return digits.split_at(place).1;
        }
    }
    &digits[digits.len()..]
}

fn significant(whole: &[u8], fraction: &[u8]) -> usize
    ensures { result ≡ spec.significant whole.now fraction.now }
{
    match whole {
        [] => without_zeros(fraction).len(),
        _ => whole.len() + fraction.len(),
    }
}

/// The kind of a decimal of as many digits as are written, where there are at most 38 of them.
fn decimal_kind(text: &[u8]) -> Option<Kind>
    ensures value { result ≡ spec.kind_where text.now }
    ensures kind { IfSome result (λ k. is_kind_test k ≡ true) }
{
    let (whole, fraction) = halves(text);
    let scale = fraction.len();
    let precision = significant(without_zeros(whole), fraction)
        .max(scale)
        .max(1);
    if precision <= 38 {
        Some(Kind::Dec {
            precision: precision as u8,
            scale: scale as u8,
        })
    } else {
        None
    }
}

/// The value that a text writes, where it writes one of this kind.
fn parsed(alloc: Global, text: &[u8], kind: Kind) -> Result<Option<Value>, NoMemory>
    requires { is_kind_test kind ≡ true }
    ensures { IfOk result (λ v. v ≡ parse.parsed kind text.now) }
{
    match parse_value(alloc, text, kind) {
        Ok(value) => Ok(Some(value)),
        Err(ParseRefused::NotAValue) => Ok(None),
        Err(ParseRefused::NoMemory) => Err(NoMemory),
    }
}

fn with_kind(kind: Kind, value: Option<Value>) -> Option<(Value, Kind)>
    ensures { result ≡ spec.with_kind kind value }
{
    match value {
        Some(value) => Some((value, kind)),
        None => None,
    }
}

fn decimal(alloc: Global, text: &[u8]) -> Result<Option<(Value, Kind)>, NoMemory>
    ensures { IfOk result (λ c. c ≡ spec.decimal text.now) }
{
    match decimal_kind(text) {
        Some(kind) => Ok(with_kind(kind, parsed(alloc, text, kind)?)),
        None => Ok(None),
    }
}

/// The constant that a number as written is, with its kind: a whole number within 64 bits, or else a decimal of as many digits as
/// are written. None where it has more than 38 digits, or isn't a number.
pub fn literal(alloc: Global, text: &[u8]) -> Result<Option<(Value, Kind)>, NoMemory>
    ensures { IfOk result (λ c. c ≡ spec.literal text.now) }
{
    if has_point(text) {
        return decimal(alloc, text);
    }
    match parsed(alloc, text, Kind::Int)? {
        Some(value) => Ok(Some((value, Kind::Int))),
        None => decimal(alloc, text),
    }
}
