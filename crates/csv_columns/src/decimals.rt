//! Decimals of up to 18 digits, read in 64 bits.

ghost use Rattle.std.specs.Prelude.{◌≡◌, ◌&&◌, ◌+◌, ◌-◌, ◌*◌, ◌^◌, ◌<◌, ◌≤◌, IfSome, Some, true, length, take, drop};
ghost use Rattle.dfx_value.specs.Decimal.{at_scale};
ghost use Rattle.dfx_value.specs.Kinds.{is_of};
ghost use Rattle.dfx_value.specs.Digits.{all_zeros};
ghost use Rattle.dfx_value.specs.Parse as spec;
ghost use Rattle.dfx_value.specs.declared.kind.Kind.TheVariants as kind;
ghost use Rattle.dfx_value.specs.declared.value.Value.TheVariants as value;

use crate::numbers::{short_digits, signed};
use dfx_value::Decimal;

/// The bytes before the first point, and those after it.
pub fn halves(bytes: &[u8]) -> (&[u8], &[u8])
    ensures whole { result.0.now ≡ spec.whole bytes.now }
    ensures fraction { result.1.now ≡ spec.fraction bytes.now }
{
    for (place, byte) in bytes.iter().enumerate() {
        if *byte == b'.' {
            return (&bytes[..place], &bytes[place + 1..]);
        }
    }
    (bytes, &bytes[bytes.len()..])
}

fn all_zeros(bytes: &[u8]) -> bool
    ensures { result ≡ all_zeros bytes.now }
{
    bytes.iter().all(|byte| *byte == b'0')
}

/// The first bytes, at most so many, and the rest.
fn cut(bytes: &[u8], at: usize) -> (&[u8], &[u8])
    ensures front { result.0.now ≡ take at bytes.now }
    ensures rest { result.1.now ≡ drop at bytes.now }
{
    if at <= bytes.len() {
        bytes.split_at(at)
    } else {
        (bytes, &bytes[bytes.len()..])
    }
}

/// How many digits a fraction has too few.
fn missing_digits(scale: u8, length: usize) -> usize
    ensures value { result ≡ scale - length }
{
    (scale as usize).saturating_sub(length)
}

/// A number with so many zeros behind its digits, of which there are then so many.
#[tactic(auto, using(crate::proofs::NumberSteps::raised_steps))]
fn raised(number: u64, missing: usize, digits: usize) -> u64
    requires number { number * 10 ^ missing < 10 ^ digits }
    requires short { digits ≤ 18 }
    requires missing { missing ≤ digits }
    ensures value { result ≡ number * 10 ^ missing }
    ensures below { result < 10 ^ digits }
{
    let _ = digits;
    if missing == 0 {
        return number;
    }
    number * 10u64.pow(missing as u32)
}

/// Whether both parts are empty.
fn have_no_digit(whole: &[u8], fraction: &[u8]) -> bool
    ensures { result ≡ (spec.is_empty whole.now && spec.is_empty fraction.now) }
{
    whole.is_empty() && fraction.is_empty()
}

/// A number below 10^18 with a sign as a decimal.
fn decimal_of(negative: bool, magnitude: u64, scale: u8) -> Decimal
    requires magnitude { magnitude < 10 ^ 18 }
    requires scale { scale ≤ 38 }
    ensures { result ≡ at_scale (spec.signed negative magnitude) scale }
{
    Decimal {
        unscaled: i128::from(signed(negative, magnitude)),
        scale,
    }
}

/// The digits before and behind a point, of which those past the scale are zeros, where no more than the precision's
/// stand before it.
#[tactic(auto, using(dfx_value::proofs::FieldLemmas::parts_is))]
pub fn short_decimal(
    negative: bool,
    whole: &[u8],
    fraction: &[u8],
    precision: u8,
    scale: u8,
) -> Option<Decimal>
    requires precision { precision ≤ 38 }
    requires fits { length whole.now + scale ≤ precision }
    requires short { length whole.now + scale ≤ 18 }
    ensures value { result ≡ spec.dec_parts precision scale negative whole.now fraction.now }
    ensures fits { IfSome result (λ d. is_of (kind.Dec precision scale) (value.Dec d) ≡ true) }
{
    if have_no_digit(whole, fraction) {
        return None;
    }
    let (kept, past) = cut(fraction, scale as usize);
    if !all_zeros(past) {
        return None;
    }
    let before = short_digits(0, 0, whole)?;
    let number = short_digits(before, whole.len(), kept)?;
    let missing = missing_digits(scale, fraction.len());
    let magnitude = raised(number, missing, whole.len() + scale as usize);
    Some(decimal_of(negative, magnitude, scale))
}
