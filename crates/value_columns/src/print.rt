//! Cells as printed.

ghost use Rattle.std.specs.Prelude.{◌≡◌, ◌++◌, ◌^◌, ◌<◌, ◌≤◌, OnOk, OnErr};
ghost use Rattle.std.specs.Io.{StartsWith};
ghost use Rattle.std.specs.String.{string_bytes};
ghost use Rattle.dfx_value.specs.Print as spec;
ghost use Rattle.value_columns.specs.Cells.{value_of};

use crate::cell::Cell;
use dfx_value::{Decimal, NoMemory};
use itoa::Buffer;

/// Appends the last digits of a number, so many.
#[tactic(auto, using(crate::proofs::PrintLemmas::starts))]
fn push_fixed(text: &mut String, number: u128, digits: u8) -> Result<(), NoMemory>
    ensures ok { OnOk result
        (string_bytes text.new ≡ string_bytes text.old ++ spec.fixed digits number) }
    ensures err { OnErr result (StartsWith (string_bytes text.new) (string_bytes text.old)) }
{
    if digits > 0 {
        push_fixed(text, number / 10, digits - 1)?;
        text.push((b'0' + (number % 10) as u8) as char)?;
    }
    Ok(())
}

/// Appends a minus where a number is negative.
fn push_minus(text: &mut String, number: i128) -> Result<(), NoMemory>
    ensures ok { OnOk result (string_bytes text.new ≡ string_bytes text.old ++ spec.minus number) }
    ensures err { OnErr result (string_bytes text.new ≡ string_bytes text.old) }
{
    if number < 0 {
        text.push('-')?;
    }
    Ok(())
}

/// Appends a point and the digits after it, where there are any.
#[tactic(auto, using(crate::proofs::PrintLemmas::starts))]
fn push_pointed(text: &mut String, number: u128, scale: u8) -> Result<(), NoMemory>
    ensures ok { OnOk result
        (string_bytes text.new ≡ string_bytes text.old ++ spec.pointed scale number) }
    ensures err { OnErr result (StartsWith (string_bytes text.new) (string_bytes text.old)) }
{
    if scale > 0 {
        text.push('.')?;
        push_fixed(text, number, scale)?;
    }
    Ok(())
}

/// 10^exponent.
#[tactic(auto, using(dfx_value::proofs::DecimalLemmas::ten_below, dfx_value::proofs::DecimalLemmas::ten_positive))]
fn power(exponent: u8) -> u128
    requires { exponent ≤ 38 }
    ensures value { result ≡ 10 ^ exponent }
    ensures positive { 0 < result }
{
    10u128.pow(u32::from(exponent))
}

/// Appends a decimal's digits before and after the point.
#[tactic(auto, using(crate::proofs::PrintLemmas::starts), unfolding(dfx_value::specs::Print::decimal_text))]
fn push_decimal(text: &mut String, number: Decimal) -> Result<(), NoMemory>
    ensures ok { OnOk result
        (string_bytes text.new ≡ string_bytes text.old ++ spec.decimal_text number) }
    ensures err { OnErr result (StartsWith (string_bytes text.new) (string_bytes text.old)) }
{
    let magnitude = number.unscaled.unsigned_abs();
    let unit = power(number.scale);
    let mut whole = Buffer::new();
    push_minus(text, number.unscaled)?;
    text.push_str(whole.format(magnitude / unit))?;
    push_pointed(text, magnitude % unit, number.scale)?;
    Ok(())
}

/// Appends the printed text of a cell: nothing for NULL. After want of memory the text begins with what it was.
#[tactic(auto, using(crate::proofs::PrintLemmas::starts))]
pub fn push_printed(text: &mut String, cell: Cell<'_>) -> Result<(), NoMemory>
    ensures ok { OnOk result
        (string_bytes text.new ≡ string_bytes text.old ++ spec.printed (value_of cell.entry)) }
    ensures err { OnErr result (StartsWith (string_bytes text.new) (string_bytes text.old)) }
{
    match cell {
        Cell::Null => Ok(()),
        Cell::Bool(true) => Ok(text.push_str("true")?),
        Cell::Bool(false) => Ok(text.push_str("false")?),
        Cell::Int(number) => {
            let mut digits = Buffer::new();
            Ok(text.push_str(digits.format(number))?)
        }
        Cell::Dec(number) => push_decimal(text, number),
        Cell::Text(value) => Ok(text.push_str(value)?),
    }
}
