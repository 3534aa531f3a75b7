//! A field as the next cell of a column.

ghost use Rattle.std.specs.Prelude.{◌≡◌, ◌≢◌, ◌+◌, ◌^◌, ◌<◌, Ok, Err, Some, None, true, false, length, OnOk, OnErr};
ghost use Rattle.dfx_value.specs.Parse as spec;
ghost use Rattle.dfx_value.specs.declared.kind.Kind.TheVariants as kind;
ghost use Rattle.csv_source.specs.CsvItems.{is_bad};
ghost use Rattle.csv_source.specs.declared.refused.CsvRefused.{CsvRefused as Refusal};
ghost use Rattle.csv_source.specs.declared.refused.CsvRefused.TheVariants as refused;
ghost use Rattle.csv_columns.specs.Filled.{with_text, with_field};

use crate::decimals::{halves, short_decimal};
use crate::numbers::{SHORT, short_whole, sign};
use column_batch::Column;
use csv_source::CsvRefused;
use dfx_value::{Kind, NoMemory, ParseRefused, parse_value};
use std::alloc::Global;

/// Puts the value of a field at the end by the reader for all fields; false where the kind has no such value.
fn push_long(alloc: Global, column: &mut Column, field: &[u8]) -> Result<bool, NoMemory>
    requires room { length column.old.values + 1 < 2 ^ 32 }
    ensures some { result ≡ Ok true → with_text column.old field.now ≡ Some column.new }
    ensures none { result ≡ Ok false → spec.parsed column.old.kind field.now ≡ None }
    ensures kept { result ≢ Ok true → column.new ≡ column.old }
{
    match parse_value(alloc, field, column.kind()) {
        Ok(value) => match column.push_value(value) {
            Ok(()) => Ok(true),
            Err(_) => Err(NoMemory),
        },
        Err(ParseRefused::NotAValue) => Ok(false),
        Err(ParseRefused::NoMemory) => Err(NoMemory),
    }
}

/// Puts the whole number of a field at the end.
#[tactic(auto, using(dfx_value::proofs::FieldLemmas::int_is))]
fn push_whole(alloc: Global, column: &mut Column, field: &[u8]) -> Result<bool, NoMemory>
    requires room { length column.old.values + 1 < 2 ^ 32 }
    requires kind { column.old.kind ≡ kind.Int }
    requires some { spec.is_empty field.now ≡ false }
    ensures some { result ≡ Ok true → with_text column.old field.now ≡ Some column.new }
    ensures none { result ≡ Ok false → spec.parsed column.old.kind field.now ≡ None }
    ensures kept { result ≢ Ok true → column.new ≡ column.old }
{
    let (negative, digits) = sign(field);
    if SHORT < digits.len() {
        return push_long(alloc, column, field);
    }
    match short_whole(negative, digits) {
        None => Ok(false),
        Some(number) => {
            column.push_int(number)?;
            Ok(true)
        }
    }
}

/// Puts the decimal of a field at the end.
#[tactic(auto, unfolding(dfx_value::specs::Parse::dec_of))]
fn push_decimal(
    alloc: Global,
    column: &mut Column,
    field: &[u8],
    precision: u8,
    scale: u8,
) -> Result<bool, NoMemory>
    requires room { length column.old.values + 1 < 2 ^ 32 }
    requires kind { column.old.kind ≡ kind.Dec precision scale }
    requires precision { precision < 39 }
    requires some { spec.is_empty field.now ≡ false }
    ensures some { result ≡ Ok true → with_text column.old field.now ≡ Some column.new }
    ensures none { result ≡ Ok false → spec.parsed column.old.kind field.now ≡ None }
    ensures kept { result ≢ Ok true → column.new ≡ column.old }
{
    let (negative, rest) = sign(field);
    let (whole, fraction) = halves(rest);
    let room = (precision as usize).min(SHORT);
    let scale_digits = scale as usize;
    if room < scale_digits || room - scale_digits < whole.len() {
        return push_long(alloc, column, field);
    }
    match short_decimal(negative, whole, fraction, precision, scale) {
        None => Ok(false),
        Some(number) => {
            column.push_decimal(number)?;
            Ok(true)
        }
    }
}

/// Puts the truth of a field at the end.
fn push_truth(column: &mut Column, field: &[u8]) -> Result<bool, NoMemory>
    requires room { length column.old.values + 1 < 2 ^ 32 }
    requires kind { column.old.kind ≡ kind.Bool }
    requires some { spec.is_empty field.now ≡ false }
    ensures some { result ≡ Ok true → with_text column.old field.now ≡ Some column.new }
    ensures none { result ≡ Ok false → spec.parsed column.old.kind field.now ≡ None }
    ensures kept { result ≢ Ok true → column.new ≡ column.old }
{
    if field.eq_ignore_ascii_case(b"true") {
        column.push_truth(true)?;
        Ok(true)
    } else if field.eq_ignore_ascii_case(b"false") {
        column.push_truth(false)?;
        Ok(true)
    } else {
        Ok(false)
    }
}

/// Puts the value that a text writes at the end: NULL where it is empty. False where the kind has no such value.
#[tactic(auto, using(crate::proofs::FillSteps::text_steps))]
fn push_text(alloc: Global, column: &mut Column, text: &str) -> Result<bool, NoMemory>
    requires room { length column.old.values + 1 < 2 ^ 32 }
    ensures some { result ≡ Ok true → with_text column.old text.now ≡ Some column.new }
    ensures none { result ≡ Ok false → spec.parsed column.old.kind text.now ≡ None }
    ensures kept { result ≢ Ok true → column.new ≡ column.old }
{
    if text.is_empty() {
        column.push_null()?;
        return Ok(true);
    }
    match column.kind() {
        Kind::Text => {
            column.push_text(text)?;
            Ok(true)
        }
        Kind::Int => push_whole(alloc, column, text.as_bytes()),
        Kind::Dec { precision, scale } => {
            push_decimal(alloc, column, text.as_bytes(), precision, scale)
        }
        Kind::Bool => push_truth(column, text.as_bytes()),
    }
}

/// Puts the value of a field of the record `number` at the end of the column `at`.
#[tactic(auto, using(dfx_value::proofs::ParseLemmas::utf8_tests))]
pub fn push_field(
    alloc: Global,
    column: &mut Column,
    field: &[u8],
    number: u64,
    at: u32,
) -> Result<(), CsvRefused>
    requires room { length column.old.values + 1 < 2 ^ 32 }
    ensures ok { OnOk result (with_field number at column.old field.now ≡ Ok column.new) }
    ensures refused { (e : Refusal) → result ≡ Err e → is_bad e ≡ true
        → with_field number at column.old field.now ≡ Err e }
    ensures kept { OnErr result (column.new ≡ column.old) }
    ensures read { result ≢ Err refused.Read }
{
    let Ok(text) = std::str::from_utf8(field) else {
        return Err(CsvRefused::NotUtf8 { number });
    };
    match push_text(alloc, column, text) {
        Ok(true) => Ok(()),
        Ok(false) => Err(CsvRefused::Value { number, column: at }),
        Err(_) => Err(CsvRefused::NoMemory),
    }
}
