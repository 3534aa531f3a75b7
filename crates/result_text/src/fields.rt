//! The text of fields, as the crate `csv` writes them with its default writer.

ghost use Rattle.std.specs.Prelude.{◌≡◌, ◌++◌, ◌==◌, ◌≤◌, ◌∷◌, [], ℕ, List, length, if◌then◌else◌};
ghost use Rattle.csv.specs.Writing.{default_writer, needs_byte, needs_quotes, escaped, quoted, field_text, next_sep, row_body, row_text};
ghost use Rattle.dfx_value.specs.Print.{printed};
ghost use Rattle.dfx_value.specs.declared.value.Value.TheVariants as value;
ghost use Rattle.value_columns.specs.Cells.{value_of};
ghost use Rattle.result_text.specs.Buffers.{Appends};

use dfx_value::{Decimal, NoMemory};
use itoa::Buffer;
use value_columns::{Cell, push_printed};

/// Whether a byte calls for quotes round its field.
#[inline]
fn calls_for_quotes(byte: u8) -> bool
    ensures { result ≡ needs_byte default_writer byte }
{
    byte == b',' || byte == b'"' || byte == b'\r' || byte == b'\n'
}

/// Whether a field calls for quotes.
fn is_quoted(field: &[u8]) -> bool
    ensures { result ≡ needs_quotes default_writer field.now }
{
    field.iter().any(|byte| calls_for_quotes(*byte))
}

/// Appends a byte of a field in quotes: a quote twice.
#[inline]
#[tactic(auto, using(crate::proofs::LineSteps::escape_steps))]
fn push_escaped(text: &mut Vec<u8>, byte: u8) -> Result<(), NoMemory>
    ensures { Appends result text.old.items (escaped default_writer (byte ∷ [])) text.new.items }
{
    if byte == b'"' {
        Ok(text.extend_from_slice(b"\"\"")?)
    } else {
        Ok(text.push(byte)?)
    }
}

/// Appends a field in quotes.
#[tactic(auto, using(crate::proofs::LineSteps::quoted_steps))]
fn push_quoted(text: &mut Vec<u8>, field: &[u8]) -> Result<(), NoMemory>
    ensures { Appends result text.old.items (quoted default_writer field.now) text.new.items }
{
    text.push(b'"')?;
    for byte in field {
        push_escaped(text, *byte)?;
    }
    Ok(text.push(b'"')?)
}

/// Appends the text of a field.
#[tactic(auto, using(dfx_value::proofs::FrontLemmas::starts))]
pub fn push_field(text: &mut Vec<u8>, field: &[u8]) -> Result<(), NoMemory>
    ensures { Appends result text.old.items (field_text default_writer field.now) text.new.items }
{
    if is_quoted(field) {
        push_quoted(text, field)
    } else {
        Ok(text.extend_from_slice(field)?)
    }
}

/// Appends the text of a decimal. `scratch` is kept for its room.
#[tactic(auto, using(dfx_value::proofs::FrontLemmas::starts))]
fn push_decimal(text: &mut Vec<u8>, scratch: &mut String, number: Decimal) -> Result<(), NoMemory>
    ensures { Appends result text.old.items
        (field_text default_writer (printed (value.Dec number))) text.new.items }
{
    scratch.clear();
    push_printed(scratch, Cell::Dec(number))?;
    push_field(text, scratch.as_bytes())
}

/// Appends the text of a whole number, which calls for no quotes.
#[tactic(auto, using(crate::proofs::LineSteps::whole_text, dfx_value::proofs::FrontLemmas::starts))]
fn push_whole(text: &mut Vec<u8>, number: i64) -> Result<(), NoMemory>
    ensures { Appends result text.old.items
        (field_text default_writer (printed (value.Int number))) text.new.items }
{
    let mut digits = Buffer::new();
    Ok(text.extend_from_slice(digits.format(number).as_bytes())?)
}

/// Appends the text of a cell as a field.
#[tactic(auto, using(dfx_value::proofs::FrontLemmas::starts))]
pub fn push_cell(text: &mut Vec<u8>, scratch: &mut String, cell: Cell<'_>) -> Result<(), NoMemory>
    ensures { Appends result text.old.items
        (field_text default_writer (printed (value_of cell.entry))) text.new.items }
{
    match cell {
        Cell::Null => Ok(()),
        Cell::Bool(true) => Ok(text.extend_from_slice(b"true")?),
        Cell::Bool(false) => Ok(text.extend_from_slice(b"false")?),
        Cell::Int(number) => push_whole(text, number),
        Cell::Dec(number) => push_decimal(text, scratch, number),
        Cell::Text(value) => push_field(text, value.as_bytes()),
    }
}

/// Appends what stands before the field at this place of a line.
#[inline]
#[tactic(auto, using(dfx_value::proofs::FrontLemmas::starts))]
pub fn push_separator(text: &mut Vec<u8>, place: usize) -> Result<(), NoMemory>
    ensures { Appends result text.old.items (next_sep default_writer place) text.new.items }
{
    if place == 0 {
        Ok(())
    } else {
        Ok(text.push(b',')?)
    }
}

/// Ends a line that begins at this place: where it shows no byte, two quotes stand for its one empty field.
#[tactic(auto, using(crate::proofs::LineSteps::end_steps))]
pub fn end_line(text: &mut Vec<u8>, start: usize) -> Result<(), NoMemory>
    ensures { (before : List ℕ) (fields : List (List ℕ)) → start ≡ length before
        → text.old.items ≡ before ++ row_body default_writer fields
        → Appends result before (row_text default_writer fields) text.new.items }
{
    if text.len() == start {
        Ok(text.extend_from_slice(b"\"\"\n")?)
    } else {
        Ok(text.push(b'\n')?)
    }
}
