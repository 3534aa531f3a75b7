//! Whether standard output is what it must be.

ghost use Rattle.std.specs.Prelude.{◌≡◌, map, IsTrue, IfOk};
ghost use Rattle.std.specs.List.Sorted.{IsPermutation};
ghost use Rattle.script_cases.specs.Outcomes.{MeetsOutput};
ghost use Rattle.script_cases.specs.Rows as spec;

use crate::record::Output;
use std::alloc::{AllocError, Global};
use std::mem;

/// Whether a line feed ends no row behind a byte.
fn quoted_after(is_quoted: bool, byte: u8) -> bool
    ensures { result ≡ spec.quoted_after is_quoted byte }
{
    if byte == b'"' { !is_quoted } else { is_quoted }
}

/// The rows of a CSV text, each with its line feed. A line feed between quotes ends no row.
fn rows_of(alloc: Global, text: &[u8]) -> Result<Vec<Vec<u8>>, AllocError>
    ensures { IfOk result (λ rows. map (λ row. row.items) rows.items ≡ spec.rows_of text.now) }
{
    let mut rows = Vec::new(alloc);
    let mut row = Vec::new(alloc);
    let mut is_quoted = false;
    for byte in text {
        row.push(*byte)?;
        is_quoted = quoted_after(is_quoted, *byte);
        if *byte == b'\n' && !is_quoted {
            rows.push(mem::replace(&mut row, Vec::new(alloc)))?;
        }
    }
    if !row.is_empty() {
        rows.push(row)?;
    }
    Ok(rows)
}

/// The first row; no bytes where there is none.
fn first_of(rows: &[Vec<u8>]) -> &[u8]
    ensures { result.now ≡ spec.first_of (map (λ row. row.items) rows.now) }
{
    match rows {
        [] => &[],
        [first, ..] => first.as_slice(),
    }
}

/// Whether the same rows stand in two lists, in any order.
fn has_same_items(mut wanted: Vec<Vec<u8>>, mut came: Vec<Vec<u8>>) -> Result<bool, AllocError>
    ensures { IfOk result (λ same. IsTrue same
        → IsPermutation (map (λ row. row.items) wanted.items) (map (λ row. row.items) came.items)) }
{
    wanted.sort()?;
    came.sort()?;
    Ok(wanted == came)
}

/// Whether two CSV texts have the same rows, the first at its place and the others in any order.
fn has_same_rows(alloc: Global, wanted: &[u8], output: &[u8]) -> Result<bool, AllocError>
    ensures { IfOk result (λ same. IsTrue same
        → spec.SameRows (spec.rows_of wanted.now) (spec.rows_of output.now)) }
{
    let wanted = rows_of(alloc, wanted)?;
    let came = rows_of(alloc, output)?;
    if first_of(wanted.as_slice()) == first_of(came.as_slice()) {
        has_same_items(wanted, came)
    } else {
        Ok(false)
    }
}

/// Whether standard output is what it must be.
pub fn is_met(alloc: Global, wanted: &Output, output: &[u8]) -> Result<bool, AllocError>
    ensures { IfOk result (λ same. IsTrue same → MeetsOutput wanted.now output.now) }
{
    match wanted {
        Output::Exactly(bytes) => Ok(bytes.as_slice() == output),
        Output::InAnyOrder(bytes) => has_same_rows(alloc, bytes.as_slice(), output),
    }
}
