//! Columns that records fill.

ghost use Rattle.std.specs.Prelude.{◌≡◌, ◌≢◌, ◌+◌, ◌^◌, ◌<◌, ◌≤◌, Ok, Err, true, length, All, IfOk, OnOk};
ghost use Rattle.dfx_value.specs.Kinds.{are_kinds};
ghost use Rattle.column_batch.specs.Batches.{cut, kinds_of};
ghost use Rattle.column_batch.specs.Parts.{empties};
ghost use Rattle.csv_source.specs.CsvItems.{is_bad};
ghost use Rattle.csv_source.specs.declared.refused.CsvRefused.{CsvRefused as Refusal};
ghost use Rattle.csv_source.specs.declared.refused.CsvRefused.TheVariants as refused;
ghost use Rattle.csv_columns.specs.Filled.{with_record, AllExtend};

use crate::cells::push_field;
use column_batch::{Batch, Column, Shared};
use csv_records::RecordReader;
use csv_source::CsvRefused;
use dfx_value::{Kind, NoMemory};
use std::alloc::Global;

/// A column without a value for each kind.
#[tactic(auto, using(column_batch::proofs::BuilderLemmas::empty_steps))]
pub fn empty_columns(alloc: Global, kinds: &[Kind]) -> Result<Vec<Column>, NoMemory>
    requires { are_kinds kinds.now ≡ true }
    ensures { IfOk result (λ all. all.items ≡ empties kinds.now) }
{
    let mut all = Vec::with_capacity(alloc, kinds.len())?;
    for kind in kinds {
        all.push(Column::new(alloc, *kind))?;
    }
    Ok(all)
}

/// Puts the fields of the record that was taken last, the record `number`, at the ends of the columns. After a
/// refusal the columns are no longer of one length; the values before stay where they were.
#[tactic(auto, using(crate::proofs::FillSteps::fill_steps))]
pub fn push_record(
    alloc: Global,
    columns: &mut Vec<Column>,
    reader: &RecordReader,
    number: u64,
) -> Result<(), CsvRefused>
    requires few { length columns.old.items < 2 ^ 32 }
    requires room { All (λ c. length c.values + 1 < 2 ^ 32) columns.old.items }
    ensures ok { OnOk result (with_record number columns.old.items reader.now.fields
        ≡ Ok columns.new.items) }
    ensures refused { (e : Refusal) → result ≡ Err e → is_bad e ≡ true
        → with_record number columns.old.items reader.now.fields ≡ Err e }
    ensures kept { AllExtend columns.old.items columns.new.items }
    ensures read { result ≢ Err refused.Read }
{
    if reader.len() != columns.len() {
        return Err(CsvRefused::Fields { number });
    }
    for at in 0..reader.len() {
        let column = &mut columns[at];
        push_field(alloc, column, reader.field(at), number, at as u32 + 1)?;
    }
    Ok(())
}

/// The columns, to be shared.
fn share_all(alloc: Global, columns: Vec<Column>) -> Result<Vec<Shared>, NoMemory>
    ensures { IfOk result (λ all. all.items ≡ columns.items) }
{
    let mut all = Vec::with_capacity(alloc, columns.len())?;
    for column in columns {
        all.push(Shared::new(alloc, column)?)?;
    }
    Ok(all)
}

/// The batch of the first rows of columns, so many.
pub fn batch_of(alloc: Global, columns: Vec<Column>, rows: u32) -> Result<Batch, NoMemory>
    requires { All (λ c. rows ≤ length c.values) columns.items }
    ensures { IfOk result (λ batch. batch ≡ cut columns.items 0 rows) }
{
    Ok(Batch::of_columns(share_all(alloc, columns)?, rows))
}
