//! The rows of the records that a reader has left.

ghost use Rattle.std.specs.Prelude.{◌≡◌, ◌≢◌, ◌+◌, ◌^◌, ◌<◌, ◌≤◌, ◌++◌, ◌∷◌, [], ℕ, List, true, false, length, Ok, Err, Some, option_map, IfOk, IfSome, OnOk, if◌then◌else◌};
ghost use Rattle.dfx_value.specs.Kinds.{are_kinds, are_of};
ghost use Rattle.csv_source.specs.CsvItems.{Item, is_bad};
ghost use Rattle.csv_source.specs.Records.{IsSet, records_left};
ghost use Rattle.csv_source.specs.Scans.{Counts, items_left, rows_then};
ghost use Rattle.csv_source.specs.ScanView.{GivesRow, GivesRows, IsRefused, left_count};
ghost use Rattle.csv_source.specs.declared.refused.CsvRefused.{CsvRefused as Refusal};
ghost use Rattle.csv_source.specs.declared.refused.CsvRefused.TheVariants as refused;

use crate::records::next_record;
use crate::refused::CsvRefused;
use crate::rows::row_of;
use csv::{ByteRecord, Reader};
use dfx_value::{Batch, Builder, Kind, Row};
use std::alloc::Global;
use std::io::Read;

/// A reader of a file's bytes that has taken the header, and the number of its next record.
#[derive(Drop)]
pub struct Reading<R: Drop> {
    pub reader: Reader<R>,
    /// The record that was read last, kept for its room.
    pub record: ByteRecord,
    pub number: u64,
}

/// A batch of rows, and whether there are no more.
#[derive(Debug, Drop)]
pub struct Given {
    pub batch: Batch,
    pub ended: bool,
}

/// The row of the next record, if there is one.
#[tactic(auto, using(crate::proofs::ItemSteps::item_steps))]
pub fn read_row<R: Read + Drop>(
    alloc: Global,
    kinds: &[Kind],
    reading: &mut Reading<R>,
) -> Result<Option<Row>, CsvRefused>
    requires kinds { are_kinds kinds.now ≡ true }
    requires few { length kinds.now < 2 ^ 32 }
    requires set { IsSet reading.old.reader }
    requires counts { Counts (records_left R.remaining reading.old.reader) reading.old.number }

    ensures fits { IfOk result (λ o. IfSome o (λ row. are_of kinds.now row ≡ true)) }
    ensures set { IfOk result (λ o. IfSome o (λ row. IsSet reading.new.reader)) }
    ensures counts { IfOk result
        (λ o. IfSome o
        (λ row. Counts (records_left R.remaining reading.new.reader) reading.new.number)) }
    ensures gives { IfOk result
        (λ row. GivesRow
        (items_left R.remaining kinds.now reading.old.number reading.old.reader) row
        (items_left R.remaining kinds.now reading.new.number reading.new.reader)) }
    ensures refused { (e : Refusal) → result ≡ Err e → is_bad e ≡ true
        → items_left R.remaining kinds.now reading.old.number reading.old.reader
        ≡ Some (Err e ∷ []) }
    ensures read { result ≢ Err refused.Read }
{
    if !next_record(&mut reading.reader, &mut reading.record)? {
        return Ok(None);
    }
    let row = row_of(alloc, kinds, &reading.record, reading.number)?;
    reading.number += 1;
    Ok(Some(row))
}

/// Puts the row of the next record at the end of the builder's; false where there is no record left.
#[tactic(auto, using(crate::proofs::ItemSteps::row_steps))]
fn push_next<R: Read + Drop>(
    alloc: Global,
    kinds: &[Kind],
    reading: &mut Reading<R>,
    builder: &mut Builder,
) -> Result<bool, CsvRefused>
    requires kinds { are_kinds kinds.now ≡ true }
    requires few { length kinds.now < 2 ^ 32 }
    requires same { builder.old.kinds ≡ kinds.now }
    requires room { length builder.old.rows + 1 < 2 ^ 32 }
    requires set { IsSet reading.old.reader }
    requires counts { Counts (records_left R.remaining reading.old.reader) reading.old.number }

    ensures kinds { builder.new.kinds ≡ builder.old.kinds }
    ensures set { result ≡ Ok true → IsSet reading.new.reader }
    ensures counts { result ≡ Ok true
        → Counts (records_left R.remaining reading.new.reader) reading.new.number }
    ensures more { result ≡ Ok true → length builder.new.rows ≡ length builder.old.rows + 1 }
    ensures takes { result ≡ Ok true
        → option_map (rows_then builder.new.rows)
        (items_left R.remaining kinds.now reading.new.number reading.new.reader)
        ≡ option_map (rows_then builder.old.rows)
        (items_left R.remaining kinds.now reading.old.number reading.old.reader) }

    ensures rows { result ≡ Ok false → builder.new.rows ≡ builder.old.rows }
    ensures none { result ≡ Ok false
        → items_left R.remaining kinds.now reading.old.number reading.old.reader ≡ Some [] }
    ensures refused { (e : Refusal) → result ≡ Err e → is_bad e ≡ true
        → items_left R.remaining kinds.now reading.old.number reading.old.reader
        ≡ Some (Err e ∷ []) }
    ensures read { result ≢ Err refused.Read }
{
    let Some(row) = read_row(alloc, kinds, reading)? else {
        return Ok(false);
    };
    let Ok(()) = builder.push(row) else {
        return Err(CsvRefused::NoMemory);
    };
    Ok(true)
}

/// The next rows, so many or all that there are.
#[tactic(auto, using(crate::proofs::ItemSteps::batch_steps))]
pub fn read_rows<R: Read + Drop>(
    alloc: Global,
    kinds: &[Kind],
    reading: &mut Reading<R>,
    rows: u32,
) -> Result<Given, CsvRefused>
    requires kinds { are_kinds kinds.now ≡ true }
    requires few { length kinds.now < 2 ^ 32 }
    requires set { IsSet reading.old.reader }
    requires counts { Counts (records_left R.remaining reading.old.reader) reading.old.number }

    ensures kinds { IfOk result (λ given. given.batch.kinds ≡ kinds.now) }
    ensures set { IfOk result (λ given. given.ended ≡ false → IsSet reading.new.reader) }
    ensures counts { IfOk result
        (λ given. given.ended ≡ false
        → Counts (records_left R.remaining reading.new.reader) reading.new.number) }
    ensures gives { (items : List Item)
        → items_left R.remaining kinds.now reading.old.number reading.old.reader ≡ Some items
        → IfOk result
        (λ given. GivesRows rows items given.batch.rows
        (if given.ended then Some []
        else items_left R.remaining kinds.now reading.new.number reading.new.reader)) }
    ensures falls { IfOk result
        (λ given. length given.batch.rows + left_count
        (if given.ended then Some []
        else items_left R.remaining kinds.now reading.new.number reading.new.reader)
        ≤ left_count (items_left R.remaining kinds.now reading.old.number reading.old.reader)) }
    ensures refused { (items : List Item) (e : Refusal)
        → items_left R.remaining kinds.now reading.old.number reading.old.reader ≡ Some items
        → result ≡ Err e → is_bad e ≡ true → IsRefused rows items e }
    ensures read { result ≢ Err refused.Read }
{
    let mut builder = Builder::new(alloc, kinds)?;
    for _at in 0..rows {
        if !push_next(alloc, kinds, reading, &mut builder)? {
            return Ok(Given {
                batch: builder.finish(),
                ended: true,
            });
        }
    }
    Ok(Given {
        batch: builder.finish(),
        ended: false,
    })
}
