//! The rows of the records that a reader has left.

ghost use Rattle.std.specs.Prelude.{◌≡◌, ◌≢◌, ◌+◌, ◌^◌, ◌<◌, ◌≤◌, ◌∷◌, [], ℕ, List, true, false, length, Ok, Err, Some, option_map, IfOk, IfErr, All, if◌then◌else◌};
ghost use Rattle.csv_records.specs.Left.{records_left, most_left, Takes, HasNone};
ghost use Rattle.dfx_outside.specs.Causes.{Rose};
ghost use Rattle.dfx_value.specs.Kinds.{are_kinds};
ghost use Rattle.column_batch.specs.Batches.{kinds_of, rows_from, cut};
ghost use Rattle.csv_source.specs.CsvItems.{Item, is_bad};
ghost use Rattle.csv_source.specs.Scans.{rows_then};
ghost use Rattle.csv_source.specs.ScanView.{GivesRows};
ghost use Rattle.csv_source.specs.declared.refused.CsvRefused.{CsvRefused as Refusal};
ghost use Rattle.csv_source.specs.declared.refused.CsvRefused.TheVariants as refused;
ghost use Rattle.csv_columns.specs.Filled.{Even, AllExtend};
ghost use Rattle.csv_columns.specs.Left.{items_left};
ghost use Rattle.csv_columns.specs.Stops.{StopsAs, StopsIn, IsFront, IsRead, IsMemory};

use crate::columns::{batch_of, empty_columns, push_record};
use column_batch::{Batch, Column};
use csv_records::RecordReader;
use csv_source::CsvRefused;
use dfx_outside::{OutsideRefused, Source};
use dfx_value::Kind;
use std::alloc::Global;

/// A reader of a file's records that has taken the header, and the number of its next record.
#[derive(Drop)]
pub struct Reading {
    pub reader: RecordReader,
    pub number: u64,
}

/// A batch of rows, and whether there are no more.
#[derive(Drop)]
pub struct Given {
    pub batch: Batch,
    pub ended: bool,
}

/// Why no more rows are given.
#[derive(Drop)]
pub enum Stopped {
    /// The record behind the rows of this batch is refused.
    Record(Batch, CsvRefused),
    /// The source failed, or there was no memory.
    Call(CsvRefused),
}

/// Takes the next record, if there is one.
pub fn next_record<S: Source>(source: &mut S, reader: &mut RecordReader) -> Result<bool, CsvRefused>
    ensures some { result ≡ Ok true
        → Takes (records_left (S.told source.old) reader.old)
        reader.new.fields (records_left (S.told source.old) reader.new) }
    ensures none { result ≡ Ok false → HasNone (records_left (S.told source.old) reader.old) }
    ensures most { result ≡ Ok true
        → most_left (S.size source.old) reader.new < most_left (S.size source.old) reader.old }
    ensures plain { (e : Refusal) → result ≡ Err e → is_bad e ≡ false }
    ensures read { result ≡ Err refused.Read → Rose (S.faults source.old) (S.faults source.new) }
    ensures same { (S.told source.new ≡ S.told source.old)
        × (S.size source.new ≡ S.size source.old) }
    ensures later { S.faults source.old ≤ S.faults source.new }
{
    match reader.take_record(source) {
        Ok(found) => Ok(found),
        Err(OutsideRefused::Failed) => Err(CsvRefused::Read),
        Err(OutsideRefused::NoMemory) => Err(CsvRefused::NoMemory),
    }
}

/// Puts the row of the next record at the ends of the columns; false where there is no record left.
#[tactic(auto, using(crate::proofs::ItemSteps::row_steps))]
fn push_next<S: Source>(
    alloc: Global,
    source: &mut S,
    reading: &mut Reading,
    columns: &mut Vec<Column>,
    rows: u32,
) -> Result<bool, CsvRefused>
    requires few { length columns.old.items < 2 ^ 32 }
    requires room { rows + 1 < 2 ^ 32 }
    requires even { Even rows columns.old.items }
    requires counts { reading.old.number + most_left (S.size source.old) reading.old.reader
        < 2 ^ 64 }

    ensures kinds { result ≡ Ok true → kinds_of columns.new.items ≡ kinds_of columns.old.items }
    ensures even { result ≡ Ok true → Even (rows + 1) columns.new.items }
    ensures counts { result ≡ Ok true
        → reading.new.number + most_left (S.size source.old) reading.new.reader < 2 ^ 64 }
    ensures falls { result ≡ Ok true → most_left (S.size source.old) reading.new.reader
        < most_left (S.size source.old) reading.old.reader }
    ensures takes { result ≡ Ok true
        → option_map (rows_then (rows_from columns.new.items 0 (rows + 1)))
        (items_left (S.told source.old) (kinds_of columns.old.items)
        reading.new.number reading.new.reader)
        ≡ option_map (rows_then (rows_from columns.old.items 0 rows))
        (items_left (S.told source.old) (kinds_of columns.old.items)
        reading.old.number reading.old.reader) }

    ensures kept { AllExtend columns.old.items columns.new.items }
    ensures stands { result ≡ Ok false → columns.new.items ≡ columns.old.items }
    ensures none { result ≡ Ok false → (items : List Item)
        → items_left (S.told source.old) (kinds_of columns.old.items)
        reading.old.number reading.old.reader ≡ Some items
        → items ≡ [] }
    ensures refused { (items : List Item) (e : Refusal)
        → items_left (S.told source.old) (kinds_of columns.old.items)
        reading.old.number reading.old.reader ≡ Some items
        → result ≡ Err e → is_bad e ≡ true → items ≡ Err e ∷ [] }
    ensures read { result ≡ Err refused.Read → Rose (S.faults source.old) (S.faults source.new) }
    ensures same { (S.told source.new ≡ S.told source.old)
        × (S.size source.new ≡ S.size source.old) }
    ensures later { S.faults source.old ≤ S.faults source.new }
{
    match next_record(source, &mut reading.reader) {
        Err(e) => Err(e),
        Ok(false) => Ok(false),
        Ok(true) => match push_record(alloc, columns, &reading.reader, reading.number) {
            Err(e) => Err(e),
            Ok(()) => {
                reading.number += 1;
                Ok(true)
            }
        },
    }
}

/// Whether a refusal is of the file.
fn is_of_file(refused: CsvRefused) -> bool
    ensures { result ≡ is_bad refused }
{
    match refused {
        CsvRefused::Header { .. }
        | CsvRefused::Fields { .. }
        | CsvRefused::NotUtf8 { .. }
        | CsvRefused::Value { .. } => true,
        CsvRefused::Read | CsvRefused::NoMemory => false,
    }
}

/// What a refusal behind the first rows of columns, so many, means.
fn stop_at(alloc: Global, columns: Vec<Column>, rows: u32, refused: CsvRefused) -> Stopped
    requires long { All (λ c. rows ≤ length c.values) columns.items }
    ensures { StopsAs result (cut columns.items 0 rows) refused }
{
    if !is_of_file(refused) {
        return Stopped::Call(refused);
    }
    match batch_of(alloc, columns, rows) {
        Ok(batch) => Stopped::Record(batch, refused),
        Err(_) => Stopped::Call(CsvRefused::NoMemory),
    }
}

/// The next rows, so many or all that there are; where a record among them is refused, the rows in front of it.
#[tactic(auto, using(crate::proofs::ItemSteps::batch_steps))]
pub fn read_rows<S: Source>(
    alloc: Global,
    source: &mut S,
    kinds: &[Kind],
    reading: &mut Reading,
    rows: u32,
) -> Result<Given, Stopped>
    requires kinds { are_kinds kinds.now ≡ true }
    requires few { length kinds.now < 2 ^ 32 }
    requires counts { reading.old.number + most_left (S.size source.old) reading.old.reader
        < 2 ^ 64 }

    ensures kinds { IfOk result (λ given. given.batch.kinds ≡ kinds.now) }
    ensures counts { IfOk result (λ given. given.ended ≡ false
        → reading.new.number + most_left (S.size source.old) reading.new.reader < 2 ^ 64) }
    ensures gives { (items : List Item)
        → items_left (S.told source.old) kinds.now
        reading.old.number reading.old.reader ≡ Some items
        → IfOk result (λ given. GivesRows rows items given.batch.rows (if given.ended then Some []
        else items_left (S.told source.old) kinds.now reading.new.number reading.new.reader)) }
    ensures falls { IfOk result (λ given. length given.batch.rows
        + (if given.ended then 0 else most_left (S.size source.old) reading.new.reader)
        ≤ most_left (S.size source.old) reading.old.reader) }
    ensures stopped { (items : List Item)
        → items_left (S.told source.old) kinds.now
        reading.old.number reading.old.reader ≡ Some items
        → IfErr result (StopsIn rows items) }
    ensures front { IfErr result (IsFront kinds.now
        (most_left (S.size source.old) reading.old.reader)) }
    ensures read { IfErr result (λ s. IsRead s
        → Rose (S.faults source.old) (S.faults source.new)) }
    ensures same { (S.told source.new ≡ S.told source.old)
        × (S.size source.new ≡ S.size source.old) }
    ensures later { S.faults source.old ≤ S.faults source.new }
{
    let Ok(mut columns) = empty_columns(alloc, kinds) else {
        return Err(Stopped::Call(CsvRefused::NoMemory));
    };
    for at in 0..rows {
        match push_next(alloc, source, reading, &mut columns, at) {
            Err(refused) => return Err(stop_at(alloc, columns, at, refused)),
            Ok(false) => return batch_given(alloc, columns, at, true),
            Ok(true) => {}
        }
    }
    batch_given(alloc, columns, rows, false)
}

/// The batch of columns that have so many values, and whether there are no more.
#[tactic(auto, using(crate::proofs::FillSteps::even_steps))]
fn batch_given(
    alloc: Global,
    columns: Vec<Column>,
    rows: u32,
    ended: bool,
) -> Result<Given, Stopped>
    requires even { Even rows columns.items }
    ensures kinds { IfOk result (λ given. given.batch.kinds ≡ kinds_of columns.items) }
    ensures rows { IfOk result (λ given. given.batch.rows ≡ rows_from columns.items 0 rows) }
    ensures ended { IfOk result (λ given. given.ended ≡ ended) }
    ensures err { IfErr result IsMemory }
{
    match batch_of(alloc, columns, rows) {
        Ok(batch) => Ok(Given { batch, ended }),
        Err(_) => Err(Stopped::Call(CsvRefused::NoMemory)),
    }
}
