//! How far a scan has come, and its next steps.

ghost use Rattle.std.specs.Prelude.{◌≡◌, ◌≢◌, ◌∷◌, [], ◌^◌, ◌+◌, ◌<◌, ◌≤◌, ℕ, List, true, false, length, Ok, Err, Some, None, IfOk, IfErr, IfSome};
ghost use Rattle.std.specs.Io.Cursor.{cursor_remaining};
ghost use Rattle.dfx_outside.specs.Causes.{Rose};
ghost use Rattle.dfx_value.specs.Kinds.{are_kinds, are_of};
ghost use Rattle.csv_source.specs.CsvItems.{Item, csv_items, is_bad};
ghost use Rattle.csv_source.specs.Progress.{left_of, is_begun, IsSound};
ghost use Rattle.csv_source.specs.ScanView.{GivesRow, GivesRows, IsRefused, left_count};
ghost use Rattle.csv_source.specs.declared.refused.CsvRefused.{CsvRefused as Refusal};
ghost use Rattle.csv_source.specs.declared.refused.CsvRefused.TheVariants as refused;

use crate::reading::{Given, Reading, read_row, read_rows};
use crate::records::next_record;
use crate::refused::CsvRefused;
use csv::{ByteRecord, ReaderBuilder};
use dfx_outside::{OutsideRefused, Source, read_all};
use dfx_value::{Batch, Builder, Kind, Row};
use std::alloc::Global;
use std::io::{Cursor, Read};

/// How far a scan has come.
#[derive(Drop)]
pub enum Progress<R: Drop> {
    /// Nothing of the file was read.
    Unread,
    /// The header was taken, and rows may be left.
    Reading(Box<Reading<R>>),
    /// All rows were given.
    Ended,
    /// A call was refused.
    Refused,
}

/// A row, or none where there are no more, and how far the scan then has come.
#[derive(Drop)]
pub struct Stepped<R: Drop> {
    pub row: Option<Row>,
    pub progress: Progress<R>,
}

/// A batch, and how far the scan then has come.
#[derive(Drop)]
pub struct Advanced<R: Drop> {
    pub batch: Batch,
    pub progress: Progress<R>,
}

/// Takes the header of a file's bytes.
#[tactic(auto, using(crate::proofs::OpenSteps::open_steps))]
fn open<R: Read + Drop>(alloc: Global, kinds: &[Kind], bytes: R) -> Result<Progress<R>, CsvRefused>
    ensures begun { IfOk result (λ progress. is_begun progress ≡ true) }
    ensures sound { (all : List ℕ) → R.remaining bytes ≡ Some all → length all + 2 < 2 ^ 64
        → IfOk result (λ progress. IsSound R.remaining progress) }
    ensures left { (all : List ℕ) → R.remaining bytes ≡ Some all
        → IfOk result
        (λ progress. left_of R.remaining None kinds.now progress ≡ Some (csv_items all kinds.now)) }
    ensures refused { (all : List ℕ) (e : Refusal) → R.remaining bytes ≡ Some all → result ≡ Err e
        → is_bad e ≡ true → csv_items all kinds.now ≡ Err e ∷ [] }
    ensures read { result ≢ Err refused.Read }
{
    let mut reader = ReaderBuilder::new()
        .has_headers(false)
        .flexible(true)
        .from_reader(alloc, bytes);
    let mut record = ByteRecord::new(alloc);
    if !next_record(&mut reader, &mut record)? {
        return Ok(Progress::Ended);
    }
    if record.len() != kinds.len() {
        return Err(CsvRefused::Header {
            fields: record.len() as u64,
        });
    }
    let reading = Box::new(
        alloc,
        Reading {
            reader,
            record,
            number: 1,
        },
    )?;
    Ok(Progress::Reading(reading))
}

#[tactic(auto, using(crate::proofs::LeftSteps::left_few))]
/// Reads the whole source and takes the header.
pub fn begin<S: Source>(
    alloc: Global,
    source: &mut S,
    kinds: &[Kind],
) -> Result<Progress<Cursor<Vec<u8>>>, CsvRefused>
    ensures begun { IfOk result (λ progress. is_begun progress ≡ true) }
    ensures sound { IfOk result
        (λ progress. IsSound (cursor_remaining (λ v. Some v.items)) progress) }
    ensures left { (all : List ℕ) → S.told source.old ≡ Some all
        → IfOk result
        (λ progress. left_of (cursor_remaining (λ v. Some v.items)) None kinds.now progress
        ≡ Some (csv_items all kinds.now)) }
    ensures few { IfOk result
        (λ progress. left_count
        (left_of (cursor_remaining (λ v. Some v.items)) None kinds.now progress) ≤ 2 ^ 64) }
    ensures refused { (all : List ℕ) (e : Refusal) → S.told source.old ≡ Some all → result ≡ Err e
        → is_bad e ≡ true → csv_items all kinds.now ≡ Err e ∷ [] }
    ensures read { result ≡ Err refused.Read → Rose (S.faults source.old) (S.faults source.new) }
    ensures same { S.told source.new ≡ S.told source.old }
    ensures later { S.faults source.old ≤ S.faults source.new }
{
    match read_all(alloc, source) {
        Ok(bytes) => open(alloc, kinds, Cursor::new(bytes)),
        Err(OutsideRefused::Failed) => Err(CsvRefused::Read),
        Err(OutsideRefused::NoMemory) => Err(CsvRefused::NoMemory),
    }
}

/// The next row of a scan that has begun.
#[tactic(auto, using(crate::proofs::LeftSteps::step_steps))]
pub fn step<R: Read + Drop>(
    alloc: Global,
    kinds: &[Kind],
    progress: Progress<R>,
) -> Result<Stepped<R>, CsvRefused>
    requires kinds { are_kinds kinds.now ≡ true }
    requires few { length kinds.now < 2 ^ 32 }
    requires begun { is_begun progress ≡ true }
    requires sound { IsSound R.remaining progress }

    ensures fits { IfOk result (λ next. IfSome next.row (λ row. are_of kinds.now row ≡ true)) }
    ensures begun { IfOk result (λ next. is_begun next.progress ≡ true) }
    ensures sound { IfOk result (λ next. IsSound R.remaining next.progress) }
    ensures gives { IfOk result
        (λ next. GivesRow (left_of R.remaining None kinds.now progress) next.row
        (left_of R.remaining None kinds.now next.progress)) }
    ensures refused { (e : Refusal) → result ≡ Err e → is_bad e ≡ true
        → left_of R.remaining None kinds.now progress ≡ Some (Err e ∷ []) }
    ensures read { result ≢ Err refused.Read }
{
    match progress {
        Progress::Reading(mut reading) => match read_row(alloc, kinds, &mut reading)? {
            Some(row) => Ok(Stepped {
                row: Some(row),
                progress: Progress::Reading(reading),
            }),
            None => Ok(Stepped {
                row: None,
                progress: Progress::Ended,
            }),
        },
        Progress::Ended => Ok(Stepped {
            row: None,
            progress: Progress::Ended,
        }),
        Progress::Unread | Progress::Refused => unreachable!(),
    }
}

#[tactic(auto, using(crate::proofs::LeftSteps::left_steps))]
/// The next rows of a scan that has begun.
pub fn advance<R: Read + Drop>(
    alloc: Global,
    kinds: &[Kind],
    progress: Progress<R>,
    rows: u32,
) -> Result<Advanced<R>, CsvRefused>
    requires kinds { are_kinds kinds.now ≡ true }
    requires few { length kinds.now < 2 ^ 32 }
    requires begun { is_begun progress ≡ true }
    requires sound { IsSound R.remaining progress }

    ensures kinds { IfOk result (λ next. next.batch.kinds ≡ kinds.now) }
    ensures begun { IfOk result (λ next. is_begun next.progress ≡ true) }
    ensures sound { IfOk result (λ next. IsSound R.remaining next.progress) }
    ensures gives { (items : List Item) → left_of R.remaining None kinds.now progress ≡ Some items
        → IfOk result
        (λ next. GivesRows rows items next.batch.rows
        (left_of R.remaining None kinds.now next.progress)) }
    ensures falls { IfOk result
        (λ next. length next.batch.rows + left_count
        (left_of R.remaining None kinds.now next.progress)
        ≤ left_count (left_of R.remaining None kinds.now progress)) }
    ensures refused { (items : List Item) (e : Refusal)
        → left_of R.remaining None kinds.now progress ≡ Some items → result ≡ Err e
        → is_bad e ≡ true → IsRefused rows items e }
    ensures read { result ≢ Err refused.Read }
{
    match progress {
        Progress::Reading(mut reading) => {
            let Given { batch, ended } = read_rows(alloc, kinds, &mut reading, rows)?;
            let progress = if ended {
                Progress::Ended
            } else {
                Progress::Reading(reading)
            };
            Ok(Advanced { batch, progress })
        }
        Progress::Ended => Ok(Advanced {
            batch: Builder::new(alloc, kinds)?.finish(),
            progress: Progress::Ended,
        }),
        Progress::Unread | Progress::Refused => unreachable!(),
    }
}
