//! How far a scan has come, and its next steps.

ghost use Rattle.std.specs.Prelude.{◌≡◌, ◌∷◌, [], ◌^◌, ◌+◌, ◌<◌, ◌≤◌, ℕ, List, true, false, length, Ok, Err, Some, IfOk, IfErr};
ghost use Rattle.dfx_outside.specs.Causes.{Rose};
ghost use Rattle.dfx_value.specs.Kinds.{are_kinds};
ghost use Rattle.csv_source.specs.CsvItems.{Item, csv_items, is_bad};
ghost use Rattle.csv_source.specs.ScanView.{GivesRows};
ghost use Rattle.csv_source.specs.declared.refused.CsvRefused.{CsvRefused as Refusal};
ghost use Rattle.csv_source.specs.declared.refused.CsvRefused.TheVariants as refused;
ghost use Rattle.csv_columns.specs.Progress.{left_of, most_of, is_begun, IsSound};
ghost use Rattle.csv_columns.specs.Stops.{StopsIn, IsFront, IsRead};

use crate::columns::{batch_of, empty_columns};
use crate::reading::{Given, Reading, Stopped, next_record, read_rows};
use column_batch::Batch;
use csv_records::RecordReader;
use csv_source::CsvRefused;
use dfx_outside::{OutsideRefused, Source};
use dfx_value::{Kind, NoMemory};
use std::alloc::Global;

/// How far a scan has come.
#[derive(Drop)]
pub enum Progress {
    /// Nothing of the file was read.
    Unread,
    /// The header was taken, and rows may be left.
    Reading(Box<Reading>),
    /// All rows were given.
    Ended,
    /// A call was refused.
    Refused,
}

/// A batch, and how far the scan then has come.
#[derive(Drop)]
pub struct Advanced {
    pub batch: Batch,
    pub progress: Progress,
}

/// Takes the header of a file.
#[tactic(auto, using(crate::proofs::OpenSteps::open_steps))]
pub fn begin<S: Source>(
    alloc: Global,
    source: &mut S,
    kinds: &[Kind],
) -> Result<Progress, CsvRefused>
    ensures begun { IfOk result (λ progress. is_begun progress ≡ true) }
    ensures sound { IfOk result (λ progress. IsSound (S.size source.old) progress) }
    ensures left { (all : List ℕ) → S.told source.old ≡ Some all
        → IfOk result (λ progress. left_of (S.told source.old) kinds.now progress
        ≡ Some (csv_items all kinds.now)) }
    ensures falls { IfOk result (λ progress. most_of (S.size source.old) progress
        ≤ S.size source.old) }
    ensures refused { (all : List ℕ) (e : Refusal) → S.told source.old ≡ Some all
        → result ≡ Err e → is_bad e ≡ true → csv_items all kinds.now ≡ Err e ∷ [] }
    ensures read { result ≡ Err refused.Read → Rose (S.faults source.old) (S.faults source.new) }
    ensures same { (S.told source.new ≡ S.told source.old)
        × (S.size source.new ≡ S.size source.old) }
    ensures later { S.faults source.old ≤ S.faults source.new }
{
    let mut reader = match RecordReader::begin(alloc, source) {
        Ok(reader) => reader,
        Err(OutsideRefused::Failed) => return Err(CsvRefused::Read),
        Err(OutsideRefused::NoMemory) => return Err(CsvRefused::NoMemory),
    };
    match next_record(source, &mut reader) {
        Err(e) => return Err(e),
        Ok(false) => return Ok(Progress::Ended),
        Ok(true) => {}
    }
    if reader.len() != kinds.len() {
        return Err(CsvRefused::Header {
            fields: reader.len() as u64,
        });
    }
    let Ok(reading) = Box::new(alloc, Reading { reader, number: 1 }) else {
        return Err(CsvRefused::NoMemory);
    };
    Ok(Progress::Reading(reading))
}

/// A batch without a row.
#[tactic(auto, using(crate::proofs::FillSteps::empty_steps))]
fn empty_batch(alloc: Global, kinds: &[Kind]) -> Result<Batch, NoMemory>
    requires kinds { are_kinds kinds.now ≡ true }
    ensures kinds { IfOk result (λ batch. batch.kinds ≡ kinds.now) }
    ensures rows { IfOk result (λ batch. batch.rows ≡ []) }
{
    let columns = empty_columns(alloc, kinds)?;
    batch_of(alloc, columns, 0)
}

/// The next rows of a scan that has begun.
pub fn advance<S: Source>(
    alloc: Global,
    source: &mut S,
    kinds: &[Kind],
    progress: Progress,
    rows: u32,
) -> Result<Advanced, Stopped>
    requires kinds { are_kinds kinds.now ≡ true }
    requires few { length kinds.now < 2 ^ 32 }
    requires begun { is_begun progress ≡ true }
    requires sound { IsSound (S.size source.old) progress }

    ensures kinds { IfOk result (λ next. next.batch.kinds ≡ kinds.now) }
    ensures begun { IfOk result (λ next. is_begun next.progress ≡ true) }
    ensures sound { IfOk result (λ next. IsSound (S.size source.old) next.progress) }
    ensures gives { (items : List Item)
        → left_of (S.told source.old) kinds.now progress ≡ Some items
        → IfOk result (λ next. GivesRows rows items next.batch.rows
        (left_of (S.told source.old) kinds.now next.progress)) }
    ensures falls { IfOk result (λ next. length next.batch.rows
        + most_of (S.size source.old) next.progress
        ≤ most_of (S.size source.old) progress) }
    ensures stopped { (items : List Item)
        → left_of (S.told source.old) kinds.now progress ≡ Some items
        → IfErr result (StopsIn rows items) }
    ensures front { IfErr result (IsFront kinds.now (most_of (S.size source.old) progress)) }
    ensures read { IfErr result (λ s. IsRead s
        → Rose (S.faults source.old) (S.faults source.new)) }
    ensures same { (S.told source.new ≡ S.told source.old)
        × (S.size source.new ≡ S.size source.old) }
    ensures later { S.faults source.old ≤ S.faults source.new }
{
    match progress {
        Progress::Reading(mut reading) => {
            match read_rows(alloc, source, kinds, &mut reading, rows) {
                Err(stopped) => Err(stopped),
                Ok(Given { batch, ended }) => {
                    let progress = if ended {
                        Progress::Ended
                    } else {
                        Progress::Reading(reading)
                    };
                    Ok(Advanced { batch, progress })
                }
            }
        }
        Progress::Ended => match empty_batch(alloc, kinds) {
            Err(_) => Err(Stopped::Call(CsvRefused::NoMemory)),
            Ok(batch) => Ok(Advanced {
                batch,
                progress: Progress::Ended,
            }),
        },
        Progress::Unread | Progress::Refused => unreachable!(),
    }
}
