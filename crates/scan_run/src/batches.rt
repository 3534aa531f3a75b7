//! The rows of one file, batch by batch, through a chain.

ghost use Rattle.std.specs.Prelude.{◌==◌, length, ◌≡◌, ◌≢◌, ◌<◌, ◌≤◌, ◌+◌, ◌++◌, ℕ, List, [], true, false, Ok, Err, Some, IfErr, OnOk, OnErr, IfOk};
ghost use Rattle.csv_source.specs.CsvItems as csv;
ghost use Rattle.dfx_outside.specs.Causes.{Rose};
ghost use Rattle.dfx_value.specs.declared.fault.ItemFault.{ItemFault};
ghost use Rattle.scan_run.specs.Chains.{is_chain};
ghost use Rattle.scan_run.specs.Written.{batch_rows, WroteAll, WroteBefore, WrotePart};
ghost use Rattle.scan_run.specs.Words.{Taken, TakenAll, Meets, Writing, fault_named, items_of_file, IsOfRows};
ghost use Rattle.scan_run.specs.declared.refused.RunRefused.{RunRefused as Refusal};
ghost use Rattle.scan_run.specs.declared.refused.RunRefused.TheVariants as refused;

use crate::pass::push_passed;
use crate::refused::{RunRefused, eval_refused, scan_refused, sink_refused};
use column_batch::Batch;
use csv_columns::{CsvScan, Front};
use dfx_outside::{Sink, Source, write_all};
use logical_plan::Logical;
use result_text::RowLines;
use std::alloc::Global;

/// How many rows go through at a time.
const BATCH: u32 = 8192;

/// Whether a batch is whole: only such a one may have rows behind it.
fn is_whole(batch: &Batch) -> bool
    ensures { result ≡ (length batch.now.rows == batch_rows) }
{
    batch.rows() == BATCH
}

/// Appends the lines of what a chain gives for the next rows of a file, a batch of them or all that are left; tells whether
/// rows may be left.
fn push_batch<S: Source>(
    alloc: Global,
    body: &Logical,
    file: u32,
    scan: &mut CsvScan<S>,
    lines: &mut RowLines,
) -> Result<bool, RunRefused>
    requires chain { is_chain body.now ≡ true }
    requires going { scan.old.refused ≡ false }

    ensures more { (items : List csv.Item) → scan.old.left ≡ Some items → result ≡ Ok true
        → Taken body.now items lines.old batch_rows scan.new.left lines.new }
    ensures last { (items : List csv.Item) → scan.old.left ≡ Some items → result ≡ Ok false
        → TakenAll body.now items lines.old lines.new }
    ensures met { (items : List csv.Item) (table : ℕ) (e : Refusal) (fault : ItemFault)
        → scan.old.left ≡ Some items → result ≡ Err e → fault_named table e ≡ Some fault
        → Meets body.now (items_of_file table file items) fault }

    ensures kind { IfErr result (IsOfRows file) }
    ensures calm { result ≢ Err refused.Write }
    ensures going { OnOk result (scan.new.refused ≡ false) }
    ensures falls { result ≡ Ok true → scan.new.most < scan.old.most }
    ensures read { result ≡ Err refused.Read
        → Rose (S.faults scan.old.source) (S.faults scan.new.source) }
    ensures later { S.faults scan.old.source ≤ S.faults scan.new.source }
{
    let Front { batch, refused } = match scan.next_front(BATCH) {
        Ok(front) => front,
        Err(refused) => return Err(scan_refused(file, refused)),
    };
    match push_passed(alloc, body, &batch, lines) {
        Ok(()) => {}
        Err(refused) => return Err(eval_refused(refused)),
    }
    match refused {
        None => Ok(is_whole(&batch)),
        Some(refused) => Err(scan_refused(file, refused)),
    }
}

/// Writes the lines of what a chain gives for the next batch of a file, and tells whether rows may be left.
fn write_batch<S: Source, K: Sink>(
    alloc: Global,
    body: &Logical,
    file: u32,
    scan: &mut CsvScan<S>,
    lines: &mut RowLines,
    sink: &mut K,
) -> Result<bool, RunRefused>
    requires chain { is_chain body.now ≡ true }
    requires going { scan.old.refused ≡ false }

    ensures more { (items : List csv.Item) (before : List ℕ)
        → Writing body.now items before scan.old.left (K.told sink.old)
        → result ≡ Ok true → Writing body.now items before scan.new.left (K.told sink.new) }
    ensures last { (items : List csv.Item) (before : List ℕ) (table : ℕ)
        → Writing body.now items before scan.old.left (K.told sink.old)
        → result ≡ Ok false
        → WroteAll body.now (items_of_file table file items) before (K.told sink.new) }
    ensures met { (items : List csv.Item) (before : List ℕ) (table : ℕ) (e : Refusal)
        (fault : ItemFault)
        → Writing body.now items before scan.old.left (K.told sink.old)
        → result ≡ Err e → fault_named table e ≡ Some fault
        → WroteBefore body.now [] (items_of_file table file items) before fault (K.told sink.new) }
    ensures part { (items : List csv.Item) (before : List ℕ) (table : ℕ)
        → Writing body.now items before scan.old.left (K.told sink.old)
        → OnErr result
        (WrotePart body.now (items_of_file table file items) before (K.told sink.new)) }

    ensures kind { IfErr result (IsOfRows file) }
    ensures going { OnOk result (scan.new.refused ≡ false) }
    ensures falls { result ≡ Ok true → scan.new.most < scan.old.most }
    ensures read { result ≡ Err refused.Read
        → Rose (S.faults scan.old.source) (S.faults scan.new.source) }
    ensures write { result ≡ Err refused.Write → Rose (K.faults sink.old) (K.faults sink.new) }
    ensures later { (S.faults scan.old.source ≤ S.faults scan.new.source)
        × (K.faults sink.old ≤ K.faults sink.new) }
{
    lines.clear();
    let more = push_batch(alloc, body, file, scan, lines)?;
    match write_all(sink, lines.as_slice()) {
        Ok(()) => Ok(more),
        Err(refused) => Err(sink_refused(refused)),
    }
}

/// Writes the lines of what a chain gives for all rows of a file, batch by batch.
pub(crate) fn write_rows<S: Source, K: Sink>(
    alloc: Global,
    body: &Logical,
    file: u32,
    scan: &mut CsvScan<S>,
    sink: &mut K,
) -> Result<(), RunRefused>
    requires chain { is_chain body.now ≡ true }
    requires going { scan.old.refused ≡ false }

    ensures all { (items : List csv.Item) (before : List ℕ) (table : ℕ)
        → scan.old.left ≡ Some items → K.told sink.old ≡ Some before
        → OnOk result
        (WroteAll body.now (items_of_file table file items) before (K.told sink.new)) }
    ensures met { (items : List csv.Item) (before : List ℕ) (table : ℕ) (e : Refusal)
        (fault : ItemFault)
        → scan.old.left ≡ Some items → K.told sink.old ≡ Some before
        → result ≡ Err e → fault_named table e ≡ Some fault
        → WroteBefore body.now [] (items_of_file table file items) before fault (K.told sink.new) }
    ensures part { (items : List csv.Item) (before : List ℕ) (table : ℕ)
        → scan.old.left ≡ Some items → K.told sink.old ≡ Some before
        → OnErr result
        (WrotePart body.now (items_of_file table file items) before (K.told sink.new)) }

    ensures kind { IfErr result (IsOfRows file) }
    ensures read { result ≡ Err refused.Read
        → Rose (S.faults scan.old.source) (S.faults scan.new.source) }
    ensures write { result ≡ Err refused.Write → Rose (K.faults sink.old) (K.faults sink.new) }
    ensures later { (S.faults scan.old.source ≤ S.faults scan.new.source)
        × (K.faults sink.old ≤ K.faults sink.new) }
{
    let mut lines = RowLines::new(alloc);
    let mut more = true;
    while more {
        more = write_batch(alloc, body, file, scan, &mut lines, sink)?;
    }
    Ok(())
}
