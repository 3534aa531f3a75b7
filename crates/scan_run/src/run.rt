//! The run of a query over a chain.

ghost use Rattle.std.specs.Prelude.{◌≡◌, ◌≤◌, ◌<◌, ◌^◌, ◌++◌, ℕ, List, [], true, false, map, length, Some, None, Err, IfOk, IfErr, OnOk, OnErr, option_map};
ghost use Rattle.csv_source.specs.CsvItems.{csv_items};
ghost use Rattle.dfx_outside.specs.Causes.{Rose};
ghost use Rattle.dfx_outside.specs.Contents.{Contents};
ghost use Rattle.dfx_value.specs.declared.fault.ItemFault.{ItemFault};
ghost use Rattle.logical_plan.specs.Body.{Tables, all_faults};
ghost use Rattle.logical_plan.specs.Items.{concat};
ghost use Rattle.result_text.specs.AnswerText.{header_line};
ghost use Rattle.scan_run.specs.Chains as chain;
ghost use Rattle.scan_run.specs.Chains.{Scanned};
ghost use Rattle.csv_source.specs.TableItems.{missing, file_items};
ghost use Rattle.scan_run.specs.Written.{WroteAll, WroteBefore, WrotePart, BeganOver};
ghost use Rattle.scan_run.specs.Outcomes.{Asked, HasFiles, Began, Ran, IsMet, IsOkOrMemory};
ghost use Rattle.scan_run.specs.Words.{Tell, StopsIn, fault_named, items_of_all, IsOfRows, IsOfRun};
ghost use Rattle.scan_run.specs.declared.refused.RunRefused.{RunRefused as Refusal};
ghost use Rattle.scan_run.specs.declared.refused.RunRefused.TheVariants as refused;

use crate::batches::write_rows;
use crate::chain::scan_kinds;
use crate::opened::{close_all, open_all};
use crate::refused::{RunRefused, sink_refused};
use csv_columns::CsvScan;
use dfx_outside::{Files, Sink, Source, write_all};
use dfx_value::Text;
use logical_plan::{Logical, Query};
use result_text::header_text;
use std::alloc::Global;
use std::collections::VecDeque;

/// A scan of an opened file for a chain's Scan. For want of memory the file is handed back.
fn scan_of<S: Source>(alloc: Global, body: &Logical, source: S) -> Result<CsvScan<S>, S>
    requires chain { chain.is_chain body.now ≡ true }
    requires sound { chain.AreSound (chain.scanned body.now) }

    ensures source { IfOk result (λ scan. scan.source ≡ source) }
    ensures left { (s : Scanned) → chain.scanned body.now ≡ Some s
        → IfOk result
        (λ scan. scan.left ≡ option_map (λ bytes. csv_items bytes s.kinds) (S.told source)) }
    ensures going { IfOk result (λ scan. scan.refused ≡ false) }
    ensures err { IfErr result (λ same. same ≡ source) }
{
    match scan_kinds(alloc, body) {
        Ok(kinds) => CsvScan::new(alloc, source, kinds),
        Err(_) => Err(source),
    }
}

/// Writes the lines of what a chain gives for an opened file, and closes it.
#[tactic(auto, using(crate::proofs::FileSteps::handed_on))]
fn write_file<F: Files, K: Sink>(
    alloc: Global,
    body: &Logical,
    file: u32,
    source: F::One,
    files: &mut F,
    sink: &mut K,
) -> Result<(), RunRefused>
    requires chain { chain.is_chain body.now ≡ true }
    requires sound { chain.AreSound (chain.scanned body.now) }

    ensures all { (s : Scanned) (bytes before : List ℕ) → chain.scanned body.now ≡ Some s
        → F.One.told source ≡ Some bytes → K.told sink.old ≡ Some before
        → OnOk result
        (WroteAll body.now (file_items s.table s.kinds file (Some bytes)) before
        (K.told sink.new)) }
    ensures met { (s : Scanned) (bytes before : List ℕ) (e : Refusal) (fault : ItemFault)
        → chain.scanned body.now ≡ Some s → F.One.told source ≡ Some bytes
        → K.told sink.old ≡ Some before
        → result ≡ Err e → fault_named s.table e ≡ Some fault
        → WroteBefore body.now [] (file_items s.table s.kinds file (Some bytes)) before fault
        (K.told sink.new) }
    ensures part { (s : Scanned) (bytes before : List ℕ) → chain.scanned body.now ≡ Some s
        → F.One.told source ≡ Some bytes → K.told sink.old ≡ Some before
        → OnErr result
        (WrotePart body.now (file_items s.table s.kinds file (Some bytes)) before
        (K.told sink.new)) }

    ensures kind { IfErr result (IsOfRows file) }
    ensures read { result ≡ Err refused.Read → Rose (F.faults files.old) (F.faults files.new) }
    ensures write { result ≡ Err refused.Write → Rose (K.faults sink.old) (K.faults sink.new) }
    ensures same { (F.told files.new ≡ F.told files.old)
        × (F.absences files.new ≡ F.absences files.old) }
    ensures later { (F.faults files.old ≤ F.faults files.new)
        × (K.faults sink.old ≤ K.faults sink.new) }
{
    let mut scan = match scan_of(alloc, body, source) {
        Ok(scan) => scan,
        Err(source) => {
            files.close(source);
            return Err(RunRefused::NoMemory);
        }
    };
    let written = write_rows(alloc, body, file, &mut scan, sink);
    files.close(scan.into_source());
    written
}

/// Writes the lines of what a chain gives for opened files, file after file. After a refusal those behind it stay opened.
fn write_files<F: Files, K: Sink>(
    alloc: Global,
    body: &Logical,
    files: &mut F,
    sink: &mut K,
    opened: &mut VecDeque<F::One>,
) -> Result<(), RunRefused>
    requires chain { chain.is_chain body.now ≡ true }
    requires sound { chain.AreSound (chain.scanned body.now) }
    requires few { length opened.old.items < 2 ^ 32 }

    ensures all { (s : Scanned) (contents : List (List ℕ)) (before : List ℕ)
        → chain.scanned body.now ≡ Some s → Tell (map F.One.told opened.old.items) contents
        → K.told sink.old ≡ Some before
        → OnOk result
        (WroteAll body.now (concat (items_of_all s contents)) before (K.told sink.new)) }
    ensures met { (s : Scanned) (contents : List (List ℕ)) (before : List ℕ) (e : Refusal)
        (fault : ItemFault) → chain.scanned body.now ≡ Some s
        → Tell (map F.One.told opened.old.items) contents → K.told sink.old ≡ Some before
        → result ≡ Err e → fault_named s.table e ≡ Some fault
        → StopsIn body.now (items_of_all s contents) before e fault (K.told sink.new) }
    ensures part { (s : Scanned) (contents : List (List ℕ)) (before : List ℕ)
        → chain.scanned body.now ≡ Some s → Tell (map F.One.told opened.old.items) contents
        → K.told sink.old ≡ Some before
        → OnErr result
        (WrotePart body.now (concat (items_of_all s contents)) before (K.told sink.new)) }

    ensures kind { IfErr result IsOfRun }
    ensures read { result ≡ Err refused.Read → Rose (F.faults files.old) (F.faults files.new) }
    ensures write { result ≡ Err refused.Write → Rose (K.faults sink.old) (K.faults sink.new) }
    ensures same { (F.told files.new ≡ F.told files.old)
        × (F.absences files.new ≡ F.absences files.old) }
    ensures later { (F.faults files.old ≤ F.faults files.new)
        × (K.faults sink.old ≤ K.faults sink.new) }
{
    let count = opened.len() as u32;
    for file in 0..count {
        let Some(source) = opened.pop_front() else {
            unreachable!();
        };
        write_file(alloc, body, file, source, files, sink)?;
    }
    Ok(())
}

/// Writes the header, and then the lines of what a query's chain gives for opened files.
#[tactic(auto, using(crate::proofs::EndSteps::header_steps))]
fn write_answer<F: Files, K: Sink>(
    alloc: Global,
    query: &Query,
    files: &mut F,
    sink: &mut K,
    opened: &mut VecDeque<F::One>,
) -> Result<(), RunRefused>
    requires chain { chain.is_chain query.now.body ≡ true }
    requires sound { chain.AreSound (chain.scanned query.now.body) }
    requires few { length opened.old.items < 2 ^ 32 }

    ensures all { (s : Scanned) (contents : List (List ℕ)) (before : List ℕ)
        → chain.scanned query.now.body ≡ Some s → Tell (map F.One.told opened.old.items) contents
        → K.told sink.old ≡ Some before
        → OnOk result
        (WroteAll query.now.body (concat (items_of_all s contents))
        (before ++ header_line query.now.names) (K.told sink.new)) }
    ensures met { (s : Scanned) (contents : List (List ℕ)) (before : List ℕ) (e : Refusal)
        (fault : ItemFault) → chain.scanned query.now.body ≡ Some s
        → Tell (map F.One.told opened.old.items) contents → K.told sink.old ≡ Some before
        → result ≡ Err e → fault_named s.table e ≡ Some fault
        → StopsIn query.now.body (items_of_all s contents) (before ++ header_line query.now.names)
        e fault (K.told sink.new) }
    ensures part { (s : Scanned) (contents : List (List ℕ)) (before : List ℕ)
        → chain.scanned query.now.body ≡ Some s → Tell (map F.One.told opened.old.items) contents
        → K.told sink.old ≡ Some before
        → OnErr result
        (BeganOver query.now (concat (items_of_all s contents)) before (K.told sink.new)) }

    ensures kind { IfErr result IsOfRun }
    ensures read { result ≡ Err refused.Read → Rose (F.faults files.old) (F.faults files.new) }
    ensures write { result ≡ Err refused.Write → Rose (K.faults sink.old) (K.faults sink.new) }
    ensures same { (F.told files.new ≡ F.told files.old)
        × (F.absences files.new ≡ F.absences files.old) }
    ensures later { (F.faults files.old ≤ F.faults files.new)
        × (K.faults sink.old ≤ K.faults sink.new) }
{
    let Ok(header) = header_text(alloc, query.names.as_slice()) else {
        return Err(RunRefused::NoMemory);
    };
    match write_all(sink, header.as_slice()) {
        Ok(()) => write_files(alloc, &query.body, files, sink, opened),
        Err(refused) => Err(sink_refused(refused)),
    }
}

/// Opens the files at the paths, and then writes the answer.
fn open_and_write<F: Files, K: Sink>(
    alloc: Global,
    query: &Query,
    paths: &[Text],
    files: &mut F,
    sink: &mut K,
    opened: &mut VecDeque<F::One>,
) -> Result<(), RunRefused>
    requires chain { chain.is_chain query.now.body ≡ true }
    requires sound { chain.AreSound (chain.scanned query.now.body) }
    requires unordered { query.now.order ≡ [] }
    requires uncut { (query.now.offset ≡ 0) × (query.now.limit ≡ None) }
    requires few { length paths.now < 2 ^ 32 }
    requires none { opened.old.items ≡ [] }

    ensures ran { (scan : Scanned) (all : Contents) (before : List ℕ)
        → chain.scanned query.now.body ≡ Some scan → F.told files.old ≡ Some all
        → K.told sink.old ≡ Some before
        → Ran (record {
          query = query.now;
          scan = scan;
          paths = paths.now;
          all = all;
          before = before;
        }) (K.told sink.new) result }
    ensures part { (scan : Scanned) (all : Contents) (before : List ℕ)
        → chain.scanned query.now.body ≡ Some scan → F.told files.old ≡ Some all
        → K.told sink.old ≡ Some before
        → OnErr result
        (Began (record {
          query = query.now;
          scan = scan;
          paths = paths.now;
          all = all;
          before = before;
        }) (K.told sink.new)) }
    ensures read { result ≡ Err refused.Read → Rose (F.faults files.old) (F.faults files.new) }
    ensures write { result ≡ Err refused.Write → Rose (K.faults sink.old) (K.faults sink.new) }
    ensures missing { (f : ℕ) → result ≡ Err (refused.Missing f)
        → Rose (F.absences files.old) (F.absences files.new) }
    ensures same { F.told files.new ≡ F.told files.old }
    ensures later { (F.faults files.old ≤ F.faults files.new)
        × (F.absences files.old ≤ F.absences files.new) × (K.faults sink.old ≤ K.faults sink.new) }
{
    open_all(files, paths, opened)?;
    write_answer(alloc, query, files, sink, opened)
}

/// Answers a query whose body is Filters and Projects over one Scan of CSV files, without an order, an offset or a limit. The
/// files at the paths are those of the Scan's table. All of them are opened before anything is written; at the end, also
/// after a refusal, all are closed.
pub fn run_chain<F: Files, K: Sink>(
    alloc: Global,
    query: &Query,
    paths: &[Text],
    files: &mut F,
    sink: &mut K,
) -> Result<(), RunRefused>
    requires chain { chain.is_chain query.now.body ≡ true }
    requires sound { chain.AreSound (chain.scanned query.now.body) }
    requires unordered { query.now.order ≡ [] }
    requires uncut { (query.now.offset ≡ 0) × (query.now.limit ≡ None) }
    requires few { length paths.now < 2 ^ 32 }

    // Where the files and the sink tell their bytes: what was written, and what the run refuses. After any refusal the sink holds
    // a beginning of the text of the names and of rows that the body gives.
    ensures ran { (scan : Scanned) (all : Contents) (before : List ℕ)
        → chain.scanned query.now.body ≡ Some scan → F.told files.old ≡ Some all
        → K.told sink.old ≡ Some before
        → Ran (record {
          query = query.now;
          scan = scan;
          paths = paths.now;
          all = all;
          before = before;
        }) (K.told sink.new) result }
    ensures part { (scan : Scanned) (all : Contents) (before : List ℕ)
        → chain.scanned query.now.body ≡ Some scan → F.told files.old ≡ Some all
        → K.told sink.old ≡ Some before
        → OnErr result
        (Began (record {
          query = query.now;
          scan = scan;
          paths = paths.now;
          all = all;
          before = before;
        }) (K.told sink.new)) }

    // A fault that the refusal names is among those that the body meets over all tables that have these files.
    ensures met { (scan : Scanned) (all : Contents) (before : List ℕ) (tables : Tables)
        → chain.scanned query.now.body ≡ Some scan → F.told files.old ≡ Some all
        → K.told sink.old ≡ Some before
        → HasFiles
        (record {
          query = query.now;
          scan = scan;
          paths = paths.now;
          all = all;
          before = before;
        }) tables → IsMet scan.table (all_faults tables query.now.body) result }

    // Where all files are there, the body meets no fault, and no count rose, only memory may be wanting.
    ensures complete { (scan : Scanned) (all : Contents) (before : List ℕ) (tables : Tables)
        → chain.scanned query.now.body ≡ Some scan → F.told files.old ≡ Some all
        → K.told sink.old ≡ Some before
        → HasFiles
        (record {
          query = query.now;
          scan = scan;
          paths = paths.now;
          all = all;
          before = before;
        }) tables
        → missing all paths.now ≡ None → all_faults tables query.now.body ≡ []
        → ¬ (Rose (F.faults files.old) (F.faults files.new))
        → ¬ (Rose (K.faults sink.old) (K.faults sink.new)) → IsOkOrMemory result }

    // Told or not: what failed where an object is said to have failed or to lack a path.
    ensures read { result ≡ Err refused.Read → Rose (F.faults files.old) (F.faults files.new) }
    ensures write { result ≡ Err refused.Write → Rose (K.faults sink.old) (K.faults sink.new) }
    ensures missing { (f : ℕ) → result ≡ Err (refused.Missing f)
        → Rose (F.absences files.old) (F.absences files.new) }
    ensures same { F.told files.new ≡ F.told files.old }
    ensures later { (F.faults files.old ≤ F.faults files.new)
        × (F.absences files.old ≤ F.absences files.new) × (K.faults sink.old ≤ K.faults sink.new) }
{
    let mut opened = VecDeque::new(alloc);
    let ran = open_and_write(alloc, query, paths, files, sink, &mut opened);
    close_all(files, opened);
    ran
}
