//! The command.

ghost use Rattle.std.specs.Prelude.{◌≡◌, true, ◌<◌, ◌≤◌, ◌⊎◌, ℕ, List, [], Ok, Err, Some, None, IfErr};
ghost use Rattle.dfx_outside.specs.Causes.{Rose};
ghost use Rattle.dfx_outside.specs.Bytes.{EndsInFront};
ghost use Rattle.dfx_outside.specs.Contents.{Contents};
ghost use Rattle.logical_plan.specs.Body.{Tables, all_faults};
ghost use Rattle.binder_kind_laws.specs.Scans.{has_sound_scans};
ghost use Rattle.scan_run.specs.Chains.{Scanned, scanned};
ghost use Rattle.scan_run.specs.Outcomes.{HasFiles};
ghost use Rattle.failure_text.specs.declared.failure.Failure.{Failure as Refusal};
ghost use Rattle.failure_text.specs.declared.failure.Failure.TheVariants as failure;
ghost use Rattle.dfx_prepare.specs.declared.prepared.Prepared.{Prepared as APrepared};
ghost use Rattle.dfx_prepare.specs.Preparing.{script_of};
ghost use Rattle.dfx_top.specs.Answers.{Ended, run_of};
ghost use Rattle.dfx_top.specs.Requests as spec;
ghost use Rattle.dfx_top.specs.Counts.{HasCauses};
ghost use Rattle.dfx_top.specs.Outcomes.{of_result, status_for, IsCalledFor, IsMet, IsDone, IsRunning, IsTextRefused, IsLine};
ghost use Rattle.dfx_top.specs.Endings.{Quiet, EndsRight};
ghost use Rattle.dfx_top.specs.CommandWords.{request_of as request_of_words};
ghost use Rattle.dfx_top.specs.declared.words.Request.TheVariants as wanted;

use crate::explain::explain;
use crate::files::read_file;
use crate::query::run_query;
use crate::words::{DEFAULT_PARTITIONS, Request, request_of};
use dfx_outside::{Files, Sink, write_all};
use dfx_prepare::{Failure, Prepared, failure_line, prepare, status_of};
use dfx_value::Text;
use std::alloc::Global;

/// What a command leaves: its status, what it was given, and why it has no answer.
#[derive(Drop)]
pub struct Finished<F, K, E> {
    /// 0 where there is no failure, else the failure's.
    pub status: u8,
    pub files: F,
    pub sink: K,
    pub err: E,
    pub failure: Option<Failure>,
}

/// The number of partitions of a request.
fn partitions_for(request: Request) -> u32
    ensures { result ≡ spec.partitions_for request }
{
    match request {
        Request::Query => DEFAULT_PARTITIONS,
        Request::Explain { partitions } => partitions,
    }
}

/// Carries a request out over what its script is prepared to.
fn answer_prepared<F: Files, K: Sink>(
    alloc: Global,
    request: Request,
    prepared: &Prepared,
    files: &mut F,
    sink: &mut K,
) -> Result<(), Failure>
    requires { has_sound_scans prepared.now.query.body ≡ true }
    ensures told { (all : Contents) (before : List ℕ)
        → F.told files.old ≡ Some all → K.told sink.old ≡ Some before
        → EndsRight all before (Ok (request, prepared.now)) (K.told sink.new)
        (Quiet (F.faults files.old) (F.faults files.new) (K.faults sink.old) (K.faults sink.new))
        (of_result result) }
    ensures causes { HasCauses (F.told files.old) (F.told files.new)
        (F.faults files.old) (F.faults files.new) (F.absences files.old) (F.absences files.new)
        (K.faults sink.old) (K.faults sink.new) result }
    ensures running { IfErr result IsRunning }
{
    match request {
        Request::Query => run_query(alloc, prepared, files, sink),
        Request::Explain { partitions: _ } => explain(alloc, prepared, sink),
    }
}

/// Carries a request out over the text of its script.
#[tactic(auto, using(crate::proofs::FaultSteps::fault_steps))]
fn answer_text<F: Files, K: Sink>(
    alloc: Global,
    request: Request,
    text: &[u8],
    files: &mut F,
    sink: &mut K,
) -> Result<(), Failure>
    requires { 0 < spec.partitions_for request }

    ensures told { (all : Contents) (before : List ℕ)
        → F.told files.old ≡ Some all → K.told sink.old ≡ Some before
        → EndsRight all before (spec.by_script all request text.now) (K.told sink.new)
        (Quiet (F.faults files.old) (F.faults files.new) (K.faults sink.old) (K.faults sink.new))
        (of_result result) }
    ensures causes { HasCauses (F.told files.old) (F.told files.new)
        (F.faults files.old) (F.faults files.new) (F.absences files.old) (F.absences files.new)
        (K.faults sink.old) (K.faults sink.new) result }
    ensures text { (refusal : Refusal) → script_of text.now ≡ Err refusal
        → IsTextRefused refusal (of_result result) × (K.told sink.new ≡ K.told sink.old) }
    ensures words { result ≡ Err failure.Words → ⊥ }
{
    let prepared = prepare(alloc, text, files, partitions_for(request))?;
    answer_prepared(alloc, request, &prepared, files, sink)
}

/// Reads the script that the words name, and carries their request out.
#[tactic(auto, using(crate::proofs::FaultSteps::fault_steps))]
fn run<F: Files, K: Sink>(
    alloc: Global,
    words: &[Text],
    files: &mut F,
    sink: &mut K,
) -> Result<(), Failure>
    ensures told { (all : Contents) (before : List ℕ)
        → F.told files.old ≡ Some all → K.told sink.old ≡ Some before
        → EndsRight all before (spec.asked words.now all) (K.told sink.new)
        (Quiet (F.faults files.old) (F.faults files.new) (K.faults sink.old) (K.faults sink.new))
        (of_result result) }
    ensures causes { HasCauses (F.told files.old) (F.told files.new)
        (F.faults files.old) (F.faults files.new) (F.absences files.old) (F.absences files.new)
        (K.faults sink.old) (K.faults sink.new) result }
    ensures text { (all : Contents) (text : List ℕ) (refusal : Refusal)
        → F.told files.old ≡ Some all
        → spec.script_text words.now all ≡ Some text → script_of text ≡ Err refusal
        → IsTextRefused refusal (of_result result) × (K.told sink.new ≡ K.told sink.old) }
    ensures words { request_of_words words.now ≡ None → result ≡ Err failure.Words }
    ensures words_only { result ≡ Err failure.Words → request_of_words words.now ≡ None }
{
    let Some(requested) = request_of(words) else {
        return Err(Failure::Words);
    };
    match read_file(alloc, files, requested.script) {
        Ok(text) => answer_text(alloc, requested.request, &text, files, sink),
        Err(failure) => Err(failure),
    }
}

/// Writes a line, as far as the sink takes it.
fn write_line<E: Sink>(err: &mut E, line: &[u8])
    ensures front { (before : List ℕ) → E.told err.old ≡ Some before
        → EndsInFront before line.now (E.told err.new) }
    ensures later { E.faults err.old ≤ E.faults err.new }
{
    let _ = write_all(err, line);
}

/// Writes the line of a failure, as far as there is memory for it and the sink takes it.
fn report<E: Sink>(alloc: Global, failure: &Failure, err: &mut E)
    ensures line { (before : List ℕ) → E.told err.old ≡ Some before
        → IsLine (Some failure.now) before (E.told err.new) }
    ensures later { E.faults err.old ≤ E.faults err.new }
{
    if let Ok(line) = failure_line(alloc, failure) {
        write_line(err, line.as_str().as_bytes());
    }
}

/// Runs a command. `query FILE` writes the answer of the script at that path as CSV text, where its query is Filters and
/// Projects over one Scan of CSV files; `explain FILE`, with `--partitions N` where N isn't 4, writes the text of the
/// query's plan. A failure is written to `err` as one line. All that was handed in comes back, with every file closed.
pub fn command_here<F: Files, K: Sink, E: Sink>(
    alloc: Global,
    words: &[Text],
    mut files: F,
    mut sink: K,
    mut err: E,
) -> Finished<F, K, E>
    // Where the files and the sink tell their bytes: what was written, by what the words and the files ask and
    // how it ended. Where they call for a refusal, nothing was, whatever comes.
    ensures ended { (all : Contents) (before : List ℕ) → F.told files ≡ Some all
        → K.told sink ≡ Some before
        → Ended words.now all before (K.told result.sink) result.failure }
    ensures unwritten { (all : Contents) (before : List ℕ)
        → F.told files ≡ Some all → K.told sink ≡ Some before
        → (refusal : Refusal) → spec.refused words.now all ≡ Some refusal
        → K.told result.sink ≡ Some before }

    // Why it ended so: with the refusal that the words and the files call for, unless an object failed or memory
    // was wanting. Where they call for none there is an answer, or a file or a value is refused.
    ensures called { (all : Contents) (before : List ℕ) → F.told files ≡ Some all
        → K.told sink ≡ Some before
        → IsCalledFor (spec.refused words.now all) result.failure }

    // A file or a value is refused only where that fault is among those that the query's body meets, over all
    // tables that have the query's files as the table that it scans.
    ensures met { (all : Contents) (before : List ℕ) → F.told files ≡ Some all
        → K.told sink ≡ Some before
        → (p : APrepared) (scan : Scanned) (tables : Tables)
        → spec.asked words.now all ≡ Ok (wanted.Query, p) → scanned p.query.body ≡ Some scan
        → HasFiles (run_of all before p scan) tables
        → IsMet (spec.scan_paths p) scan.table (all_faults tables p.query.body) result.failure }

    // So where no refusal is called for, the body meets no fault, and neither count of faults rose, there is an
    // answer, or want of memory.
    ensures complete { (all : Contents) (before : List ℕ)
        → F.told files ≡ Some all → K.told sink ≡ Some before
        → (p : APrepared) (scan : Scanned) (tables : Tables)
        → spec.asked words.now all ≡ Ok (wanted.Query, p) → scanned p.query.body ≡ Some scan
        → HasFiles (run_of all before p scan) tables
        → spec.refused words.now all ≡ None → all_faults tables p.query.body ≡ []
        → Quiet (F.faults files) (F.faults result.files) (K.faults sink) (K.faults result.sink)
        → IsDone result.failure }
    ensures explained { (all : Contents) (before : List ℕ)
        → F.told files ≡ Some all → K.told sink ≡ Some before
        → (n : ℕ) (p : APrepared) → spec.asked words.now all ≡ Ok (wanted.Explain n, p)
        → Quiet (F.faults files) (F.faults result.files) (K.faults sink) (K.faults result.sink)
        → IsDone result.failure }

    // And where a refusal is called for and neither count of faults rose, it comes, or want of memory.
    ensures exact { (all : Contents) (before : List ℕ) → F.told files ≡ Some all
        → K.told sink ≡ Some before
        → (refusal : Refusal) → spec.refused words.now all ≡ Some refusal
        → Quiet (F.faults files) (F.faults result.files) (K.faults sink) (K.faults result.sink)
        → (result.failure ≡ Some refusal) ⊎ (result.failure ≡ Some failure.NoMemory) }

    // Where the files tell their bytes: a text that spells no script is refused so, or its file failed, or memory
    // was wanting; and nothing was written.
    ensures text { (all : Contents) (text : List ℕ) (refusal : Refusal) → F.told files ≡ Some all
        → spec.script_text words.now all ≡ Some text → script_of text ≡ Err refusal
        → IsTextRefused refusal result.failure × (K.told result.sink ≡ K.told sink) }

    // Told or not: refused words, exactly; and what failed where an object is said to have failed or to lack a path.
    ensures words { request_of_words words.now ≡ None → result.failure ≡ Some failure.Words }
    ensures words_only { result.failure ≡ Some failure.Words → request_of_words words.now ≡ None }
    ensures read { result.failure ≡ Some failure.Read
        → Rose (F.faults files) (F.faults result.files) }
    ensures write { result.failure ≡ Some failure.Write
        → Rose (K.faults sink) (K.faults result.sink) }
    ensures missing { (p : List ℕ) → result.failure ≡ Some (failure.Missing p)
        → Rose (F.absences files) (F.absences result.files) }

    // Told or not: no count falls, and the files keep their contents.
    ensures later { (F.faults files ≤ F.faults result.files)
        × (F.absences files ≤ F.absences result.files)
        × (K.faults sink ≤ K.faults result.sink) × (E.faults err ≤ E.faults result.err) }
    ensures same { F.told result.files ≡ F.told files }

    // The status, and what the error sink took where it tells its bytes.
    ensures status { result.status ≡ status_for result.failure }
    ensures line { (before : List ℕ) → E.told err ≡ Some before
        → IsLine result.failure before (E.told result.err) }
{
    match run(alloc, words, &mut files, &mut sink) {
        Ok(()) => Finished {
            status: 0,
            files,
            sink,
            err,
            failure: None,
        },
        Err(failure) => {
            report(alloc, &failure, &mut err);
            Finished {
                status: status_of(&failure),
                files,
                sink,
                err,
                failure: Some(failure),
            }
        }
    }
}
