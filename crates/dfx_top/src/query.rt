//! The run of a prepared query.

ghost use Rattle.std.specs.Prelude.{◌≡◌, ◌≤◌, ℕ, List, true, length, Some, IfErr, IsTrue};
ghost use Rattle.dfx_outside.specs.Contents.{Contents};
ghost use Rattle.scan_run.specs.Chains.{scanned, AreSound};
ghost use Rattle.binder_kind_laws.specs.Scans.{has_sound_scans};
ghost use Rattle.dfx_top.specs.Requests as spec;
ghost use Rattle.dfx_top.specs.Counts.{HasCauses};
ghost use Rattle.dfx_top.specs.Outcomes.{IsBuilt, IsRunning, of_result};
ghost use Rattle.dfx_top.specs.Endings.{Quiet, QueryEndsRight};

use crate::causes::run_failure;
use dfx_outside::{Files, Sink};
use dfx_prepare::{Failure, Prepared};
use dfx_value::Text;
use logical_plan::Query;
use scan_run::{chain_scan, is_chain, run_chain};
use std::alloc::Global;

/// The greatest number of files that a query reads.
const MOST_SOURCES: usize = 512;

/// Whether a query is one that is run: Filters and Projects over one Scan, all rows in any order.
fn is_built(query: &Query) -> bool
    ensures value { result ≡ spec.is_built query.now }
    ensures built { IsTrue result → IsBuilt query.now }
{
    is_chain(&query.body)
        && query.order.as_slice().is_empty()
        && query.offset == 0
        && query.limit.is_none()
}

/// The files of the table that a query scans.
fn scan_paths(prepared: &Prepared) -> &[Text]
    ensures { result.now ≡ spec.scan_paths prepared.now }
{
    match chain_scan(&prepared.query.body) {
        Some(scan) => match prepared.paths.as_slice().get(scan.table as usize) {
            Some(paths) => paths.as_slice(),
            None => &[],
        },
        None => &[],
    }
}

/// Runs a query that is built over its files, which are few.
fn run_built<F: Files, K: Sink>(
    alloc: Global,
    prepared: &Prepared,
    paths: &[Text],
    files: &mut F,
    sink: &mut K,
) -> Result<(), Failure>
    requires built { spec.is_built prepared.now.query ≡ true }
    requires parts { IsBuilt prepared.now.query }
    requires sound { AreSound (scanned prepared.now.query.body) }
    requires paths { paths.now ≡ spec.scan_paths prepared.now }
    requires few { length paths.now ≤ 512 }

    ensures told { (all : Contents) (before : List ℕ)
        → F.told files.old ≡ Some all → K.told sink.old ≡ Some before
        → QueryEndsRight all before prepared.now (K.told sink.new)
        (Quiet (F.faults files.old) (F.faults files.new) (K.faults sink.old) (K.faults sink.new))
        (of_result result) }
    ensures causes { HasCauses (F.told files.old) (F.told files.new)
        (F.faults files.old) (F.faults files.new) (F.absences files.old) (F.absences files.new)
        (K.faults sink.old) (K.faults sink.new) result }
    ensures running { IfErr result IsRunning }
{
    match run_chain(alloc, &prepared.query, paths, files, sink) {
        Ok(()) => Ok(()),
        Err(refused) => Err(run_failure(alloc, refused, paths)),
    }
}

/// Runs a prepared query, where it is built and has at most 512 files.
pub fn run_query<F: Files, K: Sink>(
    alloc: Global,
    prepared: &Prepared,
    files: &mut F,
    sink: &mut K,
) -> Result<(), Failure>
    requires { has_sound_scans prepared.now.query.body ≡ true }
    ensures told { (all : Contents) (before : List ℕ)
        → F.told files.old ≡ Some all → K.told sink.old ≡ Some before
        → QueryEndsRight all before prepared.now (K.told sink.new)
        (Quiet (F.faults files.old) (F.faults files.new) (K.faults sink.old) (K.faults sink.new))
        (of_result result) }
    ensures causes { HasCauses (F.told files.old) (F.told files.new)
        (F.faults files.old) (F.faults files.new) (F.absences files.old) (F.absences files.new)
        (K.faults sink.old) (K.faults sink.new) result }
    ensures running { IfErr result IsRunning }
{
    if !is_built(&prepared.query) {
        return Err(Failure::NotBuilt);
    }
    let paths = scan_paths(prepared);
    if paths.len() > MOST_SOURCES {
        return Err(Failure::TooManySources {
            sources: paths.len() as u64,
        });
    }
    run_built(alloc, prepared, paths, files, sink)
}
