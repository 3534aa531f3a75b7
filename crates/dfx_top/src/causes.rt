//! The failures of refused runs.

ghost use Rattle.std.specs.Prelude.{◌≡◌, IfOk};
ghost use Rattle.run_journal.specs.declared.cause.Cause.TheVariants as cause;
ghost use Rattle.dfx_top.specs.Requests.{path_at};
ghost use Rattle.dfx_top.specs.Causes as spec;
ghost use Rattle.dfx_top.specs.Outcomes.{FailureOf, IsRunning};

use csv_source::CsvRefused;
use dfx_prepare::Failure;
use dfx_value::{NoMemory, Text};
use run_journal::Cause;
use scan_run::RunRefused;
use std::alloc::Global;

fn csv_cause(source: u32, number: u8, row: u64, column: u32) -> Cause
    ensures { result ≡ cause.Csv source number row column }
{
    Cause::Csv {
        source,
        number,
        row,
        column,
    }
}

/// The cause of a refused CSV file, the source of this number in the order of opening.
fn cause_of(file: u32, refused: CsvRefused) -> Cause
    ensures { result ≡ spec.cause_of file refused }
{
    match refused {
        CsvRefused::Header { fields: _ } => csv_cause(file, 1, 0, 0),
        CsvRefused::Fields { number } => csv_cause(file, 2, number, 0),
        CsvRefused::NotUtf8 { number } => csv_cause(file, 3, number, 0),
        CsvRefused::Value { number, column } => csv_cause(file, 4, number, column),
        CsvRefused::Read => Cause::Read,
        CsvRefused::NoMemory => Cause::NoMemory,
    }
}

/// A path by its number.
fn path_of(alloc: Global, paths: &[Text], file: u32) -> Result<Text, NoMemory>
    ensures { IfOk result (λ path. path ≡ path_at paths.now file) }
{
    match paths.get(file as usize) {
        Some(path) => path.copy(alloc),
        None => Err(NoMemory),
    }
}

/// What a refused run over the files at these paths means for the command.
pub fn run_failure(alloc: Global, refused: RunRefused, paths: &[Text]) -> Failure
    ensures of { FailureOf paths.now refused result }
    ensures running { IsRunning result }
{
    match refused {
        RunRefused::Read => Failure::Read,
        RunRefused::Write => Failure::Write,
        RunRefused::NoMemory => Failure::NoMemory,
        RunRefused::Evaluation(fault) => Failure::Evaluation(fault),
        RunRefused::Missing { file } => match path_of(alloc, paths, file) {
            Ok(path) => Failure::Missing { path },
            Err(_) => Failure::NoMemory,
        },
        RunRefused::Bad { file, refused } => match path_of(alloc, paths, file) {
            Ok(path) => Failure::BadFile {
                path,
                cause: cause_of(file, refused),
            },
            Err(_) => Failure::NoMemory,
        },
    }
}
