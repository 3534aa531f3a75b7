//! Why a run has no answer.

ghost use Rattle.std.specs.Prelude.{◌≡◌};
ghost use Rattle.scan_run.specs.Words as words;

use csv_source::CsvRefused;
use dfx_outside::{FilesRefused, OutsideRefused};
use dfx_value::EvalFault;
use scalar_exprs::EvalRefused;

/// Why the answer of a query over a chain wasn't written whole. Files count from 0, in the order of their paths.
#[derive(Clone, Copy, Debug, PartialEq, Eq)]
pub enum RunRefused {
    /// There is no file at the path with this number, and at each path before it there is one.
    Missing { file: u32 },
    /// The file with this number is refused.
    Bad { file: u32, refused: CsvRefused },
    /// An expression has no value on a row.
    Evaluation(EvalFault),
    /// A file failed.
    Read,
    /// The sink failed.
    Write,
    /// There was no memory.
    NoMemory,
}

/// What a refused scan of the file with this number means for the run.
pub(crate) fn scan_refused(file: u32, refused: CsvRefused) -> RunRefused
    ensures { result ≡ words.of_scan file refused }
{
    match refused {
        CsvRefused::Read => RunRefused::Read,
        CsvRefused::NoMemory => RunRefused::NoMemory,
        _ => RunRefused::Bad { file, refused },
    }
}

/// What a refused evaluation means for the run.
pub(crate) fn eval_refused(refused: EvalRefused) -> RunRefused
    ensures { result ≡ words.of_eval refused }
{
    match refused {
        EvalRefused::Fault(fault) => RunRefused::Evaluation(fault),
        EvalRefused::NoMemory => RunRefused::NoMemory,
    }
}

/// What a refused write means for the run.
pub(crate) fn sink_refused(refused: OutsideRefused) -> RunRefused
    ensures { result ≡ words.of_sink refused }
{
    match refused {
        OutsideRefused::Failed => RunRefused::Write,
        OutsideRefused::NoMemory => RunRefused::NoMemory,
    }
}

/// What a refused opening of the file with this number means for the run.
pub(crate) fn opening_refused(file: u32, refused: FilesRefused) -> RunRefused
    ensures { result ≡ words.of_opening file refused }
{
    match refused {
        FilesRefused::Failed => RunRefused::Read,
        FilesRefused::NoSuchFile => RunRefused::Missing { file },
        FilesRefused::NoMemory => RunRefused::NoMemory,
    }
}
