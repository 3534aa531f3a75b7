//! That texts and lines of failures are made with ample memory. proofs/FailureExamples.antt has each failure.

use dfx_value::{EvalFault, Text};
use failure_text::{Failure, failure_line, fault_text, status_of};
use run_journal::Cause;
use sql_lexer::LexRefused;
use std::alloc::Global;
use std::process::Abort;
use std::test::Fail;
use typed_exprs::BindRefused;

/// Checks the status of a failure, its text and its line.
fn is_failure(
    rt: &impl Abort,
    alloc: Global,
    failure: &Failure,
    status: u8,
    want: &str,
) -> Result<(), Fail> {
    assert_eq!(rt; status_of(failure), status, "status: {want}");
    let text = fault_text(alloc, failure)?;
    assert_eq!(rt; std::str::from_utf8(text.as_slice()), Ok(want));
    let line = failure_line(alloc, failure)?;
    let whole = format!(in alloc; "dfx: {want}\n")?;
    assert_eq!(rt; line.as_str(), whole.as_str());
    Ok(())
}

#[test]
fn one_of_each_form(rt: HostRuntime) -> Result<(), Fail> {
    let alloc = rt.alloc();
    let lexer = Failure::Lexer(LexRefused::BadCharacter { place: 7 });
    is_failure(&rt, alloc, &lexer, 3, "sql lexer at 7")?;
    let binder = Failure::Binder(BindRefused::Ambiguous { place: 7 });
    is_failure(&rt, alloc, &binder, 3, "sql binder 3 at 7")?;
    let division = Failure::Evaluation(EvalFault::DivideByZero);
    is_failure(&rt, alloc, &division, 8, "evaluation: division by zero")?;
    let path = Text::from_string(String::from_str(alloc, "t.csv")?);
    let cause = Cause::Csv {
        source: 0,
        number: 4,
        row: 2,
        column: 1,
    };
    let file = Failure::BadFile { path, cause };
    is_failure(&rt, alloc, &file, 4, "file t.csv: csv 4 row 2 column 1")?;
    is_failure(&rt, alloc, &Failure::Read, 5, "read fault")
}
