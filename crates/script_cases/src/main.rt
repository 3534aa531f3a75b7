//! Tests as data for the whole command: runs each record of the files of cases, and says what differs.
#![tactic(auto)]

mod compare;
mod escapes;
mod parser;
mod record;
mod refused;
mod report;
mod runner;
mod sections;

ghost use Rattle.std.specs.Prelude.{◌<◌, length, IfOk};

use crate::report::{Outcome, Report, counts_of};
use crate::runner::run_topic;
use std::io::ErrorKind;
use std::process::ExitCode;
use std::{env, fs, io};

/// The folder of the files of cases; where there is none, they lie where the program runs.
const FOLDER: &str = "data";

/// The paths of all that lies in a folder, in the order of their bytes.
fn paths_in(rt: &HostRuntime, folder: &str) -> io::Result<Vec<String>> {
    let mut paths = Vec::new(rt.alloc());
    for entry in fs::read_dir(rt, folder)? {
        let entry = entry?;
        paths.push(String::from_str(rt.alloc(), entry.path().as_str())?)?;
    }
    paths.sort()?;
    Ok(paths)
}

/// The files of cases: those that the words name, else all that lie in the folder.
fn paths_of_cases(rt: &HostRuntime) -> io::Result<Vec<String>> {
    let mut named = Vec::new(rt.alloc());
    for word in env::args(rt)?.skip(1) {
        named.push(word)?;
    }
    if !named.is_empty() {
        return Ok(named);
    }
    match paths_in(rt, FOLDER) {
        Err(error) if error.kind() == ErrorKind::NotFound => paths_in(rt, "."),
        paths => paths,
    }
}

/// The name of the file at a path.
fn name_of(path: &str) -> &str {
    match path.rsplit_once('/') {
        Some((_, name)) => name,
        None => path,
    }
}

/// What the records of the file at a path gave; a file that can't be read counts as a record that failed.
fn report_on(rt: &HostRuntime, path: &str) -> io::Result<Report>
    ensures { IfOk result (λ report. 0 < length report.outcomes.items) }
{
    let name = name_of(path);
    if !name.ends_with(".cases") {
        let report = Report::of_refused(rt.alloc(), name, "no file of cases")?;
        return Ok(report);
    }
    match fs::read_to_string(rt, path) {
        Ok(text) => Ok(run_topic(rt.alloc(), name, text.as_str())?),
        Err(error) => {
            let why = format!(in rt.alloc(); "{error}")?;
            Ok(Report::of_refused(rt.alloc(), name, why.as_str())?)
        }
    }
}

/// Runs the files of cases one after the other, prints what differs, and gives the outcomes of all records.
fn run_all(rt: &HostRuntime) -> io::Result<Vec<Outcome>>
    ensures { IfOk result (λ outcomes. 0 < length outcomes.items) }
{
    let mut outcomes = Vec::new(rt.alloc());
    for path in &paths_of_cases(rt)? {
        let report = report_on(rt, path.as_str())?;
        rt.print(report.text())?;
        outcomes.extend_from_slice(report.outcomes())?;
    }
    if outcomes.is_empty() {
        rt.println("no files of cases")?;
        outcomes.push(Outcome::Failed)?;
    }
    Ok(outcomes)
}

fn main(rt: HostRuntime) -> io::Result<ExitCode> {
    let outcomes = run_all(&rt)?;
    let counts = counts_of(outcomes.as_slice());
    println!(rt; "{counts}")?;
    if counts.failed == 0 {
        Ok(ExitCode::SUCCESS)
    } else {
        Ok(ExitCode::FAILURE)
    }
}
