//! Runs records: the command, over files and sinks in memory.

ghost use Rattle.std.specs.Prelude.{◌≡◌, ◌+◌, ◌<◌, length, count_by, IsTrue, OnOk, IfOk};
ghost use Rattle.script_cases.specs.Outcomes.{is_counted, Meets};

use crate::compare::is_met;
use crate::parser::steps_of;
use crate::record::{Expected, File, Record, Says, Step};
use crate::refused::Why;
use crate::report::Report;
use dfx_outside::{MemFiles, MemSink, are_distinct};
use dfx_top::{Finished, command_here};
use dfx_value::{Bytes, NoMemory, Text};
use std::alloc::{AllocError, Global};

/// What a command left.
#[derive(Debug, Drop)]
pub struct Left {
    pub status: u8,
    pub output: MemSink,
    pub error: MemSink,
}

/// Whether there is a file at a path.
fn has_file(files: &[&File], path: &Text) -> bool {
    files.iter().any(|file| file.path == *path)
}

/// Adds a copy of a file.
fn add_copy(alloc: Global, seen: &mut Vec<(Text, Bytes)>, file: &File) -> Result<(), NoMemory> {
    let bytes = Vec::from_slice(alloc, file.bytes.as_slice())?;
    seen.push((file.path.copy(alloc)?, Bytes::from_vec(bytes)))?;
    Ok(())
}

/// Whether a record sees a common file.
fn sees(record: &Record, common: &File) -> bool {
    !record.files.iter().any(|file| file.path == common.path)
        && !record.absent.contains(&common.path)
}

/// The files that are there for a record.
fn files_for(alloc: Global, commons: &[&File], record: &Record) -> Result<Vec<(Text, Bytes)>, Why> {
    if !record.absent.iter().all(|path| has_file(commons, path)) {
        return Err(Why::NoSuchFile);
    }
    let mut seen = Vec::new(alloc);
    for file in commons {
        if sees(record, file) {
            add_copy(alloc, &mut seen, file)?;
        }
    }
    for file in &record.files {
        add_copy(alloc, &mut seen, file)?;
    }
    Ok(seen)
}

/// The reads that fail: those of each file but the script, which the second word names.
fn failing_reads(
    alloc: Global,
    files: &[(Text, Bytes)],
    record: &Record,
) -> Result<Vec<(Text, u32)>, NoMemory> {
    let script = record.words.get(1);
    let mut failing = Vec::new(alloc);
    for number in &record.failing.reads {
        for (path, _) in files {
            if script != Some(path) {
                failing.push((path.copy(alloc)?, *number))?;
            }
        }
    }
    Ok(failing)
}

/// Runs the command of a record.
fn run(alloc: Global, commons: &[&File], record: &Record) -> Result<Left, Why> {
    let files = files_for(alloc, commons, record)?;
    if !are_distinct(files.as_slice()) {
        return Err(Why::TwoFiles);
    }
    let failing = failing_reads(alloc, files.as_slice(), record)?;
    let files = MemFiles::new(alloc, files, failing);
    let writes = Vec::from_slice(alloc, record.failing.writes.as_slice())?;
    let output = MemSink::new(alloc, writes);
    let error = MemSink::new(alloc, Vec::new(alloc));
    let Finished {
        status,
        files: _,
        sink,
        err,
        failure: _,
    } = command_here(alloc, record.words.as_slice(), files, output, error);
    Ok(Left {
        status,
        output: sink,
        error: err,
    })
}

/// Whether a command left what it must.
fn meets(
    alloc: Global,
    expected: &Expected,
    status: u8,
    output: &[u8],
    error: &[u8],
) -> Result<bool, AllocError>
    ensures { IfOk result (λ same. IsTrue same → Meets expected.now status output.now error.now) }
{
    if status != expected.status {
        return Ok(false);
    }
    if error != expected.error.as_slice() {
        return Ok(false);
    }
    is_met(alloc, &expected.output, output)
}

/// Runs a record, and adds how it went to the report.
fn run_record(
    alloc: Global,
    commons: &[&File],
    record: &Record,
    report: &mut Report,
) -> Result<(), AllocError>
    ensures { OnOk result
        (length report.new.outcomes.items ≡ length report.old.outcomes.items + 1) }
{
    match run(alloc, commons, record) {
        Err(why) => report.add_refused(why.at(record.line)),
        Ok(left) => {
            let (output, error) = (left.output.bytes(), left.error.bytes());
            if meets(alloc, &record.expected, left.status, output, error)? {
                report.add_passed()
            } else {
                report.add_failed(alloc, record, &left)
            }
        }
    }
}

/// Puts a common file in place of the one at its path.
fn put_common<'a>(commons: &mut Vec<&'a File>, file: &'a File) -> Result<(), AllocError> {
    commons.retain(|one| one.path != file.path);
    commons.push(file)?;
    Ok(())
}

/// Runs the records among these steps. Each of them counts once, and so does what means nothing.
fn run_steps(alloc: Global, steps: &[Step], report: &mut Report) -> Result<(), AllocError>
    ensures { OnOk result (length report.new.outcomes.items
        ≡ length report.old.outcomes.items + count_by is_counted steps.now) }
{
    let mut commons = Vec::new(alloc);
    for step in steps {
        match &step.says {
            Says::Common(file) => put_common(&mut commons, file)?,
            Says::Refused(refused) => report.add_refused(*refused)?,
            Says::Record(record) => run_record(alloc, commons.as_slice(), record, report)?,
        }
    }
    Ok(())
}

/// Runs the records of a file of cases, and says how they went. A file without records counts as one that failed.
pub fn run_topic(alloc: Global, name: &str, text: &str) -> Result<Report, AllocError>
    ensures { IfOk result (λ report. 0 < length report.outcomes.items) }
{
    let mut report = Report::new(alloc, name)?;
    match steps_of(alloc, text) {
        Err(refused) => report.add_refused(refused)?,
        Ok(steps) => run_steps(alloc, steps.as_slice(), &mut report)?,
    }
    if report.outcomes().is_empty() {
        report.add_refused(Why::NoRecords.at(1))?;
    }
    report.end()?;
    Ok(report)
}
