//! What is said of the records of a file of cases.

ghost use Rattle.std.specs.Prelude.{◌≡◌, ◌+◌, [], ◌∷◌, ◌++◌, length, count_by, OnOk, IfOk};
ghost use Rattle.script_cases.specs.Outcomes as spec;
ghost use Rattle.script_cases.specs.declared.report.Outcome.TheVariants as went;

use crate::escapes::shown;
use crate::record::{Output, Record};
use crate::refused::Refused;
use crate::runner::Left;
use std::alloc::{AllocError, Global};
use std::fmt;

/// How a record went.
#[derive(Clone, Copy, Debug, PartialEq, Eq)]
pub enum Outcome {
    Passed,
    Failed,
}

impl Outcome {
    fn is_passed(self) -> bool
        ensures { result ≡ spec.is_passed self }
    {
        match self {
            Outcome::Passed => true,
            Outcome::Failed => false,
        }
    }
}

/// How many records passed, and how many failed.
#[derive(Clone, Copy, Debug, PartialEq, Eq)]
pub struct Counts {
    pub passed: usize,
    pub failed: usize,
}

impl fmt::Display for Counts {
    fn fmt<W: fmt::Write>(&self, f: &mut fmt::Formatter<W>) -> fmt::Result {
        let passed = self.passed;
        let failed = self.failed;
        write!(f, "{passed} passed, {failed} failed")
    }
}

/// How many of these passed, and how many failed.
pub fn counts_of(outcomes: &[Outcome]) -> Counts
    ensures sum { result.passed + result.failed ≡ length outcomes.now }
    ensures passed { result.passed ≡ count_by spec.is_passed outcomes.now }
{
    let passed = outcomes
        .iter()
        .filter(|outcome| outcome.is_passed())
        .count();
    Counts {
        passed,
        failed: outcomes.len() - passed,
    }
}

/// What is said of the records of one file of cases.
#[derive(Debug, Drop)]
pub struct Report {
    name: String,
    text: String,
    outcomes: Vec<Outcome>,
}

impl Report {
    /// Of the file with a name, of which no record was run yet.
    pub fn new(alloc: Global, name: &str) -> Result<Report, AllocError>
        ensures { IfOk result (λ report. report.outcomes.items ≡ []) }
    {
        Ok(Report {
            name: String::from_str(alloc, name)?,
            text: String::new(alloc),
            outcomes: Vec::new(alloc),
        })
    }

    /// Of a file that has no records, for the given reason.
    pub fn of_refused(alloc: Global, name: &str, why: &str) -> Result<Report, AllocError>
        ensures { IfOk result (λ report. report.outcomes.items ≡ went.Failed ∷ []) }
    {
        let mut report = Report::new(alloc, name)?;
        report.outcomes.push(Outcome::Failed)?;
        writeln!(report.text, "{name}: {why}")?;
        report.end()?;
        Ok(report)
    }

    /// What is said.
    pub fn text(&self) -> &str {
        self.text.as_str()
    }

    /// How each record went.
    pub fn outcomes(&self) -> &[Outcome]
        ensures { result.now ≡ self.now.outcomes.items }
    {
        self.outcomes.as_slice()
    }

    /// Adds a record that passed.
    pub fn add_passed(&mut self) -> Result<(), AllocError>
        ensures { OnOk result
            (self.new.outcomes.items ≡ self.old.outcomes.items ++ went.Passed ∷ []) }
    {
        self.outcomes.push(Outcome::Passed)?;
        Ok(())
    }

    /// Adds what means nothing.
    pub fn add_refused(&mut self, refused: Refused) -> Result<(), AllocError>
        ensures { OnOk result
            (self.new.outcomes.items ≡ self.old.outcomes.items ++ went.Failed ∷ []) }
    {
        self.outcomes.push(Outcome::Failed)?;
        let Refused { line, why } = refused;
        writeln!(self.text, "{}:{line}: {why}", self.name)
    }

    /// Adds a record whose command left something else.
    pub fn add_failed(
        &mut self,
        alloc: Global,
        record: &Record,
        left: &Left,
    ) -> Result<(), AllocError>
        ensures { OnOk result
            (self.new.outcomes.items ≡ self.old.outcomes.items ++ went.Failed ∷ []) }
    {
        self.outcomes.push(Outcome::Failed)?;
        let expected = &record.expected;
        let (wanted, came) = (expected.status, left.status);
        writeln!(
            self.text,
            "{}:{}: status {wanted} wanted, {came} came",
            self.name, record.line
        )?;
        let (title, bytes) = match &expected.output {
            Output::Exactly(bytes) => ("output wanted", bytes.as_slice()),
            Output::InAnyOrder(bytes) => ("output wanted, in any order of rows", bytes.as_slice()),
        };
        self.add_bytes(alloc, title, bytes)?;
        self.add_bytes(alloc, "output that came", left.output.bytes())?;
        self.add_bytes(alloc, "error wanted", expected.error.as_slice())?;
        self.add_bytes(alloc, "error that came", left.error.bytes())
    }

    fn add_bytes(&mut self, alloc: Global, title: &str, bytes: &[u8]) -> Result<(), AllocError>
        ensures { self.new.outcomes ≡ self.old.outcomes }
    {
        let shown = shown(alloc, bytes)?;
        writeln!(self.text, "  {title}:")?;
        self.text.push_str(shown.as_str())
    }

    /// Adds the line with the counts.
    pub fn end(&mut self) -> Result<(), AllocError>
        ensures { self.new.outcomes ≡ self.old.outcomes }
    {
        let counts = counts_of(self.outcomes.as_slice());
        writeln!(self.text, "{}: {counts}", self.name)
    }
}
