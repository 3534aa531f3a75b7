//! How a command fails: statuses and lines.

ghost use Rattle.std.specs.Prelude.{◌≡◌, IfOk};
ghost use Rattle.std.specs.String.{string_bytes};
ghost use Rattle.failure_text.specs.Failures as spec;

use dfx_value::{Bytes, EvalFault, NoMemory, Text};
use run_journal::Cause;
use sql_grammar::SyntaxRefused;
use sql_lexer::LexRefused;
use std::alloc::Global;
use typed_exprs::BindRefused;

/// The greatest number of bytes of a script.
const MOST: u64 = 1_048_576;

/// Why a command has no answer.
#[derive(Debug, Drop)]
pub enum Failure {
    /// The words ask for nothing that is done.
    Words,
    /// The script has no tokens.
    Lexer(LexRefused),
    /// The script's tokens spell no script.
    Syntax(SyntaxRefused),
    /// The script has no meaning over its tables.
    Binder(BindRefused),
    /// The script asks for what isn't built.
    NotBuilt,
    /// The query reads more files than may be opened.
    TooManySources { sources: u64 },
    /// There is no file or folder at a path.
    Missing { path: Text },
    /// The file at a path is refused. The cause is `Csv` or `Arrow`, and its source is the file's number among those of
    /// its table, from 0.
    BadFile { path: Text, cause: Cause },
    /// A file failed.
    Read,
    /// The sink failed.
    Write,
    /// An expression has no value on a row.
    Evaluation(EvalFault),
    /// There was no memory.
    NoMemory,
}

impl From<NoMemory> for Failure {
    ghost use Rattle.std.specs.Prelude.{◌≡◌};
    ghost use Rattle.failure_text.specs.declared.failure.Failure.TheVariants.{NoMemory};

    ghost from_gives = { λ _ f. f ≡ NoMemory };

    fn from(_: NoMemory) -> Failure {
        Failure::NoMemory
    }
}

/// The status of a failed command.
pub fn status_of(failure: &Failure) -> u8
    ensures { result ≡ spec.status_of failure.now }
{
    match failure {
        Failure::Words => 2,
        Failure::Lexer(_) | Failure::Syntax(_) | Failure::Binder(_) => 3,
        Failure::NotBuilt | Failure::TooManySources { sources: _ } => 3,
        Failure::Missing { path: _ } | Failure::BadFile { path: _, cause: _ } => 4,
        Failure::Read => 5,
        Failure::Write => 6,
        Failure::Evaluation(_) => 8,
        Failure::NoMemory => 10,
    }
}

fn file_text(alloc: Global, path: &Text, what: &str) -> Result<String, NoMemory>
    ensures { IfOk result (λ text. string_bytes text ≡ spec.file_text path.now what.now) }
{
    let path = path.as_str();
    Ok(format!(in alloc; "file {path}: {what}")?)
}

/// What is said of a refused file.
fn cause_string(alloc: Global, cause: Cause) -> Result<String, NoMemory>
    ensures { IfOk result (λ text. string_bytes text ≡ spec.cause_text cause) }
{
    match cause {
        Cause::Csv {
            source: _,
            number,
            row,
            column,
        } => Ok(format!(in alloc; "csv {number} row {row} column {column}")?),
        Cause::Arrow {
            source: _,
            number,
            batch: _,
            column: _,
            place: _,
        } => Ok(format!(in alloc; "arrow {number}")?),
        _ => Ok(String::new(alloc)),
    }
}

/// The place of a refused text; the greatest length where it is too long.
fn lexer_place(refused: LexRefused) -> u64
    ensures { result ≡ spec.lexer_place refused }
{
    match refused {
        LexRefused::TooLong { length: _ } => MOST,
        LexRefused::NotUtf8 { place }
        | LexRefused::BadCharacter { place }
        | LexRefused::OpenQuote { place }
        | LexRefused::WideNumber { place } => u64::from(place),
        LexRefused::NoMemory => 0,
    }
}

/// The place of a refused token.
fn syntax_place(refused: SyntaxRefused) -> u32
    ensures { result ≡ spec.syntax_place refused }
{
    match refused {
        SyntaxRefused::Unexpected { place }
        | SyntaxRefused::TooDeep { place }
        | SyntaxRefused::TooMany { place } => place,
        SyntaxRefused::NoMemory => 0,
    }
}

/// The number of a binder's refusal.
fn binder_number(refused: BindRefused) -> u8
    ensures { result ≡ spec.binder_number refused }
{
    match refused {
        BindRefused::UnknownTable { place: _ } => 1,
        BindRefused::UnknownColumn { place: _ } => 2,
        BindRefused::Ambiguous { place: _ } => 3,
        BindRefused::KindMismatch { place: _ } => 4,
        BindRefused::NotGrouped { place: _ } => 5,
        BindRefused::NoEquiKey { place: _ } => 6,
        BindRefused::Unsupported { place: _ } => 7,
        BindRefused::LimitRange { place: _ } => 8,
        BindRefused::NoFiles { place: _ } => 9,
        BindRefused::NoMemory => 0,
    }
}

/// The place of what the binder refuses.
fn binder_place(refused: BindRefused) -> u32
    ensures { result ≡ spec.binder_place refused }
{
    match refused {
        BindRefused::UnknownTable { place }
        | BindRefused::UnknownColumn { place }
        | BindRefused::Ambiguous { place }
        | BindRefused::KindMismatch { place }
        | BindRefused::NotGrouped { place }
        | BindRefused::NoEquiKey { place }
        | BindRefused::Unsupported { place }
        | BindRefused::LimitRange { place }
        | BindRefused::NoFiles { place } => place,
        BindRefused::NoMemory => 0,
    }
}

fn binder_string(alloc: Global, refused: BindRefused) -> Result<String, NoMemory>
    ensures { IfOk result (λ text. string_bytes text ≡ spec.binder_text refused) }
{
    let number = binder_number(refused);
    let place = binder_place(refused);
    Ok(format!(in alloc; "sql binder {number} at {place}")?)
}

fn evaluation_string(alloc: Global, fault: EvalFault) -> Result<String, NoMemory>
    ensures { IfOk result (λ text. string_bytes text ≡ spec.evaluation_text fault) }
{
    match fault {
        EvalFault::Overflow => Ok(String::from_str(alloc, "evaluation: overflow")?),
        EvalFault::DivideByZero => Ok(String::from_str(alloc, "evaluation: division by zero")?),
        EvalFault::CastRefused => Ok(String::from_str(alloc, "evaluation: cast refused")?),
    }
}

fn bad_file_string(alloc: Global, path: &Text, cause: Cause) -> Result<String, NoMemory>
    ensures { IfOk result (λ text. string_bytes text
        ≡ spec.file_text path.now (spec.cause_text cause)) }
{
    let what = cause_string(alloc, cause)?;
    file_text(alloc, path, what.as_str())
}

fn failure_string(alloc: Global, failure: &Failure) -> Result<String, NoMemory>
    ensures { IfOk result (λ text. string_bytes text ≡ spec.failure_text failure.now) }
{
    match failure {
        Failure::Words => Ok(String::from_str(alloc, "words refused")?),
        Failure::Lexer(refused) => {
            let place = lexer_place(*refused);
            Ok(format!(in alloc; "sql lexer at {place}")?)
        }
        Failure::Syntax(refused) => {
            let place = syntax_place(*refused);
            Ok(format!(in alloc; "sql syntax at {place}")?)
        }
        Failure::Binder(refused) => binder_string(alloc, *refused),
        Failure::NotBuilt => Ok(String::from_str(alloc, "not built")?),
        Failure::TooManySources { sources } => Ok(format!(in alloc; "too many files: {sources}")?),
        Failure::Missing { path } => file_text(alloc, path, "missing"),
        Failure::BadFile { path, cause } => bad_file_string(alloc, path, *cause),
        Failure::Read => Ok(String::from_str(alloc, "read fault")?),
        Failure::Write => Ok(String::from_str(alloc, "write fault")?),
        Failure::Evaluation(fault) => evaluation_string(alloc, *fault),
        Failure::NoMemory => Ok(String::from_str(alloc, "out of memory")?),
    }
}

/// What is said of a failure, without the program's name before it and the line feed after it.
pub fn fault_text(alloc: Global, failure: &Failure) -> Result<Bytes, NoMemory>
    ensures { IfOk result (λ text. text ≡ spec.failure_text failure.now) }
{
    Ok(Bytes::from_vec(failure_string(alloc, failure)?.into_bytes()))
}

/// The line of a failure.
pub fn failure_line(alloc: Global, failure: &Failure) -> Result<String, NoMemory>
    ensures { IfOk result (λ line. string_bytes line ≡ spec.failure_line failure.now) }
{
    let text = failure_string(alloc, failure)?;
    let text = text.as_str();
    Ok(format!(in alloc; "dfx: {text}\n")?)
}
