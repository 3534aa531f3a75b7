//! From the sections of a file of cases to its steps.

ghost use Rattle.std.specs.Prelude.{◌≡◌, map, IfOk};

use crate::record::{Expected, Failing, File, Output, Record, Says, Step};
use crate::refused::{Refused, Why};
use crate::sections::{Group, Section, groups_of};
use dfx_value::{Text, TextRefused};
use std::alloc::{AllocError, Global};

/// The path of the script of a record that has one.
const SCRIPT: &str = "s.sql";

/// A path of no file, which lets a folder be there.
const BELOW: &str = "/./.";

/// What a record's sections have said so far.
#[derive(Debug, Drop)]
struct Draft {
    files: Vec<File>,
    absent: Vec<Text>,
    failing: Failing,
    /// What `answer` or `rows` says.
    answer: Option<Output>,
    /// What `status` says: the number, and standard error.
    status: Option<(u8, Vec<u8>)>,
    /// What `wrote` says.
    wrote: Option<Vec<u8>>,
}

fn text_of(alloc: Global, bytes: &[u8]) -> Result<Text, Why> {
    match Text::new(alloc, bytes) {
        Ok(text) => Ok(text),
        Err(TextRefused::NotUtf8 { place: _ }) => Err(Why::NotUtf8),
        Err(TextRefused::NoMemory) => Err(Why::NoMemory),
    }
}

/// The path behind a section's word.
fn path_of(alloc: Global, section: &Section) -> Result<Text, Why> {
    match section.rest() {
        Some(path) if !path.is_empty() => text_of(alloc, path.as_bytes()),
        _ => Err(Why::NoPath),
    }
}

/// The words behind a section's word, with one space between two.
fn words_of(alloc: Global, section: &Section) -> Result<Vec<Text>, Why> {
    let mut words = Vec::new(alloc);
    if let Some(rest) = section.rest() {
        for word in rest.split(' ') {
            let meant = section.meant(alloc, word)?;
            words.push(text_of(alloc, meant.as_slice())?)?;
        }
    }
    Ok(words)
}

/// The file that a section gives.
fn file_of(alloc: Global, section: &Section) -> Result<File, Why> {
    Ok(File {
        path: path_of(alloc, section)?,
        bytes: section.bytes(alloc)?,
    })
}

/// Refuses a text that a section has.
fn bare(section: &Section) -> Result<(), Why> {
    if section.is_bare() {
        Ok(())
    } else {
        Err(Why::TextUnwanted)
    }
}

/// Refuses words that a section has behind its first.
fn alone(section: &Section) -> Result<(), Why> {
    match section.rest() {
        None => Ok(()),
        Some(_) => Err(Why::WordsUnwanted),
    }
}

/// Says what wasn't said before.
fn say<T: Drop>(said: &mut Option<T>, now: T) -> Result<(), Why> {
    if said.is_some() {
        return Err(Why::TwoExpectations);
    }
    *said = Some(now);
    Ok(())
}

impl Draft {
    fn new(alloc: Global) -> Draft {
        Draft {
            files: Vec::new(alloc),
            absent: Vec::new(alloc),
            failing: Failing {
                reads: Vec::new(alloc),
                writes: Vec::new(alloc),
            },
            answer: None,
            status: None,
            wrote: None,
        }
    }

    fn add_file(&mut self, file: File) -> Result<(), Why> {
        if self.files.iter().any(|one| one.path == file.path) {
            return Err(Why::TwoFiles);
        }
        self.files.push(file)?;
        Ok(())
    }

    /// Adds the call that fails: its kind, and its number.
    fn add_failing(&mut self, section: &Section) -> Result<(), Why> {
        let (call, number) = section
            .rest()
            .and_then(|rest| rest.split_once(' '))
            .ok_or(Why::NoNumber)?;
        let number = number.parse::<u32>().ok().ok_or(Why::NoNumber)?;
        if number == 0 {
            return Err(Why::NoNumber);
        }
        match call.as_bytes() {
            b"read" => self.failing.reads.push(number)?,
            b"write" => self.failing.writes.push(number)?,
            _ => return Err(Why::UnknownCall),
        }
        Ok(())
    }

    fn say_status(&mut self, alloc: Global, section: &Section) -> Result<(), Why> {
        let status = section
            .rest()
            .and_then(|number| number.parse::<u8>().ok())
            .ok_or(Why::NoNumber)?;
        if status == 0 {
            return Err(Why::NoNumber);
        }
        say(&mut self.status, (status, section.bytes(alloc)?))
    }

    /// Takes what a part of the record says.
    fn take(&mut self, alloc: Global, part: &Section) -> Result<(), Why> {
        match part.word().as_bytes() {
            b"file" => self.add_file(file_of(alloc, part)?),
            b"no" => {
                bare(part)?;
                self.absent.push(path_of(alloc, part)?)?;
                Ok(())
            }
            b"fails" => {
                bare(part)?;
                self.add_failing(part)
            }
            b"answer" => {
                alone(part)?;
                say(&mut self.answer, Output::Exactly(part.bytes(alloc)?))
            }
            b"rows" => {
                alone(part)?;
                say(&mut self.answer, Output::InAnyOrder(part.bytes(alloc)?))
            }
            b"status" => self.say_status(alloc, part),
            b"wrote" => {
                alone(part)?;
                say(&mut self.wrote, part.bytes(alloc)?)
            }
            _ => Err(Why::UnknownSection),
        }
    }

    /// The record, where just one of an answer and a status is expected.
    fn record(self, alloc: Global, line: u32, words: Vec<Text>) -> Result<Record, Why> {
        let expected = match (self.answer, self.status, self.wrote) {
            (Some(output), None, None) => Expected {
                status: 0,
                output,
                error: Vec::new(alloc),
            },
            (None, Some((status, error)), wrote) => Expected {
                status,
                output: Output::Exactly(wrote.unwrap_or(Vec::new(alloc))),
                error,
            },
            (None, None, _) => return Err(Why::NoExpectation),
            (Some(_), _, _) => return Err(Why::TwoExpectations),
        };
        Ok(Record {
            line,
            words,
            files: self.files,
            absent: self.absent,
            failing: self.failing,
            expected,
        })
    }
}

/// The words of a record's command, and its script into the draft.
fn command_of(alloc: Global, section: &Section, draft: &mut Draft) -> Result<Vec<Text>, Why> {
    let given = words_of(alloc, section)?;
    if section.word() == "words" {
        bare(section)?;
        return Ok(given);
    }
    draft.add_file(File {
        path: text_of(alloc, SCRIPT.as_bytes())?,
        bytes: section.bytes(alloc)?,
    })?;
    let mut words = Vec::new(alloc);
    words.push(text_of(alloc, section.word().as_bytes())?)?;
    words.push(text_of(alloc, SCRIPT.as_bytes())?)?;
    for word in given {
        words.push(word)?;
    }
    Ok(words)
}

/// A record.
fn record_of(alloc: Global, group: &Group) -> Result<Record, Refused> {
    let line = group.first.line;
    let mut draft = Draft::new(alloc);
    let words = command_of(alloc, &group.first, &mut draft).map_err(|why| why.at(line))?;
    for part in &group.parts {
        draft.take(alloc, part).map_err(|why| why.at(part.line))?;
    }
    draft.record(alloc, line, words).map_err(|why| why.at(line))
}

/// A common file, or the one that lets a common folder be there.
fn common_of(alloc: Global, section: &Section) -> Result<File, Why> {
    match section.word().as_bytes() {
        b"file" => file_of(alloc, section),
        b"folder" => {
            bare(section)?;
            let folder = path_of(alloc, section)?;
            let mut path = String::from_str(alloc, folder.as_str())?;
            path.push_str(BELOW)?;
            Ok(File {
                path: Text::from_string(path),
                bytes: Vec::new(alloc),
            })
        }
        _ => Err(Why::UnknownSection),
    }
}

/// What a group of sections says.
fn read_group(alloc: Global, group: &Group) -> Result<Says, Refused> {
    if group.first.is_record() {
        return Ok(Says::Record(record_of(alloc, group)?));
    }
    let common = common_of(alloc, &group.first).map_err(|why| why.at(group.first.line))?;
    match group.parts.first() {
        Some(part) => Err(Why::PartUnwanted.at(part.line)),
        None => Ok(Says::Common(common)),
    }
}

/// The step of a group. What means nothing is a step too, so that the records behind it are run.
fn step_of(alloc: Global, group: &Group) -> Step
    ensures { result.line ≡ group.now.first.line }
{
    let says = match read_group(alloc, group) {
        Ok(says) => says,
        Err(refused) => Says::Refused(refused),
    };
    Step {
        line: group.first.line,
        says,
    }
}

/// The steps of groups: one of each, in order.
fn read_groups(alloc: Global, groups: &[Group]) -> Result<Vec<Step>, AllocError>
    ensures { IfOk result (λ steps. map (λ step. step.line) steps.items
        ≡ map (λ group. group.first.line) groups.now) }
{
    let mut steps = Vec::new(alloc);
    for group in groups {
        steps.push(step_of(alloc, group))?;
    }
    Ok(steps)
}

/// The steps of a file of cases.
pub fn steps_of(alloc: Global, text: &str) -> Result<Vec<Step>, Refused> {
    let groups = groups_of(alloc, text)?;
    read_groups(alloc, groups.as_slice()).map_err(|_| Why::NoMemory.at(1))
}
