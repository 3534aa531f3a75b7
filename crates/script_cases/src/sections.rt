//! The sections of a file of cases, before they are read.

use crate::escapes::unescaped;
use crate::refused::{Refused, Why};
use std::alloc::{AllocError, Global};

/// A line that begins with a mark, and the text behind it.
#[derive(Debug, Drop)]
pub struct Section {
    /// The number of its first line.
    pub line: u32,
    /// The first line, without its mark and the word `escaped` at its end.
    head: String,
    is_escaped: bool,
    text: String,
    /// Lines that begin with `#`, and belong to the text only where more of it follows.
    held: String,
}

/// A section that begins a step, and those of its parts.
#[derive(Debug, Drop)]
pub struct Group {
    pub first: Section,
    pub parts: Vec<Section>,
}

impl Section {
    /// A section whose first line has this behind its mark.
    fn new(alloc: Global, line: u32, marked: &str) -> Result<Section, Why> {
        let marked = marked.strip_suffix('\n').unwrap_or(marked);
        let Some(head) = marked.strip_prefix(' ') else {
            return Err(Why::UnknownSection);
        };
        let (head, is_escaped) = match head.strip_suffix(" escaped") {
            Some(head) => (head, true),
            None => (head, false),
        };
        Ok(Section {
            line,
            head: String::from_str(alloc, head)?,
            is_escaped,
            text: String::new(alloc),
            held: String::new(alloc),
        })
    }

    /// The word that the section begins with.
    pub fn word(&self) -> &str {
        match self.head.as_str().split_once(' ') {
            Some((word, _)) => word,
            None => self.head.as_str(),
        }
    }

    /// What stands behind that word and a space.
    pub fn rest(&self) -> Option<&str> {
        match self.head.as_str().split_once(' ') {
            Some((_, rest)) => Some(rest),
            None => None,
        }
    }

    /// Whether the section begins a record.
    pub fn is_record(&self) -> bool {
        matches!(self.word().as_bytes(), b"query" | b"explain" | b"words")
    }

    /// Adds a line to the text.
    fn put(&mut self, line: &str) -> Result<(), AllocError> {
        if line.starts_with('#') {
            if !(self.is_record() && self.text.is_empty()) {
                self.held.push_str(line)?;
            }
            return Ok(());
        }
        self.end()?;
        self.text.push_str(line)
    }

    /// Says that another part of the same record follows, so that all lines belong to the text.
    fn end(&mut self) -> Result<(), AllocError> {
        self.text.push_str(self.held.as_str())?;
        self.held.clear();
        Ok(())
    }

    /// Whether the section has no text.
    pub fn is_bare(&self) -> bool {
        self.text.is_empty()
    }

    /// The bytes that the text stands for.
    pub fn bytes(&self, alloc: Global) -> Result<Vec<u8>, Why> {
        self.meant(alloc, self.text.as_str())
    }

    /// The bytes that a text of the section stands for.
    pub fn meant(&self, alloc: Global, text: &str) -> Result<Vec<u8>, Why> {
        if self.is_escaped {
            unescaped(alloc, text.as_bytes())
        } else {
            Ok(Vec::from_slice(alloc, text.as_bytes())?)
        }
    }
}

impl Group {
    fn new(alloc: Global, first: Section) -> Group {
        Group {
            first,
            parts: Vec::new(alloc),
        }
    }

    /// Adds a line to the last text.
    fn put(&mut self, line: &str) -> Result<(), AllocError> {
        match self.parts.last_mut() {
            Some(part) => part.put(line),
            None => self.first.put(line),
        }
    }

    /// Adds a part.
    fn add(&mut self, part: Section) -> Result<(), AllocError> {
        match self.parts.last_mut() {
            Some(last) => last.end()?,
            None => self.first.end()?,
        }
        self.parts.push(part)?;
        Ok(())
    }
}

/// Whether a line says nothing: it is empty or a comment.
fn is_comment(line: &str) -> bool {
    line.starts_with('#') || line.trim_end().is_empty()
}

/// Adds a line of the file.
fn put_line(alloc: Global, groups: &mut Vec<Group>, number: u32, line: &str) -> Result<(), Why> {
    if let Some(head) = line.strip_prefix("==") {
        groups.push(Group::new(alloc, Section::new(alloc, number, head)?))?;
        return Ok(());
    }
    let Some(group) = groups.last_mut() else {
        return if is_comment(line) {
            Ok(())
        } else if line.starts_with("=>") {
            Err(Why::PartFirst)
        } else {
            Err(Why::TextFirst)
        };
    };
    match line.strip_prefix("=>") {
        Some(head) => group.add(Section::new(alloc, number, head)?)?,
        None => group.put(line)?,
    }
    Ok(())
}

/// The sections of a file of cases, in order.
pub fn groups_of(alloc: Global, text: &str) -> Result<Vec<Group>, Refused> {
    let mut groups = Vec::new(alloc);
    let mut number: u32 = 0;
    for line in text.split_inclusive('\n') {
        number = number.saturating_add(1);
        put_line(alloc, &mut groups, number, line).map_err(|why| why.at(number))?;
    }
    Ok(groups)
}
