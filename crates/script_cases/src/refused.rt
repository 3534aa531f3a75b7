//! Why a part of a file of cases means nothing.

ghost use Rattle.std.specs.Prelude.{◌≡◌};

use dfx_value::NoMemory;
use std::alloc::{AllocError, AllocFailed};
use thiserror::Error;

/// Why a part of a file of cases means nothing.
#[derive(Clone, Copy, Debug, PartialEq, Eq, Error)]
pub enum Why {
    #[error("a text before the first section")]
    TextFirst,
    #[error("a part before the first record")]
    PartFirst,
    #[error("an unknown section")]
    UnknownSection,
    #[error("a section without its path")]
    NoPath,
    #[error("words or a path too many")]
    WordsUnwanted,
    #[error("a text where none belongs")]
    TextUnwanted,
    #[error("parts of what is no record")]
    PartUnwanted,
    #[error("a backslash that begins no escape")]
    BadEscape,
    #[error("words that aren't UTF-8")]
    NotUtf8,
    #[error("no number where one belongs")]
    NoNumber,
    #[error("a record without an expectation")]
    NoExpectation,
    #[error("two expectations that don't go together")]
    TwoExpectations,
    #[error("two files of this record at one path")]
    TwoFiles,
    #[error("no common file at the path that is to be absent")]
    NoSuchFile,
    #[error("an unknown kind of call that fails")]
    UnknownCall,
    #[error("no records")]
    NoRecords,
    #[error("out of memory")]
    NoMemory,
}

impl From<AllocError> for Why {
    ghost use Rattle.script_cases.specs.declared.refused.Why.TheVariants.{NoMemory};

    ghost from_gives = { λ _ e. e ≡ NoMemory };

    fn from(_error: AllocError) -> Why {
        Why::NoMemory
    }
}

impl<T: Drop> From<AllocFailed<T>> for Why {
    ghost use Rattle.script_cases.specs.declared.refused.Why.TheVariants.{NoMemory};

    ghost from_gives = { λ _ e. e ≡ NoMemory };

    fn from(_error: AllocFailed<T>) -> Why {
        Why::NoMemory
    }
}

impl From<NoMemory> for Why {
    fn from(_error: NoMemory) -> Why {
        Why::NoMemory
    }
}

/// What a file of cases has that means nothing, and the line on which it stands.
#[derive(Clone, Copy, Debug, PartialEq, Eq)]
pub struct Refused {
    pub line: u32,
    pub why: Why,
}

impl Why {
    /// This refusal at a line.
    pub fn at(self, line: u32) -> Refused {
        Refused { line, why: self }
    }
}
