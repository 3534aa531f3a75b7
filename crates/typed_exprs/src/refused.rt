//! Refusals of scripts under their names.
ghost use Rattle.std.specs.Prelude.{◌≡◌};
ghost use Rattle.typed_exprs.specs.Refusals as spec;

use crate::refusal::{Refusal, Why};
use thiserror::Error;

/// Why a script of the grammar has no meaning. Places are those of bytes in the script, from 0.
#[derive(Clone, Copy, Debug, Drop, Error)]
pub enum BindRefused {
    /// A name, or the name before a point, that names no table.
    #[error("unknown table at {place}")]
    UnknownTable { place: u32 },
    /// A name that names no column, or a position that is none.
    #[error("unknown column at {place}")]
    UnknownColumn { place: u32 },
    /// A name that names several, or a table or an alias that is declared twice.
    #[error("ambiguous at {place}")]
    Ambiguous { place: u32 },
    /// Operands, results or columns whose kinds don't fit.
    #[error("kinds don't fit at {place}")]
    KindMismatch { place: u32 },
    /// A column outside the groups, or an aggregate where none may stand.
    #[error("not grouped at {place}")]
    NotGrouped { place: u32 },
    /// A join without an equality of its two sides.
    #[error("no equality of both sides at {place}")]
    NoEquiKey { place: u32 },
    /// What the grammar has and this engine doesn't.
    #[error("unsupported at {place}")]
    Unsupported { place: u32 },
    /// A limit or an offset that is no whole number below 2^63.
    #[error("limit out of range at {place}")]
    LimitRange { place: u32 },
    /// A folder of Arrow files that has none. It is refused before binding.
    #[error("no files at {place}")]
    NoFiles { place: u32 },
    #[error("out of memory")]
    NoMemory,
}

impl BindRefused {
    /// The refusal under its name.
    pub fn of(refusal: Refusal) -> BindRefused
        ensures { result ≡ spec.named refusal }
    {
        let place = refusal.place;
        match refusal.why {
            Why::UnknownTable => BindRefused::UnknownTable { place },
            Why::UnknownColumn => BindRefused::UnknownColumn { place },
            Why::Ambiguous => BindRefused::Ambiguous { place },
            Why::KindMismatch => BindRefused::KindMismatch { place },
            Why::NotGrouped => BindRefused::NotGrouped { place },
            Why::NoEquiKey => BindRefused::NoEquiKey { place },
            Why::Unsupported => BindRefused::Unsupported { place },
            Why::LimitRange => BindRefused::LimitRange { place },
        }
    }
}
