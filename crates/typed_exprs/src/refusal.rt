//! Why a script has no meaning.

ghost use Rattle.std.specs.Prelude.{◌≡◌};
ghost use Rattle.typed_exprs.specs.declared.refusal.Unbound.TheVariants as unbound;

use dfx_value::NoMemory;
use std::alloc::{AllocError, AllocFailed};

/// Why a script of the grammar has no meaning.
#[derive(Clone, Copy, Debug, Drop)]
pub enum Why {
    /// A name, or the name before a point, names no table.
    UnknownTable,
    /// A name names no column.
    UnknownColumn,
    /// A name names several, or a table or an alias is declared twice.
    Ambiguous,
    /// Operands, results or columns have kinds that don't fit.
    KindMismatch,
    /// A column stands outside the groups, or an aggregate where none may stand.
    NotGrouped,
    /// A join has no equality of its two sides.
    NoEquiKey,
    /// The grammar has it and this engine doesn't.
    Unsupported,
    /// A limit or an offset is no whole number below 2^63.
    LimitRange,
}

/// The first refusal, with its place: that of a byte in the script, from 0.
#[derive(Clone, Copy, Debug, Drop)]
pub struct Refusal {
    pub why: Why,
    pub place: u32,
}

impl Refusal {
    /// A refusal at this place.
    pub fn new(why: Why, place: u32) -> Refusal
        ensures { result ≡ record { why = why; place = place } }
    {
        Refusal { why, place }
    }
}

/// Why nothing was bound.
#[derive(Clone, Copy, Debug, Drop)]
pub enum Unbound {
    Refused(Refusal),
    NoMemory,
}

impl Unbound {
    /// A refusal at this place.
    pub fn refused(why: Why, place: u32) -> Unbound
        ensures { result ≡ unbound.Refused (record { why = why; place = place }) }
    {
        Unbound::Refused(Refusal::new(why, place))
    }
}

impl From<Refusal> for Unbound {
    ghost use Rattle.std.specs.Prelude.{◌≡◌};
    ghost use Rattle.typed_exprs.specs.declared.refusal.Unbound.TheVariants.{Refused};

    ghost from_gives = { λ refusal e. e ≡ Refused refusal };

    fn from(refusal: Refusal) -> Unbound {
        Unbound::Refused(refusal)
    }
}

impl From<NoMemory> for Unbound {
    ghost use Rattle.std.specs.Prelude.{◌≡◌};
    ghost use Rattle.typed_exprs.specs.declared.refusal.Unbound.TheVariants.{NoMemory};

    ghost from_gives = { λ _ e. e ≡ NoMemory };

    fn from(_: NoMemory) -> Unbound {
        Unbound::NoMemory
    }
}

impl From<AllocError> for Unbound {
    ghost use Rattle.std.specs.Prelude.{◌≡◌};
    ghost use Rattle.typed_exprs.specs.declared.refusal.Unbound.TheVariants.{NoMemory};

    ghost from_gives = { λ _ e. e ≡ NoMemory };

    fn from(_: AllocError) -> Unbound {
        Unbound::NoMemory
    }
}

impl<T: Drop> From<AllocFailed<T>> for Unbound {
    ghost use Rattle.std.specs.Prelude.{◌≡◌};
    ghost use Rattle.typed_exprs.specs.declared.refusal.Unbound.TheVariants.{NoMemory};

    ghost from_gives = { λ _ e. e ≡ NoMemory };

    fn from(_: AllocFailed<T>) -> Unbound {
        Unbound::NoMemory
    }
}
