//! The law of a table of keys: what a key finds.

ghost use Rattle.std.specs.Prelude.{◌≡◌, List, Some, unwrap_or, if◌then◌else◌};
ghost use Rattle.dfx_value.specs.declared.value.Value.{Value};
ghost use Rattle.scalar_exprs.specs.Groups.{same_keys};
ghost use Rattle.key_laws.specs.Entries.{upsert, find};

/// After an `upsert` its key, and each that is the same, finds the changed entry; every other key
/// finds what it found.
pub fn entries_law<S>()
    ensures upserted { (entries : List (List Value × S)) (key k : List Value) (start : S) (f : S
        → S)
        → find (upsert entries key start f) k
        ≡ (if same_keys key k then Some (f (unwrap_or (find entries k) start))
        else find entries k) }
{}
