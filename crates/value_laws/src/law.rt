//! The laws.

ghost use Rattle.std.specs.Prelude.{◌≡◌, ◌≢◌, ◌<◌, ◌≤◌, ◌*◌, ℕ, ℤ, [], true, Some, unsigned_abs};
ghost use Rattle.dfx_value.specs.Decimal.{nearest, half_away, signed_like};
ghost use Rattle.dfx_value.specs.Kinds.{is_kind, is_of};
ghost use Rattle.dfx_value.specs.Parse.{parsed};
ghost use Rattle.dfx_value.specs.Print.{printed};
ghost use Rattle.dfx_value.specs.declared.kind.Kind.{Kind as AKind};
ghost use Rattle.dfx_value.specs.declared.value.Value.{Value as AValue};
ghost use Rattle.dfx_value.specs.declared.value.Value.TheVariants as value;
ghost use Rattle.value_laws.specs.Rounding.{IsNearest, distance};

/// What is printed of a value of a kind reads back as that value: NULL too, which prints as nothing. The one
/// exception is the empty text, which reads back as NULL.
pub fn reading_law()
    ensures { (k : AKind) (v : AValue) → is_kind k ≡ true → is_of k v ≡ true → v ≢ value.Text []
        → parsed k (printed v) ≡ Some v }
{}

/// `nearest n d` times d is at most half of d above n, and less than half of d below it (`nearest`): so no multiple
/// of d is nearer to n (`none_nearer`). `half_away` is the same of the magnitude, with the number's sign, so ties go
/// away from zero (`half_away`, `sign`).
pub fn rounding_law()
    ensures nearest { (n d : ℕ) → 0 < d → IsNearest n d (nearest n d) }
    ensures none_nearer { (n d other : ℕ) → 0 < d
        → distance n (d * nearest n d) ≤ distance n (d * other) }
    ensures half_away { (z : ℤ) (d : ℕ) → 0 < d
        → IsNearest (unsigned_abs z) d (unsigned_abs (half_away z d)) }
    ensures sign { (z : ℤ) (d : ℕ) → half_away z d ≡ signed_like z (unsigned_abs (half_away z d)) }
{}
