//! Laws of properties: a yes to a need is sound.

ghost use Rattle.std.specs.Prelude.{◌≡◌, ℕ, true, List};
ghost use Rattle.dfx_value.specs.declared.rows.SortKey.{SortKey as Key};
ghost use Rattle.plan_props.specs.declared.properties.Props.{Props as Declared};
ghost use Rattle.plan_props.specs.declared.properties.Distribution.{Distribution as Need};
ghost use Rattle.plan_props.specs.Same.{Chain, is_same};
ghost use Rattle.plan_props.specs.Satisfies as spec;
ghost use Rattle.plan_props.specs.Meets.{Hashing, IsHash, Row, Meets, Delivers, AllInOrder};

/// Two columns are the same exactly where a chain of pairs leads from one to the other.
pub fn chains_law()
    ensures some { (pairs : List (ℕ × ℕ)) (a b : ℕ) → is_same pairs a b ≡ true → Chain pairs a b }
    ensures all { (pairs : List (ℕ × ℕ)) (a b : ℕ) → Chain pairs a b → is_same pairs a b ≡ true }
{}

/// A yes of the test on distribution is sound, for every hash that equal key lists have in common.
///
/// For all partitions that meet the properties it means that they are as many as the need says, and that rows with equal
/// key lists stand in one of them, or, where the need is a join's, that each stands at the hash of its keys.
pub fn distribution_law()
    ensures { (h : Hashing) → IsHash h → (p : Declared) (d : Need) (parts : List (List Row))
        → spec.satisfies_distribution p d ≡ true → Meets h p parts → Delivers h d parts }
{}

/// A yes of the test on order is sound: all partitions that meet the properties stand in the order of the keys.
pub fn order_law()
    ensures { (h : Hashing) (p : Declared) (keys : List Key) (parts : List (List Row))
        → spec.satisfies_order p keys ≡ true → Meets h p parts → AllInOrder keys parts }
{}
