//! Laws of hash joins: partitions give together what the whole does.

ghost use Rattle.std.specs.Prelude.{◌≡◌, ◌≤◌, ◌<◌, ℕ, ◌+◌, ◌&&◌, Bool, false, not, List, [], ◌++◌, length, map, Option, Some, unwrap_or, if◌then◌else◌};
ghost use Rattle.std.specs.List.{flat_map, All, AllPass};
ghost use Rattle.dfx_value.specs.Kinds.{are_of};
ghost use Rattle.dfx_value.specs.declared.kind.Kind.{Kind};
ghost use Rattle.dfx_value.specs.declared.fault.ItemFault.{ItemFault};
ghost use Rattle.dfx_value.specs.declared.op.JoinKind.{JoinKind as Kept};
ghost use Rattle.scalar_exprs.specs.declared.expr.Expr.{Expr};
ghost use Rattle.scalar_exprs.specs.Groups.{same_keys};
ghost use Rattle.logical_plan.specs.Items.{Cells, Item, rows, faults};
ghost use Rattle.logical_plan.specs.Joins.{keys_match, residual, left_pairs, right_pairs, left_alone, joined};
ghost use Rattle.plan_props.specs.Meets.{Hashing, IsHash, Places};
ghost use Rattle.physical_plan.specs.Properties.{left_keys, right_keys};
ghost use Rattle.node_laws.specs.NodeRows.{Joined};
ghost use Rattle.physical_plan.specs.declared.plan.Plan.TheOpen.{Plan-F as Node};
ghost use Rattle.physical_plan.specs.declared.properties.Declared.{Declared as Said};
ghost use Rattle.node_laws.specs.Nodes.{JoinRow, NodeGives};
ghost use Rattle.tree_laws.specs.Operators.{Told, with_rows, with_end, with_flush};
ghost use Rattle.tree_laws.specs.OperatorKinds.{is_empty};
ghost use Rattle.content_laws.specs.Bags.{SameBag, Alike, together, row_parts};
ghost use Rattle.join_laws.specs.Joining.{hash_join, join_items, joined_parts, AreMatched};
ghost use Rattle.join_laws.specs.Tables.{KeyPlaces, entered, matches, places_of, row_at, marks_after, unmarked};
ghost use Rattle.join_laws.specs.States.{Join, op_of, JoinState, at_start, accepted, ended, gave, StandsFor};

/// A hash join gives the items of the meaning, in another order (`one`), and they are what the
/// operator gives of whole inputs (`whole`).
///
/// Of partitions in which matching rows lie together hash joins give together the meaning's rows,
/// each as often, and as many faults, whatever arrangement of the partitions' inputs the meaning
/// takes (`parts`); and the meaning's faults too where those of the inputs are the same (`same`). A
/// fault that they give is one of an input or of the meaning (`faults`). Rows lie so where each is
/// in the partition of the hash of its keys (`placed`), and where there is one partition
/// (`single`).
///
/// Each row of a partition is one that a join's node may give (`rows`, `node`), and of the kinds of
/// its columns (`kinds`).
pub fn join_law()
    ensures one { (kind : Kept) (left_width right_width : ℕ) (keys : List (ℕ × ℕ))
        (rest : Option Expr)
        (ls rs : List Item)
        → SameBag (join_items kind left_width right_width keys rest ls rs)
        (joined kind left_width right_width keys rest ls rs) }
    ensures whole { (kind : Kept) (left_width right_width : ℕ) (keys : List (ℕ × ℕ))
        (rest : Option Expr)
        (amount : Told → List Cells → ℕ) (consumer : Option ℕ) (t : Told) (inputs : ℕ → List Item)
        → (hash_join kind left_width right_width keys rest amount consumer).whole t inputs
        ≡ join_items kind left_width right_width keys rest (inputs 0) (inputs 1) }
    ensures parts { (kind : Kept) (left_width right_width : ℕ) (keys : List (ℕ × ℕ))
        (rest : Option Expr)
        (ls rs : List Item) (n : ℕ) (lefts rights : ℕ → List Item)
        → Alike (together n lefts) ls → Alike (together n rights) rs
        → AreMatched keys n lefts rights
        → Alike (joined_parts kind left_width right_width keys rest n lefts rights)
        (joined kind left_width right_width keys rest ls rs) }
    ensures same { (kind : Kept) (left_width right_width : ℕ) (keys : List (ℕ × ℕ))
        (rest : Option Expr)
        (ls rs : List Item) (n : ℕ) (lefts rights : ℕ → List Item)
        → SameBag (together n lefts) ls → SameBag (together n rights) rs
        → AreMatched keys n lefts rights
        → SameBag (joined_parts kind left_width right_width keys rest n lefts rights)
        (joined kind left_width right_width keys rest ls rs) }
    ensures faults { (kind : Kept) (left_width right_width : ℕ) (keys : List (ℕ × ℕ))
        (rest : Option Expr)
        (ls rs : List Item) (n : ℕ) (lefts rights : ℕ → List Item) (test : ItemFault → Bool)
        → Alike (together n lefts) ls → Alike (together n rights) rs
        → AreMatched keys n lefts rights
        → AllPass test (faults (together n lefts)) → AllPass test (faults (together n rights))
        → AllPass test (faults (joined kind left_width right_width keys rest ls rs))
        → AllPass test
        (faults (joined_parts kind left_width right_width keys rest n lefts rights)) }
    ensures placed { (h : Hashing) (keys : List (ℕ × ℕ)) (n : ℕ) (lefts rights : ℕ → List Item)
        → IsHash h
        → Places h (left_keys keys) n (row_parts n lefts)
        → Places h (right_keys keys) n (row_parts n rights)
        → AreMatched keys n lefts rights }
    ensures single { (keys : List (ℕ × ℕ)) (lefts rights : ℕ → List Item)
        → AreMatched keys 1 lefts rights }
    ensures rows { (kind : Kept) (left_width right_width : ℕ) (keys : List (ℕ × ℕ))
        (rest : Option Expr)
        (n : ℕ) (lefts rights : ℕ → List Item)
        → Joined (JoinRow kind keys left_width right_width) (row_parts n lefts) (row_parts n rights)
        (row_parts n (λ i. join_items kind left_width right_width keys rest (lefts i) (rights i))) }
    ensures node { (h : Hashing) (left right : Said) (kind : Kept) (keys : List (ℕ × ℕ))
        (rest : Option Expr)
        (n : ℕ) (lefts rights : ℕ → List Item)
        → NodeGives h
        (Node.HashJoin kind (left, row_parts n lefts) (right, row_parts n rights) keys rest)
        (row_parts n (λ i. join_items kind left.width right.width keys rest (lefts i) (rights i))) }
    ensures kinds { (kind : Kept) (left right : List Kind) (keys : List (ℕ × ℕ))
        (rest : Option Expr)
        (ls rs : List Item)
        → AllPass (are_of left) (rows ls) → AllPass (are_of right) (rows rs)
        → AllPass (are_of (left ++ right))
        (rows (join_items kind (length left) (length right) keys rest ls rs)) }
{}

/// How code joins: a table from the keys of left rows to their places tells the left rows that
/// match a right row, in their order (`found`), so what a right row gives (`pairs`), and the left
/// rows without a match or a fault (`lefts`), which are those without a mark (`marks`). The places
/// are within the left rows, and there is a mark for each (`within`). A table grows by rows
/// (`grown`), each of which is one `upsert`, or none where a key is NULL.
pub fn table_law()
    ensures found { (keys : List (ℕ × ℕ)) (ls : List Cells) (r : Cells)
        → matches keys ls r ≡ places_of (λ l. keys_match keys l r) 0 ls }
    ensures pairs { (keys : List (ℕ × ℕ)) (rest : Option Expr) (ls : List Cells) (r : Cells)
        → flat_map (λ at. residual rest (row_at ls at ++ r)) (matches keys ls r)
        ≡ right_pairs keys rest ls r }
    ensures marks { (keys : List (ℕ × ℕ)) (rest : Option Expr) (ls rs : List Cells)
        → marks_after keys rest ls rs ≡ map (λ l. not (is_empty (left_pairs keys rest rs l))) ls }
    ensures lefts { (keys : List (ℕ × ℕ)) (rest : Option Expr) (width : ℕ) (ls rs : List Cells)
        → unmarked width ls (marks_after keys rest ls rs) ≡ left_alone keys rest width ls rs }
    ensures within { (keys : List (ℕ × ℕ)) (rest : Option Expr) (ls rs : List Cells) (r : Cells)
        → All (λ at. at < length ls) (matches keys ls r)
        × (length (marks_after keys rest ls rs) ≡ length ls) }
    ensures grown { (columns : List ℕ) (t : KeyPlaces) (at : ℕ) (ls more : List Cells)
        → entered columns t at (ls ++ more)
        ≡ entered columns (entered columns t at ls) (at + length ls) more }
{}

/// What an operator of a hash join may hold, call by call. Before it is told anything it stands for
/// that (`start`). Where it stands for what it was told and gave, it asks the operator's input
/// (`wanted`), is complete where that is (`complete`), and stands for what the operator is told
/// next after rows (`accept`) and the end (`end`) of the wanted side, and after a flush (`flush`),
/// and for more given items after some that wait were given (`give`).
pub fn state_law()
    ensures start { (j : Join) (t : Told)
        → t.taken 0 ≡ [] → t.taken 1 ≡ [] → t.ended 0 ≡ false → t.ended 1 ≡ false
        → StandsFor j at_start t 0 }
    ensures wanted { (j : Join) (s : JoinState) (t : Told) (n : ℕ)
        → StandsFor j s t n → (if s.left_over then 1 else 0) ≡ (op_of j).wanted t }
    ensures complete { (j : Join) (s : JoinState) (t : Told) (n : ℕ)
        → StandsFor j s t n → s.left_over && s.right_over ≡ (op_of j).is_complete t }
    ensures accept { (j : Join) (s : JoinState) (t : Told) (n : ℕ) (rows : List Cells)
        → StandsFor j s t n → (op_of j).is_complete t ≡ false
        → StandsFor j (accepted j s rows) (with_rows t ((op_of j).wanted t) rows) n }
    ensures end { (j : Join) (s : JoinState) (t : Told) (n : ℕ)
        → StandsFor j s t n → (op_of j).is_complete t ≡ false
        → StandsFor j (ended j s) (with_end t ((op_of j).wanted t)) n }
    ensures flush { (j : Join) (s : JoinState) (t : Told) (n : ℕ)
        → StandsFor j s t n → StandsFor j s (with_flush t) n }
    ensures give { (j : Join) (s : JoinState) (t : Told) (n k : ℕ)
        → StandsFor j s t n → k ≤ length s.waiting → StandsFor j (gave s k) t (n + k) }
{}
