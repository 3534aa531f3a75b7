//! Laws of the stable sort, over whatever sorted runs.

ghost use Rattle.std.specs.Prelude.{◌≡◌, ◌+◌, ◌<◌, ℕ, Bool, true, Option, Some, None, List, [], ◌∷◌, ◌++◌, length, take, drop, map, slice_set, IsPermutation, IsSorted};
ghost use Rattle.std.specs.List.{AllPass};
ghost use Rattle.std.specs.List.Sorted.{IsStable, IsSortedBy};
ghost use Rattle.dfx_value.specs.Rows.{row_cmp};
ghost use Rattle.dfx_value.specs.declared.rows.SortKey.{SortKey as Key};
ghost use Rattle.logical_plan.specs.Items.{Item, Cells, rows, faults, of_rows, concat};
ghost use Rattle.logical_plan.specs.Body.{Tables, body};
ghost use Rattle.logical_plan.specs.Allowed.{first_of, Allows, Allowed};
ghost use Rattle.logical_plan.specs.declared.query.Query.{Query};
ghost use Rattle.plan_props.specs.Meets.{Hashing, InOrder, part};
ghost use Rattle.node_laws.specs.NodeRows.{Arranged};
ghost use Rattle.physical_plan.specs.declared.plan.Plan.TheOpen.{Plan-F as Node};
ghost use Rattle.physical_plan.specs.declared.properties.Declared.{Declared as Said};
ghost use Rattle.node_laws.specs.Nodes.{NodeGives};
ghost use Rattle.node_laws.specs.Rows.{IsStretch};
ghost use Rattle.node_laws.specs.Weaves.{Merges};
ghost use Rattle.history_laws.specs.Histories.{Past};
ghost use Rattle.tree_laws.specs.Operators.{Told, Reads};
ghost use Rattle.tree_laws.specs.OperatorKinds.{cut, end_op, limit_op, merge};
ghost use Rattle.tree_laws.specs.Trees.{Tree, Ends, Desk, Node as Over, gave_of, poll};
ghost use Rattle.tree_laws.specs.Linked.{whole, IsLinked, IsWhole};
ghost use Rattle.content_laws.specs.Bags.{SameBag, together, Alike, row_parts};
ghost use Rattle.sort_laws.specs.Sorting.{sorted, sort_rows, item_before, sort_items, merge_items, run, AreSorted, IsLeastFront};
ghost use Rattle.sort_laws.specs.Growing.{grown, GoesOn, after};
ghost use Rattle.sort_laws.specs.Arranging.{IsArrangedAs};

/// The stable sort of rows, over whatever sorted runs they were cut into.
///
/// It is in order (`order`), stable (`stable`) and a permutation (`moves`), and what a stable sort
/// of std gives is it (`one`). It is the same for the rows and for the sorted runs of any segments
/// of them (`cut`), with those in memory as the last run (`split`); so it stays while rows are
/// taken (`more`), and when those in memory are sorted (`part`).
///
/// What is left of sorted runs is their sort. It begins with a least front, of the earliest run
/// that has one, and goes on with the sort of what is then left (`front`), which are sorted runs
/// again (`left`); without fronts nothing is left (`over`). So a merge of the runs gives it
/// (`merged`).
///
/// As a sort of items it gives the faults and then the rows (`items`), and these are such as a Sort
/// node may give of the rows of each partition (`arranged`).
pub fn sort_law()
    ensures order { (keys : List Key) (taken : List Cells)
        → IsSorted (row_cmp keys) (sort_rows keys taken) }
    ensures stable { (keys : List Key) (taken : List Cells)
        → IsStable (row_cmp keys) taken (sort_rows keys taken) }
    ensures moves { (keys : List Key) (taken : List Cells)
        → IsPermutation taken (sort_rows keys taken) }
    ensures one { (keys : List Key) (taken given : List Cells)
        → IsSorted (row_cmp keys) given → IsStable (row_cmp keys) taken given
        → given ≡ sort_rows keys taken }
    ensures cut { (keys : List Key) (segments : List (List Cells))
        → sort_rows keys (concat (map (sort_rows keys) segments))
        ≡ sort_rows keys (concat segments) }
    ensures split { (keys : List Key) (closed : List (List Cells)) (since taken : List Cells)
        → concat closed ++ since ≡ taken
        → sort_rows keys (concat (map (sort_rows keys) closed ++ sort_rows keys since ∷ []))
        ≡ sort_rows keys taken }
    ensures more { (keys : List Key) (xs ys more : List Cells)
        → sort_rows keys xs ≡ sort_rows keys ys
        → sort_rows keys (xs ++ more) ≡ sort_rows keys (ys ++ more) }
    ensures part { (keys : List Key) (xs since : List Cells)
        → sort_rows keys (xs ++ sort_rows keys since) ≡ sort_rows keys (xs ++ since) }
    ensures front { (keys : List Key) (runs : List (List Cells)) (i : ℕ) (row : Cells)
        (rest : List Cells)
        → AreSorted keys runs → IsLeastFront keys runs i row rest
        → sort_rows keys (concat runs) ≡ row ∷ sort_rows keys (concat (slice_set runs i rest)) }
    ensures left { (keys : List Key) (runs : List (List Cells)) (i : ℕ) (row : Cells)
        (rest : List Cells)
        → AreSorted keys runs → run runs i ≡ row ∷ rest → AreSorted keys (slice_set runs i rest) }
    ensures over { (runs : List (List Cells)) → ((j : ℕ) → run runs j ≡ []) → concat runs ≡ [] }
    ensures merged { (keys : List Key) (runs : List (List Cells))
        → AreSorted keys runs
        → rows (merge_items keys (length runs) (λ i. of_rows (run runs i)))
        ≡ sort_rows keys (concat runs) }
    ensures items { (keys : List Key) (items : List Item)
        → (sort_items keys items ≡ sorted (item_before keys) items)
        × SameBag (sort_items keys items) items
        × (rows (sort_items keys items) ≡ sort_rows keys (rows items))
        × (faults (sort_items keys items) ≡ faults items) }
    ensures arranged { (keys : List Key) (parts : List (List Cells))
        → Arranged keys parts (map (sort_rows keys) parts) }
{}

/// A merge by keys of whole inputs, where a fault comes before every row and ties go to the lower
/// input.
///
/// It gives all their items (`bag`). Where the rows of each input are sorted, its rows are the
/// stable sort of all their rows, wherever faults stand (`rows`); for any inputs each row in its
/// turn is a least first one of the rows that are left (`merges`). Of inputs that have their faults
/// first, it gives the faults and then the rows (`items`).
///
/// Of inputs that go on, what was given stays given, and then comes the merge of what was left with
/// what came (`goes_on`).
pub fn merge_law()
    ensures bag { (keys : List Key) (n : ℕ) (inputs : ℕ → List Item)
        → SameBag (merge_items keys n inputs) (together n inputs) }
    ensures rows { (keys : List Key) (n : ℕ) (inputs : ℕ → List Item)
        → ((i : ℕ) → i < n → IsSorted (row_cmp keys) (rows (inputs i)))
        → rows (merge_items keys n inputs) ≡ sort_rows keys (together n (λ i. rows (inputs i))) }
    ensures merges { (keys : List Key) (n : ℕ) (inputs : ℕ → List Item) (parts : List (List Cells))
        → length parts ≡ n → ((i : ℕ) → i < n → part parts i ≡ rows (inputs i))
        → Merges keys parts (rows (merge_items keys n inputs)) }
    ensures items { (keys : List Key) (n : ℕ) (inputs : ℕ → List Item)
        → ((i : ℕ) → i < n → IsSortedBy (item_before keys) (inputs i))
        → merge_items keys n inputs ≡ sort_items keys (together n inputs) }
    ensures goes_on { (before : Item → Item → Bool) (n : ℕ) (inputs more : ℕ
        → List Item) (over over2 : ℕ
        → Bool)
        → GoesOn over more over2
        → merge before n (grown inputs more) over2
        ≡ after (merge before n inputs over).given
        (merge before n (grown (merge before n inputs over).left more) over2) }
{}

/// What a limit cuts of items: where no fault is among the first items, the rows of those after the
/// skipped ones (`clean`); of any items a stretch of their rows (`stretch`); and
/// nothing but items of its input (`keeps`).
pub fn limit_law()
    ensures clean { (skip : ℕ) (fetch : Option ℕ) (items : List Item)
        → faults (first_of skip fetch items) ≡ []
        → rows (cut skip fetch items) ≡ drop skip (rows (first_of skip fetch items)) }
    ensures stretch { (skip : ℕ) (fetch : Option ℕ) (items : List Item)
        → IsStretch (rows items) (rows (cut skip fetch items)) }
    ensures keeps { (skip : ℕ) (fetch : Option ℕ) (test : Item → Bool) (items : List Item)
        → AllPass test items → AllPass test (cut skip fetch items) }
{}

/// What sorts, merges and limits give of the items of each partition is, in its rows, what their
/// nodes give of the rows.
pub fn nodes_law()
    ensures sorts { (h : Hashing) (d : Said) (keys : List Key) (n : ℕ) (inputs : ℕ → List Item)
        → NodeGives h (Node.Sort (d, row_parts n inputs) keys)
        (row_parts n (λ i. sort_items keys (inputs i))) }
    ensures merges { (h : Hashing) (d : Said) (keys : List Key) (n : ℕ) (inputs : ℕ → List Item)
        → NodeGives h (Node.Merge (d, row_parts n inputs) keys)
        (row_parts 1 (λ i. merge_items keys n inputs)) }
    ensures limits { (h : Hashing) (d : Said) (skip : ℕ) (fetch : Option ℕ) (n : ℕ) (inputs : ℕ
        → List Item)
        → NodeGives h (Node.Limit (d, row_parts n inputs) skip fetch)
        (row_parts n (λ i. cut skip fetch (inputs i))) }
{}

/// Lists of one bag are permutations of each other (`items`, `rows`). Lists with the same rows and
/// as many faults are alike (`alike`), and of items that are alike to others there is an
/// arrangement of these with rows and faults where the first have them (`arranged`).
pub fn bag_law()
    ensures items { (xs ys : List Item) → SameBag xs ys → IsPermutation xs ys }
    ensures rows { (xs ys : List Cells) → SameBag xs ys → IsPermutation xs ys }
    ensures arranged { (xs ys : List Item) → Alike xs ys → (zs : List Item)
        × IsArrangedAs xs ys zs }
    ensures alike { (xs ys : List Item)
        → SameBag (rows xs) (rows ys) → length (faults xs) ≡ length (faults ys) → Alike xs ys }
{}

/// What a query may answer, of a list `out` that is alike to its items and whose rows stand in its
/// order.
///
/// Where no fault is among the first items, it may answer the rows of those from the offset on
/// (`clean`, `query`); where a limit is complete that has read a front of the list, the rows that
/// this gives, and faults behind what it read don't matter (`limit`); without a limit, all rows,
/// where there is no fault (`all`). LIMIT 0 may answer nothing (`none`).
///
/// The rows of an answer may be brought into another order that is sorted as well, as by a sort
/// above the limit (`resorted`). Without keys any rows are sorted (`unordered`). Rows are sorted
/// just where no later one is before an earlier one (`in_order`, `sorted`).
pub fn answer_law()
    ensures clean { (order : List Key) (offset : ℕ) (limit : Option ℕ) (out items : List Item)
        → Alike out items → IsSorted (row_cmp order) (rows out)
        → faults (first_of offset limit out) ≡ []
        → Allows order offset limit items (drop offset (rows (first_of offset limit out))) }
    ensures query { (q : Query) (tables : Tables) (out : List Item)
        → Alike out (body tables q.body) → IsSorted (row_cmp q.order) (rows out)
        → faults (first_of q.offset q.limit out) ≡ []
        → Allowed q tables (drop q.offset (rows (first_of q.offset q.limit out))) }
    ensures limit { (order : List Key) (skip : ℕ) (fetch : Option ℕ) (t : Told)
        (out items : List Item)
        → Reads (t.taken 0) (t.ended 0) out → (limit_op skip fetch).is_complete t ≡ true
        → Alike out items → IsSorted (row_cmp order) (rows out)
        → Allows order skip fetch items (rows ((limit_op skip fetch).items t)) }
    ensures all { (order : List Key) (given : List Cells) (items : List Item)
        → Alike (of_rows given) items → IsSorted (row_cmp order) given
        → Allows order 0 None items given }
    ensures none { (order : List Key) (offset : ℕ) (items : List Item)
        → Allows order offset (Some 0) items [] }
    ensures resorted { (order : List Key) (offset : ℕ) (limit : Option ℕ) (items : List Item)
        (answer other : List Cells)
        → Allows order offset limit items answer → IsPermutation answer other
        → IsSorted (row_cmp order) other
        → Allows order offset limit items other }
    ensures unordered { (rs : List Cells) → IsSorted (row_cmp []) rs }
    ensures in_order { (keys : List Key) (rs : List Cells) → InOrder keys rs
        → IsSorted (row_cmp keys) rs }
    ensures sorted { (keys : List Key) (rs : List Cells) → IsSorted (row_cmp keys) rs
        → InOrder keys rs }
{}

/// The answer at the root, as the trees of tasks give it once they have ended.
///
/// A limit at the root gives an allowed answer, where its input's whole is alike to the query's
/// items and sorted (`limit`). So does any other root, of a query without limit and offset (`all`).
/// A sort at the root gives what its input gave, sorted (`sort`); and where that is allowed, it is
/// so too, if it stands in the query's order (`above`).
pub fn root_law()
    ensures limit { (order : List Key) (skip : ℕ) (fetch : Option ℕ) (size : ℕ)
        (past : Past (List Cells))
        (full : ℕ → ℕ → List Item) (t : Told) (d : Desk) (inputs : ℕ → Tree) (items : List Item)
        → IsLinked size past (Over (limit_op skip fetch) t d inputs) → IsWhole size full (inputs 0)
        → poll size (Over (limit_op skip fetch) t d inputs) ≡ Ends
        → Alike (whole full (inputs 0)) items
        → IsSorted (row_cmp order) (rows (whole full (inputs 0)))
        → Allows order skip fetch items d.gave }
    ensures all { (order : List Key) (size : ℕ) (full : ℕ → ℕ → List Item) (root : Tree)
        (items : List Item)
        → IsWhole size full root → poll size root ≡ Ends
        → Alike (whole full root) items → IsSorted (row_cmp order) (rows (whole full root))
        → Allows order 0 None items (gave_of root) }
    ensures sort { (keys : List Key) (amount : Told → List Cells → ℕ) (consumer : Option ℕ)
        (size : ℕ) (past : Past (List Cells)) (t : Told) (d : Desk) (inputs : ℕ → Tree)
        → IsLinked size past (Over (end_op (sort_items keys) amount consumer) t d inputs)
        → poll size (Over (end_op (sort_items keys) amount consumer) t d inputs) ≡ Ends
        → (poll size (inputs 0) ≡ Ends) × (d.gave ≡ sort_rows keys (gave_of (inputs 0))) }
    ensures above { (keys order : List Key) (offset : ℕ) (limit : Option ℕ) (items : List Item)
        (answer : List Cells)
        → Allows order offset limit items answer → IsSorted (row_cmp order) (sort_rows keys answer)
        → Allows order offset limit items (sort_rows keys answer) }
{}
