//! Laws of grouping in two phases.

ghost use Rattle.std.specs.Prelude.{◌≡◌, ◌<◌, ℕ, List, [], ◌∷◌, ◌++◌, Bool, Option, length, drop, fold, map};
ghost use Rattle.std.specs.List.{flat_map, AllPass};
ghost use Rattle.dfx_value.specs.Kinds.{are_of};
ghost use Rattle.dfx_value.specs.declared.kind.Kind.{Kind};
ghost use Rattle.dfx_value.specs.declared.fault.ItemFault.{ItemFault};
ghost use Rattle.dfx_value.specs.declared.op.AggCall.{AggCall};
ghost use Rattle.logical_plan.specs.Items.{Item, Cells, rows, faults, of_rows, concat};
ghost use Rattle.logical_plan.specs.Groups.{aggregated, distinct};
ghost use Rattle.dfx_value.specs.declared.value.Value.{Value};
ghost use Rattle.dfx_value.specs.Rows.{cells_at};
ghost use Rattle.scalar_exprs.specs.Agg.{agg};
ghost use Rattle.phase_laws.specs.States.{State, state_of, merged, read, cells_of, finished};
ghost use Rattle.phase_laws.specs.Tables.{table, starts, with_row, state_row, with_cells_behind, finished_item};
ghost use Rattle.phase_laws.specs.Phases.{phase_rows, grouped, final_item, phase, phase_kinds, final, second_phase, AreApart, segments_of};
ghost use Rattle.plan_props.specs.Meets.{Hashing, Gathers, Delivers};
ghost use Rattle.physical_plan.specs.Needs.{group_need};
ghost use Rattle.physical_plan.specs.Numbers.{numbers};
ghost use Rattle.tree_laws.specs.OperatorKinds.{closed_items};
ghost use Rattle.content_laws.specs.Bags.{SameBag, together, Alike, row_parts};

/// Grouping in two phases gives the groups of the whole.
///
/// Take the rows that the first phase makes of any segments of any arrangement of the input, in any
/// order, over any partitions in which rows with the same keys stand together: the second phase
/// makes of them the same rows, each as often, and as many faults as grouping the input at once
/// (`grouped`). A fault that it gives is one of the input or of the meaning (`faults`). Over any
/// rows of its kinds the partitions of the second phase are together the second phase of all the
/// rows (`arranged`).
///
/// The rows of the first phase are of the kinds that the second phase knows (`kinds`). DISTINCT is
/// grouping by all columns without calls, where there are columns (`no_calls`).
pub fn two_phases_law()
    ensures grouped { (columns : List ℕ) (calls : List AggCall) (kinds : List Kind)
        (segments : List (List Item))
        (input : List Item) (n : ℕ) (parts : ℕ → List Item)
        → AllPass (are_of kinds) (rows input)
        → SameBag (concat segments) input
        → SameBag (together n parts) (flat_map (phase columns calls kinds) segments)
        → AreApart (numbers (length columns)) n parts
        → Alike (together n (λ i. second_phase columns calls kinds (parts i)))
        (aggregated columns calls kinds input) }
    ensures faults { (columns : List ℕ) (calls : List AggCall) (kinds : List Kind)
        (segments : List (List Item))
        (input : List Item) (n : ℕ) (parts : ℕ → List Item) (test : ItemFault → Bool)
        → AllPass (are_of kinds) (rows input)
        → SameBag (concat segments) input
        → SameBag (together n parts) (flat_map (phase columns calls kinds) segments)
        → AreApart (numbers (length columns)) n parts
        → AllPass test (faults input)
        → AllPass test (faults (aggregated columns calls kinds input))
        → AllPass test (faults (together n (λ i. second_phase columns calls kinds (parts i)))) }
    ensures arranged { (keys : List ℕ) (calls : List AggCall) (kinds : List Kind)
        (items : List Item) (n : ℕ) (parts : ℕ → List Item)
        → AllPass (are_of kinds) (rows items) → SameBag items (together n parts)
        → AreApart keys n parts
        → Alike (together n (λ i. final keys calls kinds (parts i)))
        (final keys calls kinds items) }
    ensures kinds { (columns : List ℕ) (calls : List AggCall) (kinds : List Kind)
        (segment : List Item)
        → AllPass (are_of kinds) (rows segment)
        → AllPass (are_of (phase_kinds columns calls kinds))
        (rows (phase columns calls kinds segment)) }
    ensures no_calls { (kinds : List Kind) (input : List Item)
        → AllPass (are_of kinds) (rows input) → 0 < length kinds
        → distinct input ≡ aggregated (numbers (length kinds)) [] kinds input }
{}

/// How operators come to that. What one that closes segments gives of its whole input is what its
/// segments give, one after the other, and these are its input (`segments`). Partition by partition
/// that is the same as of all their segments (`partitions`). Rows with the same keys stand together
/// where they are gathered by their keys (`gathered`), so where the need of a second phase is met,
/// without keys too (`needed`).
pub fn parts_law()
    ensures segments { (f : List Item → List Item) (closed : List (List Cells)) (rest : List Item)
        → (closed_items f closed
        ++ f (drop (length (concat closed)) (of_rows (concat closed) ++ rest))
        ≡ flat_map f (segments_of closed (of_rows (concat closed) ++ rest)))
        × (concat (segments_of closed (of_rows (concat closed) ++ rest))
        ≡ of_rows (concat closed) ++ rest) }
    ensures partitions { (f : List Item → List Item) (n : ℕ) (cuts : ℕ → List (List Item))
        → (together n (λ i. flat_map f (cuts i)) ≡ flat_map f (together n cuts))
        × (concat (together n cuts) ≡ together n (λ i. concat (cuts i))) }
    ensures gathered { (column : ℕ) (columns : List ℕ) (n : ℕ) (parts : ℕ → List Item)
        → Gathers (column ∷ columns) n (row_parts n parts) → AreApart (column ∷ columns) n parts }
    ensures needed { (h : Hashing) (keys : List ℕ) (n : ℕ) (parts : ℕ → List Item)
        → Delivers h (group_need keys n) (row_parts n parts) → AreApart keys n parts }
{}

/// The states of a call: that of more values is joined from those of fewer (`updated`, `combined`),
/// also where one of them is read from its cells, and the answer is made of the state of all values
/// (`finished`).
pub fn states_law()
    ensures updated { (call : AggCall) (values : List Value) (value : Value)
        → merged call (state_of call values) (state_of call (value ∷ []))
        ≡ state_of call (values ++ value ∷ []) }
    ensures combined { (call : AggCall) (kind : Option Kind) (values others : List Value)
        (rest : Cells)
        → merged call (state_of call values)
        (read call (cells_of call kind (state_of call others) ++ rest))
        ≡ state_of call (values ++ others) }
    ensures finished { (call : AggCall) (kind : Option Kind) (values : List Value)
        → agg call kind values ≡ finished call kind (state_of call values) }
{}

/// The rows of the first phase (`first`), and the items of the second with keys (`second`) and
/// without (`one`), are what a table of states gives that takes one row after the other.
pub fn tables_law()
    ensures first { (columns : List ℕ) (calls : List AggCall) (kinds : List Kind)
        (rows : List Cells)
        → map (state_row calls kinds)
        (table (cells_at columns) (starts calls) (with_row calls) rows)
        ≡ phase_rows columns calls kinds rows }
    ensures second { (keys : List ℕ) (n : ℕ) (calls : List AggCall) (kinds : List Kind)
        (rows : List Cells)
        → map (finished_item n calls kinds)
        (table (cells_at keys) (starts calls) (with_cells_behind n calls) rows)
        ≡ grouped (cells_at keys) (final_item n calls kinds) rows }
    ensures one { (n : ℕ) (calls : List AggCall) (kinds : List Kind) (keys : Cells)
        (rows : List Cells)
        → finished_item n calls kinds (keys, fold (with_cells_behind n calls) (starts calls) rows)
        ≡ final_item n calls kinds keys rows }
{}
