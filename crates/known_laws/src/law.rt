//! The law that well-kinded bodies are what the answers of finished plans ask for.

ghost use Rattle.std.specs.Prelude.{◌≡◌, ℕ, true, List, map, length};
ghost use Rattle.dfx_outside.specs.Contents.{Contents};
ghost use Rattle.dfx_value.specs.declared.kind.Kind.{Kind as AKind};
ghost use Rattle.logical_plan.specs.declared.plan.Logical.{Logical as ABody};
ghost use Rattle.logical_plan.specs.Body.{Tables};
ghost use Rattle.csv_source.specs.TableItems.{CsvTable, tables_from};
ghost use Rattle.kind_laws.specs.Kinded.{is_well_kinded};
ghost use Rattle.kind_laws.specs.Tables.{TablesHave, table_kinds, file_counts};
ghost use Rattle.answer_laws.specs.Distincts.{has_distincts};
ghost use Rattle.finished_laws.specs.Known.{is_known};

/// A well-kinded body over tables of the scans' kinds is one of which the answers of finished plans are told: each
/// DISTINCT is over rows of its kinds and at least one column (`distincts`); each scan is of a table with so many
/// files and with rows of its columns, and what is grouped is of its kinds (`known`). So it is over the tables that
/// CSV files mean (`csv_distincts`, `csv_known`).
pub fn known_law()
    ensures distincts { (kinds : List (List AKind)) (tables : Tables) (q : ABody)
        → TablesHave kinds tables
        → is_well_kinded kinds q ≡ true → has_distincts tables q ≡ true }
    ensures known { (kinds : List (List AKind)) (tables : Tables) (files : List ℕ) (q : ABody)
        → TablesHave kinds tables → files ≡ map length tables
        → is_well_kinded kinds q ≡ true → is_known tables files q ≡ true }
    ensures csv_distincts { (all : Contents) (ts : List CsvTable) (q : ABody)
        → is_well_kinded (table_kinds ts) q ≡ true → has_distincts (tables_from all 0 ts) q ≡ true }
    ensures csv_known { (all : Contents) (ts : List CsvTable) (q : ABody)
        → is_well_kinded (table_kinds ts) q ≡ true
        → is_known (tables_from all 0 ts) (file_counts ts) q ≡ true }
{}
