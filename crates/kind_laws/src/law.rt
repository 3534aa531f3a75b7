//! Laws of kinds: well-kinded bodies give rows of their kinds, and so do CSV files.

ghost use Rattle.std.specs.Prelude.{◌≡◌, true, List, map, length};
ghost use Rattle.dfx_outside.specs.Contents.{Contents};
ghost use Rattle.dfx_value.specs.declared.kind.Kind.{Kind as AKind};
ghost use Rattle.logical_plan.specs.declared.plan.Logical.{Logical as ABody};
ghost use Rattle.logical_plan.specs.Body.{Tables};
ghost use Rattle.csv_source.specs.TableItems.{CsvTable, tables_from};
ghost use Rattle.kind_laws.specs.Kinded.{is_well_kinded};
ghost use Rattle.kind_laws.specs.Giving.{gives_kinds, everywhere_kinded};
ghost use Rattle.kind_laws.specs.Tables.{TablesHave, FaultsAreNamed, table_kinds, file_counts};

/// Over tables of the scans' kinds a well-kinded body gives rows of its kinds (`rows`), and so does every node
/// of it (`nodes`).
pub fn kinds_law()
    ensures rows { (kinds : List (List AKind)) (tables : Tables) (q : ABody)
        → TablesHave kinds tables
        → is_well_kinded kinds q ≡ true → gives_kinds tables q ≡ true }
    ensures nodes { (kinds : List (List AKind)) (tables : Tables) (q : ABody)
        → TablesHave kinds tables
        → is_well_kinded kinds q ≡ true → everywhere_kinded tables q ≡ true }
{}

/// The tables that CSV files mean, whatever the files hold: their rows are of their columns' kinds (`kinds`), each
/// fault names the table and the file that it is in (`faults`), and a table has as many files as paths (`files`).
pub fn tables_law()
    ensures kinds { (all : Contents) (ts : List CsvTable)
        → TablesHave (table_kinds ts) (tables_from all 0 ts) }
    ensures faults { (all : Contents) (ts : List CsvTable) → FaultsAreNamed (tables_from all 0 ts) }
    ensures files { (all : Contents) (ts : List CsvTable)
        → map length (tables_from all 0 ts) ≡ file_counts ts }
{}
