//! What the statements of tables declare.

ghost use Rattle.std.specs.Prelude.{◌≡◌, IfOk, length, map};
ghost use Rattle.dfx_prepare.specs.Preparing as spec;

use dfx_value::{NoMemory, Seq, Text};
use sql_grammar::ast::TableAst;
use sql_tables::Schema;
use std::alloc::Global;

/// The columns of the tables as their statements declare them.
pub fn schemas_of(alloc: Global, tables: &[TableAst]) -> Result<Vec<Schema>, NoMemory>
    ensures { IfOk result (λ schemas. schemas.items ≡ map spec.schema_of tables.now) }
{
    let mut schemas = Vec::with_capacity(alloc, tables.len())?;
    for table in tables {
        schemas.push(Schema::declared(alloc, table.columns.as_slice())?)?;
    }
    Ok(schemas)
}

/// The names of the tables.
pub fn table_names(alloc: Global, tables: &[TableAst]) -> Result<Seq<Text>, NoMemory>
    ensures { IfOk result (λ names. names ≡ spec.table_names tables.now) }
{
    let mut names = Vec::with_capacity(alloc, tables.len())?;
    for table in tables {
        names.push(table.name.copy(alloc)?)?;
    }
    Ok(Seq::from_vec(names))
}

/// For each table whether its files are Arrow files.
pub fn are_arrow(alloc: Global, tables: &[TableAst]) -> Result<Seq<bool>, NoMemory>
    ensures { IfOk result (λ arrow. arrow ≡ spec.are_arrow tables.now) }
{
    let mut arrow = Vec::with_capacity(alloc, tables.len())?;
    for table in tables {
        arrow.push(table.arrow)?;
    }
    Ok(Seq::from_vec(arrow))
}

/// How many files each table has. A number of 2^32 or more counts as want of memory.
pub fn counts_of(alloc: Global, paths: &[Seq<Text>]) -> Result<Vec<u32>, NoMemory>
    ensures { IfOk result (λ counts. counts.items ≡ map length paths.now) }
{
    let mut counts = Vec::with_capacity(alloc, paths.len())?;
    for files in paths {
        let Ok(count) = u32::try_from(files.len()) else {
            return Err(NoMemory);
        };
        counts.push(count)?;
    }
    Ok(counts)
}
