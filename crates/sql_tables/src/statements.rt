//! The tables that a script declares.

ghost use Rattle.std.specs.Prelude.{◌≡◌, IfOk};
ghost use Rattle.typed_exprs.specs.Answer.{Gives};
ghost use Rattle.sql_tables.specs.Tables as spec;

use crate::schema::Schema;
use crate::table::Table;
use dfx_value::{Kind, NoMemory, Seq, Text};
use sql_grammar::ast::TableAst;
use std::alloc::Global;
use typed_exprs::{Column, Refusal, Unbound, Why};

fn is_among(name: &Text, names: &[Text]) -> bool
    ensures { result ≡ spec.is_among name.now names.now }
{
    for other in names {
        if *other == *name {
            return true;
        }
    }
    false
}

fn has_twice(names: &[Text]) -> bool
    ensures { result ≡ spec.has_twice names.now }
{
    for at in 0..names.len() {
        if is_among(&names[at], &names[at + 1..]) {
            return true;
        }
    }
    false
}

fn is_header(option: &(Text, Text)) -> bool
    ensures { result ≡ spec.is_header option.now }
{
    let (name, value) = option;
    (name.as_str() == "has_header" || name.as_str() == "format.has_header")
        && value.as_str() == "true"
}

fn has_other_option(options: &[(Text, Text)]) -> bool
    ensures { result ≡ spec.has_other_option options.now }
{
    for option in options {
        if !is_header(option) {
            return true;
        }
    }
    false
}

fn declares(name: &Text, tables: &[Table]) -> bool
    ensures { result ≡ spec.declares name.now tables.now }
{
    for table in tables {
        if table.name == *name {
            return true;
        }
    }
    false
}

/// An Arrow table has the columns of its files, another one those of its statement.
fn schema_of(alloc: Global, statement: &TableAst, files: &Schema) -> Result<Schema, NoMemory>
    ensures { IfOk result (λ schema. schema ≡ spec.schema_of statement.now files.now) }
{
    if statement.arrow {
        files.copy(alloc)
    } else {
        Schema::declared(alloc, statement.columns.as_slice())
    }
}

/// Each table has a column, and an Arrow table declares none.
fn has_wrong_columns(statement: &TableAst, schema: &Schema) -> bool
    ensures { result ≡ spec.has_wrong_columns statement.now schema.now }
{
    schema.names.len() == 0 || (statement.arrow && statement.columns.len() > 0)
}

fn table_with(
    alloc: Global,
    before: &[Table],
    statement: &TableAst,
    schema: Schema,
) -> Result<Table, Unbound>
    ensures { Gives result (spec.table before.now statement.now schema) }
{
    if has_wrong_columns(statement, &schema) || has_other_option(statement.options.as_slice()) {
        return Err(Unbound::from(Refusal::new(Why::Unsupported, statement.place)));
    }
    if declares(&statement.name, before) || has_twice(schema.names.as_slice()) {
        return Err(Unbound::from(Refusal::new(Why::Ambiguous, statement.place)));
    }
    Ok(Table {
        name: statement.name.copy(alloc)?,
        names: schema.names,
        kinds: schema.kinds,
    })
}

/// The table of a statement behind others, over files of this schema.
fn table(
    alloc: Global,
    before: &[Table],
    statement: &TableAst,
    files: &Schema,
) -> Result<Table, Unbound>
    ensures { Gives result
        (spec.table before.now statement.now (spec.schema_of statement.now files.now)) }
{
    let schema = schema_of(alloc, statement, files)?;
    table_with(alloc, before, statement, schema)
}

/// The tables of a script, each tested behind those before. One without a schema is Unsupported.
pub fn tables(
    alloc: Global,
    statements: &[TableAst],
    schemas: &[Schema],
) -> Result<Seq<Table>, Unbound>
    ensures { Gives result (spec.tables statements.now schemas.now) }
{
    let mut done = Vec::new(alloc);
    for at in 0..statements.len() {
        let statement = &statements[at];
        match schemas.get(at) {
            Some(files) => done.push(table(alloc, done.as_slice(), statement, files)?)?,
            None => {
                return Err(Unbound::from(Refusal::new(Why::Unsupported, statement.place)));
            }
        }
    }
    Ok(Seq::from_vec(done))
}

fn column_under(alloc: Global, alias: &Text, name: &Text, kind: Kind) -> Result<Column, NoMemory>
    ensures { IfOk result
        (λ column. column ≡ record { alias = alias.now; name = name.now; kind = kind }) }
{
    Ok(Column {
        alias: alias.copy(alloc)?,
        name: name.copy(alloc)?,
        kind,
    })
}

/// Columns of these names and kinds, under an alias.
pub fn columns_under(
    alloc: Global,
    alias: &Text,
    names: &[Text],
    kinds: &[Kind],
) -> Result<Vec<Column>, NoMemory>
    ensures { IfOk result
        (λ columns. columns.items ≡ spec.columns_under alias.now names.now kinds.now) }
{
    let mut columns = Vec::with_capacity(alloc, names.len())?;
    for at in 0..names.len() {
        match kinds.get(at) {
            Some(kind) => columns.push(column_under(alloc, alias, &names[at], *kind)?)?,
            None => return Ok(columns),
        }
    }
    Ok(columns)
}
