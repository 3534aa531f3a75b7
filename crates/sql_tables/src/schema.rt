//! The columns of a table.

ghost use Rattle.std.specs.Prelude.{◌≡◌, IfOk, map};
ghost use Rattle.sql_tables.specs.Tables as spec;

use dfx_value::{Kind, NoMemory, Seq, Text};
use std::alloc::Global;

/// The columns of a table.
#[derive(Debug, Drop)]
pub struct Schema {
    pub names: Seq<Text>,
    /// As many as there are names.
    pub kinds: Seq<Kind>,
}

fn declared_names(alloc: Global, columns: &[(Text, Kind)]) -> Result<Seq<Text>, NoMemory>
    ensures { IfOk result (λ names. names ≡ map (λ c. c.0) columns.now) }
{
    let mut names = Vec::with_capacity(alloc, columns.len())?;
    for column in columns {
        names.push(column.0.copy(alloc)?)?;
    }
    Ok(Seq::from_vec(names))
}

fn declared_kinds(alloc: Global, columns: &[(Text, Kind)]) -> Result<Seq<Kind>, NoMemory>
    ensures { IfOk result (λ kinds. kinds ≡ map (λ c. c.1) columns.now) }
{
    let mut kinds = Vec::with_capacity(alloc, columns.len())?;
    for column in columns {
        kinds.push(column.1)?;
    }
    Ok(Seq::from_vec(kinds))
}

fn copied_names(alloc: Global, names: &[Text]) -> Result<Seq<Text>, NoMemory>
    ensures { IfOk result (λ copy. copy ≡ names.now) }
{
    let mut copy = Vec::with_capacity(alloc, names.len())?;
    for name in names {
        copy.push(name.copy(alloc)?)?;
    }
    Ok(Seq::from_vec(copy))
}

impl Schema {
    /// The columns that a statement declares.
    pub fn declared(alloc: Global, columns: &[(Text, Kind)]) -> Result<Schema, NoMemory>
        ensures { IfOk result (λ schema. schema ≡ spec.declared columns.now) }
    {
        Ok(Schema {
            names: declared_names(alloc, columns)?,
            kinds: declared_kinds(alloc, columns)?,
        })
    }

    pub(crate) fn copy(&self, alloc: Global) -> Result<Schema, NoMemory>
        ensures { IfOk result (λ schema. schema ≡ self.now) }
    {
        Ok(Schema {
            names: copied_names(alloc, self.names.as_slice())?,
            kinds: Seq::from_vec(Vec::from_slice(alloc, self.kinds.as_slice())?),
        })
    }
}
