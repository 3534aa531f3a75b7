//! Batches that are made row by row.

ghost use Rattle.std.specs.Prelude.{◌≡◌, ◌+◌, ◌-◌, ◌^◌, ◌<◌, ◌≤◌, [], ◌∷◌, ◌++◌, All, length, true, IfOk, IfErr, OnOk, OnErr, ℕ, take};
ghost use Rattle.dfx_value.specs.Kinds.{are_of, are_kinds};
ghost use Rattle.column_batch.specs.Batches.{kinds_of};
ghost use Rattle.column_batch.specs.Parts.{all_with, all_with_parts, empties};

use crate::batch::Batch;
use crate::shared::Shared;
use dfx_value::{Kind, NoMemory, Row, Value};
use std::alloc::Global;
use std::marker::Model;
use value_columns::Column;

/// A batch that is being made, row by row. Once there was no memory for a row it takes no more.
#[derive(Drop)]
pub struct Builder {
    columns: Vec<Column>,
    rows: u32,
    full: bool,
}

impl Model for Builder {
    ghost use Rattle.dfx_value.specs.KindedRows.{KindedRows};
    ghost use Rattle.column_batch.specs.Batches.{cut};
    ghost use Rattle.column_batch.specs.Parts.{Fills};

    ghost Value = { KindedRows };

    ghost view = { λ b. cut b.columns.items 0 b.rows };

    ghost invariant = { λ b. Fills b.columns.items b.rows b.full };
}

/// Puts a value of a row to each column, as far as there is memory.
#[tactic(auto, using(crate::proofs::BuilderLemmas::with_steps))]
fn push_all(columns: &mut Vec<Column>, cells: &[Value]) -> Result<(), NoMemory>
    requires fits { are_of (kinds_of columns.old.items) cells.now ≡ true }
    requires room { All (λ c. length c.values + 1 < 2 ^ 32) columns.old.items }
    ensures ok { OnOk result (columns.new.items ≡ all_with columns.old.items cells.now) }
    ensures err { OnErr result ((k : ℕ)
        × (columns.new.items ≡ all_with columns.old.items (take k cells.now))) }
{
    let mut at = 0;
    for cell in cells {
        let column = &mut columns[at];
        column.push_copy(cell)?;
        at += 1;
    }
    Ok(())
}

/// Puts a part of another column to each column, as far as there is memory.
#[tactic(auto, using(crate::proofs::ExtendLemmas::with_steps))]
fn extend_all(
    columns: &mut Vec<Column>,
    others: &[Shared],
    from: u32,
    to: u32,
) -> Result<(), NoMemory>
    requires kinds { kinds_of others.now ≡ kinds_of columns.old.items }
    requires order { from ≤ to }
    requires within { All (λ c. to ≤ length c.values) others.now }
    requires room { All (λ c. length c.values + (to - from) < 2 ^ 32) columns.old.items }
    ensures ok { OnOk result (columns.new.items
        ≡ all_with_parts columns.old.items others.now from to) }
    ensures err { OnErr result ((k : ℕ) × (columns.new.items
        ≡ all_with_parts columns.old.items (take k others.now) from to)) }
{
    let mut at = 0;
    for other in others {
        let column = &mut columns[at];
        column.extend(other.column(), from, to)?;
        at += 1;
    }
    Ok(())
}

/// The columns, to be shared.
fn share_new(alloc: Global, columns: Vec<Column>) -> Result<Vec<Shared>, NoMemory>
    ensures { IfOk result (λ all. all.items ≡ columns.items) }
{
    let mut all = Vec::with_capacity(alloc, columns.len())?;
    for column in columns {
        all.push(Shared::new(alloc, column)?)?;
    }
    Ok(all)
}

/// A column without a value for each kind.
#[tactic(auto, using(crate::proofs::BuilderLemmas::empty_steps))]
fn empty_columns(alloc: Global, kinds: &[Kind]) -> Result<Vec<Column>, NoMemory>
    requires { are_kinds kinds.now ≡ true }
    ensures { IfOk result (λ all. all.items ≡ empties kinds.now) }
{
    let mut all = Vec::with_capacity(alloc, kinds.len())?;
    for kind in kinds {
        all.push(Column::new(alloc, *kind))?;
    }
    Ok(all)
}

/// A column without a value of each column's kind.
#[tactic(auto, using(crate::proofs::ExtendLemmas::alike_more))]
fn empty_alike(alloc: Global, columns: &[Shared]) -> Result<Vec<Column>, NoMemory>
    ensures { IfOk result (λ all. all.items ≡ empties (kinds_of columns.now)) }
{
    let mut all = Vec::with_capacity(alloc, columns.len())?;
    for column in columns {
        all.push(Column::new(alloc, column.column().kind()))?;
    }
    Ok(all)
}

impl Builder {
    /// A builder of a batch of these kinds, with no row.
    #[tactic(auto, using(crate::proofs::BuilderLemmas::empty_steps))]
    pub fn new(alloc: Global, kinds: &[Kind]) -> Result<Builder, NoMemory>
        requires { are_kinds kinds.now ≡ true }
        ensures kinds { IfOk result (λ builder. builder.kinds ≡ kinds.now) }
        ensures rows { IfOk result (λ builder. builder.rows ≡ []) }
    {
        Ok(Builder {
            columns: empty_columns(alloc, kinds)?,
            rows: 0,
            full: false,
        })
    }

    /// Puts a row at the end, or hands it back where there is no memory for it.
    #[tactic(auto, using(crate::proofs::BuilderLemmas::push_steps))]
    pub fn push(&mut self, row: Row) -> Result<(), Row>
        requires room { length self.old.rows + 1 < 2 ^ 32 }
        requires fits { are_of self.old.kinds row ≡ true }

        ensures kinds { self.new.kinds ≡ self.old.kinds }
        ensures ok { OnOk result (self.new.rows ≡ self.old.rows ++ row ∷ []) }
        ensures err { OnErr result (self.new.rows ≡ self.old.rows) }
        ensures back { IfErr result (λ same. same ≡ row) }
    {
        if self.full {
            return Err(row);
        }
        match push_all(&mut self.columns, &row.cells) {
            Ok(()) => {
                self.rows += 1;
                Ok(())
            }
            Err(_) => {
                self.full = true;
                Err(row)
            }
        }
    }

    /// A builder of a batch of another's kinds, with no row.
    #[tactic(auto, using(crate::proofs::BuilderLemmas::empty_steps))]
    pub fn alike(alloc: Global, batch: &Batch) -> Result<Builder, NoMemory>
        ensures kinds { IfOk result (λ builder. builder.kinds ≡ batch.now.kinds) }
        ensures rows { IfOk result (λ builder. builder.rows ≡ []) }
    {
        Ok(Builder {
            columns: empty_alike(alloc, &batch.columns)?,
            rows: 0,
            full: false,
        })
    }

    /// Puts the rows of a batch at the end. Where there is no memory for them, none is put.
    #[tactic(auto, using(crate::proofs::ExtendLemmas::extend_steps))]
    pub fn extend(&mut self, batch: &Batch) -> Result<(), NoMemory>
        requires kinds { batch.now.kinds ≡ self.old.kinds }
        requires room { length self.old.rows + length batch.now.rows < 2 ^ 32 }

        ensures kinds { self.new.kinds ≡ self.old.kinds }
        ensures ok { OnOk result (self.new.rows ≡ self.old.rows ++ batch.now.rows) }
        ensures err { OnErr result (self.new.rows ≡ self.old.rows) }
    {
        if self.full {
            return Err(NoMemory);
        }
        let to = batch.from + batch.rows;
        match extend_all(&mut self.columns, &batch.columns, batch.from, to) {
            Ok(()) => {
                self.rows += batch.rows;
                Ok(())
            }
            Err(refused) => {
                self.full = true;
                Err(refused)
            }
        }
    }

    /// The batch of the rows.
    pub fn finish(self, alloc: Global) -> Result<Batch, NoMemory>
        ensures { IfOk result (λ batch. batch ≡ self) }
    {
        let Builder { columns, rows, .. } = self;
        Ok(Batch::of_columns(share_new(alloc, columns)?, rows))
    }
}
