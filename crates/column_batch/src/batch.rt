//! Batches of rows.

ghost use Rattle.std.specs.Prelude.{◌≡◌, ◌+◌, ◌^◌, ◌<◌, ◌≤◌, [], ◌∷◌, ◌++◌, All, length, map, min, true, IfOk, OnOk, OnErr, slice_range, slice_index_or};
ghost use Rattle.dfx_value.specs.Kinds.{are_of};
ghost use Rattle.dfx_value.specs.KindedRows.{all_are, rows_size};
ghost use Rattle.std.specs.Io.{StartsWith};
ghost use Rattle.std.specs.String.{string_bytes};
ghost use Rattle.dfx_value.specs.Print.{printed};
ghost use Rattle.dfx_value.specs.Rows as rows;
ghost use Rattle.dfx_value.specs.declared.kind.Kind.TheVariants as kind;
ghost use Rattle.dfx_value.specs.declared.value.Value.TheVariants as value;
ghost use Rattle.value_columns.specs.Cells.{value_of};
ghost use Rattle.value_columns.specs.Masked.{masked};
ghost use Rattle.value_columns.specs.Columns.{Kinded, or_null};
ghost use Rattle.value_columns.specs.Storage.{at_scale};
ghost use Rattle.column_batch.specs.Batches.{row_at, rows_at, kept, cut, cells_at, kinds_at, column_of};
ghost use Rattle.column_batch.specs.Parts.{places_from, all_chosen, part_size};

use crate::shared::{Shared, share_all, share_some};
use dfx_value::{NoMemory, Row};
use std::alloc::Global;
use std::marker::Model;
use value_columns::{Cell, own, push_printed};

/// Rows, each with a cell for each of the batch's kinds, NULL or of that kind. There are fewer than
/// 2^32. They are a part of columns that batches share.
#[derive(Drop)]
pub struct Batch {
    pub(crate) columns: Vec<Shared>,
    pub(crate) from: u32,
    pub(crate) rows: u32,
}

impl Model for Batch {
    ghost use Rattle.dfx_value.specs.KindedRows.{KindedRows};
    ghost use Rattle.column_batch.specs.Batches.{cut};
    ghost use Rattle.column_batch.specs.Parts.{Whole};

    ghost Value = { KindedRows };

    ghost view = { λ b. cut b.columns.items b.from b.rows };

    ghost invariant = { λ b. Whole b.columns.items b.from b.rows };
}

/// The row at a place of columns.
#[tactic(auto, using(crate::proofs::BatchLemmas::row_steps))]
fn row_of(alloc: Global, columns: &[Shared], at: u32) -> Result<Row, NoMemory>
    requires { All (λ c. at < length c.values) columns.now }
    ensures { IfOk result (λ row. row ≡ row_at columns.now at) }
{
    let mut cells = Vec::with_capacity(alloc, columns.len())?;
    for column in columns {
        cells.push(own(alloc, column.column().cell(at))?)?;
    }
    Ok(Row { cells })
}

/// Each column with the values at the places.
#[tactic(auto, using(crate::proofs::BatchLemmas::pick_steps))]
fn pick_all(
    alloc: Global,
    columns: &[Shared],
    from: u32,
    places: &[u32],
) -> Result<Vec<Shared>, NoMemory>
    requires places { All (λ c. All (λ p. from + p < length c.values) places.now) columns.now }
    requires few { length places.now < 2 ^ 32 }
    ensures { IfOk result (λ all. all.items ≡ all_chosen columns.now from places.now) }
{
    let mut all = Vec::with_capacity(alloc, columns.len())?;
    for column in columns {
        let picked = column.column().pick(alloc, from, places)?;
        all.push(Shared::new(alloc, picked)?)?;
    }
    Ok(all)
}

#[tactic(auto, using(crate::proofs::BatchLemmas::batch_steps))]
impl Batch {
    /// How many rows there are.
    pub fn rows(&self) -> u32
        ensures rows { result ≡ length self.now.rows }
        ensures kinded { all_are self.now.kinds self.now.rows ≡ true }
    {
        self.rows
    }

    /// How many columns there are.
    pub fn width(&self) -> usize
        ensures { result ≡ length self.now.kinds }
    {
        self.columns.len()
    }

    /// A copy of the row at a place.
    pub fn row(&self, alloc: Global, at: u32) -> Result<Row, NoMemory>
        requires { at < length self.now.rows }
        ensures { IfOk result (λ row. row ≡ slice_index_or self.now.rows at []) }
    {
        row_of(alloc, &self.columns, self.from + at)
    }

    /// The rows from one place to before another, not copied.
    pub fn slice(&self, alloc: Global, from: u32, to: u32) -> Result<Batch, NoMemory>
        requires order { from ≤ to }
        requires within { to ≤ length self.now.rows }
        ensures kinds { IfOk result (λ part. part.kinds ≡ self.now.kinds) }
        ensures rows { IfOk result (λ part. part.rows ≡ slice_range self.now.rows from to) }
    {
        Ok(Batch {
            columns: share_all(alloc, &self.columns)?,
            from: self.from + from,
            rows: to - from,
        })
    }

    /// The rows at the places.
    pub fn pick(&self, alloc: Global, places: &[u32]) -> Result<Batch, NoMemory>
        requires places { All (λ p. p < length self.now.rows) places.now }
        requires few { length places.now < 2 ^ 32 }
        ensures kinds { IfOk result (λ picked. picked.kinds ≡ self.now.kinds) }
        ensures rows { IfOk result (λ picked. picked.rows ≡ rows_at self.now.rows places.now) }
    {
        Ok(Batch {
            columns: pick_all(alloc, &self.columns, self.from, places)?,
            from: 0,
            rows: places.len() as u32,
        })
    }

    /// A look at the cell of a row and a column.
    #[inline]
    pub fn cell(&self, at: u32, column: u32) -> Cell<'_>
        requires row { at < length self.now.rows }
        requires column { column < length self.now.kinds }
        ensures { value_of result ≡ rows.cell (slice_index_or self.now.rows at []) column }
    {
        self.columns[column as usize].column().cell(self.from + at)
    }

    /// The rows whose bit is true.
    #[tactic(auto, using(crate::proofs::BatchLemmas::filter_steps))]
    pub fn filter(&self, alloc: Global, keep: &[bool]) -> Result<Batch, NoMemory>
        requires { length keep.now ≡ length self.now.rows }
        ensures kinds { IfOk result (λ picked. picked.kinds ≡ self.now.kinds) }
        ensures rows { IfOk result (λ picked. picked.rows ≡ kept keep.now self.now.rows) }
    {
        let _ = self.rows();
        let places = places_of(alloc, keep)?;
        self.pick(alloc, &places)
    }

    /// The rows with these columns alone, in the order in which they are named, not copied.
    pub fn project(&self, alloc: Global, columns: &[u32]) -> Result<Batch, NoMemory>
        requires { All (λ k. k < length self.now.kinds) columns.now }
        ensures kinds { IfOk result (λ part. part.kinds ≡ kinds_at self.now.kinds columns.now) }
        ensures rows { IfOk result (λ part. part.rows ≡ map (cells_at columns.now) self.now.rows) }
    {
        Ok(Batch {
            columns: share_some(alloc, &self.columns, columns)?,
            from: self.from,
            rows: self.rows,
        })
    }

    /// The cells of a column: the same column once more where the batch has all of it, else copied.
    pub fn column(&self, alloc: Global, at: u32) -> Result<Shared, NoMemory>
        requires { at < length self.now.kinds }
        ensures kind { IfOk result (λ c. c.kind ≡ slice_index_or self.now.kinds at kind.Bool) }
        ensures values { IfOk result (λ c. c.values ≡ column_of self.now.rows at) }
    {
        Ok(self.columns[at as usize].part(alloc, self.from, self.from + self.rows)?)
    }

    /// A column's whole numbers where they stand, with a mask: NULL where its bit is true, and
    /// nowhere past its end.
    pub fn ints(&self, at: u32) -> (&[i64], &[bool])
        requires column { at < length self.now.kinds }
        requires kind { slice_index_or self.now.kinds at kind.Bool ≡ kind.Int }
        ensures { map (or_null value.Int) (masked result.0.now result.1.now)
            ≡ column_of self.now.rows at }
    {
        self.columns[at as usize]
            .column()
            .ints(self.from, self.from + self.rows)
    }

    /// A column's truths where they stand, with a mask as that of `ints`.
    pub fn truths(&self, at: u32) -> (&[bool], &[bool])
        requires column { at < length self.now.kinds }
        requires kind { slice_index_or self.now.kinds at kind.Bool ≡ kind.Bool }
        ensures { map (or_null value.Bool) (masked result.0.now result.1.now)
            ≡ column_of self.now.rows at }
    {
        self.columns[at as usize]
            .column()
            .truths(self.from, self.from + self.rows)
    }

    /// The unscaled numbers of a column's decimals where they stand, with a mask as that of `ints`.
    pub fn decimals(&self, at: u32, precision: u8, scale: u8) -> (&[i128], &[bool])
        requires column { at < length self.now.kinds }
        requires kind { slice_index_or self.now.kinds at kind.Bool ≡ kind.Dec precision scale }
        ensures { map (or_null (at_scale scale)) (masked result.0.now result.1.now)
            ≡ column_of self.now.rows at }
    {
        self.columns[at as usize]
            .column()
            .decimals(precision, scale, self.from, self.from + self.rows)
    }

    /// Appends the printed text of a cell: nothing for NULL. After want of memory the text begins
    /// with what it was.
    pub fn push_cell(&self, text: &mut String, at: u32, column: u32) -> Result<(), NoMemory>
        requires row { at < length self.now.rows }
        requires column { column < length self.now.kinds }
        ensures ok { OnOk result (string_bytes text.new
            ≡ string_bytes text.old
            ++ printed (rows.cell (slice_index_or self.now.rows at []) column)) }
        ensures err { OnErr result (StartsWith (string_bytes text.new) (string_bytes text.old)) }
    {
        match self.cell(at, column) {
            Cell::Dec(number) => push_printed(text, Cell::Dec(number)),
            cell => push_printed(text, cell),
        }
    }

    /// The sum of the sizes of its rows in bytes, or 2^64 - 1 where that is less.
    pub fn size(&self) -> u64
        ensures { result ≡ min (rows_size self.now.rows) 18446744073709551615 }
    {
        size_of(&self.columns, self.from, self.from + self.rows)
    }

    /// The rows of columns, as far as the count.
    pub fn of_columns(columns: Vec<Shared>, rows: u32) -> Batch
        requires { All (λ c. rows ≤ length c.values) columns.items }
        ensures { result ≡ cut columns.items 0 rows }
    {
        each_kinded(&columns);
        Batch {
            columns,
            from: 0,
            rows,
        }
    }
}

/// 16 for each cell of a part of columns and the bytes of its texts, or the largest number.
fn size_of(columns: &[Shared], from: u32, to: u32) -> u64
    requires order { from ≤ to }
    requires within { All (λ c. to ≤ length c.values) columns.now }
    ensures { result ≡ min (part_size columns.now from to) 18446744073709551615 }
{
    let mut size: u64 = 0;
    for column in columns {
        size = size.saturating_add(column.column().size(from, to));
    }
    size
}

/// Changes nothing, and tells what every column is.
fn each_kinded(columns: &[Shared])
    ensures { All (λ c. Kinded c.kind c.values) columns.now }
{
    for column in columns {
        let _ = column.column().kind();
    }
}

/// The places of the true bits.
#[tactic(auto, using(crate::proofs::BatchLemmas::filter_steps))]
fn places_of(alloc: Global, keep: &[bool]) -> Result<Vec<u32>, NoMemory>
    requires { length keep.now < 2 ^ 32 }
    ensures { IfOk result (λ places. places.items ≡ places_from 0 keep.now) }
{
    let mut places = Vec::with_capacity(alloc, keep.len())?;
    for at in 0..keep.len() {
        if keep[at] {
            places.push(at as u32)?;
        }
    }
    Ok(places)
}
