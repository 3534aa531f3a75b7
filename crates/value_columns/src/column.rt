//! Columns.

ghost use Rattle.std.specs.Prelude.{map, min, ◌≡◌, ◌+◌, ◌-◌, ◌^◌, ◌<◌, ◌≤◌, [], ◌∷◌, ◌++◌, All, length, true, IfOk, OnOk, OnErr, slice_index_or, slice_range};
ghost use Rattle.dfx_value.specs.Rows.{row_size};
ghost use Rattle.dfx_value.specs.Kinds.{is_of, is_kind};
ghost use Rattle.dfx_value.specs.declared.kind.Kind.TheVariants as kind;
ghost use Rattle.dfx_value.specs.declared.value.Value.TheVariants as value;
ghost use Rattle.value_columns.specs.Masked.{masked};
ghost use Rattle.value_columns.specs.Cells.{value_of};
ghost use Rattle.value_columns.specs.Storage.{at_scale};
ghost use Rattle.value_columns.specs.Columns.{Kinded, all_of, with_value, with_part, chosen, or_null};

use crate::cell::{Cell, look, own};
use crate::cells::Cells;
use crate::masked::Masked;
use dfx_value::{Decimal, Kind, NoMemory, Value};
use std::alloc::Global;
use std::marker::Model;

/// Values of one kind or NULL, fewer than 2^32.
#[derive(Drop)]
pub struct Column {
    cells: Cells,
}

/// Shows that a number is a value of its kind: it fits 64 bits. It does nothing.
#[inline]
fn is_int(number: i64)
    ensures { is_of kind.Int (value.Int number) ≡ true }
{
    let _ = number;
}

/// Shows that numbers are values of their kind. It does nothing.
#[tactic(auto, using(crate::proofs::ColumnLemmas::ints_more))]
fn are_ints(numbers: &[i64])
    ensures { all_of kind.Int (map value.Int numbers.now) ≡ true }
{
    for number in numbers {
        is_int(*number);
    }
}

impl Model for Column {
    ghost use Rattle.value_columns.specs.Columns.{KindedValues, Kinded};
    ghost use Rattle.value_columns.specs.Storage.{kind_of, values_of};

    ghost Value = { KindedValues };

    ghost view = { λ c. record { kind = kind_of c.cells; values = values_of c.cells } };

    ghost invariant = { λ c. Kinded (kind_of c.cells) (values_of c.cells) };
}

#[tactic(auto, using(crate::proofs::ColumnLemmas::column_steps))]
impl Column {
    /// A column of a kind without a value.
    pub fn new(alloc: Global, kind: Kind) -> Column
        requires { is_kind kind ≡ true }
        ensures { result ≡ record { kind = kind; values = [] } }
    {
        Column {
            cells: Cells::new(alloc, kind),
        }
    }

    /// The kind.
    pub fn kind(&self) -> Kind
        ensures kind { result ≡ self.now.kind }
        ensures kinded { Kinded self.now.kind self.now.values }
    {
        self.cells.kind()
    }

    /// How many values and NULLs there are.
    pub fn len(&self) -> u32
        ensures { result ≡ length self.now.values }
    {
        self.cells.len() as u32
    }

    /// A look at the value at a place.
    #[inline]
    pub fn cell(&self, at: u32) -> Cell<'_>
        requires { at < length self.now.values }
        ensures { value_of result ≡ slice_index_or self.now.values at value.Null }
    {
        self.cells.get(at as usize)
    }

    /// The value at a place.
    pub fn value(&self, alloc: Global, at: u32) -> Result<Value, NoMemory>
        requires { at < length self.now.values }
        ensures { IfOk result (λ v. v ≡ slice_index_or self.now.values at value.Null) }
    {
        own(alloc, self.cell(at))
    }

    /// Puts a value of the kind at the end.
    pub fn push(&mut self, cell: Cell<'_>) -> Result<(), NoMemory>
        requires room { length self.old.values + 1 < 2 ^ 32 }
        requires fits { is_of self.old.kind (value_of cell) ≡ true }
        ensures ok { OnOk result (self.new ≡ with_value self.old (value_of cell.entry)) }
        ensures err { OnErr result (self.new ≡ self.old) }
    {
        match cell {
            Cell::Null => self.push_null(),
            Cell::Bool(truth) => self.push_truth(truth),
            Cell::Int(number) => self.push_int(number),
            Cell::Dec(number) => self.push_decimal(number),
            Cell::Text(text) => self.push_text(text),
        }
    }

    /// Puts a truth at the end.
    pub fn push_truth(&mut self, truth: bool) -> Result<(), NoMemory>
        requires room { length self.old.values + 1 < 2 ^ 32 }
        requires kind { self.old.kind ≡ kind.Bool }
        ensures ok { OnOk result (self.new ≡ with_value self.old (value.Bool truth)) }
        ensures err { OnErr result (self.new ≡ self.old) }
    {
        self.cells.push_truth(truth)?;
        Ok(())
    }

    /// Puts a decimal of the column's kind at the end.
    pub fn push_decimal(&mut self, number: Decimal) -> Result<(), NoMemory>
        requires room { length self.old.values + 1 < 2 ^ 32 }
        requires fits { is_of self.old.kind (value.Dec number) ≡ true }
        ensures ok { OnOk result (self.new ≡ with_value self.old (value.Dec number)) }
        ensures err { OnErr result (self.new ≡ self.old) }
    {
        self.cells.push_decimal(number)?;
        Ok(())
    }

    /// Puts a value of the kind at the end, or hands it back.
    pub fn push_value(&mut self, value: Value) -> Result<(), Value>
        requires room { length self.old.values + 1 < 2 ^ 32 }
        requires fits { is_of self.old.kind value ≡ true }
        ensures ok { OnOk result (self.new ≡ with_value self.old value) }
        ensures err { OnErr result (self.new ≡ self.old) }
    {
        match self.push(look(&value)) {
            Ok(()) => Ok(()),
            Err(_) => Err(value),
        }
    }

    /// Puts a copy of a value of the kind at the end.
    pub fn push_copy(&mut self, value: &Value) -> Result<(), NoMemory>
        requires room { length self.old.values + 1 < 2 ^ 32 }
        requires fits { is_of self.old.kind value.now ≡ true }
        ensures ok { OnOk result (self.new ≡ with_value self.old value.now) }
        ensures err { OnErr result (self.new ≡ self.old) }
    {
        match value {
            Value::Null => self.push_null(),
            Value::Bool(truth) => self.push_truth(*truth),
            Value::Int(number) => self.push_int(*number),
            Value::Dec(number) => self.push_decimal(*number),
            Value::Text(text) => self.push_text(text.as_str()),
        }
    }

    /// Puts a whole number at the end.
    pub fn push_int(&mut self, number: i64) -> Result<(), NoMemory>
        requires room { length self.old.values + 1 < 2 ^ 32 }
        requires kind { self.old.kind ≡ kind.Int }
        ensures ok { OnOk result (self.new ≡ with_value self.old (value.Int number)) }
        ensures err { OnErr result (self.new ≡ self.old) }
    {
        self.cells.push_int(number)?;
        Ok(())
    }

    /// Puts a text at the end.
    pub fn push_text(&mut self, text: &str) -> Result<(), NoMemory>
        requires room { length self.old.values + 1 < 2 ^ 32 }
        requires kind { self.old.kind ≡ kind.Text }
        ensures ok { OnOk result (self.new ≡ with_value self.old (value.Text text.now)) }
        ensures err { OnErr result (self.new ≡ self.old) }
    {
        self.cells.push_text(text)?;
        Ok(())
    }

    /// Puts NULL at the end.
    pub fn push_null(&mut self) -> Result<(), NoMemory>
        requires { length self.old.values + 1 < 2 ^ 32 }
        ensures ok { OnOk result (self.new ≡ with_value self.old value.Null) }
        ensures err { OnErr result (self.new ≡ self.old) }
    {
        self.cells.push_null()?;
        Ok(())
    }

    /// A part's whole numbers where they stand, with a mask: NULL where its bit is true, and nowhere past its end.
    #[tactic(auto, using(crate::proofs::ColumnLemmas::part_steps))]
    pub fn ints(&self, from: u32, to: u32) -> (&[i64], &[bool])
        requires kind { self.now.kind ≡ kind.Int }
        requires order { from ≤ to }
        requires within { to ≤ length self.now.values }
        ensures value { map (or_null value.Int) (masked result.0.now result.1.now)
            ≡ slice_range self.now.values from to }
        ensures mask { length result.1.now ≤ length result.0.now }
    {
        self.cells.ints().part(from as usize, to as usize)
    }

    /// A part's truths where they stand, with a mask as that of `ints`.
    #[tactic(auto, using(crate::proofs::ColumnLemmas::part_steps))]
    pub fn truths(&self, from: u32, to: u32) -> (&[bool], &[bool])
        requires kind { self.now.kind ≡ kind.Bool }
        requires order { from ≤ to }
        requires within { to ≤ length self.now.values }
        ensures value { map (or_null value.Bool) (masked result.0.now result.1.now)
            ≡ slice_range self.now.values from to }
        ensures mask { length result.1.now ≤ length result.0.now }
    {
        self.cells.truths().part(from as usize, to as usize)
    }

    /// The unscaled numbers of a part's decimals where they stand, with a mask as that of `ints`.
    #[tactic(auto, using(crate::proofs::ColumnLemmas::part_steps))]
    pub fn decimals(&self, precision: u8, scale: u8, from: u32, to: u32) -> (&[i128], &[bool])
        requires kind { self.now.kind ≡ kind.Dec precision scale }
        requires order { from ≤ to }
        requires within { to ≤ length self.now.values }
        ensures value { map (or_null (at_scale scale)) (masked result.0.now result.1.now)
            ≡ slice_range self.now.values from to }
        ensures mask { length result.1.now ≤ length result.0.now }
    {
        self.cells
            .decimals(precision, scale)
            .part(from as usize, to as usize)
    }

    /// A column of whole numbers, with a mask as that of `ints`.
    #[tactic(auto, using(crate::proofs::ColumnLemmas::masked_columns))]
    pub fn of_ints(numbers: Vec<i64>, nulls: Vec<bool>) -> Column
        requires few { length numbers.items < 2 ^ 32 }
        requires mask { length nulls.items ≤ length numbers.items }
        ensures kind { result.kind ≡ kind.Int }
        ensures values { result.values
            ≡ map (or_null value.Int) (masked numbers.items nulls.items) }
    {
        are_ints(&numbers);
        Column {
            cells: Cells::Ints(Masked::of_parts(numbers, nulls)),
        }
    }

    /// A column of truths, with a mask as that of `ints`.
    #[tactic(auto, using(crate::proofs::ColumnLemmas::masked_columns))]
    pub fn of_truths(truths: Vec<bool>, nulls: Vec<bool>) -> Column
        requires few { length truths.items < 2 ^ 32 }
        requires mask { length nulls.items ≤ length truths.items }
        ensures kind { result.kind ≡ kind.Bool }
        ensures values { result.values
            ≡ map (or_null value.Bool) (masked truths.items nulls.items) }
    {
        Column {
            cells: Cells::Truths(Masked::of_parts(truths, nulls)),
        }
    }

    /// Puts a part of another column of the kind at the end.
    #[tactic(auto, using(crate::proofs::ColumnLemmas::part_steps))]
    pub fn extend(&mut self, other: &Column, from: u32, to: u32) -> Result<(), NoMemory>
        requires kind { other.now.kind ≡ self.old.kind }
        requires order { from ≤ to }
        requires within { to ≤ length other.now.values }
        requires room { length self.old.values + (to - from) < 2 ^ 32 }
        ensures ok { OnOk result (self.new ≡ with_part self.old other.now from to) }
        ensures err { OnErr result (self.new ≡ self.old) }
    {
        self.cells.extend(&other.cells, from as usize, to as usize)?;
        Ok(())
    }

    /// 16 for each value and NULL of a part and the bytes of its texts, or the largest number.
    pub fn size(&self, from: u32, to: u32) -> u64
        requires order { from ≤ to }
        requires within { to ≤ length self.now.values }
        ensures { result
            ≡ min (row_size (slice_range self.now.values from to)) 18446744073709551615 }
    {
        self.cells.size(from as usize, to as usize)
    }

    /// A column of the values at the places, which are counted from a start.
    #[tactic(auto, using(crate::proofs::ColumnLemmas::choices))]
    pub fn pick(&self, alloc: Global, from: u32, places: &[u32]) -> Result<Column, NoMemory>
        requires places { All (λ p. from + p < length self.now.values) places.now }
        requires few { length places.now < 2 ^ 32 }
        ensures { IfOk result (λ column. column ≡ chosen self.now from places.now) }
    {
        Ok(Column {
            cells: self.cells.pick(alloc, from as usize, places)?,
        })
    }
}
