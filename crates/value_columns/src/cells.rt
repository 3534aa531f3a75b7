//! The cells of a column in memory.

ghost use Rattle.std.specs.Prelude.{map, min, ◌≡◌, ◌+◌, ◌<◌, ◌≤◌, ◌^◌, All, IfOk, [], ◌∷◌, ◌++◌, length, true, IfSome, OnOk, OnErr, IsUtf8, option_copied, slice_index_or, slice_range};
ghost use Rattle.dfx_value.specs.Rows.{row_size};
ghost use Rattle.dfx_value.specs.Kinds.{is_of, is_kind};
ghost use Rattle.dfx_value.specs.declared.kind.Kind.TheVariants as kind;
ghost use Rattle.dfx_value.specs.declared.value.Value.TheVariants as value;
ghost use Rattle.value_columns.specs.Cells.{value_of};
ghost use Rattle.value_columns.specs.Columns.{or_null, chosen_of, Kinded};
ghost use Rattle.value_columns.specs.Storage.{at_scale, kind_of, values_of};

use crate::cell::Cell;
use crate::masked::Masked;
use crate::texts::Texts;
use dfx_value::{Decimal, Kind, NoMemory};
use std::alloc::Global;

/// Cells of one kind.
#[derive(Drop)]
pub(crate) enum Cells {
    Truths(Masked<bool>),
    Ints(Masked<i64>),
    /// The numbers times a power of ten, with the precision and the scale.
    Decimals(u8, u8, Masked<i128>),
    Texts(Texts),
}

#[inline]
fn truth_cell(item: Option<bool>) -> Cell<'static>
    ensures { value_of result ≡ or_null value.Bool item }
{
    match item {
        None => Cell::Null,
        Some(truth) => Cell::Bool(truth),
    }
}

#[inline]
fn int_cell(item: Option<i64>) -> Cell<'static>
    ensures { value_of result ≡ or_null value.Int item }
{
    match item {
        None => Cell::Null,
        Some(number) => Cell::Int(number),
    }
}

#[tactic(auto, using(crate::proofs::ColumnLemmas::decimal_few, crate::proofs::ColumnLemmas::decimal_scale))]
#[inline]
fn decimal_cell(precision: u8, scale: u8, item: Option<i128>) -> Cell<'static>
    requires kind { is_kind (kind.Dec precision scale) ≡ true }
    requires value { is_of (kind.Dec precision scale) (or_null (at_scale scale) item) ≡ true }
    ensures { value_of result ≡ or_null (at_scale scale) item }
{
    match item {
        None => Cell::Null,
        Some(unscaled) => Cell::Dec(Decimal { unscaled, scale }),
    }
}

#[inline]
fn text_cell(item: Option<&[u8]>) -> Cell<'_>
    requires { IfSome item (λ t. IsUtf8 t.now) }
    ensures { value_of result ≡ or_null value.Text (option_copied item.entry) }
{
    match item {
        None => Cell::Null,
        Some(bytes) => Cell::Text(unsafe { str::from_utf8_unchecked(bytes) }),
    }
}

#[tactic(auto, using(crate::proofs::ColumnLemmas::column_steps))]
impl Cells {
    /// No cell.
    pub fn new(alloc: Global, kind: Kind) -> Cells
        ensures kind { kind_of result ≡ kind }
        ensures none { values_of result ≡ [] }
    {
        match kind {
            Kind::Bool => Cells::Truths(Masked::new(alloc)),
            Kind::Int => Cells::Ints(Masked::new(alloc)),
            Kind::Dec { precision, scale } => Cells::Decimals(precision, scale, Masked::new(alloc)),
            Kind::Text => Cells::Texts(Texts::new(alloc)),
        }
    }

    pub fn kind(&self) -> Kind
        ensures { result ≡ kind_of self.now }
    {
        match self {
            Cells::Truths(_) => Kind::Bool,
            Cells::Ints(_) => Kind::Int,
            Cells::Decimals(precision, scale, _) => Kind::Dec {
                precision: *precision,
                scale: *scale,
            },
            Cells::Texts(_) => Kind::Text,
        }
    }

    pub fn len(&self) -> usize
        ensures { result ≡ length (values_of self.now) }
    {
        match self {
            Cells::Truths(truths) => truths.len(),
            Cells::Ints(numbers) => numbers.len(),
            Cells::Decimals(_, _, numbers) => numbers.len(),
            Cells::Texts(texts) => texts.len(),
        }
    }

    /// The cell at a place.
    #[tactic(auto, using(crate::proofs::ColumnLemmas::value_reads))]
    #[inline]
    pub fn get(&self, at: usize) -> Cell<'_>
        requires within { at < length (values_of self.now) }
        requires kinded { Kinded (kind_of self.now) (values_of self.now) }
        ensures { value_of result ≡ slice_index_or (values_of self.now) at value.Null }
    {
        match self {
            Cells::Truths(truths) => truth_cell(truths.get(at)),
            Cells::Ints(numbers) => int_cell(numbers.get(at)),
            Cells::Decimals(precision, scale, numbers) => {
                decimal_cell(*precision, *scale, numbers.get(at))
            }
            Cells::Texts(texts) => text_cell(texts.get(at)),
        }
    }

    /// The truths.
    pub fn truths(&self) -> &Masked<bool>
        requires { kind_of self.now ≡ kind.Bool }
        ensures { map (or_null value.Bool) result.now ≡ values_of self.now }
    {
        match self {
            Cells::Truths(truths) => truths,
            _ => unreachable!(),
        }
    }

    /// The whole numbers.
    pub fn ints(&self) -> &Masked<i64>
        requires { kind_of self.now ≡ kind.Int }
        ensures { map (or_null value.Int) result.now ≡ values_of self.now }
    {
        match self {
            Cells::Ints(numbers) => numbers,
            _ => unreachable!(),
        }
    }

    /// The unscaled numbers of decimals.
    pub fn decimals(&self, precision: u8, scale: u8) -> &Masked<i128>
        requires { kind_of self.now ≡ kind.Dec precision scale }
        ensures { map (or_null (at_scale scale)) result.now ≡ values_of self.now }
    {
        match self {
            Cells::Decimals(_, _, numbers) => numbers,
            _ => unreachable!(),
        }
    }

    /// The texts.
    fn texts(&self) -> &Texts
        requires { kind_of self.now ≡ kind.Text }
        ensures { map (or_null value.Text) result.now ≡ values_of self.now }
    {
        match self {
            Cells::Texts(texts) => texts,
            _ => unreachable!(),
        }
    }

    /// Puts a part of others of the same kind at the end.
    #[tactic(auto, using(crate::proofs::ColumnLemmas::extend_steps))]
    pub fn extend(&mut self, others: &Cells, from: usize, to: usize) -> Result<(), NoMemory>
        requires kind { kind_of others.now ≡ kind_of self.old }
        requires order { from ≤ to }
        requires within { to ≤ length (values_of others.now) }
        ensures kind { kind_of self.new ≡ kind_of self.old }
        ensures ok { OnOk result
            (values_of self.new
            ≡ values_of self.old ++ slice_range (values_of others.now) from to) }
        ensures err { OnErr result (values_of self.new ≡ values_of self.old) }
    {
        match self {
            Cells::Truths(truths) => Ok(truths.extend(others.truths(), from, to)?),
            Cells::Ints(numbers) => Ok(numbers.extend(others.ints(), from, to)?),
            Cells::Decimals(precision, scale, numbers) => {
                Ok(numbers.extend(others.decimals(*precision, *scale), from, to)?)
            }
            Cells::Texts(texts) => Ok(texts.extend(others.texts(), from, to)?),
        }
    }

    /// 16 for each cell of a part and the bytes of its texts, or the largest number.
    #[tactic(auto, using(crate::proofs::SizeLemmas::size_steps))]
    pub fn size(&self, from: usize, to: usize) -> u64
        requires few { length (values_of self.now) < 2 ^ 32 }
        requires order { from ≤ to }
        requires within { to ≤ length (values_of self.now) }
        ensures { result
            ≡ min (row_size (slice_range (values_of self.now) from to)) 18446744073709551615 }
    {
        match self {
            Cells::Truths(_) => 16 * (to - from) as u64,
            Cells::Ints(_) => 16 * (to - from) as u64,
            Cells::Decimals(_, _, _) => 16 * (to - from) as u64,
            Cells::Texts(texts) => texts.size(from, to),
        }
    }

    #[tactic(auto, using(crate::proofs::ColumnLemmas::pick_steps))]
    /// The cells at the places, which are counted from a start.
    pub fn pick(&self, alloc: Global, from: usize, places: &[u32]) -> Result<Cells, NoMemory>
        requires few { length (values_of self.now) < 2 ^ 32 }
        requires places { All (λ p. from + p < length (values_of self.now)) places.now }
        ensures kind { IfOk result (λ cells. kind_of cells ≡ kind_of self.now) }
        ensures values { IfOk result
            (λ cells. values_of cells ≡ chosen_of (values_of self.now) from places.now) }
    {
        match self {
            Cells::Truths(truths) => Ok(Cells::Truths(truths.pick(alloc, from, places)?)),
            Cells::Ints(numbers) => Ok(Cells::Ints(numbers.pick(alloc, from, places)?)),
            Cells::Decimals(precision, scale, numbers) => {
                Ok(Cells::Decimals(*precision, *scale, numbers.pick(alloc, from, places)?))
            }
            Cells::Texts(texts) => Ok(Cells::Texts(texts.pick(alloc, from, places)?)),
        }
    }

    /// Puts a whole number at the end.
    pub fn push_int(&mut self, number: i64) -> Result<(), NoMemory>
        requires { kind_of self.old ≡ kind.Int }
        ensures kind { kind_of self.new ≡ kind_of self.old }
        ensures ok { OnOk result
            (values_of self.new ≡ values_of self.old ++ value.Int number ∷ []) }
        ensures err { OnErr result (values_of self.new ≡ values_of self.old) }
    {
        match self {
            Cells::Ints(numbers) => numbers.push(number),
            _ => unreachable!(),
        }
    }

    /// Puts a text at the end.
    pub fn push_text(&mut self, text: &str) -> Result<(), NoMemory>
        requires { kind_of self.old ≡ kind.Text }
        ensures kind { kind_of self.new ≡ kind_of self.old }
        ensures ok { OnOk result
            (values_of self.new ≡ values_of self.old ++ value.Text text.now ∷ []) }
        ensures err { OnErr result (values_of self.new ≡ values_of self.old) }
    {
        match self {
            Cells::Texts(texts) => texts.push(text.as_bytes()),
            _ => unreachable!(),
        }
    }

    /// Puts NULL at the end.
    pub fn push_null(&mut self) -> Result<(), NoMemory>
        ensures kind { kind_of self.new ≡ kind_of self.old }
        ensures ok { OnOk result (values_of self.new ≡ values_of self.old ++ value.Null ∷ []) }
        ensures err { OnErr result (values_of self.new ≡ values_of self.old) }
    {
        match self {
            Cells::Truths(truths) => truths.push_null(false),
            Cells::Ints(numbers) => numbers.push_null(0),
            Cells::Decimals(_, _, numbers) => numbers.push_null(0),
            Cells::Texts(texts) => texts.push_null(),
        }
    }

    /// Puts a truth at the end.
    pub fn push_truth(&mut self, truth: bool) -> Result<(), NoMemory>
        requires { kind_of self.old ≡ kind.Bool }
        ensures kind { kind_of self.new ≡ kind_of self.old }
        ensures ok { OnOk result
            (values_of self.new ≡ values_of self.old ++ value.Bool truth ∷ []) }
        ensures err { OnErr result (values_of self.new ≡ values_of self.old) }
    {
        match self {
            Cells::Truths(truths) => truths.push(truth),
            _ => unreachable!(),
        }
    }

    /// Puts a decimal of the column's scale at the end.
    pub fn push_decimal(&mut self, number: Decimal) -> Result<(), NoMemory>
        requires { is_of (kind_of self.old) (value.Dec number) ≡ true }
        ensures kind { kind_of self.new ≡ kind_of self.old }
        ensures ok { OnOk result
            (values_of self.new ≡ values_of self.old ++ value.Dec number ∷ []) }
        ensures err { OnErr result (values_of self.new ≡ values_of self.old) }
    {
        match self {
            Cells::Decimals(_, _, numbers) => numbers.push(number.unscaled),
            _ => unreachable!(),
        }
    }
}
