//! Values of rows, one after the other.

ghost use Rattle.std.specs.Prelude.{◌≡◌, ◌<◌, ◌≤◌, length, slice_index_or, take, IfOk, IfSome, replicate, map, not, Some, None};
ghost use Rattle.dfx_value.specs.declared.value.Value.TheVariants as value;
ghost use Rattle.scalar_exprs.specs.Truth as truth;
ghost use Rattle.scalar_vector.specs.Items.{ints, items_of, truths};
ghost use Rattle.scalar_vector.specs.Lanes.{ints_of};
ghost use Rattle.scalar_vector.specs.Woven.{marked};
ghost use Rattle.scalar_vector.specs.Woven as spec;
ghost use Rattle.scalar_vector.specs.Vectors.{values_of, front_of, StopsAt};
ghost use Rattle.value_columns.specs.Cells.{value_of};
ghost use Rattle.value_columns.specs.Columns.{or_null};

use crate::items::{Items, choose_items};
use crate::lanes::Lane;
use crate::looks::{is_null_cell, is_true_cell};
use column_batch::{Cell, Column, Shared, look, own};
use dfx_value::{EvalFault, Kind, NoMemory, Value};
use scalar_exprs::EvalRefused;
use std::alloc::Global;
use value_columns::Masked;

/// Values of rows, one after the other.
#[derive(Drop)]
pub enum Vector {
    /// One value for so many rows.
    Constant(Value, usize),
    /// The first values of a column, so many.
    Shown(Shared, usize),
    /// Values that were made.
    Made(Vec<Value>),
    /// Whole numbers that were made, or NULL.
    Ints(Masked<i64>),
    /// Truths that were made, or NULL.
    Truths(Masked<bool>),
}

/// Values of the first rows, and the fault of the row after them where it has one.
#[derive(Drop)]
pub struct Part {
    pub vector: Vector,
    pub fault: Option<EvalFault>,
}

/// The values before a refusal, with its fault; nothing for want of memory.
pub fn stopped(values: Vec<Value>, refused: EvalRefused) -> Result<Part, NoMemory>
    ensures { IfOk result (λ p. StopsAt refused values.items (front_of p)) }
{
    match refused {
        EvalRefused::Fault(fault) => Ok(Part {
            vector: Vector::Made(values),
            fault: Some(fault),
        }),
        EvalRefused::NoMemory => Err(NoMemory),
    }
}

/// A whole number so many times.
#[tactic(auto, using(crate::proofs::LaneSteps::one_int))]
fn constant_lane<'a>(constant: &Value, count: usize) -> Option<Lane<'a>>
    ensures { IfSome result (λ l. replicate count constant.now ≡ map value.Int (ints_of l)) }
{
    match constant {
        Value::Int(number) => Some(Lane::One(*number, count)),
        _ => None,
    }
}

/// The first values of a column, where it has whole numbers and no mask.
#[tactic(auto, using(crate::proofs::LaneSteps::first_ints, crate::proofs::LaneSteps::unmasked))]
fn column_lane(column: &Column, count: usize) -> Option<Lane<'_>>
    ensures { IfSome result (λ l. take count column.now.values ≡ map value.Int (ints_of l)) }
{
    match column.kind() {
        Kind::Int => {
            let (numbers, nulls) = column.ints(0, column.len());
            if nulls.is_empty() {
                Some(Lane::Many(&numbers[..count.min(numbers.len())]))
            } else {
                None
            }
        }
        _ => None,
    }
}

/// A look at a value of a column.
#[inline]
fn column_cell(column: &Column, at: usize) -> Cell<'_>
    requires { at < length column.now.values }
    ensures { value_of result ≡ slice_index_or column.now.values at value.Null }
{
    let _ = column.len();
    column.cell(at as u32)
}

/// The whole numbers that were made, where none is NULL.
#[tactic(auto, using(crate::proofs::LaneSteps::none_null))]
fn whole_lane(numbers: &Masked<i64>) -> Option<Lane<'_>>
    ensures { IfSome result (λ l. ints numbers.now ≡ map value.Int (ints_of l)) }
{
    let (items, nulls) = numbers.part(0, numbers.len());
    if nulls.is_empty() {
        Some(Lane::Many(items))
    } else {
        None
    }
}

/// A whole number, or NULL, so many times.
#[tactic(auto, using(crate::proofs::ItemSteps::constant_items))]
fn constant_int_items<'a>(constant: &Value, count: usize) -> Option<Items<'a, i64>>
    ensures { IfSome result (λ i. replicate count constant.now ≡ ints (items_of i)) }
{
    match constant {
        Value::Int(number) => Some(Items::One(*number, count)),
        Value::Null => Some(Items::Nulls(count)),
        _ => None,
    }
}

/// A truth, or NULL, so many times.
#[tactic(auto, using(crate::proofs::ItemSteps::constant_items))]
fn constant_truth_items<'a>(constant: &Value, count: usize) -> Option<Items<'a, bool>>
    ensures { IfSome result (λ i. replicate count constant.now ≡ truths (items_of i)) }
{
    match constant {
        Value::Bool(truth) => Some(Items::One(*truth, count)),
        Value::Null => Some(Items::Nulls(count)),
        _ => None,
    }
}

/// The first values of a column, where it has whole numbers.
#[tactic(auto, using(crate::proofs::ItemSteps::first_part))]
fn column_int_items(column: &Column, count: usize) -> Option<Items<'_, i64>>
    ensures { IfSome result (λ i. take count column.now.values ≡ ints (items_of i)) }
{
    match column.kind() {
        Kind::Int => {
            let (numbers, nulls) = column.ints(0, count.min(column.len() as usize) as u32);
            Some(Items::Many(numbers, nulls))
        }
        _ => None,
    }
}

/// The first values of a column, where it has truths.
#[tactic(auto, using(crate::proofs::ItemSteps::first_part))]
fn column_truth_items(column: &Column, count: usize) -> Option<Items<'_, bool>>
    ensures { IfSome result (λ i. take count column.now.values ≡ truths (items_of i)) }
{
    match column.kind() {
        Kind::Bool => {
            let (bits, nulls) = column.truths(0, count.min(column.len() as usize) as u32);
            Some(Items::Many(bits, nulls))
        }
        _ => None,
    }
}

#[inline]
fn int_cell(item: Option<i64>) -> Cell<'static>
    ensures { value_of result ≡ or_null value.Int item }
{
    match item {
        None => Cell::Null,
        Some(number) => Cell::Int(number),
    }
}

#[inline]
fn truth_cell(item: Option<bool>) -> Cell<'static>
    ensures { value_of result ≡ or_null value.Bool item }
{
    match item {
        None => Cell::Null,
        Some(truth) => Cell::Bool(truth),
    }
}

fn copy_bits(alloc: Global, bits: &[bool]) -> Result<Vec<bool>, NoMemory>
    ensures { IfOk result (λ copy. copy.items ≡ bits.now) }
{
    let mut copy = Vec::with_capacity(alloc, bits.len())?;
    copy.extend_from_slice(bits)?;
    Ok(copy)
}

/// The truths that were made, where none is NULL.
fn whole_bits(bits: &Masked<bool>) -> Option<&[bool]>
    ensures { IfSome result (λ b. b.now ≡ map truth.is_true (truths bits.now)) }
{
    let (items, nulls) = bits.part(0, bits.len());
    if nulls.is_empty() { Some(items) } else { None }
}

/// The first of two faults.
pub fn earlier(first: Option<EvalFault>, second: Option<EvalFault>) -> Option<EvalFault>
    ensures { result ≡ spec.earlier first second }
{
    match first {
        Some(fault) => Some(fault),
        None => second,
    }
}

impl Vector {
    /// How many they are.
    pub fn len(&self) -> usize
        ensures { result ≡ length (values_of self.now) }
    {
        match self {
            Vector::Constant(_, count) => *count,
            Vector::Shown(column, count) => (column.column().len() as usize).min(*count),
            Vector::Made(values) => values.len(),
            Vector::Ints(numbers) => numbers.len(),
            Vector::Truths(truths) => truths.len(),
        }
    }

    /// A look at the value at a place.
    #[inline]
    #[tactic(auto, using(crate::proofs::ItemSteps::value_reads))]
    pub fn get(&self, at: usize) -> Cell<'_>
        requires { at < length (values_of self.now) }
        ensures { value_of result ≡ slice_index_or (values_of self.now) at value.Null }
    {
        match self {
            Vector::Constant(value, _) => look(value),
            Vector::Shown(column, _) => column_cell(column.column(), at),
            Vector::Made(values) => look(&values[at]),
            Vector::Ints(numbers) => int_cell(numbers.get(at)),
            Vector::Truths(truths) => truth_cell(truths.get(at)),
        }
    }

    /// The whole numbers, where none is NULL.
    pub fn ints(&self) -> Option<Lane<'_>>
        ensures { IfSome result (λ l. values_of self.now ≡ map value.Int (ints_of l)) }
    {
        match self {
            Vector::Constant(value, count) => constant_lane(value, *count),
            Vector::Shown(column, count) => column_lane(column.column(), *count),
            Vector::Ints(numbers) => whole_lane(numbers),
            Vector::Made(_) => None,
            Vector::Truths(_) => None,
        }
    }

    /// The whole numbers, where they are whole numbers or NULL.
    pub(crate) fn int_items(&self) -> Option<Items<'_, i64>>
        ensures { IfSome result (λ i. values_of self.now ≡ ints (items_of i)) }
    {
        match self {
            Vector::Constant(value, count) => constant_int_items(value, *count),
            Vector::Shown(column, count) => column_int_items(column.column(), *count),
            Vector::Ints(numbers) => Some(Items::of_masked(numbers)),
            Vector::Made(_) => None,
            Vector::Truths(_) => None,
        }
    }

    /// The truths, where they are truths or NULL.
    pub(crate) fn truth_items(&self) -> Option<Items<'_, bool>>
        ensures { IfSome result (λ i. values_of self.now ≡ truths (items_of i)) }
    {
        match self {
            Vector::Constant(value, count) => constant_truth_items(value, *count),
            Vector::Shown(column, count) => column_truth_items(column.column(), *count),
            Vector::Truths(bits) => Some(Items::of_masked(bits)),
            Vector::Made(_) => None,
            Vector::Ints(_) => None,
        }
    }

    /// Which of them are true.
    #[tactic(auto, using(crate::proofs::Loops::map_steps))]
    pub fn truths(&self, alloc: Global) -> Result<Vec<bool>, NoMemory>
        ensures { IfOk result (λ marks. marks.items ≡ map truth.is_true (values_of self.now)) }
    {
        if let Vector::Truths(bits) = self {
            if let Some(bits) = whole_bits(bits) {
                return copy_bits(alloc, bits);
            }
        }
        let mut marks = Vec::with_capacity(alloc, self.len())?;
        for at in 0..self.len() {
            marks.push(is_true_cell(&self.get(at)))?;
        }
        Ok(marks)
    }

    /// Which of them aren't NULL.
    #[tactic(auto, using(crate::proofs::Loops::map_steps))]
    pub fn present(&self, alloc: Global) -> Result<Vec<bool>, NoMemory>
        ensures { IfOk result (λ marks. marks.items
            ≡ map (λ v. not (truth.is_null v)) (values_of self.now)) }
    {
        let mut marks = Vec::with_capacity(alloc, self.len())?;
        for at in 0..self.len() {
            marks.push(!is_null_cell(&self.get(at)))?;
        }
        Ok(marks)
    }

    /// A copy of the value at a place.
    pub(crate) fn copy_at(&self, alloc: Global, at: usize) -> Result<Value, NoMemory>
        requires { at < length (values_of self.now) }
        ensures { IfOk result (λ v. v ≡ slice_index_or (values_of self.now) at value.Null) }
    {
        own(alloc, self.get(at))
    }

    /// Those that have a mark.
    pub(crate) fn select(&self, alloc: Global, marks: &[bool]) -> Result<Vector, NoMemory>
        ensures { IfOk result (λ v. values_of v ≡ marked marks.now (values_of self.now)) }
    {
        if let Some(items) = self.int_items() {
            return Ok(Vector::Ints(choose_items(alloc, &items, marks)?));
        }
        if let Some(items) = self.truth_items() {
            return Ok(Vector::Truths(choose_items(alloc, &items, marks)?));
        }
        Ok(Vector::Made(self.chosen(alloc, marks)?))
    }

    /// Copies of those that have a mark.
    #[tactic(auto, using(crate::proofs::Loops::mark_steps))]
    pub fn chosen(&self, alloc: Global, marks: &[bool]) -> Result<Vec<Value>, NoMemory>
        ensures { IfOk result (λ chosen. chosen.items ≡ marked marks.now (values_of self.now)) }
    {
        let mut chosen = Vec::new(alloc);
        for at in 0..self.len().min(marks.len()) {
            if marks[at] {
                chosen.push(self.copy_at(alloc, at)?)?;
            }
        }
        Ok(chosen)
    }
}
