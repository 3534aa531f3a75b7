//! Items of rows, of which some are NULL.

ghost use Rattle.std.specs.Prelude.{◌≡◌, ◌<◌, ◌≤◌, length, slice_index_or, IfOk, map, None, false};
ghost use Rattle.value_columns.specs.Masked.{masked};
ghost use Rattle.scalar_vector.specs.Items.{items_of, AreWoven};
ghost use Rattle.scalar_vector.specs.Vectors.{places_of};
ghost use Rattle.scalar_vector.specs.Woven.{marked};

use crate::places::Places;
use dfx_value::{EvalFault, NoMemory};
use std::alloc::Global;
use value_columns::Masked;

/// Items of rows, of which some are NULL.
#[derive(Drop)]
pub enum Items<'a, T> {
    /// These, NULL where the mask's bit is true, and nowhere past its end.
    Many(&'a [T], &'a [bool]),
    /// One, so many times.
    One(T, usize),
    /// So many NULLs.
    Nulls(usize),
}

/// Whether a mask says NULL at a place.
#[inline]
fn is_null_at(nulls: &[bool], at: usize) -> bool
    ensures { result ≡ slice_index_or nulls.now at false }
{
    at < nulls.len() && nulls[at]
}

/// The item at a place; none where the mask says NULL.
#[inline]
fn masked_item<T: Copy + Drop>(items: &[T], nulls: &[bool], at: usize) -> Option<T>
    requires { at < length items.now }
    ensures { result ≡ slice_index_or (masked items.now nulls.now) at None }
{
    if is_null_at(nulls, at) {
        None
    } else {
        Some(items[at])
    }
}

#[tactic(auto, using(crate::proofs::ItemSteps::item_steps))]
impl<'a, T: Copy + Drop> Items<'a, T> {
    /// Those of a list.
    pub fn of_masked(masked: &'a Masked<T>) -> Items<'a, T>
        ensures { items_of result ≡ masked.now }
    {
        let (items, nulls) = masked.part(0, masked.len());
        Items::Many(items, nulls)
    }

    /// How many they are.
    pub fn len(&self) -> usize
        ensures { result ≡ length (items_of self.now) }
    {
        match self {
            Items::Many(items, _) => items.len(),
            Items::One(_, count) => *count,
            Items::Nulls(count) => *count,
        }
    }

    /// The one at a place; none for NULL.
    #[inline]
    pub fn get(&self, at: usize) -> Option<T>
        requires { at < length (items_of self.now) }
        ensures { result ≡ slice_index_or (items_of self.now) at None }
    {
        match self {
            Items::Many(items, nulls) => masked_item(items, nulls, at),
            Items::One(item, _) => Some(*item),
            Items::Nulls(_) => None,
        }
    }
}

/// Those that have a mark.
#[tactic(auto, using(crate::proofs::Loops::mark_steps, crate::proofs::ItemSteps::item_steps))]
pub fn choose_items<T: Copy + Drop + Default>(
    alloc: Global,
    items: &Items<'_, T>,
    marks: &[bool],
) -> Result<Masked<T>, NoMemory>
    ensures { IfOk result (λ chosen. chosen ≡ marked marks.now (items_of items.now)) }
{
    let mut chosen = Masked::new(alloc);
    for at in 0..items.len().min(marks.len()) {
        if marks[at] {
            chosen.push_item(items.get(at), T::default())?;
        }
    }
    Ok(chosen)
}

/// Those at places, NULL past the end.
#[tactic(auto, using(crate::proofs::Loops::map_steps, crate::proofs::ItemSteps::item_steps))]
pub fn gather_items<T: Copy + Drop + Default>(
    alloc: Global,
    items: &Items<'_, T>,
    places: Places<'_>,
) -> Result<Masked<T>, NoMemory>
    ensures { IfOk result (λ gathered. gathered
        ≡ map (λ p. slice_index_or (items_of items.now) p None) (places_of places.entry)) }
{
    let count = items.len();
    let mut gathered = Masked::with_capacity(alloc, places.len())?;
    for at in 0..places.len() {
        let place = places.get(at) as usize;
        if place < count {
            gathered.push_item(items.get(place), T::default())?;
        } else {
            gathered.push_null(T::default())?;
        }
    }
    Ok(gathered)
}

/// Items of marked rows and of the others in the rows' order, up to the first that is missing.
pub fn weave_items<T: Copy + Drop + Default>(
    alloc: Global,
    marks: &[bool],
    taken: &Items<'_, T>,
    taken_fault: Option<EvalFault>,
    rest: &Items<'_, T>,
    rest_fault: Option<EvalFault>,
) -> Result<(Masked<T>, Option<EvalFault>), NoMemory>
    ensures { IfOk result (λ w. AreWoven marks.now (items_of taken.now) taken_fault
        (items_of rest.now) rest_fault w.0 w.1) }
{
    let mut woven = Masked::with_capacity(alloc, marks.len())?;
    let mut from_taken: usize = 0;
    let mut from_rest: usize = 0;
    for mark in marks {
        if *mark {
            if from_taken == taken.len() {
                return Ok((woven, taken_fault));
            }
            woven.push_item(taken.get(from_taken), T::default())?;
            from_taken += 1;
        } else {
            if from_rest == rest.len() {
                return Ok((woven, rest_fault));
            }
            woven.push_item(rest.get(from_rest), T::default())?;
            from_rest += 1;
        }
    }
    Ok((woven, None))
}
