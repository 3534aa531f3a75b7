//! Items of which some are NULL, with a mask that may end before they do.

ghost use Rattle.std.specs.Prelude.{◌≡◌, ◌+◌, ◌-◌, ◌<◌, ◌^◌, ◌≤◌, replicate, vec_len, vec_capacity, [], ◌∷◌, ◌++◌, All, length, Some, None, IfOk, OnOk, OnErr, slice_index_or, slice_range, false};
ghost use Rattle.value_columns.specs.Masked.{masked, picked};

use dfx_value::NoMemory;
use std::alloc::Global;
use std::marker::Model;

/// Items or NULLs, which contracts see as a list. Past the end of the mask there is no NULL.
#[derive(Drop)]
pub struct Masked<T> {
    items: Vec<T>,
    nulls: Vec<bool>,
}

impl<T> Model for Masked<T> {
    ghost use Rattle.std.specs.Prelude.{List, Option, length, ◌≤◌};
    ghost use Rattle.std.specs.Coded.{coded_list, coded_option};
    ghost use Rattle.value_columns.specs.Masked.{masked};

    ghost Value = { List (Option T) };

    ghost coded = { coded_list (coded_option T.code) };

    ghost view = { λ m. masked m.items.items m.nulls.items };

    ghost invariant = { λ m. length m.nulls.items ≤ length m.items.items };
}

/// Whether a mask says NULL at a place.
#[inline]
pub(crate) fn is_null(nulls: &[bool], at: usize) -> bool
    ensures { result ≡ slice_index_or nulls.now at false }
{
    at < nulls.len() && nulls[at]
}

/// A part of a mask, which may end before the part or within it.
#[tactic(auto, using(crate::proofs::MaskedLemmas::part_steps))]
pub(crate) fn part_of(nulls: &[bool], from: usize, to: usize) -> &[bool]
    requires { from ≤ to }
    ensures { result.now ≡ slice_range nulls.now from to }
{
    let len = nulls.len();
    &nulls[from.min(len)..to.min(len)]
}

/// Fills a mask up with `false`, with room for more bits.
pub(crate) fn pad(nulls: &mut Vec<bool>, len: usize, more: usize) -> Result<(), NoMemory>
    requires { vec_len nulls.old ≤ len }
    ensures same { nulls.new.items
        ≡ nulls.old.items ++ replicate (vec_len nulls.new - vec_len nulls.old) false }
    ensures within { vec_len nulls.new ≤ len }
    ensures ok { OnOk result (vec_len nulls.new ≡ len) }
    ensures room { OnOk result (vec_len nulls.new + more ≤ vec_capacity nulls.new) }
{
    nulls.resize(len, false)?;
    nulls.reserve(more)?;
    Ok(())
}

/// Puts bits at the end of a mask that has room for them.
pub(crate) fn push_bits(nulls: &mut Vec<bool>, bits: &[bool])
    requires { vec_len nulls.old + length bits.now ≤ vec_capacity nulls.old }
    ensures { nulls.new.items ≡ nulls.old.items ++ bits.now }
{
    match nulls.extend_from_slice(bits) {
        Ok(()) => {}
        Err(_) => unreachable!(),
    }
}

#[tactic(auto, using(crate::proofs::MaskedLemmas::masked_steps))]
impl<T> Masked<T> {
    /// No item.
    pub fn new(alloc: Global) -> Masked<T>
        ensures { result ≡ [] }
    {
        Masked {
            items: Vec::new(alloc),
            nulls: Vec::new(alloc),
        }
    }

    /// No item, with room for so many.
    pub fn with_capacity(alloc: Global, count: usize) -> Result<Masked<T>, NoMemory>
        ensures { IfOk result (λ m. m ≡ []) }
    {
        Ok(Masked {
            items: Vec::with_capacity(alloc, count)?,
            nulls: Vec::new(alloc),
        })
    }

    /// Items with a mask.
    pub fn of_parts(items: Vec<T>, nulls: Vec<bool>) -> Masked<T>
        requires { length nulls.items ≤ length items.items }
        ensures { result ≡ masked items.items nulls.items }
    {
        Masked { items, nulls }
    }

    /// How many items and NULLs there are.
    pub fn len(&self) -> usize
        ensures { result ≡ length self.now }
    {
        self.items.len()
    }

    /// The items of a part, with anything in the place of a NULL, and their mask.
    #[tactic(auto, using(crate::proofs::MaskedLemmas::masked_parts))]
    pub fn part(&self, from: usize, to: usize) -> (&[T], &[bool])
        requires order { from ≤ to }
        requires within { to ≤ length self.now }
        ensures value { masked result.0.now result.1.now ≡ slice_range self.now from to }
        ensures mask { length result.1.now ≤ length result.0.now }
    {
        (&self.items[from..to], part_of(&self.nulls, from, to))
    }

    /// Puts an item at the end.
    #[inline]
    pub fn push(&mut self, item: T) -> Result<(), NoMemory>
    where
        T: Drop,
        ensures ok { OnOk result (self.new ≡ self.old ++ Some item ∷ []) }
        ensures err { OnErr result (self.new ≡ self.old) }
    {
        self.items.push(item)?;
        Ok(())
    }

    /// Puts NULL at the end.
    pub fn push_null(&mut self, filler: T) -> Result<(), NoMemory>
    where
        T: Drop,
        ensures ok { OnOk result (self.new ≡ self.old ++ None ∷ []) }
        ensures err { OnErr result (self.new ≡ self.old) }
    {
        pad(&mut self.nulls, self.items.len(), 1)?;
        self.items.push(filler)?;
        self.nulls.push_reserved(true);
        Ok(())
    }

    /// Puts an item or NULL at the end; the filler stands under a NULL.
    #[inline]
    pub fn push_item(&mut self, item: Option<T>, filler: T) -> Result<(), NoMemory>
    where
        T: Drop,
        ensures ok { OnOk result (self.new ≡ self.old ++ item ∷ []) }
        ensures err { OnErr result (self.new ≡ self.old) }
    {
        match item {
            Some(item) => self.push(item),
            None => self.push_null(filler),
        }
    }

    /// The items, with anything in the place of a NULL, and their mask.
    pub fn into_parts(self) -> (Vec<T>, Vec<bool>)
        ensures value { masked result.0.items result.1.items ≡ self }
        ensures mask { length result.1.items ≤ length result.0.items }
    {
        (self.items, self.nulls)
    }
}

/// The items at the places, which are counted from a start.
#[tactic(auto, using(crate::proofs::MaskedLemmas::picked_more))]
fn pick_items<T: Copy + Drop>(
    alloc: Global,
    items: &[T],
    from: usize,
    places: &[u32],
) -> Result<Vec<T>, NoMemory>
    requires { All (λ p. from + p < length items.now) places.now }
    ensures { IfOk result
        (λ new. masked new.items [] ≡ picked (masked items.now []) from places.now) }
{
    let mut new = Vec::with_capacity(alloc, places.len())?;
    for place in places {
        new.push(items[from + *place as usize])?;
    }
    Ok(new)
}

#[tactic(auto, using(crate::proofs::MaskedLemmas::masked_steps))]
impl<T: Copy + Drop> Masked<T> {
    /// The item at a place, or none for NULL.
    #[tactic(auto, using(crate::proofs::MaskedLemmas::masked_steps))]
    #[inline]
    pub fn get(&self, at: usize) -> Option<T>
        requires { at < length self.now }
        ensures { result ≡ slice_index_or self.now at None }
    {
        if is_null(&self.nulls, at) {
            None
        } else {
            Some(self.items[at])
        }
    }

    /// Puts a part of others at the end.
    #[tactic(auto, using(crate::proofs::MaskedLemmas::extend_steps))]
    pub fn extend(&mut self, others: &Masked<T>, from: usize, to: usize) -> Result<(), NoMemory>
        requires order { from ≤ to }
        requires within { to ≤ length others.now }
        ensures ok { OnOk result (self.new ≡ self.old ++ slice_range others.now from to) }
        ensures err { OnErr result (self.new ≡ self.old) }
    {
        let (items, nulls) = others.part(from, to);
        if nulls.is_empty() {
            self.items.extend_from_slice(items)?;
        } else {
            pad(&mut self.nulls, self.items.len(), nulls.len())?;
            self.items.extend_from_slice(items)?;
            push_bits(&mut self.nulls, nulls);
        }
        Ok(())
    }

    /// The items at the places, which are counted from a start.
    #[tactic(auto, using(crate::proofs::MaskedLemmas::picked_steps))]
    pub fn pick(&self, alloc: Global, from: usize, places: &[u32]) -> Result<Masked<T>, NoMemory>
        requires few { length self.now < 2 ^ 32 }
        requires places { All (λ p. from + p < length self.now) places.now }
        ensures { IfOk result (λ new. new ≡ picked self.now from places.now) }
    {
        if self.nulls.is_empty() {
            Ok(Masked {
                items: pick_items(alloc, &self.items, from, places)?,
                nulls: Vec::new(alloc),
            })
        } else {
            self.pick_some(alloc, from, places)
        }
    }

    /// The same where some may be NULL.
    #[tactic(auto, using(crate::proofs::MaskedLemmas::picked_steps))]
    fn pick_some(&self, alloc: Global, from: usize, places: &[u32]) -> Result<Masked<T>, NoMemory>
        requires few { length self.now < 2 ^ 32 }
        requires places { All (λ p. from + p < length self.now) places.now }
        ensures { IfOk result (λ new. new ≡ picked self.now from places.now) }
    {
        let mut new = Masked::new(alloc);
        for place in places {
            let at = from + *place as usize;
            match self.get(at) {
                Some(item) => new.push(item)?,
                None => new.push_null(self.filler(at))?,
            }
        }
        Ok(new)
    }

    /// What stands at a place, NULL or not.
    fn filler(&self, at: usize) -> T
        requires { at < length self.now }
    {
        self.items[at]
    }
}
