//! Texts or NULLs in one buffer.

ghost use Rattle.std.specs.Prelude.{All, IfOk, ◌≡◌, ◌+◌, ◌<◌, ◌≤◌, ◌^◌, [], ◌∷◌, ◌++◌, length, map, min, Some, None, OnOk, OnErr, IfSome, slice_index_or, slice_range, option_copied, IsUtf8};
ghost use Rattle.dfx_value.specs.Rows.{row_size, value_size};
ghost use Rattle.dfx_value.specs.declared.value.Value.TheVariants as value;
ghost use Rattle.value_columns.specs.Masked.{picked};
ghost use Rattle.value_columns.specs.Columns.{or_null};

use crate::masked::{is_null, pad, part_of, push_bits};
use crate::strings::Strings;
use dfx_value::NoMemory;
use std::alloc::Global;
use std::marker::Model;

/// Texts or NULLs, which contracts see as a list.
#[derive(Drop)]
pub struct Texts {
    texts: Strings,
    nulls: Vec<bool>,
}

impl Model for Texts {
    ghost use Rattle.std.specs.Prelude.{List, ℕ, Option, length, ◌≤◌};
    ghost use Rattle.value_columns.specs.Masked.{masked};

    ghost Value = { List (Option (List ℕ)) };

    ghost view = { λ t. masked t.texts t.nulls.items };

    ghost invariant = { λ t. length t.nulls.items ≤ length t.texts };
}

#[tactic(auto, using(crate::proofs::MaskedLemmas::masked_steps))]
impl Texts {
    /// No text.
    pub fn new(alloc: Global) -> Texts
        ensures { result ≡ [] }
    {
        Texts {
            texts: Strings::new(alloc),
            nulls: Vec::new(alloc),
        }
    }

    /// How many texts and NULLs there are.
    pub fn len(&self) -> usize
        ensures { result ≡ length self.now }
    {
        self.texts.len()
    }

    /// The bytes of the text at a place, or none for NULL.
    #[inline]
    pub fn get(&self, at: usize) -> Option<&[u8]>
        requires { at < length self.now }
        ensures value { option_copied result ≡ slice_index_or self.now at None }
        ensures utf8 { IfSome result (λ t. IsUtf8 t.now) }
    {
        if is_null(&self.nulls, at) {
            None
        } else {
            Some(self.texts.get(at))
        }
    }

    /// Puts a text at the end.
    pub fn push(&mut self, text: &[u8]) -> Result<(), NoMemory>
        requires { IsUtf8 text.now }
        ensures ok { OnOk result (self.new ≡ self.old ++ Some text.now ∷ []) }
        ensures err { OnErr result (self.new ≡ self.old) }
    {
        self.texts.push(text)
    }

    /// Puts NULL at the end.
    pub fn push_null(&mut self) -> Result<(), NoMemory>
        ensures ok { OnOk result (self.new ≡ self.old ++ None ∷ []) }
        ensures err { OnErr result (self.new ≡ self.old) }
    {
        pad(&mut self.nulls, self.texts.len(), 1)?;
        self.texts.push(&[])?;
        self.nulls.push_reserved(true);
        Ok(())
    }

    /// Puts a part of others at the end.
    #[tactic(auto, using(crate::proofs::MaskedLemmas::text_steps))]
    pub fn extend(&mut self, others: &Texts, from: usize, to: usize) -> Result<(), NoMemory>
        requires order { from ≤ to }
        requires within { to ≤ length others.now }
        ensures ok { OnOk result (self.new ≡ self.old ++ slice_range others.now from to) }
        ensures err { OnErr result (self.new ≡ self.old) }
    {
        let nulls = part_of(&others.nulls, from, to);
        if nulls.is_empty() {
            self.texts.extend(&others.texts, from, to)?;
        } else {
            pad(&mut self.nulls, self.texts.len(), nulls.len())?;
            self.texts.extend(&others.texts, from, to)?;
            push_bits(&mut self.nulls, nulls);
        }
        Ok(())
    }

    /// 16 for each text or NULL of a part and the bytes of its texts, or the largest number.
    #[tactic(auto, using(crate::proofs::SizeLemmas::text_steps))]
    pub fn size(&self, from: usize, to: usize) -> u64
        requires order { from ≤ to }
        requires within { to ≤ length self.now }
        ensures { result
            ≡ min (row_size
            (map (or_null value.Text) (slice_range self.now from to))) 18446744073709551615 }
    {
        let mut size: u64 = 0;
        for at in from..to {
            size = size.saturating_add(16).saturating_add(self.bytes_at(at));
        }
        size
    }

    /// How many bytes the text at a place has; 0 for NULL.
    fn bytes_at(&self, at: usize) -> u64
        requires { at < length self.now }
        ensures { result ≡ value_size (or_null value.Text (slice_index_or self.now at None)) }
    {
        match self.get(at) {
            None => 0,
            Some(text) => text.len() as u64,
        }
    }

    /// The texts at the places, which are counted from a start.
    #[tactic(auto, using(crate::proofs::MaskedLemmas::picked_steps))]
    pub fn pick(&self, alloc: Global, from: usize, places: &[u32]) -> Result<Texts, NoMemory>
        requires few { length self.now < 2 ^ 32 }
        requires places { All (λ p. from + p < length self.now) places.now }
        ensures { IfOk result (λ new. new ≡ picked self.now from places.now) }
    {
        let mut new = Texts::new(alloc);
        for place in places {
            match self.get(from + *place as usize) {
                Some(text) => new.push(text)?,
                None => new.push_null()?,
            }
        }
        Ok(new)
    }
}
