//! Texts in one buffer.

ghost use Rattle.std.specs.Prelude.{◌≡◌, ◌+◌, ◌-◌, ◌^◌, ◌<◌, ◌≤◌, [], ◌∷◌, ◌++◌, All, length, vec_len, vec_capacity, OnOk, OnErr, slice_index_or, slice_range, IsUtf8};
ghost use Rattle.value_columns.specs.Pieces.{Chained, start, moved};

use dfx_value::NoMemory;
use std::alloc::Global;
use std::marker::Model;

/// Texts one after another in one buffer, which contracts see as a list.
#[derive(Drop)]
pub struct Strings {
    bytes: Vec<u8>,
    ends: Vec<usize>,
}

impl Model for Strings {
    ghost use Rattle.std.specs.Prelude.{List, ℕ};
    ghost use Rattle.value_columns.specs.Pieces.{pieces, Holds};

    ghost Value = { List (List ℕ) };

    ghost view = { λ t. pieces t.bytes.items 0 t.ends.items };

    ghost invariant = { λ t. Holds t.bytes.items t.ends.items };
}

/// Where the text at a place begins, or the last one ends.
fn start_of(ends: &[usize], at: usize) -> usize
    requires { at ≤ length ends.now }
    ensures { result ≡ start 0 ends.now at }
{
    if at == 0 { 0 } else { ends[at - 1] }
}

/// The bytes from a place to before another.
fn between(bytes: &[u8], from: usize, to: usize) -> &[u8]
    requires order { from ≤ to }
    requires within { to ≤ length bytes.now }
    ensures { result.now ≡ slice_range bytes.now from to }
{
    &bytes[from..to]
}

/// The bytes of a part of texts.
fn bytes_of<'a>(bytes: &'a [u8], ends: &[usize], from: usize, to: usize) -> &'a [u8]
    requires chained { Chained 0 ends.now (length bytes.now) }
    requires order { from ≤ to }
    requires within { to ≤ length ends.now }
    ensures { result.now ≡ slice_range bytes.now (start 0 ends.now from) (start 0 ends.now to) }
{
    let start = start_of(ends, from);
    let end = start_of(ends, to);
    between(bytes, start, end)
}

/// Puts ends at the end, as they stand where their texts are moved from a start to a base.
#[tactic(auto, using(crate::proofs::PieceLemmas::moved_more))]
fn push_moved(ends: &mut Vec<usize>, others: &[usize], start: usize, base: usize)
    requires room { vec_len ends.old + length others.now ≤ vec_capacity ends.old }
    requires above { All (λ e. start ≤ e) others.now }
    requires within { All (λ e. base + (e - start) < 2 ^ 64) others.now }
    ensures { ends.new.items ≡ ends.old.items ++ moved start base others.now }
{
    for end in others {
        ends.push_reserved(base + (*end - start));
    }
}

#[tactic(auto, using(crate::proofs::PieceLemmas::piece_steps))]
impl Strings {
    /// No text.
    pub fn new(alloc: Global) -> Strings
        ensures { result ≡ [] }
    {
        Strings {
            bytes: Vec::new(alloc),
            ends: Vec::new(alloc),
        }
    }

    /// How many texts there are.
    pub fn len(&self) -> usize
        ensures { result ≡ length self.now }
    {
        self.ends.len()
    }

    /// The bytes of the text at a place.
    #[inline]
    pub fn get(&self, at: usize) -> &[u8]
        requires { at < length self.now }
        ensures value { result.now ≡ slice_index_or self.now at [] }
        ensures utf8 { IsUtf8 result.now }
    {
        let start = start_of(&self.ends, at);
        &self.bytes[start..self.ends[at]]
    }

    /// Puts a text at the end.
    pub fn push(&mut self, text: &[u8]) -> Result<(), NoMemory>
        requires { IsUtf8 text.now }
        ensures ok { OnOk result (self.new ≡ self.old ++ text.now ∷ []) }
        ensures err { OnErr result (self.new ≡ self.old) }
    {
        self.ends.reserve(1)?;
        self.bytes.extend_from_slice(text)?;
        let end = self.bytes.len();
        self.ends.push_reserved(end);
        Ok(())
    }

    /// Puts a part of others at the end.
    #[tactic(auto, using(crate::proofs::PieceLemmas::extend_steps))]
    pub fn extend(&mut self, others: &Strings, from: usize, to: usize) -> Result<(), NoMemory>
        requires order { from ≤ to }
        requires within { to ≤ length others.now }
        ensures ok { OnOk result (self.new ≡ self.old ++ slice_range others.now from to) }
        ensures err { OnErr result (self.new ≡ self.old) }
    {
        let start = start_of(&others.ends, from);
        let part = bytes_of(&others.bytes, &others.ends, from, to);
        self.ends.reserve(to - from)?;
        self.bytes.extend_from_slice(part)?;
        let base = self.bytes.len() - part.len();
        push_moved(&mut self.ends, &others.ends[from..to], start, base);
        Ok(())
    }
}
