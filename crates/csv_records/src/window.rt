//! A window of a source's bytes: some that are kept, and behind them those that come next.

ghost use Rattle.std.specs.Prelude.{◌≡◌, ◌≤◌, ◌<◌, ◌+◌, ◌-◌, ◌*◌, ◌^◌, ◌∷◌, ◌++◌, [], true, false, ℕ, List, length, vec_len, take, drop, min, option_map, slice_range, Option, Ok, Err, Some, None, IfOk, OnOk, OnErr};
ghost use Rattle.csv.specs.Reading.{strip_bom};
ghost use Rattle.dfx_outside.specs.Causes.{HasCause, Rose};
ghost use Rattle.dfx_outside.specs.declared.source.OutsideRefused.TheVariants as refused;
ghost use Rattle.csv_records.specs.Left.{bytes_left, count_left};
ghost use Rattle.csv_records.specs.Marks.{mark};
ghost use Rattle.csv_records.specs.Windows.{Begins};

use dfx_outside::{Failed, OutsideRefused, Source};
use std::alloc::{AllocError, Global};
use std::marker::Model;

/// How many bytes are asked of a source at once.
const BLOCK: u64 = 65536;

/// A block of bytes. Those from `base` to `write` are kept; those from `next` to `to` come next, and `at` is the place
/// behind them in the source.
#[derive(Drop)]
pub struct Window {
    block: Vec<u8>,
    base: usize,
    write: usize,
    next: usize,
    to: usize,
    at: u64,
}

impl Model for Window {
    ghost use Rattle.std.specs.Prelude.{length, slice_range};
    ghost use Rattle.csv_records.specs.Windows.{Bytes, Ordered};

    ghost Value = { Bytes };

    ghost view = { λ w. record {
      kept = slice_range w.block.items w.base w.write;
      ahead = slice_range w.block.items w.next w.to;
      at = w.at;
    } };

    ghost invariant = { λ w. Ordered w.base w.write w.next w.to (length w.block.items) };
}

/// How many bytes a byte order mark takes at the start of a text.
fn after_mark(bytes: &[u8]) -> usize
    ensures is { result ≡ mark bytes.now }
    ensures within { result ≤ length bytes.now }
{
    if bytes.starts_with(b"\xef\xbb\xbf") {
        3
    } else {
        0
    }
}

/// Reads the bytes from `at` into a block behind so many that stay, `room` at most, and answers how many.
fn read_behind<S: Source>(
    source: &mut S,
    at: u64,
    block: &mut [u8],
    kept: usize,
    room: usize,
) -> Result<usize, Failed>
    requires { kept + room ≤ length block.old }
    ensures within { IfOk result (λ n. n ≤ room) }
    ensures length { length block.new ≡ length block.old }
    ensures kept { take kept block.new ≡ take kept block.old }
    ensures front { (v : List ℕ) → S.told source.old ≡ Some v
        → IfOk result (λ n. slice_range block.new kept (kept + n) ≡ take n (drop at v)) }
    ensures some { (v : List ℕ) → S.told source.old ≡ Some v → 0 < room → at < length v
        → IfOk result (λ n. 0 < n) }
    ensures same { (S.told source.new ≡ S.told source.old)
        × (S.size source.new ≡ S.size source.old) }
    ensures cause { HasCause (S.faults source.old) (S.faults source.new) result }
{
    source.read_at(at, &mut block[kept..kept + room])
}

/// Reads a beginning of the source into that of a block, `room` bytes or up to the first read that gives none, and
/// answers how many.
fn first_block<S: Source>(source: &mut S, block: &mut [u8], room: usize) -> Result<usize, Failed>
    requires { room ≤ length block.old }
    ensures within { IfOk result (λ n. n ≤ room) }
    ensures length { length block.new ≡ length block.old }
    ensures front { (v : List ℕ) → S.told source.old ≡ Some v
        → IfOk result (λ n. take n block.new ≡ take n v) }
    ensures whole { (v : List ℕ) → S.told source.old ≡ Some v
        → IfOk result (λ n. min room (length v) ≤ n) }
    ensures same { (S.told source.new ≡ S.told source.old)
        × (S.size source.new ≡ S.size source.old) }
    ensures cause { HasCause (S.faults source.old) (S.faults source.new) result }
{
    let mut at = 0;
    while at < room {
        let count = read_behind(source, at as u64, block, at, room - at)?;
        if count == 0 {
            break;
        }
        at += count;
    }
    Ok(at)
}

/// Moves a part of a block to its beginning.
fn move_front(block: &mut [u8], from: usize, to: usize)
    requires order { from ≤ to }
    requires within { to ≤ length block.old }
    ensures length { length block.new ≡ length block.old }
    ensures front { take (to - from) block.new ≡ slice_range block.old from to }
{
    block.copy_within(from..to, 0);
}

/// Moves so many bytes of a block down from a place to another.
fn copy_down(block: &mut [u8], from: usize, to: usize, count: usize)
    requires order { to ≤ from }
    requires within { from + count ≤ length block.old }
    ensures length { length block.new ≡ length block.old }
    ensures front { take (to + count) block.new
        ≡ take to block.old ++ slice_range block.old from (from + count) }
    ensures rest { drop (to + count) block.new ≡ drop (to + count) block.old }
{
    block.copy_within(from..from + count, to);
}

/// The same, where the places may be one.
#[tactic(auto, using(crate::proofs::WindowSteps::move_steps))]
#[inline]
fn move_down(block: &mut Vec<u8>, from: usize, to: usize, count: usize)
    requires order { to ≤ from }
    requires within { from + count ≤ length block.old.items }
    ensures length { length block.new.items ≡ length block.old.items }
    ensures front { take (to + count) block.new.items
        ≡ take to block.old.items ++ slice_range block.old.items from (from + count) }
    ensures rest { drop (to + count) block.new.items ≡ drop (to + count) block.old.items }
{
    if to != from {
        copy_down(block, from, to, count);
    }
}

/// Makes a block longer where more than half of it is kept.
fn make_room(block: &mut Vec<u8>, kept: usize) -> Result<(), AllocError>
    requires within { kept ≤ length block.old.items }
    requires some { 0 < length block.old.items }
    ensures kept { take kept block.new.items ≡ take kept block.old.items }
    ensures longer { length block.old.items ≤ length block.new.items }
    ensures room { OnOk result (kept < length block.new.items) }
{
    let len = block.len();
    if kept > len / 2 {
        block.resize(len.saturating_mul(2), 0)?;
    }
    Ok(())
}

impl Window {
    /// A window at the start of a source, behind a byte order mark. Nothing is kept.
    pub fn begin<S: Source>(alloc: Global, source: &mut S) -> Result<Window, OutsideRefused>
        ensures kept { IfOk result (λ w. w.kept ≡ []) }
        ensures left { IfOk result (λ w. bytes_left (S.told source.old) w.ahead w.at
            ≡ option_map strip_bom (S.told source.old)) }
        ensures most { IfOk result (λ w. count_left (S.size source.old) w.ahead w.at
            ≤ S.size source.old) }
        ensures small { IfOk result (λ w. S.size source.old < 2 ^ 64) }
        ensures same { (S.told source.new ≡ S.told source.old)
            × (S.size source.new ≡ S.size source.old) }
        ensures later { S.faults source.old ≤ S.faults source.new }
        ensures failed { result ≡ Err refused.Failed
            → Rose (S.faults source.old) (S.faults source.new) }
    {
        let room = source.size().min(BLOCK) as usize;
        let Ok(mut block) = vec![in alloc; 0u8; room.max(1)] else {
            return Err(OutsideRefused::NoMemory);
        };
        let Ok(to) = first_block(source, &mut block, room) else {
            return Err(OutsideRefused::Failed);
        };
        let from = after_mark(&block[..to]);
        Ok(Window {
            block,
            base: from,
            write: from,
            next: from,
            to,
            at: to as u64,
        })
    }

    /// The bytes that are kept.
    #[inline]
    pub fn kept(&self) -> &[u8]
        ensures { result.now ≡ self.now.kept }
    {
        &self.block[self.base..self.write]
    }

    /// How many bytes are kept.
    #[inline]
    pub fn kept_len(&self) -> usize
        ensures { result ≡ length self.now.kept }
    {
        self.write - self.base
    }

    /// The bytes that come next, as far as they were read.
    #[inline]
    pub fn ahead(&self) -> &[u8]
        ensures { result.now ≡ self.now.ahead }
    {
        &self.block[self.next..self.to]
    }

    /// The next byte, where it was read.
    #[inline]
    pub fn first(&self) -> Option<u8>
        ensures some { (b : ℕ) → result ≡ Some b → self.now.ahead ≡ b ∷ drop 1 self.now.ahead }
        ensures none { result ≡ None → self.now.ahead ≡ [] }
    {
        if self.next == self.to {
            None
        } else {
            Some(self.block[self.next])
        }
    }

    /// Keeps nothing any more.
    #[inline]
    pub fn forget(&mut self)
        ensures { self.new ≡ record self.old { kept = [] } }
    {
        self.base = self.next;
        self.write = self.next;
    }

    /// Keeps so many of the next bytes.
    #[inline]
    pub fn keep(&mut self, count: usize)
        requires { count ≤ length self.old.ahead }
        ensures kept { self.new.kept ≡ self.old.kept ++ take count self.old.ahead }
        ensures ahead { self.new.ahead ≡ drop count self.old.ahead }
        ensures at { self.new.at ≡ self.old.at }
    {
        move_down(&mut self.block, self.next, self.write, count);
        self.write += count;
        self.next += count;
    }

    /// Takes the next byte without keeping it.
    #[inline]
    pub fn skip(&mut self)
        requires { 0 < length self.old.ahead }
        ensures { self.new ≡ record self.old { ahead = drop 1 self.old.ahead } }
    {
        self.next += 1;
    }

    /// Takes the next byte, and keeps anything behind what is kept, so that what is kept next needn't be moved.
    #[inline]
    pub fn pass(&mut self)
        requires { 0 < length self.old.ahead }
        ensures kept { Begins self.old.kept self.new.kept }
        ensures ahead { self.new.ahead ≡ drop 1 self.old.ahead }
        ensures at { self.new.at ≡ self.old.at }
    {
        self.next += 1;
        self.write = self.next;
    }

    /// Reads the next bytes where none that were read are left, and answers whether there is any.
    #[cold]
    #[inline(never)]
    pub fn refill<S: Source>(&mut self, source: &mut S) -> Result<bool, OutsideRefused>
        requires { self.old.ahead ≡ [] }
        ensures kept { self.new.kept ≡ self.old.kept }
        ensures left { OnOk result (bytes_left (S.told source.old) self.new.ahead self.new.at
            ≡ bytes_left (S.told source.old) self.old.ahead self.old.at) }
        ensures more { result ≡ Ok true → 0 < length self.new.ahead }
        ensures end { result ≡ Ok false → bytes_left (S.told source.old) self.new.ahead self.new.at
            ≡ option_map (λ v. []) (S.told source.old) }
        ensures most { OnOk result (count_left (S.size source.old) self.new.ahead self.new.at
            ≤ count_left (S.size source.old) self.old.ahead self.old.at) }
        ensures same { (S.told source.new ≡ S.told source.old)
            × (S.size source.new ≡ S.size source.old) }
        ensures later { S.faults source.old ≤ S.faults source.new }
        ensures failed { result ≡ Err refused.Failed
            → Rose (S.faults source.old) (S.faults source.new) }
    {
        let size = source.size();
        if self.at >= size {
            return Ok(false);
        }
        let kept = self.write - self.base;
        move_front(&mut self.block, self.base, self.write);
        self.base = 0;
        self.write = kept;
        self.next = kept;
        self.to = kept;
        let Ok(()) = make_room(&mut self.block, kept) else {
            return Err(OutsideRefused::NoMemory);
        };
        let room = (size - self.at).min((self.block.len() - kept) as u64) as usize;
        let Ok(count) = read_behind(source, self.at, &mut self.block, kept, room) else {
            return Err(OutsideRefused::Failed);
        };
        self.to = kept + count;
        self.at += count as u64;
        Ok(count > 0)
    }
}
