//! The record at hand: the fields of it that have ended, and the bytes of the one that hasn't.

ghost use Rattle.std.specs.Prelude.{◌≡◌, ◌≤◌, ◌<◌, ◌^◌, ◌∷◌, ◌++◌, [], true, false, ℕ, length, drop, option_map, slice_index_or, Ok, Err, Some, None, IfOk, OnOk};
ghost use Rattle.csv.specs.Machine.{fields_after, field_after};
ghost use Rattle.csv.specs.Reading.{strip_bom};
ghost use Rattle.dfx_outside.specs.Causes.{Rose};
ghost use Rattle.dfx_outside.specs.declared.source.OutsideRefused.TheVariants as refused;
ghost use Rattle.csv_records.specs.Cursors.{TakesRun};
ghost use Rattle.csv_records.specs.Left.{bytes_left, count_left};
ghost use Rattle.csv_records.specs.Places.{state_of, action_of};

use crate::machine::{Effect, Place, Run, run_of};
use crate::span::Span;
use crate::window::Window;
use dfx_outside::{OutsideRefused, Source};
use std::alloc::{AllocError, Global};
use std::marker::Model;

/// The record at hand: its fields stand in the bytes that a window keeps, and the one that hasn't ended from a place on.
#[derive(Drop)]
pub struct Cursor {
    window: Window,
    spans: Vec<Span>,
    start: usize,
}

impl Model for Cursor {
    ghost use Rattle.std.specs.Prelude.{◌≤◌, length, drop, All};
    ghost use Rattle.csv_records.specs.Cursors.{AtHand, fields_in, Lies};

    ghost Value = { AtHand };

    ghost view = { λ c. record {
      fields = fields_in c.window.kept c.spans.items;
      field = drop c.start c.window.kept;
      bytes = c.window.ahead;
      at = c.window.at;
    } };

    ghost invariant = { λ c. All (Lies c.start) c.spans.items × (c.start ≤ length c.window.kept) };
}

impl Cursor {
    /// A cursor at the start of a source, behind a byte order mark.
    pub fn begin<S: Source>(alloc: Global, source: &mut S) -> Result<Cursor, OutsideRefused>
        ensures left { IfOk result (λ c. bytes_left (S.told source.old) c.bytes c.at
            ≡ option_map strip_bom (S.told source.old)) }
        ensures most { IfOk result (λ c. count_left (S.size source.old) c.bytes c.at
            ≤ S.size source.old) }
        ensures small { IfOk result (λ c. S.size source.old < 2 ^ 64) }
        ensures same { (S.told source.new ≡ S.told source.old)
            × (S.size source.new ≡ S.size source.old) }
        ensures later { S.faults source.old ≤ S.faults source.new }
        ensures failed { result ≡ Err refused.Failed
            → Rose (S.faults source.old) (S.faults source.new) }
    {
        match Window::begin(alloc, source) {
            Err(refused) => Err(refused),
            Ok(window) => Ok(Cursor {
                window,
                spans: Vec::new(alloc),
                start: 0,
            }),
        }
    }

    /// How many fields have ended.
    #[inline]
    pub fn len(&self) -> usize
        ensures { result ≡ length self.now.fields }
    {
        self.spans.len()
    }

    /// The field at a place.
    #[inline]
    pub fn field(&self, at: usize) -> &[u8]
        requires { at < length self.now.fields }
        ensures { result.now ≡ slice_index_or self.now.fields at [] }
    {
        let span = self.spans[at];
        &self.window.kept()[span.from..span.to]
    }

    /// Begins a record.
    pub fn clear(&mut self)
        ensures { self.new ≡ record self.old { fields = []; field = [] } }
    {
        self.spans.clear();
        self.window.forget();
        self.start = 0;
    }

    /// The next byte, if there is one.
    #[inline]
    pub fn next_byte<S: Source>(&mut self, source: &mut S) -> Result<Option<u8>, OutsideRefused>
        ensures some { (b : ℕ) → result ≡ Ok (Some b) → self.new.bytes ≡ b ∷ drop 1 self.new.bytes }
        ensures left { OnOk result (bytes_left (S.told source.old) self.new.bytes self.new.at
            ≡ bytes_left (S.told source.old) self.old.bytes self.old.at) }
        ensures end { result ≡ Ok None → bytes_left (S.told source.old) self.new.bytes self.new.at
            ≡ option_map (λ v. []) (S.told source.old) }
        ensures fields { OnOk result (self.new.fields ≡ self.old.fields) }
        ensures field { OnOk result (self.new.field ≡ self.old.field) }
        ensures most { OnOk result (count_left (S.size source.old) self.new.bytes self.new.at
            ≤ count_left (S.size source.old) self.old.bytes self.old.at) }
        ensures same { (S.told source.new ≡ S.told source.old)
            × (S.size source.new ≡ S.size source.old) }
        ensures later { S.faults source.old ≤ S.faults source.new }
        ensures failed { result ≡ Err refused.Failed
            → Rose (S.faults source.old) (S.faults source.new) }
    {
        if let Some(byte) = self.window.first() {
            return Ok(Some(byte));
        }
        match self.window.refill(source) {
            Err(refused) => Err(refused),
            Ok(false) => Ok(None),
            Ok(true) => Ok(self.window.first()),
        }
    }

    /// Takes the bytes that were read and do nothing but join the field at hand, and answers the place after them.
    #[inline]
    pub fn take_run(&mut self, place: Place) -> Place
        ensures { TakesRun (state_of place) (state_of result) self.old self.new }
    {
        let Run { count, place } = run_of(place, self.window.ahead());
        self.window.keep(count);
        place
    }

    /// Ends the field at hand.
    #[inline]
    fn end_field(&mut self) -> Result<(), AllocError>
        ensures fields { OnOk result (self.new.fields ≡ self.old.fields ++ self.old.field ∷ []) }
        ensures field { OnOk result (self.new.field ≡ []) }
        ensures bytes { self.new.bytes ≡ self.old.bytes }
        ensures at { self.new.at ≡ self.old.at }
    {
        let to = self.window.kept_len();
        self.spans.push(Span {
            from: self.start,
            to,
        })?;
        self.start = to;
        Ok(())
    }

    /// Takes the next byte as no part of a field.
    #[inline]
    fn skip(&mut self)
        requires { 0 < length self.old.bytes }
        ensures { self.new ≡ record self.old { bytes = drop 1 self.old.bytes } }
    {
        if self.start < self.window.kept_len() {
            self.window.skip();
        } else if self.spans.is_empty() {
            self.window.skip();
            self.window.forget();
            self.start = 0;
        } else {
            self.window.pass();
            self.start = self.window.kept_len();
        }
    }

    /// Takes the next byte to where its effect says.
    #[inline]
    pub fn put(&mut self, effect: Effect) -> Result<(), AllocError>
        requires { 0 < length self.old.bytes }
        ensures fields { OnOk result (self.new.fields
            ≡ fields_after (action_of effect) self.old.fields self.old.field) }
        ensures field { (b : ℕ) → self.old.bytes ≡ b ∷ drop 1 self.old.bytes
            → OnOk result (self.new.field ≡ field_after (action_of effect) b self.old.field) }
        ensures bytes { OnOk result (self.new.bytes ≡ drop 1 self.old.bytes) }
        ensures at { OnOk result (self.new.at ≡ self.old.at) }
    {
        match effect {
            Effect::Skip => self.skip(),
            Effect::Copy => self.window.keep(1),
            Effect::EndField | Effect::EndRecord => {
                self.end_field()?;
                self.skip();
            }
        }
        Ok(())
    }

    /// Ends the field at hand at the end of the text.
    pub fn end_text(&mut self) -> Result<(), AllocError>
        ensures fields { OnOk result (self.new.fields ≡ self.old.fields ++ self.old.field ∷ []) }
        ensures bytes { self.new.bytes ≡ self.old.bytes }
        ensures at { self.new.at ≡ self.old.at }
    {
        self.end_field()
    }
}
