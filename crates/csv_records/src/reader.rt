//! A reader of records that takes its bytes from a source as it needs them. The source isn't in it: each call is given
//! it.

ghost use Rattle.std.specs.Prelude.{◌≡◌, ◌≤◌, ◌<◌, ◌^◌, [], true, false, length, option_map, slice_index_or, Ok, Err, Some, None, IfOk, IfSome};
ghost use Rattle.csv.specs.Machine.{next_record, ends_at_end};
ghost use Rattle.csv.specs.Reading.{default_config, strip_bom};
ghost use Rattle.dfx_outside.specs.Causes.{Rose};
ghost use Rattle.dfx_outside.specs.declared.source.OutsideRefused.TheVariants as refused;
ghost use Rattle.csv_records.specs.Places.{state_of};
ghost use Rattle.csv_records.specs.Left.{bytes_left, count_left, most_left, between, records_left, Takes, HasNone};

use crate::cursor::Cursor;
use crate::machine::{Effect, Place, ends_record, is_after_cr, start_after, step};
use dfx_outside::{OutsideRefused, Source};
use std::alloc::Global;
use std::marker::Model;

/// How far the records of a source were read, and the record that was taken last.
#[derive(Drop)]
pub struct RecordReader {
    cursor: Cursor,
    after_cr: bool,
}

impl Model for RecordReader {
    ghost use Rattle.csv_records.specs.Left.{Ahead};

    ghost Value = { Ahead };

    ghost view = { λ r. record {
      bytes = r.cursor.bytes;
      at = r.cursor.at;
      after_cr = r.after_cr;
      fields = r.cursor.fields;
    } };
}

/// Takes the record that begins at a place, if there is one, and answers the place after it.
#[tactic(auto, using(crate::proofs::RecordSteps::reader_steps))]
fn take_next<S: Source>(
    source: &mut S,
    cursor: &mut Cursor,
    start: Place,
) -> Result<Option<Place>, OutsideRefused>
    requires { ends_at_end (state_of start) ≡ false }
    ensures some { (p : Place) → result ≡ Ok (Some p)
        → option_map (next_record default_config (state_of start) [] [])
        (bytes_left (S.told source.old) cursor.old.bytes cursor.old.at)
        ≡ option_map (λ r. Some (cursor.new.fields, state_of p, r))
        (bytes_left (S.told source.old) cursor.new.bytes cursor.new.at) }
    ensures between { IfOk result (λ o. IfSome o (λ p. ends_at_end (state_of p) ≡ false)) }
    ensures none { result ≡ Ok None
        → option_map (next_record default_config (state_of start) [] [])
        (bytes_left (S.told source.old) cursor.old.bytes cursor.old.at)
        ≡ option_map (λ v. None) (S.told source.old) }
    ensures most { (p : Place) → result ≡ Ok (Some p)
        → count_left (S.size source.old) cursor.new.bytes cursor.new.at
        < count_left (S.size source.old) cursor.old.bytes cursor.old.at }
    ensures same { (S.told source.new ≡ S.told source.old)
        × (S.size source.new ≡ S.size source.old) }
    ensures later { S.faults source.old ≤ S.faults source.new }
    ensures failed { result ≡ Err refused.Failed
        → Rose (S.faults source.old) (S.faults source.new) }
{
    cursor.clear();
    let mut place = start;
    'bytes: loop {
        let joined = cursor.take_run(place);
        let byte = match cursor.next_byte(source) {
            Err(refused) => return Err(refused),
            Ok(Some(byte)) => byte,
            Ok(None) => {
                if !ends_record(joined) {
                    return Ok(None);
                }
                let Ok(()) = cursor.end_text() else {
                    return Err(OutsideRefused::NoMemory);
                };
                return Ok(Some(Place::StartRecord));
            }
        };
        let (next, effect) = step(joined, byte);
        let Ok(()) = cursor.put(effect) else {
            return Err(OutsideRefused::NoMemory);
        };
        if effect == Effect::EndRecord {
            return Ok(Some(next));
        }
        place = next;
    }
}

impl RecordReader {
    /// A reader at the start of a source, behind a byte order mark.
    pub fn begin<S: Source>(alloc: Global, source: &mut S) -> Result<RecordReader, OutsideRefused>
        ensures left { IfOk result (λ r. bytes_left (S.told source.old) r.bytes r.at
            ≡ option_map strip_bom (S.told source.old)) }
        ensures start { IfOk result (λ r. r.after_cr ≡ false) }
        ensures most { IfOk result (λ r. most_left (S.size source.old) r ≤ S.size source.old) }
        ensures small { IfOk result (λ r. S.size source.old < 2 ^ 64) }
        ensures same { (S.told source.new ≡ S.told source.old)
            × (S.size source.new ≡ S.size source.old) }
        ensures later { S.faults source.old ≤ S.faults source.new }
        ensures failed { result ≡ Err refused.Failed
            → Rose (S.faults source.old) (S.faults source.new) }
    {
        match Cursor::begin(alloc, source) {
            Err(refused) => Err(refused),
            Ok(cursor) => Ok(RecordReader {
                cursor,
                after_cr: false,
            }),
        }
    }

    /// Takes the next record of the source, if there is one.
    #[tactic(auto, using(crate::proofs::RecordSteps::left_steps))]
    pub fn take_record<S: Source>(&mut self, source: &mut S) -> Result<bool, OutsideRefused>
        ensures some { result ≡ Ok true
            → Takes (records_left (S.told source.old) self.old)
            self.new.fields (records_left (S.told source.old) self.new) }
        ensures none { result ≡ Ok false → HasNone (records_left (S.told source.old) self.old) }
        ensures most { result ≡ Ok true
            → most_left (S.size source.old) self.new < most_left (S.size source.old) self.old }
        ensures same { (S.told source.new ≡ S.told source.old)
            × (S.size source.new ≡ S.size source.old) }
        ensures later { S.faults source.old ≤ S.faults source.new }
        ensures failed { result ≡ Err refused.Failed
            → Rose (S.faults source.old) (S.faults source.new) }
    {
        let start = start_after(self.after_cr);
        match take_next(source, &mut self.cursor, start) {
            Err(refused) => Err(refused),
            Ok(None) => Ok(false),
            Ok(Some(place)) => {
                self.after_cr = is_after_cr(place);
                Ok(true)
            }
        }
    }

    /// How many fields the record has that was taken last.
    #[inline]
    pub fn len(&self) -> usize
        ensures { result ≡ length self.now.fields }
    {
        self.cursor.len()
    }

    /// The field at a place of that record.
    #[inline]
    pub fn field(&self, at: usize) -> &[u8]
        requires { at < length self.now.fields }
        ensures { result.now ≡ slice_index_or self.now.fields at [] }
    {
        self.cursor.field(at)
    }
}
