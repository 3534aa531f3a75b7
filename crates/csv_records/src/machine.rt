//! What a byte does, after the state machine of the crate `csv` with its default settings.

ghost use Rattle.std.specs.Prelude.{◌≡◌, ◌≤◌, true, false, length, take};
ghost use Rattle.csv.specs.Machine as Spec;
ghost use Rattle.csv.specs.Reading.{default_config};
ghost use Rattle.csv.specs.declared.parser.State.TheVariants as st;
ghost use Rattle.csv_records.specs.Cursors.{Joins};
ghost use Rattle.csv_records.specs.Left.{between};
ghost use Rattle.csv_records.specs.Places.{state_of, action_of, begins_field};
ghost use Rattle.csv_records.specs.declared.machine.Effect.TheVariants as effect;

use memchr::{memchr, memchr3};

/// Where a reader stands in a record.
#[derive(Clone, Copy, PartialEq, Eq, Debug)]
pub enum Place {
    StartRecord,
    AfterCr,
    StartField,
    InField,
    InQuoted,
    AfterQuote,
}

/// What a byte does.
#[derive(Clone, Copy, PartialEq, Eq, Debug)]
pub enum Effect {
    Skip,
    Copy,
    EndField,
    EndRecord,
}

fn in_field(byte: u8) -> (Place, Effect)
    ensures is { (state_of result.0, action_of result.1) ≡ Spec.in_field default_config byte }
    ensures ends { result.1 ≡ effect.EndRecord → Spec.ends_at_end (state_of result.0) ≡ false }
{
    if byte == b',' {
        (Place::StartField, Effect::EndField)
    } else if byte == b'\r' {
        (Place::AfterCr, Effect::EndRecord)
    } else if byte == b'\n' {
        (Place::StartRecord, Effect::EndRecord)
    } else {
        (Place::InField, Effect::Copy)
    }
}

fn start_field(byte: u8) -> (Place, Effect)
    ensures is { (state_of result.0, action_of result.1) ≡ Spec.start_field default_config byte }
    ensures ends { result.1 ≡ effect.EndRecord → Spec.ends_at_end (state_of result.0) ≡ false }
{
    if byte == b'"' {
        (Place::InQuoted, Effect::Skip)
    } else {
        in_field(byte)
    }
}

fn start_record(byte: u8) -> (Place, Effect)
    ensures is { (state_of result.0, action_of result.1) ≡ Spec.start_record default_config byte }
    ensures ends { result.1 ≡ effect.EndRecord → Spec.ends_at_end (state_of result.0) ≡ false }
{
    if byte == b'\r' || byte == b'\n' {
        (Place::StartRecord, Effect::Skip)
    } else {
        start_field(byte)
    }
}

/// The place after a byte, and what it does.
pub fn step(place: Place, byte: u8) -> (Place, Effect)
    ensures is { (state_of result.0, action_of result.1)
        ≡ Spec.step default_config (state_of place) byte }
    ensures ends { result.1 ≡ effect.EndRecord → Spec.ends_at_end (state_of result.0) ≡ false }
{
    match place {
        Place::StartRecord => start_record(byte),
        Place::StartField => start_field(byte),
        Place::InField => in_field(byte),
        Place::InQuoted => {
            if byte == b'"' {
                (Place::AfterQuote, Effect::Skip)
            } else {
                (Place::InQuoted, Effect::Copy)
            }
        }
        Place::AfterQuote => {
            if byte == b'"' {
                (Place::InQuoted, Effect::Copy)
            } else {
                in_field(byte)
            }
        }
        Place::AfterCr => {
            if byte == b'\n' {
                (Place::StartRecord, Effect::Skip)
            } else {
                start_record(byte)
            }
        }
    }
}

#[tactic(auto, using(crate::proofs::RunSteps::run_steps))]
/// How many bytes at the front only join a field without quotes.
fn plain_length(bytes: &[u8]) -> usize
    ensures within { result ≤ length bytes.now }
    ensures plain { Spec.Runs default_config st.InField (take result bytes.now) }
{
    match memchr3(b',', b'\r', b'\n', bytes) {
        Some(place) => place,
        None => bytes.len(),
    }
}

#[tactic(auto, using(crate::proofs::RunSteps::run_steps))]
/// How many bytes at the front only join a field within quotes.
fn quoted_length(bytes: &[u8]) -> usize
    ensures within { result ≤ length bytes.now }
    ensures plain { Spec.Runs default_config st.InQuoted (take result bytes.now) }
{
    match memchr(b'"', bytes) {
        Some(place) => place,
        None => bytes.len(),
    }
}

/// Bytes at the front that do nothing but join the field at hand.
#[derive(Clone, Copy)]
pub struct Run {
    /// How many there are.
    pub count: usize,
    /// The place after them.
    pub place: Place,
}

#[tactic(auto, using(crate::proofs::RunSteps::run_steps))]
/// Those that begin a field without quotes.
fn begun_by(place: Place, bytes: &[u8]) -> Run
    requires { begins_field place ≡ true }
    ensures within { result.count ≤ length bytes.now }
    ensures run { Joins (state_of place) (take result.count bytes.now) (state_of result.place) }
{
    let count = plain_length(bytes);
    if count == 0 || bytes[0] == b'"' {
        return Run { count: 0, place };
    }
    Run {
        count,
        place: Place::InField,
    }
}

#[tactic(auto, using(crate::proofs::RunSteps::run_steps))]
/// Those of the bytes that do nothing but join the field at hand, which the first may begin.
pub fn run_of(place: Place, bytes: &[u8]) -> Run
    ensures within { result.count ≤ length bytes.now }
    ensures run { Joins (state_of place) (take result.count bytes.now) (state_of result.place) }
{
    match place {
        Place::StartRecord | Place::StartField | Place::AfterCr => begun_by(place, bytes),
        Place::InField => Run {
            count: plain_length(bytes),
            place,
        },
        Place::InQuoted => Run {
            count: quoted_length(bytes),
            place,
        },
        Place::AfterQuote => Run { count: 0, place },
    }
}

/// Whether the end of the text ends a record here.
pub fn ends_record(place: Place) -> bool
    ensures { result ≡ Spec.ends_at_end (state_of place) }
{
    match place {
        Place::StartRecord | Place::AfterCr => false,
        Place::StartField | Place::InField | Place::InQuoted | Place::AfterQuote => true,
    }
}

/// Whether a CR ended the last record, at a place between two.
pub fn is_after_cr(place: Place) -> bool
    ensures { Spec.ends_at_end (state_of place) ≡ false → between result ≡ state_of place }
{
    match place {
        Place::AfterCr => true,
        _ => false,
    }
}

/// The place between two records, the first of which a CR ended or didn't.
pub fn start_after(after_cr: bool) -> Place
    ensures { state_of result ≡ between after_cr }
{
    if after_cr {
        Place::AfterCr
    } else {
        Place::StartRecord
    }
}
