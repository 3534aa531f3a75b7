//! A journal as text.

ghost use Rattle.std.specs.Prelude.{◌≡◌, ◌++◌, IfOk, OnOk};
ghost use Rattle.std.specs.String.{string_bytes};
ghost use Rattle.run_journal.specs.declared.entry.EntryKind.TheVariants.{Failed};
ghost use Rattle.run_journal.specs.JournalText as spec;

use crate::cause::Cause;
use crate::entry::{Entry, EntryKind};
use crate::journal::Journal;
use dfx_value::{Bytes, EvalFault, NoMemory};
use std::alloc::Global;
use std::fmt::Write;

/// The text of a journal: a line `dfx-journal 1 partitions=N batch=B limit=M`, then a line `worker task kind` for each
/// entry, in order. A kind is its name in small letters; after `failed` comes the cause.
pub fn journal_text(alloc: Global, journal: &Journal) -> Result<Bytes, NoMemory>
    ensures text { IfOk result (λ text. text ≡ spec.journal_text journal.now) }
{
    let mut text = String::new(alloc);
    push_settings(&mut text, journal.partitions, journal.batch, journal.limit)?;
    for entry in journal.entries.as_slice() {
        push_line(&mut text, entry)?;
    }
    Ok(Bytes::from_vec(text.into_bytes()))
}

fn push_settings(text: &mut String, partitions: u32, batch: u32, limit: u64) -> Result<(), NoMemory>
    ensures { OnOk result
        (string_bytes text.new
        ≡ string_bytes text.old ++ spec.settings_line partitions batch limit) }
{
    text.push_str("dfx-journal 1")?;
    push_setting(text, " partitions=", partitions as u64)?;
    push_setting(text, " batch=", batch as u64)?;
    push_setting(text, " limit=", limit)?;
    Ok(text.push_str("\n")?)
}

#[tactic(auto, unfolding(crate::specs::JournalText::setting))]
fn push_setting(text: &mut String, name: &str, number: u64) -> Result<(), NoMemory>
    ensures { OnOk result
        (string_bytes text.new ≡ string_bytes text.old ++ spec.setting name.now number) }
{
    text.push_str(name)?;
    Ok(write!(text, "{number}")?)
}

#[tactic(auto, unfolding(crate::specs::JournalText::line))]
fn push_line(text: &mut String, entry: &Entry) -> Result<(), NoMemory>
    ensures { OnOk result (string_bytes text.new ≡ string_bytes text.old ++ spec.line entry.now) }
{
    let worker = entry.worker;
    let task = entry.task;
    write!(text, "{worker} {task} ")?;
    push_kind(text, &entry.kind)?;
    Ok(text.push('\n')?)
}

fn push_kind(text: &mut String, kind: &EntryKind) -> Result<(), NoMemory>
    ensures { OnOk result
        (string_bytes text.new ≡ string_bytes text.old ++ spec.kind_text kind.now) }
{
    match kind {
        EntryKind::Claimed => text.push_str("claimed")?,
        EntryKind::Scanned => text.push_str("scanned")?,
        EntryKind::Received => text.push_str("received")?,
        EntryKind::Empty => text.push_str("empty")?,
        EntryKind::Ended => text.push_str("ended")?,
        EntryKind::Sent => text.push_str("sent")?,
        EntryKind::Held => text.push_str("held")?,
        EntryKind::Dropped => text.push_str("dropped")?,
        EntryKind::Granted => text.push_str("granted")?,
        EntryKind::Refused => text.push_str("refused")?,
        EntryKind::Freed => text.push_str("freed")?,
        EntryKind::Wrote => text.push_str("wrote")?,
        EntryKind::Yielded => text.push_str("yielded")?,
        EntryKind::Finished => text.push_str("finished")?,
        EntryKind::Failed(cause) => push_failed(text, cause)?,
    }
    Ok(())
}

fn push_failed(text: &mut String, cause: &Cause) -> Result<(), NoMemory>
    ensures { OnOk result
        (string_bytes text.new ≡ string_bytes text.old ++ spec.kind_text (Failed cause.now)) }
{
    text.push_str("failed ")?;
    push_cause(text, cause)
}

fn push_cause(text: &mut String, cause: &Cause) -> Result<(), NoMemory>
    ensures { OnOk result
        (string_bytes text.new ≡ string_bytes text.old ++ spec.cause_text cause.now) }
{
    match cause {
        Cause::Read => text.push_str("read")?,
        Cause::Write => text.push_str("write")?,
        Cause::Spill => text.push_str("spill")?,
        Cause::NoMemory => text.push_str("memory")?,
        Cause::Evaluation(fault) => push_fault(text, fault)?,
        Cause::Csv {
            source,
            number,
            row,
            column,
        } => write!(text, "csv {source} {number} {row} {column}")?,
        Cause::Arrow {
            source,
            number,
            batch,
            column,
            place,
        } => write!(text, "arrow {source} {number} {batch} {column} {place}")?,
        Cause::Exhausted {
            requested,
            held,
            share,
        } => write!(text, "exhausted {requested} {held} {share}")?,
    }
    Ok(())
}

fn push_fault(text: &mut String, fault: &EvalFault) -> Result<(), NoMemory>
    ensures { OnOk result
        (string_bytes text.new ≡ string_bytes text.old ++ spec.fault_text fault.now) }
{
    match fault {
        EvalFault::Overflow => text.push_str("overflow")?,
        EvalFault::DivideByZero => text.push_str("divide")?,
        EvalFault::CastRefused => text.push_str("cast")?,
    }
    Ok(())
}
