//! Files in batches of several sizes, a failed read, and a refusal in mid-stream. What files hold is tested in script_cases (topic
//! csv_files).

ghost use Rattle.std.specs.Prelude.{◌≡◌, ◌^◌, ◌<◌, true, false, length, Ok, IfOk};
ghost use Rattle.dfx_value.specs.Kinds.{are_kinds};

use csv_source::CsvScan;
use dfx_outside::MemSource;
use dfx_value::{Batch, Bytes, Kind, Value};
use std::alloc::Global;
use std::test::Fail;

/// A scan of a file of whole numbers, of whose reads those with the given numbers fail.
fn scan_of(alloc: Global, file: &[u8], failing: &[u32]) -> Result<CsvScan<MemSource>, Fail>
    ensures { IfOk result (λ scan. scan.refused ≡ false) }
{
    let bytes = Bytes::from_vec(Vec::from_slice(alloc, file)?);
    let source = MemSource::new(bytes, Vec::from_slice(alloc, failing)?);
    let kinds = vec![in alloc; Kind::Int]?;
    Ok(CsvScan::new(alloc, source, kinds)?)
}

/// What a scan has given: the text of its numbers, and of its refusal.
#[derive(Drop)]
struct Shown {
    rows: String,
    refusal: String,
}

fn push_batch(alloc: Global, text: &mut String, batch: &Batch) -> Result<(), Fail> {
    for at in 0..batch.rows() {
        match batch.row(alloc, at)?.cells.first() {
            Some(Value::Int(number)) => write!(text, "{number} ")?,
            _ => text.push_str("- ")?,
        }
    }
    Ok(())
}

/// Takes the next batch, and answers whether there may be more.
fn take_batch(
    alloc: Global,
    scan: &mut CsvScan<MemSource>,
    rows: u32,
    shown: &mut Shown,
) -> Result<bool, Fail>
    requires some { 0 < rows }
    requires going { scan.old.refused ≡ false }
    ensures { result ≡ Ok true → scan.new.refused ≡ false }
{
    match scan.next(rows) {
        Ok(batch) => {
            push_batch(alloc, &mut shown.rows, &batch)?;
            Ok(batch.rows() == rows)
        }
        Err(refused) => {
            write!(shown.refusal, "{refused:?}")?;
            Ok(false)
        }
    }
}

/// Takes batches up to the end of the file or a refusal, at most so many.
fn take_batches(
    alloc: Global,
    scan: &mut CsvScan<MemSource>,
    rows: u32,
    shown: &mut Shown,
    at_most: u8,
) -> Result<(), Fail>
    requires some { 0 < rows }
    requires going { scan.old.refused ≡ false }
{
    if at_most > 0 && take_batch(alloc, scan, rows, shown)? {
        take_batches(alloc, scan, rows, shown, at_most - 1)?;
    }
    Ok(())
}

/// What the scan of a file gives in batches of so many rows, and how often its source then had failed.
fn read(alloc: Global, file: &[u8], failing: &[u32], rows: u32) -> Result<(Shown, u64), Fail>
    requires { 0 < rows }
{
    let mut scan = scan_of(alloc, file, failing)?;
    let mut shown = Shown {
        rows: String::new(alloc),
        refusal: String::new(alloc),
    };
    let taken = take_batches(alloc, &mut scan, rows, &mut shown, 100);
    let source = scan.into_source();
    taken?;
    Ok((shown, source.faults()))
}

#[test]
fn batches_of_any_size(rt: HostRuntime) -> Result<(), Fail> {
    for count in [1, 2, 5, 8192] {
        let (shown, faults) = read(rt.alloc(), b"n\n1\n2\n\"\"\n4\n5\n", &[], count)?;
        assert_eq!(rt; shown.rows.as_str(), "1 2 - 4 5 ", "in batches of {count}");
        assert_eq!(rt; shown.refusal.as_str(), "", "in batches of {count}");
        assert_eq!(rt; faults, 0);
    }
    Ok(())
}

#[test]
fn a_failed_read(rt: HostRuntime) -> Result<(), Fail> {
    let (shown, faults) = read(rt.alloc(), b"n\n1\n", &[1], 2)?;
    assert_eq!(rt; shown.refusal.as_str(), "Read");
    assert_eq!(rt; shown.rows.as_str(), "");
    assert_eq!(rt; faults, 1);
    Ok(())
}

/// Before a refusal only whole batches come.
#[test]
fn a_refusal_in_mid_stream(rt: HostRuntime) -> Result<(), Fail> {
    let file: &[u8] = b"n\n1\n2\n3\n4\n5\nx\n7\n8\n";
    for (count, rows) in [
        (1, "1 2 3 4 5 "),
        (2, "1 2 3 4 "),
        (3, "1 2 3 "),
        (6, ""),
        (8192, ""),
    ] {
        let (shown, faults) = read(rt.alloc(), file, &[], count)?;
        assert_eq!(rt; shown.rows.as_str(), rows, "the rows in batches of {count}");
        assert_eq!(rt;
            shown.refusal.as_str(),
            "Value { number: 6, column: 1 }",
            "in batches of {count}"
        );
        assert_eq!(rt; faults, 0);
    }
    Ok(())
}
