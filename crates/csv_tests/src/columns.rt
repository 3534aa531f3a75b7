//! Files as columns: the cells that fields become, and what is refused.

ghost use Rattle.std.specs.Prelude.{◌≡◌, ◌≤◌, ◌<◌, ◌^◌, Ok, true, false, length, IfOk};
ghost use Rattle.dfx_value.specs.Kinds.{are_kinds};

use column_batch::Batch;
use csv_columns::{CsvRefused, CsvScan};
use dfx_outside::MemSource;
use dfx_value::{Bytes, Kind};
use std::alloc::Global;
use std::test::Fail;

/// The columns of a file of the tests.
#[derive(Clone, Copy)]
enum Columns {
    Int,
    /// Twelve digits, two of them behind the point.
    Short,
    /// Thirty-eight digits, three of them behind the point.
    Wide,
    Bool,
    Text,
    IntAndText,
}

fn kinds_of(alloc: Global, columns: Columns) -> Result<Vec<Kind>, Fail>
    ensures kinds { IfOk result (λ kinds. are_kinds kinds.items ≡ true) }
    ensures few { IfOk result (λ kinds. length kinds.items < 2 ^ 32) }
{
    Ok(match columns {
        Columns::Int => vec![in alloc; Kind::Int]?,
        Columns::Short => vec![in alloc;
            Kind::Dec {
                precision: 12,
                scale: 2
            },
        ]?,
        Columns::Wide => vec![in alloc;
            Kind::Dec {
                precision: 38,
                scale: 3
            },
        ]?,
        Columns::Bool => vec![in alloc; Kind::Bool]?,
        Columns::Text => vec![in alloc; Kind::Text]?,
        Columns::IntAndText => vec![in alloc; Kind::Int, Kind::Text]?,
    })
}

/// Puts the rows of a batch, each cell with a bar after it, each row with a semicolon.
fn push_rows(text: &mut String, batch: &Batch, columns: u32) -> Result<(), Fail>
    requires { columns ≤ length batch.now.kinds }
{
    for at in 0..batch.rows() {
        for column in 0..columns {
            if let Err(_) = batch.push_cell(text, at, column) {
                text.push('?')?;
            }
            text.push('|')?;
        }
        text.push(';')?;
    }
    Ok(())
}

/// What was refused.
fn push_refused(text: &mut String, refused: CsvRefused) -> Result<(), Fail> {
    match refused {
        CsvRefused::Header { fields } => write!(text, "!header {fields}")?,
        CsvRefused::Fields { number } => write!(text, "!fields {number}")?,
        CsvRefused::NotUtf8 { number } => write!(text, "!utf8 {number}")?,
        CsvRefused::Value { number, column } => write!(text, "!value {number} {column}")?,
        CsvRefused::Read => text.push_str("!read")?,
        CsvRefused::NoMemory => text.push_str("!memory")?,
    }
    Ok(())
}

/// Puts the next batch with a slash after it, or why there is none; whether more may come.
fn push_next(
    text: &mut String,
    scan: &mut CsvScan<MemSource>,
    rows: u32,
    columns: u32,
) -> Result<bool, Fail>
    requires some { 0 < rows }
    requires going { scan.old.refused ≡ false }
    requires columns { columns ≤ length scan.old.kinds }
    ensures going { result ≡ Ok true → scan.new.refused ≡ false }
    ensures kinds { scan.new.kinds ≡ scan.old.kinds }
{
    match scan.next(rows) {
        Ok(batch) => {
            push_rows(text, &batch, columns)?;
            text.push('/')?;
            Ok(batch.rows() == rows)
        }
        Err(refused) => {
            push_refused(text, refused)?;
            Ok(false)
        }
    }
}

/// Puts all batches.
fn push_batches(
    text: &mut String,
    scan: &mut CsvScan<MemSource>,
    rows: u32,
    columns: u32,
) -> Result<(), Fail>
    requires some { 0 < rows }
    requires going { scan.old.refused ≡ false }
    requires columns { columns ≤ length scan.old.kinds }
{
    for _at in 0..u64::MAX {
        if !push_next(text, scan, rows, columns)? {
            return Ok(());
        }
    }
    Ok(())
}

/// The rows of a file in batches of so many, each batch with a slash after it, and why there are no more.
fn shown(alloc: Global, source: MemSource, columns: Columns, rows: u32) -> Result<String, Fail>
    requires { 0 < rows }
{
    let mut text = String::new(alloc);
    let kinds = kinds_of(alloc, columns)?;
    let count = kinds.len() as u32;
    let Ok(mut scan) = CsvScan::new(alloc, source, kinds) else {
        return Ok(text);
    };
    let taken = push_batches(&mut text, &mut scan, rows, count);
    let _ = scan.into_source();
    taken?;
    Ok(text)
}

fn source_of(alloc: Global, bytes: &[u8], failing: &[u32]) -> Result<MemSource, Fail> {
    let bytes = Bytes::from_vec(Vec::from_slice(alloc, bytes)?);
    Ok(MemSource::new(bytes, Vec::from_slice(alloc, failing)?))
}

#[test]
fn cells(rt: HostRuntime) -> Result<(), Fail> {
    let alloc = rt.alloc();
    let cases: [(Columns, &[u8], &str); 19] = [
        (
            Columns::Int,
            b"a\n1\n-2\n+3\n\"\"\n007\n",
            "1|;-2|;3|;|;7|;/",
        ),
        (
            Columns::Int,
            b"a\n999999999999999999\n",
            "999999999999999999|;/",
        ),
        (
            Columns::Int,
            b"a\n9223372036854775807\n-9223372036854775808\n",
            "9223372036854775807|;-9223372036854775808|;/",
        ),
        (Columns::Int, b"a\n0000000000000000000000000012\n", "12|;/"),
        (Columns::Int, b"a\n9223372036854775808\n", "!value 1 1"),
        (Columns::Int, b"a\n1\n-\n", "!value 2 1"),
        (Columns::Int, b"a\n1x\n", "!value 1 1"),
        (Columns::Int, b"a\n1\n\xff\n", "!utf8 2"),
        (
            Columns::Short,
            b"a\n1\n-2.5\n.25\n3.\n+0.00\n7.1000\n",
            "1.00|;-2.50|;0.25|;3.00|;0.00|;7.10|;/",
        ),
        (Columns::Short, b"a\n9999999999.99\n", "9999999999.99|;/"),
        (
            Columns::Short,
            b"a\n00000000000009999999999.99\n",
            "9999999999.99|;/",
        ),
        (Columns::Short, b"a\n10000000000\n", "!value 1 1"),
        (Columns::Short, b"a\n1.001\n", "!value 1 1"),
        (Columns::Short, b"a\n.\n", "!value 1 1"),
        (
            Columns::Wide,
            b"a\n12345678901234567890123456789012345.678\n1.5\n",
            "12345678901234567890123456789012345.678|;1.500|;/",
        ),
        (
            Columns::Bool,
            b"a\ntrue\nFALSE\n\"\"\nTrue\n",
            "true|;false|;|;true|;/",
        ),
        (Columns::Bool, b"a\nyes\n", "!value 1 1"),
        (
            Columns::Text,
            b"a\n\"x,y\"\n\"a\"\"b\"\nh\xc3\xa9\n\"\"\n",
            "x,y|;a\"b|;h\u{e9}|;|;/",
        ),
        (Columns::Text, b"a\n\xc3\n", "!utf8 1"),
    ];
    for (at, (columns, file, rows)) in cases.iter().enumerate() {
        let source = source_of(alloc, file, &[])?;
        assert_eq!(rt;
            shown(alloc, source, *columns, 100)?.as_str(),
            *rows,
            "in case {at}"
        );
    }
    Ok(())
}

#[test]
fn batches(rt: HostRuntime) -> Result<(), Fail> {
    let alloc = rt.alloc();
    let cases: [(&[u8], u32, &str); 8] = [
        (b"", 2, "/"),
        (b"a,b\n", 2, "/"),
        (b"a\n1\n", 2, "!header 1"),
        (b"a,b\n1,x\n2,y\n3,z\n", 2, "1|x|;2|y|;/3|z|;/"),
        (b"a,b\n1,x\n2,y\n", 2, "1|x|;2|y|;//"),
        (b"a,b\n1,x\n2\n3,z\n", 2, "!fields 2"),
        (b"a,b\n1,x\n2\n3,z\n", 1, "1|x|;/!fields 2"),
        (
            b"\xef\xbb\xbfa,b\r\n1,x\r\n\r\n2,\"y\r\n\"\r\n",
            5,
            "1|x|;2|y\r\n|;/",
        ),
    ];
    for (at, (file, rows, wanted)) in cases.iter().enumerate() {
        let source = source_of(alloc, file, &[])?;
        assert_eq!(rt;
            shown(alloc, source, Columns::IntAndText, (*rows).max(1))?.as_str(),
            *wanted,
            "in case {at}"
        );
    }
    Ok(())
}

#[test]
fn failed_read(rt: HostRuntime) -> Result<(), Fail> {
    let alloc = rt.alloc();
    let mut file = Vec::new(alloc);
    file.extend_from_slice(b"a\n1\n")?;
    file.resize(100_000, b'2')?;
    let first = source_of(alloc, &file, &[1])?;
    assert_eq!(rt; shown(alloc, first, Columns::Int, 1)?.as_str(), "!read");
    let second = source_of(alloc, &file, &[2])?;
    assert_eq!(rt;
        shown(alloc, second, Columns::Int, 1)?.as_str(),
        "1|;/!read"
    );
    Ok(())
}
