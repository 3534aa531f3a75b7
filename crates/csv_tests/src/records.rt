//! Records as RFC 4180 and the crate `csv` say that they are read, also where a block ends in one.

use csv_records::RecordReader;
use dfx_outside::{MemSource, OutsideRefused};
use dfx_value::Bytes;
use std::alloc::Global;
use std::test::Fail;

/// The records of a source, each field with a bar after it, each record with a line's end; and why there are no more.
fn shown(alloc: Global, mut source: MemSource) -> Result<Vec<u8>, Fail> {
    let mut text = Vec::new(alloc);
    let Ok(mut reader) = RecordReader::begin(alloc, &mut source) else {
        text.push(b'!')?;
        return Ok(text);
    };
    for _at in 0..u64::MAX {
        match reader.take_record(&mut source) {
            Ok(true) => {}
            Ok(false) => return Ok(text),
            Err(refused) => {
                text.push(if refused == OutsideRefused::Failed {
                    b'!'
                } else {
                    b'?'
                })?;
                return Ok(text);
            }
        }
        for at in 0..reader.len() {
            text.extend_from_slice(reader.field(at))?;
            text.push(b'|')?;
        }
        text.push(b';')?;
    }
    Ok(text)
}

fn source_of(alloc: Global, bytes: &[u8], failing: &[u32]) -> Result<MemSource, Fail> {
    let bytes = Bytes::from_vec(Vec::from_slice(alloc, bytes)?);
    Ok(MemSource::new(bytes, Vec::from_slice(alloc, failing)?))
}

#[test]
fn records(rt: HostRuntime) -> Result<(), Fail> {
    let alloc = rt.alloc();
    let cases: [(&[u8], &[u8]); 26] = [
        (b"", b""),
        (b"\n\r\n\r\r\n", b""),
        (b"a", b"a|;"),
        (b"a,b\nc,d", b"a|b|;c|d|;"),
        (b"a,b\r\nc,d\r\n", b"a|b|;c|d|;"),
        (b"a\rb\r\rc", b"a|;b|;c|;"),
        (b"a\n\n\nb", b"a|;b|;"),
        (b",\n,", b"||;||;"),
        (b",", b"||;"),
        (b"\"\"", b"|;"),
        (b"\"\"\n\"\"", b"|;|;"),
        (b"\"a,b\",c", b"a,b|c|;"),
        (b"\"a\nb\r\n\",c\n", b"a\nb\r\n|c|;"),
        (b"x,\"a\"\"b\",c\n", b"x|a\"b|c|;"),
        (b"\"\"\"\"\"\",\"\"\"a\"\n1", b"\"\"|\"a|;1|;"),
        (b"\"a\"b,\"c\"d\"\n", b"ab|cd\"|;"),
        (b"a\"b,c\"\"\n", b"a\"b|c\"\"|;"),
        (b"\"a", b"a|;"),
        (b"\"a\"", b"a|;"),
        (b"\"a\"\"", b"a\"|;"),
        (b"a,\"", b"a||;"),
        (b"\xef\xbb\xbfa,b\n", b"a|b|;"),
        (b"\xef\xbb", b"\xef\xbb|;"),
        (b"\xef\xbb\xbf", b""),
        (b"\xff\x00,\x80\n", b"\xff\x00|\x80|;"),
        (b" a , b \n", b" a | b |;"),
    ];
    for (at, (file, rows)) in cases.iter().enumerate() {
        let source = source_of(alloc, file, &[])?;
        assert_eq!(rt; shown(alloc, source)?.as_slice(), *rows, "in case {at}");
    }
    Ok(())
}

/// Records of which a block ends in each part in turn: a text, then a doubled quote within quotes.
#[test]
fn ends_of_blocks(rt: HostRuntime) -> Result<(), Fail> {
    let alloc = rt.alloc();
    for before in 65_520usize..65_540 {
        let mut file = Vec::new(alloc);
        let mut rows = Vec::new(alloc);
        file.resize(before, b'x')?;
        rows.resize(before, b'x')?;
        file.extend_from_slice(b",\"a\"\"\"\"b\",c\r\nd\r\n")?;
        rows.extend_from_slice(b"|a\"\"b|c|;d|;")?;
        let source = source_of(alloc, &file, &[])?;
        assert_eq!(rt; shown(alloc, source)?, rows, "behind {before}");
    }
    Ok(())
}

#[test]
fn long_fields(rt: HostRuntime) -> Result<(), Fail> {
    let alloc = rt.alloc();
    for length in [32_767usize, 32_768, 65_536, 131_072, 200_000] {
        let mut file = Vec::new(alloc);
        let mut rows = Vec::new(alloc);
        file.extend_from_slice(b"1,\"")?;
        rows.extend_from_slice(b"1|")?;
        for _at in 0..length {
            file.extend_from_slice(b"\"\"")?;
            rows.push(b'"')?;
        }
        file.extend_from_slice(b"\",2\n3")?;
        rows.extend_from_slice(b"|2|;3|;")?;
        let source = source_of(alloc, &file, &[])?;
        assert_eq!(rt; shown(alloc, source)?, rows, "of {length}");
    }
    Ok(())
}

#[test]
fn failed_reads(rt: HostRuntime) -> Result<(), Fail> {
    let alloc = rt.alloc();
    let mut file = Vec::new(alloc);
    file.extend_from_slice(b"a\n")?;
    file.resize(100_000, b'b')?;
    let first = source_of(alloc, &file, &[1])?;
    assert_eq!(rt; shown(alloc, first)?.as_slice(), b"!".as_slice());
    let second = source_of(alloc, &file, &[2])?;
    assert_eq!(rt; shown(alloc, second)?.as_slice(), b"a|;!".as_slice());
    Ok(())
}
