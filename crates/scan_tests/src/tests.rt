//! A run over two files of which the second is absent, or isn't read. What queries answer is tested in script_cases (topic runs).

use dfx_outside::{MemFiles, MemSink, are_distinct};
use dfx_value::{Bytes, Kind, Seq, Text};
use logical_plan::{Logical, Query};
use scan_run::{RunRefused, has_sound_kinds, is_chain, run_chain};
use sqlite_items::Items;
use std::alloc::Global;
use std::process::Abort;
use std::rt::HostRuntime;
use std::test::Fail;

fn text(alloc: Global, from: &str) -> Result<Text, Fail> {
    Ok(Text::from_string(String::from_str(alloc, from)?))
}

fn bytes(alloc: Global, from: &[u8]) -> Result<Bytes, Fail> {
    Ok(Bytes::from_vec(Vec::from_slice(alloc, from)?))
}

/// `1.csv`, and perhaps `2.csv`, whose first read fails.
fn files_of(rt: &impl Abort, alloc: Global, second: bool) -> Result<MemFiles, Fail> {
    let mut files = Vec::new(alloc);
    files.push((text(alloc, "1.csv")?, bytes(alloc, b"a,b\n1,x\n")?))?;
    if second {
        files.push((text(alloc, "2.csv")?, bytes(alloc, b"a,b\n2,y\n")?))?;
    }
    let mut failing = Vec::new(alloc);
    failing.push((text(alloc, "2.csv")?, 1))?;
    assert!(rt; are_distinct(files.as_slice()));
    Ok(MemFiles::new(alloc, files, failing))
}

fn scan(alloc: Global) -> Result<Logical, Fail> {
    let kinds = Items::from_slice(alloc, &[Kind::Int, Kind::Text])?;
    Ok(Logical::Scan { table: 0, kinds })
}

fn texts(alloc: Global, first: &str, second: &str) -> Result<Vec<Text>, Fail> {
    let mut texts = Vec::new(alloc);
    texts.push(text(alloc, first)?)?;
    texts.push(text(alloc, second)?)?;
    Ok(texts)
}

/// Why the query has no answer, if so.
fn refused_by(
    alloc: Global,
    body: Logical,
    names: Vec<Text>,
    paths: &[Text],
    files: &mut MemFiles,
    sink: &mut MemSink,
) -> Option<RunRefused> {
    if !is_chain(&body) || !has_sound_kinds(&body) || paths.len() > 2 {
        return None;
    }
    let order = Vec::new(alloc);
    let query = Query {
        names: Seq::from_vec(names),
        body,
        order: Seq::from_vec(order),
        offset: 0,
        limit: None,
    };
    run_chain(alloc, &query, paths, files, sink).err()
}

/// The same of `SELECT a AS p, b AS q FROM t` over these paths.
fn refused_at(
    alloc: Global,
    paths: &[Text],
    files: &mut MemFiles,
    sink: &mut MemSink,
) -> Result<Option<RunRefused>, Fail> {
    let body = scan(alloc)?;
    let names = texts(alloc, "p", "q")?;
    Ok(refused_by(alloc, body, names, paths, files, sink))
}

/// The same over both files.
fn refused(
    alloc: Global,
    files: &mut MemFiles,
    sink: &mut MemSink,
) -> Result<Option<RunRefused>, Fail> {
    let paths = texts(alloc, "1.csv", "2.csv")?;
    refused_at(alloc, &paths, files, sink)
}

#[test]
fn nothing_is_written_where_a_file_is_absent(rt: HostRuntime) -> Result<(), Fail> {
    let alloc = rt.alloc();
    let mut files = files_of(&rt, alloc, false)?;
    let mut sink = MemSink::new(alloc, Vec::new(alloc));
    let refused = refused(alloc, &mut files, &mut sink)?;
    assert!(rt; refused == Some(RunRefused::Missing { file: 1 }));
    assert!(rt; sink.bytes().is_empty());
    assert_eq!(rt; files.faults(), 0);
    Ok(())
}

#[test]
fn the_first_file_is_written_where_the_second_fails(rt: HostRuntime) -> Result<(), Fail> {
    let alloc = rt.alloc();
    let mut files = files_of(&rt, alloc, true)?;
    let mut sink = MemSink::new(alloc, Vec::new(alloc));
    let refused = refused(alloc, &mut files, &mut sink)?;
    assert!(rt; refused == Some(RunRefused::Read));
    assert!(rt; sink.bytes() == b"p,q\n1,x\n".as_slice());
    assert_eq!(rt; files.faults(), 1);
    Ok(())
}
