//! That the text of a journal is made with ample memory. proofs/JournalExamples.antt has the causes of failures.
use dfx_value::Seq;
use run_journal::{Cause, Entry, EntryKind, Journal, journal_text};
use std::test::Fail;

#[test]
fn a_failed_scan(rt: HostRuntime) -> Result<(), Fail> {
    let cause = Cause::Csv {
        source: 1,
        number: 4,
        row: 2,
        column: 3,
    };
    let mut entries = Vec::new(rt.alloc());
    for kind in [EntryKind::Claimed, EntryKind::Failed(cause)] {
        entries.push(Entry {
            worker: 0,
            task: 0,
            kind,
        })?;
    }
    let journal = Journal {
        partitions: 4,
        batch: 8192,
        limit: 1_073_741_824,
        entries: Seq::from_vec(entries),
    };
    let text = journal_text(rt.alloc(), &journal)?;
    let lines = "dfx-journal 1 partitions=4 batch=8192 limit=1073741824\n\
         0 0 claimed\n0 0 failed csv 1 4 2 3\n";
    assert_eq!(rt; text.as_slice(), lines.as_bytes());
    Ok(())
}
