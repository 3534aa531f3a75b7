//! The files of a scan's partition.

ghost use Rattle.std.specs.Prelude.{◌≡◌, ◌<◌, IfOk};
ghost use Rattle.task_plans.specs.Dealt.{dealt};

use crate::numbers::sum_of;
use crate::station::ScanFile;
use dfx_value::NoMemory;
use sqlite_items::Items;
use std::alloc::Global;

/// The files of one partition of so many: its own number, then every so many further on. A partition that there isn't has none.
pub(crate) fn dealt_files(
    alloc: Global,
    source: u32,
    files: u32,
    partitions: u32,
    partition: u32,
) -> Result<Items<ScanFile>, NoMemory>
    ensures { partition < partitions
        → IfOk result (λ all. all ≡ dealt source files partitions partition) }
{
    let mut all = Items::new(alloc);
    if partition >= partitions {
        return Ok(all);
    }
    let mut number = partition;
    while number < files {
        let source = sum_of(source, number)?;
        all.push(ScanFile { number, source })?;
        number = number.saturating_add(partitions);
    }
    Ok(all)
}
