//! A gate that notes with which tasks each worker passed.

use dfx_outside::KernelGate;
use run_journal::EntryKind;
use std::alloc::{AllocError, Global};
use std::sync::atomic::{AtomicU64, Ordering};
use turn_cell::Act;

#[derive(Drop)]
struct Row {
    count: AtomicU64,
    tasks: Vec<AtomicU64>,
}

#[derive(Drop)]
pub(crate) struct Notes {
    rows: Vec<Row>,
}

fn empty_row(alloc: Global, room: u32) -> Result<Row, AllocError> {
    let mut tasks = Vec::new(alloc);
    for _ in 0..room {
        tasks.push(AtomicU64::new(0))?;
    }
    Ok(Row {
        count: AtomicU64::new(0),
        tasks,
    })
}

impl Notes {
    pub(crate) fn new(alloc: Global, workers: u32, room: u32) -> Result<Notes, AllocError> {
        let mut rows = Vec::new(alloc);
        for _ in 0..workers {
            rows.push(empty_row(alloc, room)?)?;
        }
        Ok(Notes { rows })
    }

    // The acts of each worker but its claims are about the tasks that it noted, in that order.
    pub(crate) fn match_acts(&self, log: &[Act]) -> bool {
        self.rows
            .iter()
            .enumerate()
            .all(|(worker, row)| row.matches_acts(log, worker as u64))
    }
}

impl Row {
    fn matches_acts(&self, log: &[Act], worker: u64) -> bool {
        let mut next = 0;
        for act in log {
            if act.worker() as u64 == worker && !is_claim(act) {
                match self.tasks.get(next) {
                    Some(task) => {
                        if task.load(Ordering::SeqCst) != act.task() as u64 {
                            return false;
                        }
                        next += 1;
                    }
                    None => return false,
                }
            }
        }
        self.count.load(Ordering::SeqCst) == next as u64
    }
}

pub(crate) fn is_claim(act: &Act) -> bool {
    match act {
        Act::Made(entry) => matches!(entry.kind, EntryKind::Claimed),
        Act::Returned { worker: _, task: _ } => false,
    }
}

impl KernelGate for Notes {
    fn enter(&self, worker: u32, task: u32) {
        let Some(row) = self.rows.get(worker as usize) else {
            return;
        };
        let at = row.count.fetch_add(1, Ordering::SeqCst);
        if let Some(place) = row.tasks.get(at as usize) {
            place.store(task as u64, Ordering::SeqCst);
        }
    }

    fn leave(&self, _worker: u32, _task: u32) {}
}
