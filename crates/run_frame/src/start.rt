//! The parts of a run before its first entry.

ghost use Rattle.std.specs.Prelude.{◌≡◌, ℕ, ◌+◌, ◌<◌, true, [], Some, length, map, slice_index_or, OnOk, IfOk};
ghost use Rattle.task_shape.specs.Numbers.{count};
ghost use Rattle.gate_channels.specs.Group.{opened_gate};
ghost use Rattle.task_shape.specs.Shape.{IsShape, has};
ghost use Rattle.core_frame.specs.Frame.{tabulate};
ghost use Rattle.run_frame.specs.Running.{AllAre};
ghost use Rattle.run_frame.specs.Counts.{CountsSenders, CountsAt, CountsTask, zeros_for};

use crate::shape::{Shape, TaskShape};
use dfx_value::NoMemory;
use gate_channels::{Group, Woken};
use std::alloc::Global;

// The number, where it fits.
pub fn small(count: usize) -> Result<u32, NoMemory>
    ensures { IfOk result (λ n. n ≡ count) }
{
    match u32::try_from(count) {
        Ok(small) => Ok(small),
        Err(_) => Err(NoMemory),
    }
}

// The next number, where it fits.
fn one_more(count: u32) -> Result<u32, NoMemory>
    ensures { IfOk result (λ n. n ≡ count + 1) }
{
    match count.checked_add(1) {
        Some(more) => Ok(more),
        None => Err(NoMemory),
    }
}

// Counts one sender more for each target.
fn count_targets(senders: &mut Vec<u32>, targets: &[u32]) -> Result<(), NoMemory>
    requires inside { (c : ℕ) → has targets.now c ≡ true → c < length senders.old.items }

    ensures long { length senders.new.items ≡ length senders.old.items }
    ensures counts { OnOk result ((c : ℕ) → c < length senders.old.items
        → slice_index_or senders.new.items c 0
        ≡ slice_index_or senders.old.items c 0 + count c targets.now) }
{
    for target in targets {
        let at = *target as usize;
        let sum = one_more(senders[at])?;
        senders[at] = sum;
    }
    Ok(())
}

// Counts one sender more for each target, a channel of the group.
fn count_in(senders: &mut Vec<Vec<u32>>, at: usize, targets: &[u32]) -> Result<(), NoMemory>
    requires inside { (c : ℕ) → has targets.now c ≡ true
        → at < length senders.old.items
        → c < length (slice_index_or (map (λ s. s.items) senders.old.items) at []) }

    ensures { OnOk result (CountsAt at targets.now
        (map (λ s. s.items) senders.old.items) (map (λ s. s.items) senders.new.items)) }
{
    if at < senders.len() {
        count_targets(&mut senders[at], targets)
    } else {
        Ok(())
    }
}

// Counts the task as a sender to each of its targets.
fn count_task(senders: &mut Vec<Vec<u32>>, task: &TaskShape) -> Result<(), NoMemory>
    requires inside { (g c : ℕ) → task.now.sends ≡ Some g → has task.now.targets c ≡ true
        → g < length senders.old.items
        → c < length (slice_index_or (map (λ s. s.items) senders.old.items) g []) }

    ensures { OnOk result (CountsTask task.now.sends task.now.targets
        (map (λ s. s.items) senders.old.items) (map (λ s. s.items) senders.new.items)) }
{
    match task.sends {
        Some(group) => count_in(senders, group as usize, task.targets.as_slice()),
        None => Ok(()),
    }
}

// A count of no senders for each channel of each group.
fn no_senders(alloc: Global, widths: &[u32]) -> Result<Vec<Vec<u32>>, NoMemory>
    ensures { IfOk result (λ senders. map (λ s. s.items) senders.items ≡ zeros_for widths.now) }
{
    let mut senders = Vec::with_capacity(alloc, widths.len())?;
    for width in widths {
        senders.push(vec![in alloc; 0u32; *width as usize]?)?;
    }
    Ok(senders)
}

// For each group, how many tasks may send to each of its channels.
pub fn count_senders(alloc: Global, shape: &Shape) -> Result<Vec<Vec<u32>>, NoMemory>
    requires plan { IsShape shape.now }
    ensures { IfOk result (λ senders.
        CountsSenders shape.now (length shape.now.tasks) (map (λ s. s.items) senders.items)) }
{
    let mut senders = no_senders(alloc, shape.widths.as_slice())?;
    let tasks = shape.tasks.as_slice();
    for task in tasks {
        count_task(&mut senders, task)?;
    }
    Ok(senders)
}

// A group for each list of numbers of senders.
pub fn open_groups<B>(
    alloc: Global,
    senders: &[Vec<u32>],
    tasks: u32,
) -> Result<Vec<Group<B>>, NoMemory>
where
    B: Drop,
    ensures gates { IfOk result (λ groups.
        map (λ g. g.gate) groups.items ≡ map (λ s. opened_gate s.items) senders.now) }
    ensures rooms { IfOk result (λ groups. AllAre tasks (map (λ g. g.room) groups.items)) }
{
    let mut groups = Vec::with_capacity(alloc, senders.len())?;
    for counts in senders {
        groups.push(Group::new(alloc, counts, tasks)?)?;
    }
    Ok(groups)
}

// A queue of all tasks, in order.
pub fn all_woken(alloc: Global, tasks: u32) -> Result<Woken, NoMemory>
    ensures tasks { IfOk result (λ woken. woken.tasks ≡ tabulate tasks (λ t. t)) }
    ensures room { IfOk result (λ woken. woken.room ≡ tasks) }
{
    let mut woken = Woken::new(alloc, tasks)?;
    for task in 0..tasks {
        woken.push(task);
    }
    Ok(woken)
}
