//! Scans: a step reads one batch of the current file, which stands ready until the need Scan is answered.

ghost use Rattle.std.specs.Prelude.{Bool, true, ◌≡◌, ◌≤◌, ◌+◌, ◌<◌, ℕ, List, Option, Some, None, Err, IfOk, length};
ghost use Rattle.dfx_value.specs.Items.{Cells, Item};
ghost use Rattle.dfx_outside.specs.Causes.{Rose};
ghost use Rattle.dfx_outside.specs.declared.source.OutsideRefused.TheVariants as outside;
ghost use Rattle.history_laws.specs.Histories.{Reply};
ghost use Rattle.tree_laws.specs.Trees.{Tree, cause_at, poll};
ghost use Rattle.task_stations.specs.declared.needs.StepRefused.TheVariants as refused;
ghost use Rattle.task_stations.specs.Scans.{IsNext, IsScan, IsReadyScan};
ghost use Rattle.task_stations.specs.Stands.{StepIs, Replied, need_of};
ghost use Rattle.task_stations.specs.Names.{is_named};

use crate::needs::{Need, Step, StepRefused};
use crate::slots::take_rows;
use column_batch::Batch;
use dfx_outside::OutsideRefused;
use dfx_value::ItemFault;
use run_journal::Cause;
use std::alloc::Global;

/// What a file gives.
#[derive(Drop)]
pub enum Next {
    /// Its next rows.
    Rows(Batch),
    /// Why it is refused.
    Refused(ItemFault),
}

/// An opened file of rows.
pub trait RowFile: Drop {
    /// The number of its source.
    ghost source: { Self → ℕ };

    /// The items that it has left, where it tells them.
    ghost left: { Self → Option (List Item) };

    /// How often its source failed. It never falls.
    ghost faults: { Self → ℕ };

    /// The number of its source.
    fn number(&self) -> u32
        ensures { result ≡ source self.now };

    /// The next rows: `most` of them, or all that are left where they are fewer. A fault among them is told in
    /// place of the rows.
    fn next(&mut self, alloc: Global, most: u32) -> Result<Next, OutsideRefused>
        requires { 0 < most }

        ensures read { (items : List Item) → left self.old ≡ Some items
            → IfOk result (IsNext most items (left self.new)) }
        ensures same { source self.new ≡ source self.old }
        ensures later { faults self.old ≤ faults self.new }
        ensures failed { result ≡ Err outside.Failed → Rose (faults self.old) (faults self.new) };
}

/// A scan over files, one after the other.
#[derive(Drop)]
pub struct Scan<F> {
    pub files: Vec<F>,
    /// How many of the files are over.
    pub over: usize,
    /// A batch that is read, and not yet asked for.
    pub ready: Option<Batch>,
    /// A batch to give.
    pub unread: Option<Batch>,
}

/// Why a run fails at this fault, met while the source is read.
pub fn cause_of(source: u32, fault: ItemFault) -> Cause
    ensures { result ≡ cause_at source fault }
{
    match fault {
        ItemFault::Evaluation(fault) => Cause::Evaluation(fault),
        ItemFault::Csv {
            number,
            row,
            column,
            ..
        } => Cause::Csv {
            source,
            number,
            row,
            column,
        },
        ItemFault::Arrow {
            number,
            batch,
            column,
            place,
            ..
        } => Cause::Arrow {
            source,
            number,
            batch,
            column,
            place,
        },
    }
}

/// The next rows of a file, whose failures are those of reading.
fn read_next<F: RowFile>(file: &mut F, alloc: Global, most: u32) -> Result<Next, StepRefused>
    requires { 0 < most }

    ensures read { (items : List Item) → F.left file.old ≡ Some items
        → IfOk result (IsNext most items (F.left file.new)) }
    ensures same { F.source file.new ≡ F.source file.old }
    ensures later { F.faults file.old ≤ F.faults file.new }
    ensures failed { result ≡ Err refused.Read → Rose (F.faults file.old) (F.faults file.new) }
{
    match file.next(alloc, most) {
        Ok(next) => Ok(next),
        Err(OutsideRefused::Failed) => Err(StepRefused::Read),
        Err(OutsideRefused::NoMemory) => Err(StepRefused::NoMemory),
    }
}

/// A scan's step.
pub(crate) fn scan_step<F: RowFile>(
    scan: &mut Scan<F>,
    alloc: Global,
    most: u32,
) -> Result<Step, StepRefused>
    requires { 0 < most }

    ensures is { (t : Tree) → IsScan F.source F.left most scan.old t
        → IfOk result (StepIs (IsScan F.source F.left most scan.new)
        (IsReadyScan F.source F.left most scan.new) t (poll most t)) }
    ensures own { (r : ℕ → ℕ → Bool) (h : ℕ → Bool) → IfOk result (λ s. is_named r h s ≡ true) }
{
    if let Some(batch) = take_rows(&mut scan.unread) {
        return Ok(Step::Gives(batch));
    }
    if scan.ready.is_some() {
        return Ok(Step::Asks(Need::Scan));
    }
    if scan.over >= scan.files.len() {
        return Ok(Step::Ends);
    }
    let file = &mut scan.files[scan.over];
    match read_next(file, alloc, most)? {
        Next::Refused(fault) => {
            let source = file.number();
            Ok(Step::Asks(Need::Fail(cause_of(source, fault))))
        }
        Next::Rows(batch) => {
            if batch.rows() < most {
                scan.ready = Some(batch);
                scan.over += 1;
                return Ok(Step::Asks(Need::Scan));
            }
            scan.ready = Some(batch);
            Ok(Step::Asks(Need::Scan))
        }
    }
}

/// A scan is answered, after its batch was read.
pub(crate) fn scan_reply<F: RowFile>(scan: &mut Scan<F>, need: &Need)
    ensures { (most : ℕ) (t : Tree) (x : Reply (List Cells))
        → IsReadyScan F.source F.left most scan.old t
        → Replied (IsScan F.source F.left most scan.new) (need_of need.now) (poll most t) x }
{
    if let Some(batch) = scan.ready.take() {
        scan.unread = Some(batch);
    }
}
