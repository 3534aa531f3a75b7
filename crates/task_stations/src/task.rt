//! Tasks: what the top station gives is written, or cut into parts that are sent one after the other.

ghost use Rattle.std.specs.Prelude.{◌≡◌, ◌+◌, ◌++◌, ◌≤◌, ◌<◌, ◌||◌, ℕ, List, [], ◌∷◌, Option, Some, Err, IfOk, OnOk, IfSome, IfNone, false, map, drop};
ghost use Rattle.dfx_value.specs.Items.{Cells};
ghost use Rattle.dfx_outside.specs.Causes.{Rose};
ghost use Rattle.dfx_outside.specs.declared.source.OutsideRefused.TheVariants as outside;
ghost use Rattle.tree_laws.specs.Tasks.{Split};
ghost use Rattle.task_stations.specs.Lines.{Line, Header, Row as RowLine};
ghost use Rattle.task_stations.specs.Stands.{reply_of};
ghost use Rattle.task_stations.specs.Turns.{parts_of, parts_left, IsExit, Took};
ghost use Rattle.task_stations.specs.Clauses.{KeepsNames};
ghost use Rattle.task_stations.specs.TaskClauses.{Heads, TopTurns, Turns, Advances, Answers, Drops, TurnAsksOwn, TaskAsksOwn};

use crate::needs::{Answer, Need, Step, StepRefused};
use crate::operator::Operator;
use crate::scan::RowFile;
use crate::station::Station;
use crate::steps::{reply, step};
use column_batch::Batch;
use dfx_outside::OutsideRefused;
use dfx_value::NoMemory;
use std::alloc::Global;

/// A batch for a channel.
#[derive(Drop)]
pub struct Part {
    pub channel: u32,
    pub batch: Batch,
}

/// How batches go to channels: by hash, in turn, or all to one.
pub trait Splitter: Drop {
    /// It splits so, and has cut so many batches.
    ghost cuts: { Self → Split → ℕ → Type 0 };

    /// The parts of the next batch.
    fn cut(&mut self, alloc: Global, batch: Batch) -> Result<Vec<Part>, NoMemory>
        ensures { (f : Split) (n : ℕ) → cuts self.old f n
            → IfOk result (λ parts. (parts_of parts.items ≡ f n batch.rows)
            × cuts self.new f (n + 1)) };
}

/// Where the answer is written.
pub trait RowSink: Drop {
    /// The lines that were written, where the sink tells them.
    ghost lines: { Self → Option (List Line) };

    /// How often the device failed. It never falls.
    ghost faults: { Self → ℕ };

    /// Writes the header.
    fn head(&mut self) -> Result<(), OutsideRefused>
        ensures lines { (ls : List Line) → lines self.old ≡ Some ls
            → OnOk result (lines self.new ≡ Some (ls ++ Header ∷ [])) }
        ensures later { faults self.old ≤ faults self.new }
        ensures failed { result ≡ Err outside.Failed → Rose (faults self.old) (faults self.new) };

    /// Writes a line for each row.
    fn write(&mut self, batch: &Batch) -> Result<(), OutsideRefused>
        ensures lines { (ls : List Line) → lines self.old ≡ Some ls
            → OnOk result (lines self.new ≡ Some (ls ++ map RowLine batch.now.rows)) }
        ensures later { faults self.old ≤ faults self.new }
        ensures failed { result ≡ Err outside.Failed → Rose (faults self.old) (faults self.new) };
}

/// Where a task's batches go.
#[derive(Drop)]
pub enum Exit<C, S> {
    /// Their parts go to channels.
    Splits(C),
    /// They are written.
    Writes(S),
}

/// What became of a batch.
#[derive(Drop)]
enum Put {
    Cut(Vec<Part>),
    Written,
}

/// What a task asks.
#[derive(Drop)]
pub enum Ask {
    /// What its stations need.
    Of(Need),
    /// To send this batch to the channel.
    Send { channel: u32, batch: Batch },
    /// To write: it is done already.
    Writes,
    /// To end.
    Finish,
}

/// A task.
#[derive(Drop)]
pub struct Task<T, F, C, S> {
    /// Those of its tree.
    pub stations: Vec<Station<T, F>>,
    /// Where their batches go.
    pub exit: Exit<C, S>,
    /// The header is still to be written.
    pub header: bool,
    /// The parts that are still to be sent. The last is the next.
    pub parts: Vec<Part>,
    /// Nobody receives from any channel of its group.
    pub leaving: bool,
}

/// The same, of the sink.
fn write_refused(refused: OutsideRefused) -> StepRefused {
    match refused {
        OutsideRefused::Failed => StepRefused::Write,
        OutsideRefused::NoMemory => StepRefused::NoMemory,
    }
}

/// The header is written, where the rows are.
fn write_head<C: Splitter, S: RowSink>(exit: &mut Exit<C, S>) -> Result<(), StepRefused>
    ensures { Heads C.cuts S.lines exit.old exit.new result }
{
    match exit {
        Exit::Splits(_) => Ok(()),
        Exit::Writes(sink) => match sink.head() {
            Ok(()) => Ok(()),
            Err(refused) => Err(write_refused(refused)),
        },
    }
}

/// The rows of a batch are written.
fn write_rows<S: RowSink>(sink: &mut S, batch: &Batch) -> Result<(), StepRefused>
    ensures { (ls : List Line) → S.lines sink.old ≡ Some ls
        → OnOk result (S.lines sink.new ≡ Some (ls ++ map RowLine batch.now.rows)) }
{
    match sink.write(batch) {
        Ok(()) => Ok(()),
        Err(refused) => Err(write_refused(refused)),
    }
}

/// A batch is cut into parts, or written.
fn put_out<C: Splitter, S: RowSink>(
    exit: &mut Exit<C, S>,
    alloc: Global,
    batch: Batch,
) -> Result<Put, StepRefused>
    ensures { (first : List Line) (o : Option Split) (n : ℕ) (output : List Cells)
        → IsExit C.cuts S.lines first exit.old o false n output
        → IfOk result (Took C.cuts S.lines first exit.new o n output batch.rows) }
{
    match exit {
        Exit::Splits(splitter) => {
            let parts = splitter.cut(alloc, batch)?;
            Ok(Put::Cut(parts))
        }
        Exit::Writes(sink) => {
            write_rows(sink, &batch)?;
            Ok(Put::Written)
        }
    }
}

/// Parts in the other order.
#[tactic(auto, using(crate::proofs::Parts::turned_left))]
fn turned(parts: Vec<Part>) -> Vec<Part>
    ensures { parts_left result.items ≡ parts_of parts.items }
{
    let mut parts = parts;
    parts.reverse();
    parts
}

/// Takes out the next part.
#[tactic(auto, using(crate::proofs::Parts::last_left))]
fn next_part(parts: &mut Vec<Part>) -> Option<Part>
    ensures some { IfSome result (λ part. parts_left parts.old.items
        ≡ (part.channel, part.batch.rows) ∷ parts_left parts.new.items) }
    ensures none { IfNone result (parts_left parts.old.items ≡ []) }
    ensures left { IfNone result (parts_left parts.new.items ≡ []) }
{
    parts.pop()
}

/// What a task does whose header is written and whose parts are sent: its stations make a step.
fn tree_turn<T: Operator, F: RowFile, C: Splitter, S: RowSink>(
    task: &mut Task<T, F, C, S>,
    alloc: Global,
    most: u32,
) -> Result<Option<Ask>, StepRefused>
    requires { 0 < most }

    ensures is { TopTurns C.cuts S.lines T.stands F.source F.left most task.old task.new result }
    ensures own { TurnAsksOwn task.old task.new result }
{
    match step(task.stations.as_mut_slice(), alloc, most)? {
        Step::Gives(batch) => {
            match put_out(&mut task.exit, alloc, batch)? {
                Put::Cut(parts) => {
                    task.parts = turned(parts);
                    Ok(None)
                }
                Put::Written => Ok(Some(Ask::Writes)),
            }
        }
        Step::Ends => Ok(Some(Ask::Finish)),
        Step::Moves => Ok(None),
        Step::Asks(need) => Ok(Some(Ask::Of(need))),
    }
}

/// What the task does next: a step by itself, or what it asks.
pub fn turn<T: Operator, F: RowFile, C: Splitter, S: RowSink>(
    task: &mut Task<T, F, C, S>,
    alloc: Global,
    most: u32,
) -> Result<Option<Ask>, StepRefused>
    requires { 0 < most }

    ensures is { Turns C.cuts S.lines T.stands F.source F.left most task.old task.new result }
    ensures own { TurnAsksOwn task.old task.new result }
{
    if task.header {
        write_head(&mut task.exit)?;
        task.header = false;
        return Ok(Some(Ask::Writes));
    }
    if task.leaving {
        return Ok(Some(Ask::Finish));
    }
    if let Some(Part { channel, batch }) = next_part(&mut task.parts) {
        return Ok(Some(Ask::Send { channel, batch }));
    }
    tree_turn(task, alloc, most)
}

/// The stations are answered what they need. A task that asks for something else needs no reply but `refuse`: it
/// stands already for what it is after it has sent, written or ended.
pub fn reply_need<T: Operator, F: RowFile, C: Splitter, S: RowSink>(
    task: &mut Task<T, F, C, S>,
    alloc: Global,
    need: &Need,
    answer: Answer,
) -> Result<(), StepRefused>
    ensures is { Answers C.cuts S.lines T.stands F.source F.left task.old task.new
        need.now (reply_of answer) result }
    ensures own { KeepsNames task.old.stations.items task.new.stations.items }
{
    reply(task.stations.as_mut_slice(), alloc, need, answer)
}

/// Nobody receives from the channel to which the task was to send; last: nor from any of its group.
pub fn refuse<T: Operator, F: RowFile, C: Splitter, S: RowSink>(
    task: &mut Task<T, F, C, S>,
    last: bool,
)
    ensures is { Drops C.cuts S.lines T.stands F.source F.left task.old task.new last }
    ensures same { task.new.stations.items ≡ task.old.stations.items }
{
    task.leaving = either(task.leaving, last);
}

fn either(a: bool, b: bool) -> bool
    ensures { result ≡ (a || b) }
{
    a || b
}

/// Turns until something is needed. After 2^64 - 1 turns it gives up, as for want of memory.
pub fn advance<T: Operator, F: RowFile, C: Splitter, S: RowSink>(
    task: &mut Task<T, F, C, S>,
    alloc: Global,
    most: u32,
) -> Result<Ask, StepRefused>
    requires { 0 < most }

    ensures is { Advances C.cuts S.lines T.stands F.source F.left most task.old task.new result }
    ensures own { TaskAsksOwn task.old task.new result }
{
    let mut turns: u64 = 0;
    while turns < u64::MAX {
        match turn(task, alloc, most)? {
            Some(ask) => return Ok(ask),
            None => turns += 1,
        }
    }
    Err(StepRefused::NoMemory)
}
